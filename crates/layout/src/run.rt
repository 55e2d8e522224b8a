// The run record, which an image holds and a move changes.
ghost use Rattle.std.specs.Prelude.{◌≡◌, length};

// The state of the components: each one's location and last port, and the variables. Three arrays, as 01 names them and an image has them.
#[derive(Clone, Copy)]
pub struct RunState {
    pub locations: [u8; 16],
    pub last_ports: [u8; 16],
    pub values: [i32; 64],
    pub ghost locations_long: { length locations ≡ 16 },
    pub ghost ports_long: { length last_ports ≡ 16 },
    pub ghost values_long: { length values ≡ 64 },
}

// Where a run stands: the components' state, the oracles' states, the moves crossed off.
#[derive(Clone, Copy)]
pub struct Run {
    pub state: RunState,
    pub oracles: [u8; 4],
    pub marks: u64,
}
