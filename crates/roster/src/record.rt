// The rules on one lane's record, by value.
ghost use Rattle.std.specs.Prelude.{◌≡◌};
ghost use Rattle.roster.specs.Scan.{scan_step, moved_on};

// A lane's record: 4 bytes, no padding, every content valid. held: 0 is free, any other number held; wait: turns waited.
#[repr(C)]
#[derive(Clone, Copy)]
pub struct Lane {
    pub number: u8,
    pub held: u8,
    pub wait: u16,
}

// What a reading of the roster gives: whether the numbers run from 0, which 23 asks and which is no flag of the lane beside it, and the free lane that waited longest.
#[derive(Clone, Copy)]
pub struct Scan {
    pub counted: bool,
    pub longest: Option<Lane>,
}

// One record more is read, the one at place i: a free lane that waited longer than the one found so far takes its place.
#[tactic(auto, unfolding(crate::specs::Scan::scan_step))]
pub fn step(s: Scan, i: usize, a: Lane) -> Scan
    ensures { result ≡ scan_step s i a }
{
    let longer = match s.longest {
        None => true,
        Some(found) => found.wait < a.wait,
    };
    let free = a.held == 0;
    Scan {
        counted: s.counted & (usize::from(a.number) == i),
        longest: if free & longer { Some(a) } else { s.longest },
    }
}

// A lane's record after a turn of the lane given; as it was where the turn is no lane's.
#[tactic(auto, unfolding(crate::specs::Scan::moved_on, crate::specs::Roster::waited, crate::specs::Roster::longer))]
pub fn after(a: Lane, turn: Option<u8>) -> Lane
    ensures { result ≡ moved_on turn a }
{
    let Some(lane) = turn else {
        return a;
    };
    let wait = if a.number == lane {
        0
    } else {
        a.wait.saturating_add(1)
    };
    Lane { wait, ..a }
}
