// The places of an image.
ghost use Rattle.std.specs.Prelude.{◌≡◌, ◌+◌, ◌≤◌, ◌<◌};
ghost use Rattle.semantics.specs.Plan.{max_variables};
ghost use Rattle.semantics.specs.Image.{image_length, value_place};

// The length of an image.
pub const LENGTH: usize = 312;

// The bytes of an image.
pub type Image = [u8; LENGTH];

// What the head holds after the letters: form, counts, the oracles' states, the plan's number.
pub const FORM: usize = 4;

pub const COMPONENTS: usize = 5;

pub const VARIABLES: usize = 6;

pub const INTERACTIONS: usize = 7;

pub const ORACLES: usize = 8;

pub const PLAN_NUMBER: usize = 12;

// The marks, then what the run's record holds.
pub const MARKS: usize = 16;

pub const LOCATIONS: usize = 24;

pub const LAST_PORTS: usize = 40;

const VALUES: usize = 56;

// Where the value of variable v stands.
pub fn value_at(v: usize) -> usize
    requires { v < max_variables }
    ensures { (result ≡ value_place v) × (result + 4 ≤ image_length) }
{
    VALUES + 4 * v
}
