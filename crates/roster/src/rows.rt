// The passes over the roster, a lent slice of records.
ghost use Rattle.std.specs.Prelude.{◌≡◌, map};
ghost use Rattle.roster.specs.Scan.{scanned, moved_on};

use crate::record;
use crate::record::{Lane, Scan};

// Reads the roster.
#[tactic(auto, unfolding(crate::specs::Scan::scan_to))]
pub fn scan(roster: &[Lane]) -> Scan
    ensures { result ≡ scanned roster.now }
{
    let mut s = Scan {
        counted: true,
        longest: None,
    };
    for (i, a) in roster.iter().enumerate() {
        s = record::step(s, i, *a);
    }
    s
}

// Moves the waits on after a turn of the lane given, or of none.
pub fn grow(roster: &mut [Lane], turn: Option<u8>)
    ensures { roster.new ≡ map (moved_on turn) roster.old }
{
    for a in roster.iter_mut() {
        *a = record::after(*a, turn);
    }
}
