// The rank test.
ghost use Rattle.std.specs.Prelude.{◌≡◌, ◌<◌};
ghost use Rattle.semantics.specs.Plan.{interactions, below};
ghost use Rattle.layout.specs.Laid.{Laid};

use layout::records::rank_row;
use words::bits;

// Whether interaction i lies below j: bit j of row i, by a shift and a mask of the row as a word of 64 bits.
pub fn lies_below(plan: &[u8], i: usize, j: usize) -> bool
    requires { Laid plan.now × (i < interactions plan.now) × (j < interactions plan.now) }
    ensures { result ≡ below plan.now i j }
{
    bits::bit(rank_row(plan, i), j)
}
