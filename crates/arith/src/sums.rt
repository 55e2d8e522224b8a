// Sum, difference and extension in signed 32 bits: exact in 64 bits, then held once at the ends.
ghost use Rattle.std.specs.Prelude.{◌≡◌};
ghost use Rattle.semantics.specs.Signed.{saturate, add, subtract, extend};

use crate::wide::{wide_add, wide_extend, wide_sub};

// An exact result held at the ends of signed 32 bits: the one place where it is cut to size.
// Not i32::saturating_add, which takes ten instructions where this sum takes five; written out, since lower_end_late.edit and two more turn each end.
#[tactic(auto, unfolding(semantics::specs::Signed::saturate))]
fn saturate(s: i64) -> i32
    ensures { result ≡ saturate s }
{
    if s < -2147483648 {
        -2147483648
    } else if 2147483647 < s {
        2147483647
    } else {
        // between the ends `as` keeps it
        s as i32
    }
}

// Operator 0.
#[tactic(auto, using(crate::proofs::Signed32::back32), unfolding(semantics::specs::Signed::add))]
pub fn add(a: i32, b: i32) -> i32
    ensures { result ≡ add a b }
{
    saturate(wide_add(a, b))
}

// Operator 1.
#[tactic(auto, using(crate::proofs::Signed32::back32), unfolding(semantics::specs::Signed::subtract))]
pub fn subtract(a: i32, b: i32) -> i32
    ensures { result ≡ subtract a b }
{
    saturate(wide_sub(a, b))
}

// Kind 1: `top` times 4096 plus `n`.
#[tactic(auto, using(crate::proofs::Signed32::back32), unfolding(semantics::specs::Signed::extend))]
pub fn extend(top: i32, n: u16) -> i32
    ensures { result ≡ extend top n }
{
    saturate(wide_extend(top, n))
}
