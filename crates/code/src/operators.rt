// The operators.
#![tactic(auto, using(arith::proofs::Signed32::back32))]

ghost use Rattle.std.specs.Prelude.{◌≡◌, ◌<◌};
ghost use Rattle.semantics.specs.Code.{operate};

use arith::{sums, tests};

// What operator n, any but `not`, 6, makes of the value below the top and the top. A tree of matches, as in eval::read.
#[tactic(auto, using(arith::proofs::Signed32::back32), unfolding(semantics::specs::Code::operate, semantics::specs::Bytes::implies))]
pub fn operated(n: u16, left: i32, right: i32) -> i32
    requires { (n < 8) × (n ≡ 6 → ⊥) }
    ensures { result ≡ operate n left right }
{
    match n {
        0..=1 => match n {
            0 => sums::add(left, right),
            _ => sums::subtract(left, right),
        },
        2..=3 => match n {
            2 => tests::truth(tests::equal(left, right)),
            _ => tests::truth(tests::at_least(left, right)),
        },
        _ => match n {
            4 => tests::truth(tests::holds(left) & tests::holds(right)),
            5 => tests::truth(tests::holds(left) | tests::holds(right)),
            _ => tests::truth(!tests::holds(left) | tests::holds(right)),
        },
    }
}
