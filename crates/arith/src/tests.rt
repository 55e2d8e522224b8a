// Tests of signed 32-bit numbers, and a test's answer as a number: each a method of the language under the name that the definitions have, which proofs cite.
ghost use Rattle.std.specs.Prelude.{◌≡◌};
ghost use Rattle.semantics.specs.Signed.{equal_z, at_least, holds, truth};

// The two are the same number.
#[tactic(auto, using(crate::proofs::Signed32::same_bits))]
pub fn equal(a: i32, b: i32) -> bool
    ensures { result ≡ equal_z a b }
{
    a == b
}

// The first is not less than the second.
#[tactic(auto, using(crate::proofs::Signed32::back32), unfolding(semantics::specs::Signed::at_least))]
pub fn at_least(a: i32, b: i32) -> bool
    ensures { result ≡ at_least a b }
{
    a >= b
}

// Any number but zero holds.
pub fn holds(v: i32) -> bool
    ensures { result ≡ holds v }
{
    v != 0
}

// 1 for a test that holds, 0 for one that does not.
#[tactic(auto, unfolding(semantics::specs::Signed::truth))]
pub fn truth(b: bool) -> i32
    ensures { result ≡ truth b }
{
    i32::from(b)
}
