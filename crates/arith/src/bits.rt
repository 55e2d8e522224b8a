// A signed number and the 32 bits that store it.
ghost use Rattle.std.specs.Prelude.{◌≡◌};
ghost use Rattle.semantics.specs.Signed.{signed, residue};

// The number that 32 bits denote.
#[tactic(auto, unfolding(semantics::specs::Signed::signed))]
pub fn from_bits(u: u32) -> i32
    ensures { result ≡ signed u }
{
    u.cast_signed()
}

// The 32 bits that store a number.
#[tactic(auto, using(crate::proofs::Signed32::residue_of_z), unfolding(semantics::specs::Signed::residue))]
pub fn to_bits(v: i32) -> u32
    ensures { result ≡ residue v }
{
    v.cast_unsigned()
}
