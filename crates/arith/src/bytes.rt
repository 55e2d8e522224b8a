// Signed numbers in a slice, four bytes each, lowest first.
ghost use Rattle.std.specs.Prelude.{◌≡◌, ◌+◌, ◌≤◌, length};
ghost use Rattle.semantics.specs.Bytes.{u32, le_bytes};
ghost use Rattle.semantics.specs.Signed.{signed, residue};
ghost use Rattle.words.specs.Splice.{splice};

use crate::bits::{from_bits, to_bits};
use words::bytes::{put_u32, u32_at};

// The number at a place.
pub fn i32_at(s: &[u8], at: usize) -> i32
    requires { at + 4 ≤ length s.now }
    ensures { result ≡ signed (u32 s.now at) }
{
    from_bits(u32_at(s, at))
}

// The four bytes of a number from a place on.
pub fn put_i32(s: &mut [u8], at: usize, v: i32)
    requires { at + 4 ≤ length s.old }
    ensures { s.new ≡ splice s.old at (le_bytes 4 (residue v)) }
{
    put_u32(s, at, to_bits(v));
}
