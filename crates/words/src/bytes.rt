// Bytes of a slice to 16, 32 and 64 bits, lowest first, and back.
ghost use Rattle.std.specs.Prelude.{◌≡◌, [], ◌∷◌, ◌+◌, ◌≤◌, ◌<◌, length, eqb};
ghost use Rattle.semantics.specs.Bytes.{byte, u16, u32, u64, le_bytes, all_of};
ghost use Rattle.words.specs.Splice.{splice};

// Sixteen bits at a place. One name for each width: each has its own definition.
#[tactic(auto, unfolding(semantics::specs::Bytes::u16))]
pub fn u16_at(s: &[u8], at: usize) -> u16
    requires { at + 2 ≤ length s.now }
    ensures { result ≡ u16 s.now at }
{
    u16::from_le_bytes([s[at], s[at + 1]])
}

// The same as a count or a place.
pub fn field(s: &[u8], at: usize) -> usize
    requires { at + 2 ≤ length s.now }
    ensures { (result ≡ u16 s.now at) × (result < 65536) }
{
    usize::from(u16_at(s, at))
}

// Thirty-two bits at a place.
#[tactic(auto, unfolding(semantics::specs::Bytes::u32))]
pub fn u32_at(s: &[u8], at: usize) -> u32
    requires { at + 4 ≤ length s.now }
    ensures { result ≡ u32 s.now at }
{
    u32::from_le_bytes([s[at], s[at + 1], s[at + 2], s[at + 3]])
}

// Sixty-four bits at a place.
#[tactic(auto, unfolding(semantics::specs::Bytes::u64, semantics::specs::Bytes::u32))]
pub fn u64_at(s: &[u8], at: usize) -> u64
    requires { at + 8 ≤ length s.now }
    ensures { result ≡ u64 s.now at }
{
    u64::from_le_bytes([
        s[at],
        s[at + 1],
        s[at + 2],
        s[at + 3],
        s[at + 4],
        s[at + 5],
        s[at + 6],
        s[at + 7],
    ])
}

// Writes x as four bytes from a place on. Apart from put_u64: std has no trait with to_le_bytes, and one of our own with two impls is no plainer.
#[tactic(auto, unfolding(semantics::specs::Bytes::le_bytes))]
pub fn put_u32(s: &mut [u8], at: usize, x: u32)
    requires { at + 4 ≤ length s.old }
    ensures { s.new ≡ splice s.old at (le_bytes 4 x) }
{
    put_bytes(s, at, &x.to_le_bytes());
}

// Writes x as eight bytes from a place on.
#[tactic(auto, unfolding(semantics::specs::Bytes::le_bytes))]
pub fn put_u64(s: &mut [u8], at: usize, x: u64)
    requires { at + 8 ≤ length s.old }
    ensures { s.new ≡ splice s.old at (le_bytes 8 x) }
{
    put_bytes(s, at, &x.to_le_bytes());
}

// Writes the bytes of src from a place on.
#[tactic(auto, unfolding(crate::specs::Splice::splice))]
pub fn put_bytes(s: &mut [u8], at: usize, src: &[u8])
    requires { at + length src.now ≤ length s.old }
    ensures { s.new ≡ splice s.old at src.now }
{
    s[at..at + src.len()].copy_from_slice(src);
}

// Whether the first four bytes are those of the tag.
pub fn tagged(s: &[u8], tag: &[u8; 4]) -> bool
    requires { 4 ≤ length s.now }
    ensures { result
        ≡ all_of (eqb (byte s.now 0) (byte tag.now 0)
        ∷ eqb (byte s.now 1) (byte tag.now 1)
        ∷ eqb (byte s.now 2) (byte tag.now 2)
        ∷ eqb (byte s.now 3) (byte tag.now 3) ∷ []) }
{
    s.starts_with(tag)
}
