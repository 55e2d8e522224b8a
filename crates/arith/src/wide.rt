// Exact results of signed 32-bit numbers, in 64 bits.
ghost use Rattle.std.specs.Prelude.{◌≡◌, pos, ◌+ℤ◌, ◌-ℤ◌, ◌*ℤ◌};

// The exact sum.
pub fn wide_add(a: i32, b: i32) -> i64
    ensures { result ≡ a +ℤ b }
{
    i64::from(a) + i64::from(b)
}

// The exact difference.
pub fn wide_sub(a: i32, b: i32) -> i64
    ensures { result ≡ a -ℤ b }
{
    i64::from(a) - i64::from(b)
}

// `top` times 4096 plus `n`, exactly.
pub fn wide_extend(top: i32, n: u16) -> i64
    ensures { result ≡ top *ℤ pos 4096 +ℤ pos n }
{
    i64::from(top) * 4096 + i64::from(n)
}
