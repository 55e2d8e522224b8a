// 64-bit masks: bit k stands for the number k. Loops over a mask take its lowest number off by turn and count no index: 01 names that form, trailing zeros.
ghost use Rattle.std.specs.Prelude.{◌≡◌, ℕ, ◌≤◌, ◌<◌, true, false, not, ◌&&◌, eqb, ltb};
ghost use Rattle.semantics.specs.Bytes.{bit, lowest, every, some_below, implies, with_bit};

// Whether bit k is set.
#[tactic(auto, using(crate::proofs::BitLaws::bit_test))]
pub fn bit(m: u64, k: usize) -> bool
    requires { k < 64 }
    ensures { result ≡ bit m k }
{
    (m >> k) & 1 == 1
}

// The mask with bit k set.
pub fn with_bit(m: u64, k: usize) -> u64
    requires { k < 64 }
    ensures { result ≡ with_bit m k }
{
    m | (1u64 << k)
}

// The lowest number in the mask. There is no From of u32 for usize.
#[tactic(auto, using(crate::proofs::BitLaws::trailing_lowest, crate::proofs::BitLaws::lowest_lt))]
pub fn lowest_bit(m: u64) -> usize
    requires { 0 < m }
    ensures { (result ≡ lowest 64 (bit m)) × (result < 64) }
{
    m.trailing_zeros() as usize
}

// The highest number in the mask.
pub fn highest_bit(m: u64) -> usize
    requires { 0 < m }
    ensures { (bit m result ≡ true) × ((j : ℕ) → result < j → bit m j ≡ false) × (result < 64) }
{
    m.ilog2() as usize
}

// The mask without its lowest number.
pub fn without_lowest(m: u64) -> u64
    requires { 0 < m }
    ensures { ((j : ℕ) → bit result j ≡ (bit m j && not (eqb j (lowest 64 (bit m))))) × (result < m) }
{
    m & (m - 1)
}

// The numbers of a that are not in b.
pub fn without(a: u64, b: u64) -> u64
    ensures { ((j : ℕ) → bit result j ≡ (bit a j && not (bit b j))) × (result ≤ a) }
{
    a & !b
}

// Whether some number is in both.
pub fn meets(a: u64, b: u64) -> bool
    ensures { result ≡ some_below 64 (λ j. bit a j && bit b j) }
{
    a & b != 0
}

// Whether each number in a is in b.
pub fn inside(a: u64, b: u64) -> bool
    ensures { result ≡ every 64 (λ j. implies (bit a j) (bit b j)) }
{
    a & !b == 0
}

// The mask of all numbers below n.
pub fn first_bits(n: usize) -> u64
    requires { n ≤ 64 }
    ensures { (j : ℕ) → bit result j ≡ ltb j n }
{
    if n == 64 {
        return u64::MAX;
    }
    (1u64 << n) - 1
}
