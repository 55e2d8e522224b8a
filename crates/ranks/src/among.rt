// The ranks among the interactions of a mask: which are not outranked, which lie above one and which beside it. Masks have 64 bits.
ghost use Rattle.std.specs.Prelude.{◌≡◌, true, not, ◌&&◌, [], ◌∷◌, ◌⊎◌, ℕ, ◌^◌, ◌≤◌, ◌<◌, ltb};
ghost use Rattle.semantics.specs.Bytes.{all_of, implies, bit, every, some_below};
ghost use Rattle.semantics.specs.Plan.{max_interactions, interactions, below};
ghost use Rattle.semantics.specs.Rules.{plan_refusal};
ghost use Rattle.ranks.specs.Standing.{stands, standing};

use crate::row::lies_below;
use layout::records;
use words::bits;

// Whether an interaction of the mask lies above interaction i.
pub fn is_outranked(plan: &[u8], moves: u64, i: usize) -> bool
    requires plan_value { plan_refusal plan.now ≡ 0 }
    requires i_bound { i < interactions plan.now }
    ensures { result ≡ some_below (interactions plan.now) (λ j. below plan.now i j && bit moves j) }
{
    bits::meets(records::rank_row(plan, i), moves)
}

// The interactions of the mask above which none of the mask lies; the bits of the mask from the lowest on. The walks over a mask stay apart: each test asks what is known
// of its bit, which a function that takes the test would ask again at each call.
pub fn standing_mask(plan: &[u8], moves: u64) -> u64
    requires plan_value { plan_refusal plan.now ≡ 0 }
    requires moves_bound { moves < 2 ^ interactions plan.now }
    ensures { result ≡ standing plan.now moves }
{
    let mut left = moves;
    let mut out = 0;
    while left != 0 {
        let i = bits::lowest_bit(left);
        if !is_outranked(plan, moves, i) {
            out = bits::with_bit(out, i);
        }
        left = bits::without_lowest(left);
    }
    out
}

// The interaction that a climb ends at, and the numbers that it stepped on, past ones too.
#[derive(Clone, Copy)]
pub struct Climbed {
    pub number: usize,
    pub path: u64,
}

// From interaction i of the mask upwards: i or one of the mask that lies above it, above which none of the mask lies. What is stepped on joins the path. Each step
// goes to the highest number above, so that, ranks being transitive, each is lower than all before it where i is the lowest of the path.
pub fn climb(plan: &[u8], moves: u64, path: u64, i: usize) -> Climbed
    requires plan_value { plan_refusal plan.now ≡ 0 }
    requires moves_bound { (moves < 2 ^ interactions plan.now) × (bit moves i ≡ true) }
    ensures number_value { (stands plan.now moves result.number ≡ true) × ((result.number ≡ i) ⊎ (below plan.now i result.number ≡ true)) }
    ensures by_index { (j : ℕ) → bit result.path j ≡ true → (bit path j ≡ true) ⊎ ((bit moves j ≡ true) × (below plan.now i j ≡ true)) }
{
    let mut n = i;
    let mut steps = path;
    let mut above = records::rank_row(plan, n) & moves;
    while above != 0 {
        n = bits::highest_bit(above);
        steps = bits::with_bit(steps, n);
        above = records::rank_row(plan, n) & moves;
    }
    Climbed {
        number: n,
        path: steps,
    }
}

// The interactions of the mask that are numbered lower than n and do not lie below it.
pub fn lower_beside(plan: &[u8], moves: u64, n: usize) -> u64
    requires plan_value { plan_refusal plan.now ≡ 0 }
    requires moves_bound { (moves < 2 ^ interactions plan.now) × (n < interactions plan.now) }
    ensures { ((j : ℕ) → bit result j ≡ all_of (bit moves j ∷ ltb j n ∷ not (below plan.now j n) ∷ [])) × (result ≤ moves) }
{
    let mut left = moves & bits::first_bits(n);
    let mut out = 0;
    while left != 0 {
        let j = bits::lowest_bit(left);
        if !lies_below(plan, j, n) {
            out = bits::with_bit(out, j);
        }
        left = bits::without_lowest(left);
    }
    out
}

// Whether no interaction of `moves` lies above one of the marked.
pub fn none_above(plan: &[u8], marked: u64, moves: u64) -> bool
    requires plan_value { plan_refusal plan.now ≡ 0 }
    requires by_index { (j : ℕ) → bit marked j ≡ true → j < interactions plan.now }
    ensures { result ≡ every max_interactions (λ i. implies (bit marked i) (not (some_below (interactions plan.now) (λ j. below plan.now i j && bit moves j)))) }
{
    let mut left = marked;
    while left != 0 {
        if is_outranked(plan, moves, bits::lowest_bit(left)) {
            return false;
        }
        left = bits::without_lowest(left);
    }
    true
}
