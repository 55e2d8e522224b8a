// Rule 8: the ranks are a strict order on the interactions.
ghost use Rattle.std.specs.Prelude.{◌≡◌, true, ℕ, ◌<◌, ltb};
ghost use Rattle.semantics.specs.Bytes.{bit, every};
ghost use Rattle.semantics.specs.Plan.{interactions};
ghost use Rattle.semantics.specs.Rules.{rank_ok};
ghost use Rattle.layout.specs.Laid.{Laid};
ghost use Rattle.ranks.specs.RankRow.{bounded, closed, row_ok, Told, RowPassed};

use crate::row::lies_below;
use layout::header::interactions;
use layout::records::rank_row;
use words::bits;

// Whether the row has what stands above each of its numbers. What stands above a number that was tried is not tried itself: where the rows
// of both keep the rule, it has nothing above it that the first has not. The lowest number is tried first; then, until none is left, the lowest and the highest of
// what is left. In a chain that is numbered upwards the lowest has all others above it, in one that is numbered downwards the highest. A row equal to the one
// before, which passed, passes; it is compared where the first number leaves more than one, so that chains do not pay for it.
fn is_closed(plan: &[u8], row: u64, before: u64) -> bool
    requires { Laid plan.now × (bounded plan.now row ≡ true) × Told plan.now before }
    ensures { (result ≡ true → Told plan.now row) × (closed plan.now row ≡ true → result ≡ true) }
{
    if row == 0 {
        return true;
    }
    let above = rank_row(plan, bits::lowest_bit(row));
    if !bits::inside(above, row) {
        return false;
    }
    let mut left = bits::without(bits::without_lowest(row), above);
    while left != 0 {
        let rest = bits::without_lowest(left);
        let low = rank_row(plan, bits::lowest_bit(left));
        if rest == 0 {
            return bits::inside(low, row);
        }
        if row == before {
            return true;
        }
        let high = bits::highest_bit(rest);
        let higher = low | rank_row(plan, high);
        if !bits::inside(higher, row) {
            return false;
        }
        left = bits::without(rest, bits::with_bit(higher, high));
    }
    true
}

// Whether row i keeps the rule, where the rows of its numbers do. The mask has all the interactions; before is the row before, which passed, or 0, an empty row, which passes.
fn row_ok(plan: &[u8], all: u64, before: u64, i: usize) -> bool
    requires laid { Laid plan.now × (i < interactions plan.now) × ((j : ℕ) → bit all j ≡ ltb j (interactions plan.now)) }
    requires told { Told plan.now before }
    ensures { (result ≡ true → RowPassed plan.now i) × (row_ok plan.now i ≡ true → result ≡ true) }
{
    let row = rank_row(plan, i);
    if !bits::inside(row, all) {
        return false;
    }
    if lies_below(plan, i, i) {
        return false;
    }
    is_closed(plan, row, before)
}

// Whether the ranks are in order.
pub fn ranks_ok(plan: &[u8]) -> bool
    requires { Laid plan.now }
    ensures { result ≡ every (interactions plan.now) (rank_ok plan.now) }
{
    let count = interactions(plan);
    let all = bits::first_bits(count);
    let mut before = 0;
    for i in 0..count {
        if !row_ok(plan, all, before, i) {
            return false;
        }
        before = rank_row(plan, i);
    }
    true
}
