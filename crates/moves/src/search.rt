// Whether a move of a mask leads to a verdict, and the move that settling commits.
#![tactic(auto, using(layout::proofs::Sections::laid_accepted))]

ghost use Rattle.std.specs.Prelude.{◌≡◌, true, false, not, ◌⊎◌, ℕ, ◌^◌, ◌<◌, MatchOption};
ghost use Rattle.semantics.specs.Bytes.{every, implies, bit};
ghost use Rattle.semantics.specs.Plan.{max_interactions, interactions};
ghost use Rattle.semantics.specs.Rules.{plan_refusal};
ghost use Rattle.semantics.specs.Move.{enabled, after, oracles_in_range, reaches, good, leads_above, safe_move};
ghost use Rattle.choices.specs.Choices.{chosen_table};
ghost use Rattle.layout.specs.Runs.{state_of, configuration_in};
ghost use Rattle.moves.specs.Seeking.{AfterGood, AfterBad};

use crate::judge;
use choices::masks;
use layout::records;
use layout::run::Run;
use oracle::row;
use ranks::among;
use ranks::among::Climbed;
use words::bits;

// Whether no move of the mask leads to a verdict of v or more, each of which is enabled; the table of choices is that of the state.
pub fn none_reaches(plan: &[u8], run: &Run, chosen: &[u16; 256], moves: u64, v: u8) -> bool
    requires plan_value { plan_refusal plan.now ≡ 0 }
    requires chosen_value { (chosen.now ≡ chosen_table plan.now (state_of run.now.state)) × (oracles_in_range plan.now run.now.oracles ≡ true) }
    requires by_index { (j : ℕ) → bit moves j ≡ true → (j < interactions plan.now) × (enabled plan.now (state_of run.now.state) j ≡ true) }
    ensures { result ≡ every max_interactions (λ j. implies (bit moves j) (not (reaches plan.now v (after plan.now (configuration_in run.now) j).oracles))) }
{
    let mut left = moves;
    while left != 0 {
        let rest = bits::without_lowest(left);
        let n = bits::lowest_bit(left);
        let mut trial = *run;
        judge::after(plan, &mut trial, chosen, n);
        if row::reaches(plan, trial.oracles, v) {
            return false;
        }
        left = rest;
    }
    true
}

// Whether an enabled move that leads to a verdict of v or more lies above interaction i; the table of choices is that of the state. Each enabled one above is made
// at most once.
pub fn leads_above(plan: &[u8], run: &Run, chosen: &[u16; 256], i: usize, v: u8) -> bool
    requires plan_value { plan_refusal plan.now ≡ 0 }
    requires i_bound { (i < interactions plan.now) × (chosen.now ≡ chosen_table plan.now (state_of run.now.state)) × (oracles_in_range plan.now run.now.oracles ≡ true) }
    ensures { result ≡ leads_above plan.now v (configuration_in run.now) i }
{
    let row = records::rank_row(plan, i);
    let above = masks::enabled_among(plan, &run.state, chosen, row);
    !none_reaches(plan, run, chosen, above, v)
}

// What settling still seeks: the moves not known to be bad, those of them that may yet be the one, the steps of the climb that are still to be judged, and the lowest
// move that is known to be allowed.
#[derive(Clone, Copy)]
pub struct Sought {
    pub open: u64,
    pub left: u64,
    pub path: u64,
    pub best: Option<usize>,
}

// Where the next climb begins: at the lowest number of the path, which is its last step, or where there is none at the lowest move that is left. The proof asks
// only that it is one of them.
fn foot(left: u64, path: u64) -> usize
    requires { 0 < left }
    ensures { (bit path result ≡ true) ⊎ (bit left result ≡ true) }
{
    if path != 0 {
        return bits::lowest_bit(path);
    }
    bits::lowest_bit(left)
}

// What is sought when the move that a climb came to was judged, above which nothing open lies. A good one is allowed, and what lies below it is not, the steps to it
// among that; a bad one is out.
fn narrowed(plan: &[u8], s: Sought, top: Climbed, good: bool) -> Sought
    requires plan_value { plan_refusal plan.now ≡ 0 }
    requires left_bound { (s.left < 2 ^ interactions plan.now) × (top.number < interactions plan.now) }
    ensures { (good ≡ true → AfterGood plan.now s top.number result) × (good ≡ false → AfterBad s top.path top.number result) }
{
    let n = top.number;
    if good {
        return Sought {
            open: s.open,
            left: among::lower_beside(plan, s.left, n),
            path: 0,
            best: Some(s.best.map_or(n, |best| best.min(n))),
        };
    }
    let one = bits::with_bit(0, n);
    Sought {
        open: bits::without(s.open, one),
        left: bits::without(s.left, one),
        path: bits::without(top.path, one),
        best: s.best,
    }
}

// The move that settling commits: the lowest one that ends good and above which no enabled one does. The mask has enabled moves, and every enabled one that may
// end good; the table of choices is that of the state. From the lowest that is left the search climbs to one above which nothing open lies, so none is
// judged twice, and after a bad one it goes on from the step before, so its climbs read at most two rows of ranks a move. The one found may be made once more. The
// run after the move is left in the trial, in which it is made; it is lent in the run's state. Its marks stay.
pub fn safe_move(
    plan: &[u8],
    run: &Run,
    chosen: &[u16; 256],
    moves: u64,
    trial: &mut Run,
) -> Option<usize>
    requires plan_value { plan_refusal plan.now ≡ 0 }
    requires chosen_value { (chosen.now ≡ chosen_table plan.now (state_of run.now.state)) × (oracles_in_range plan.now run.now.oracles ≡ true) }
    requires trial_value { state_of trial.old.state ≡ state_of run.now.state }
    requires moves_bound { (moves < 2 ^ interactions plan.now) × ((j : ℕ) → bit moves j ≡ true → enabled plan.now (state_of run.now.state) j ≡ true) }
    requires by_index { (j : ℕ) → j < interactions plan.now → enabled plan.now (state_of run.now.state) j ≡ true → bit moves j ≡ false → good plan.now (after plan.now (configuration_in run.now) j) ≡ false }
    ensures number_value { MatchOption result (safe_move plan.now (configuration_in run.now) ≡ interactions plan.now)
        (λ n. (n ≡ safe_move plan.now (configuration_in run.now)) × (n < interactions plan.now)
        × (configuration_in trial.new ≡ after plan.now (configuration_in run.now) n)) }
    ensures marks_kept { trial.new.marks ≡ trial.old.marks }
{
    trial.oracles = run.oracles;
    let mut s = Sought {
        open: moves,
        left: moves,
        path: 0,
        best: None,
    };
    while s.left != 0 {
        let top = among::climb(plan, s.open, s.path, foot(s.left, s.path));
        let n = top.number;
        judge::after(plan, trial, chosen, n);
        let next = narrowed(plan, s, top, row::good(plan, trial.oracles));
        if next.left == 0 && next.best == Some(n) {
            return Some(n);
        }
        trial.state = run.state;
        trial.oracles = run.oracles;
        s = next;
    }
    let n = s.best?;
    judge::after(plan, trial, chosen, n);
    Some(n)
}
