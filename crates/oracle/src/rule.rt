// Refusals 9 and 20: the rule that the table of each oracle keeps.
ghost use Rattle.std.specs.Prelude.{◌≡◌, true, suc, ◌<◌};
ghost use Rattle.semantics.specs.Bytes.{every};
ghost use Rattle.semantics.specs.Plan.{added_oracles, verdict};
ghost use Rattle.semantics.specs.Rules.{verdict_ok, follower_ok, oracle_ok, table_ok};
ghost use Rattle.layout.specs.Laid.{Laid};

use crate::table::Table;
use layout::header::{added_oracles, letters};
use words::each::every;

// 0 to 3. A verdict stays the byte that a plan holds: the definitions compare verdicts as numbers.
#[tactic(auto, unfolding(semantics::specs::Rules::verdict_ok))]
fn verdict_ok(v: u8) -> bool
    ensures { result ≡ verdict_ok v }
{
    v <= 3
}

// 9, for a next state of q, whose verdict is v: the oracle has it, it is 0 where q is, and 3 where q is 3.
#[tactic(auto, unfolding(semantics::specs::Rules::follower_ok, semantics::specs::Rules::verdict_ok, semantics::specs::Bytes::all_of, semantics::specs::Bytes::implies))]
fn follower_ok(table: Table, q: usize, v: u8, next: usize) -> bool
    requires { (v ≡ verdict table.plan.now table.n q) × (verdict_ok v ≡ true) }
    ensures { result ≡ follower_ok table.entry.plan.now table.entry.n q next }
{
    if next >= table.states {
        return false;
    }
    if (v == 1) | (v == 2) {
        return true;
    }
    table.verdict(next) == v
}

// 9, for state q: its verdict and every next state.
#[tactic(auto, unfolding(semantics::specs::Rules::oracle_ok, semantics::specs::Bytes::all_of))]
fn state_ok(table: Table, q: usize) -> bool
    requires { q < table.states }
    ensures { result ≡ oracle_ok table.entry.plan.now table.entry.n q }
{
    let v = table.verdict(q);
    verdict_ok(v)
        && every(
            letters(table.plan),
            |a| follower_ok(table, q, v, usize::from(table.next(q, a))),
        )
}

// 9, for an oracle: every state keeps its rule.
#[tactic(auto, unfolding(semantics::specs::Rules::table_ok))]
fn table_ok(table: Table) -> bool
    ensures { result ≡ table_ok table.entry.plan.now table.entry.n }
{
    every(table.states, |q| state_ok(table, q))
}

// 9: the table of the first oracle.
pub fn first_ok(plan: &[u8]) -> bool
    requires { Laid plan.now }
    ensures { result ≡ table_ok plan.now 0 }
{
    table_ok(Table::first(plan))
}

// 20: the tables of the added oracles.
#[tactic(auto, using(words::proofs::Loops::every_step, semantics::proofs::Basics::every_fails))]
pub fn added_ok(plan: &[u8]) -> bool
    requires { Laid plan.now }
    ensures { result ≡ every (added_oracles plan.now) (λ k. table_ok plan.now (suc k)) }
{
    let mut table = Table::first(plan);
    for k in 0..added_oracles(plan) {
        table = table.following();
        if !table_ok(table) {
            return false;
        }
    }
    true
}
