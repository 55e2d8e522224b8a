// The table of an oracle: where its rows stand, and what they hold. The rows of all oracles of a plan are counted through.
ghost use Rattle.std.specs.Prelude.{◌≡◌, ◌+◌, ◌≤◌, ◌<◌};
ghost use Rattle.semantics.specs.Plan.{max_oracles, oracle_states, states_before, letters, oracle_at, verdict, next};
ghost use Rattle.layout.specs.Laid.{Laid};

use crate::row::{next_in, row_of, verdict_in};
use layout::header::oracle_states;

// Oracle n of a plan: its first row has the number `first`, and there are so many states.
#[derive(Clone, Copy)]
pub struct Table<'a> {
    pub plan: &'a [u8],
    n: usize,
    first: usize,
    pub states: usize,
    ghost laid: { Laid plan.now },
    ghost few: { n < max_oracles },
    ghost begins: { first ≡ states_before plan.now n },
    ghost counts: { states ≡ oracle_states plan.now n },
}

impl<'a> Table<'a> {
    // The first oracle's.
    #[tactic(auto, unfolding(semantics::specs::Plan::states_before))]
    pub fn first(plan: &'a [u8]) -> Self
        requires { Laid plan.now }
        ensures { (result.plan.now ≡ plan.now) × (result.n ≡ 0) }
    {
        Table {
            plan,
            n: 0,
            first: 0,
            states: oracle_states(plan, 0),
        }
    }

    // That of the oracle after it.
    #[tactic(auto, using(crate::proofs::Tables::rows_after, crate::proofs::Tables::rows_end))]
    pub fn following(self) -> Self
        requires { self.n + 1 < max_oracles }
        ensures { (result.plan.now ≡ self.entry.plan.now) × (result.n ≡ self.entry.n + 1) }
    {
        let n = self.n + 1;
        Table {
            plan: self.plan,
            n,
            first: self.first + self.states,
            states: oracle_states(self.plan, n),
        }
    }

    // The place of the row of state q.
    fn row(self, q: usize) -> usize
        requires { q < self.states }
        ensures { result ≡ oracle_at self.entry.plan.now self.entry.n q }
    {
        row_of(self.plan, self.n, self.first, q)
    }

    // The verdict of state q.
    pub fn verdict(self, q: usize) -> u8
        requires { q < self.states }
        ensures { result ≡ verdict self.entry.plan.now self.entry.n q }
    {
        verdict_in(self.plan, self.row(q), self.n, q)
    }

    // The state that follows q on letter a.
    pub fn next(self, q: usize, a: usize) -> u8
        requires { (q < self.states) × (a < letters self.plan.now) }
        ensures { result ≡ next self.entry.plan.now self.entry.n q a }
    {
        next_in(self.plan, self.row(q), self.n, q, a)
    }
}
