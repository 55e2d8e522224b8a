// A walk over the moves of a log or a list, 16 bits each, one step after the other.
ghost use Rattle.std.specs.Prelude.{◌≡◌, true, length, take, eqb, is_ok, IfOk, IfErr};
ghost use Rattle.semantics.specs.Bytes.{entries};
ghost use Rattle.semantics.specs.Rules.{plan_refusal};
ghost use Rattle.semantics.specs.Move.{oracles_in_range, replay};
ghost use Rattle.layout.specs.Runs.{configuration_in};
ghost use Rattle.walks.specs.Steps.{stops_from, stop_cause, index_said, stop_said};

use crate::step;
use crate::step::Cause;
use layout::run::Run;
use words::bytes::field;

// Where a walk stops: the index, from 0, of the first entry that does not pass, and why.
#[derive(Clone, Copy, PartialEq, Eq, Debug)]
pub struct Stop {
    pub index: usize,
    pub cause: Cause,
}

// The entries one after the other, from where the run stands. The state that a walk leaves that stops is of no use; the oracles' states are then those after the
// entries before it. The marks stay.
pub fn walk(plan: &[u8], moves: &[u8], run: &mut Run, v: u8) -> Result<(), Stop>
    requires plan_value { plan_refusal plan.now ≡ 0 }
    requires oracles_value { oracles_in_range plan.now run.old.oracles ≡ true }
    ensures index_value { (is_ok result ≡ eqb (stops_from plan.now v (configuration_in run.old) (entries moves.now)) (length (entries moves.now)))
        × (index_said (length (entries moves.now)) result ≡ stops_from plan.now v (configuration_in run.old) (entries moves.now))
        × (stop_said result ≡ stop_cause plan.now v (configuration_in run.old) (entries moves.now)) }
    ensures run_after { IfOk result (λ _. configuration_in run.new ≡ replay plan.now (configuration_in run.old) (entries moves.now)) }
    ensures in_range { oracles_in_range plan.now run.new.oracles ≡ true }
    ensures oracles_before { IfErr result (λ s. run.new.oracles ≡ (replay plan.now (configuration_in run.old) (take s.index (entries moves.now))).oracles) }
    ensures marks_kept { run.new.marks ≡ run.old.marks }
{
    for k in 0..moves.len() >> 1 {
        let i = field(moves, 2 * k);
        if let Err(cause) = step::step(plan, run, i, v) {
            return Err(Stop { index: k, cause });
        }
    }
    Ok(())
}
