// The evaluator: guards, propositions, actions and transfers of an accepted plan, word by word. The stack's array and the values are lent.
#![tactic(auto, using(layout::proofs::Sections::laid_accepted, arith::proofs::Signed32::back32))]

ghost use Rattle.std.specs.Prelude.{◌≡◌, ◌+◌, ◌/◌, ◌%◌, ◌≤◌, ◌<◌, length, get_or, eqb};
ghost use Rattle.semantics.specs.Signed.{truth};
ghost use Rattle.semantics.specs.Plan.{max_variables, span_at};
ghost use Rattle.semantics.specs.Code.{State, instruction, top, perform, ran, guard_holds, acted};
ghost use Rattle.semantics.specs.Rules.{plan_refusal};
ghost use Rattle.code.specs.Taken.{Taken, Fit};
ghost use Rattle.code.specs.Held.{machine};
ghost use Rattle.layout.specs.Runs.{state_of};

use crate::stack::Stack;
use crate::word;
use arith::{sums, tests};
use layout::records;
use layout::run::RunState;

// 1 where the entry of the component (bits 8 to 11 of n) is bits 0 to 7, else 0.
fn is_at(places: &[u8; 16], n: u16) -> i32
    requires { n < 4096 }
    ensures { result ≡ truth (eqb (get_or places.now (n / 256) 0) (n % 256)) }
{
    tests::truth(u16::from(places[usize::from(n >> 8)]) == n & 255)
}

// One word of a guard or a proposition: it stores nothing, so of the kinds 2 and 3 it is 2, and past 5 an accepted plan has the operators' kind alone. A tree of
// matches, three arms at most, since more would become a jump through a table. Apart from `step`, since it reads a state and writes none.
#[tactic(auto, using(crate::proofs::WordsHeld::performing))]
fn read(state: &RunState, stack: &mut Stack<'_>, kind: u16, n: u16)
    requires { (n < 4096) × Fit 1 (instruction kind n) (length stack.old) }
    ensures { machine stack.new state.now.values
        ≡ perform (instruction kind n) (state_of state.now) (machine stack.old state.now.values) }
{
    match kind {
        0..=5 => match kind {
            0..=1 => match kind {
                0 => stack.push(i32::from(n)),
                _ => stack.put(sums::extend(stack.peek(), n)),
            },
            2..=3 => stack.push(state.values[usize::from(n)]),
            _ => match kind {
                4 => stack.push(is_at(&state.locations, n)),
                _ => stack.push(is_at(&state.last_ports, n)),
            },
        },
        _ => stack.combine(n),
    }
}

// One word of an action or a transfer: it looks at no location and at no last port, so of the kinds 3 to 5 it is 3. A
// tree as above.
#[tactic(auto, using(crate::proofs::WordsHeld::performing))]
fn step(values: &mut [i32; 64], stack: &mut Stack<'_>, kind: u16, n: u16)
    requires { (n < 4096) × Fit 0 (instruction kind n) (length stack.old) }
    ensures { (s : State) → machine stack.new values.new
        ≡ perform (instruction kind n) s (machine stack.old values.old) }
{
    match kind {
        0..=5 => match kind {
            0..=1 => match kind {
                0 => stack.push(i32::from(n)),
                _ => stack.put(sums::extend(stack.peek(), n)),
            },
            _ => match kind {
                2 => stack.push(values[usize::from(n)]),
                _ => {
                    values[usize::from(n)] = stack.peek();
                    stack.pop();
                }
            },
        },
        _ => stack.combine(n),
    }
}

// The value that a guard or a proposition that is not empty leaves. Apart from `update`, since it is lent the state to read.
fn look(plan: &[u8], state: &RunState, start: usize, size: usize) -> i32
    requires plan_value { plan_refusal plan.now ≡ 0 }
    requires taken { Taken plan.now 1 (record { start = start; size = size }) × (0 < size) }
    ensures { result ≡ top (ran plan.now (state_of state.now) start size).stack }
{
    let base = records::code_at(plan);
    let mut cells = [0; 8];
    let mut stack = Stack::new(&mut cells);
    for i in 0..size {
        let w = records::word_from(plan, base, start + i);
        read(state, &mut stack, word::kind(w), word::operand(w));
    }
    stack.peek()
}

// Whether the guard or the proposition whose span is written at a place holds. Two calls of `look` keep it out of line, so that the test
// for an empty guard goes into the callers.
#[tactic(auto, using(layout::proofs::Sections::laid_accepted, arith::proofs::Signed32::back32), unfolding(semantics::specs::Code::guard_holds))]
pub fn guard_holds(plan: &[u8], state: &RunState, at: usize) -> bool
    requires plan_value { plan_refusal plan.now ≡ 0 }
    requires at_in_bounds { (at + 4 ≤ length plan.now) × Taken plan.now 1 (span_at plan.now at) }
    ensures { result ≡ guard_holds plan.now (state_of state.now)
        (span_at plan.now at) }
{
    let size = records::span_size(plan, at);
    if size == 0 {
        return true;
    }
    let start = records::span_start(plan, at);
    if size == 1 {
        return tests::holds(look(plan, state, start, 1));
    }
    tests::holds(look(plan, state, start, size))
}

// Runs an action or a transfer. It reads and writes the values alone: the promise is for every state with them.
fn update(plan: &[u8], values: &mut [i32; 64], start: usize, size: usize)
    requires plan_value { plan_refusal plan.now ≡ 0 }
    requires taken { Taken plan.now 0 (record { start = start; size = size }) × (length values.old ≡ max_variables) }
    ensures { ((s : State) → s.values ≡ values.old → values.new ≡ (ran plan.now s start size).values)
        × (length values.new ≡ max_variables) }
{
    let base = records::code_at(plan);
    let mut cells = [0; 8];
    let mut stack = Stack::new(&mut cells);
    for i in 0..size {
        let w = records::word_from(plan, base, start + i);
        step(values, &mut stack, word::kind(w), word::operand(w));
    }
}

// The same for the span that is written at a place. Two calls of `update` keep it out of line, so that the test for an empty span goes
// into the callers; no action has one word.
#[tactic(auto, using(layout::proofs::Sections::laid_accepted, arith::proofs::Signed32::back32), unfolding(semantics::specs::Code::acted, semantics::specs::Code::ran))]
pub fn act(plan: &[u8], values: &mut [i32; 64], at: usize)
    requires plan_value { plan_refusal plan.now ≡ 0 }
    requires at_in_bounds { (at + 4 ≤ length plan.now) × Taken plan.now 0 (span_at plan.now at) }
    requires values_len { length values.old ≡ max_variables }
    ensures { ((s : State) → s.values ≡ values.old
        → values.new ≡ (acted plan.now s (span_at plan.now at)).values)
        × (length values.new ≡ max_variables) }
{
    let size = records::span_size(plan, at);
    if size == 0 {
        return;
    }
    let start = records::span_start(plan, at);
    if size == 2 {
        update(plan, values, start, 2);
        return;
    }
    update(plan, values, start, size);
}
