// Refusal 10: the code of every transition, interaction and proposition keeps the rules. Each group is one line over `every`, and states its own rule. What `owned`
// holds is a fact about it and the plan, and so a clause.
ghost use Rattle.std.specs.Prelude.{◌≡◌, ℕ, ◌+◌, ◌≤◌, ◌<◌, Bool, true, length, eqb};
ghost use Rattle.semantics.specs.Bytes.{bit, every};
ghost use Rattle.semantics.specs.Plan.{max_components, variables, transitions, interactions, propositions, transition_at, component_of, span_at};
ghost use Rattle.semantics.specs.Code.{owned_by, declared};
ghost use Rattle.semantics.specs.Rules.{variable_ok, transition_ok, transition_code, interaction_code, proposition_code, code_ok};
ghost use Rattle.layout.specs.Laid.{Laid};
ghost use Rattle.plan.specs.Owned.{Owned};
ghost use Rattle.plan.specs.Pair.{pair_ok};

use crate::names;
use checker::span;
use layout::records::{ACTION, GUARD, INTERACTION_GUARD, TRANSFER};
use layout::{header, records};
use words::each::every;

// Whether the spans at two places are empty.
fn both_empty(plan: &[u8], guard: usize, update: usize) -> bool
    requires { (guard + 4 ≤ length plan.now) × (update + 4 ≤ length plan.now) }
    ensures { result ≡ eqb ((span_at plan.now guard).size + (span_at plan.now update).size) 0 }
{
    records::span_size(plan, guard) + records::span_size(plan, update) == 0
}

// A guard and an update that are empty: whatever may be named, they only have to start in the code or at its end.
#[tactic(auto, using(crate::proofs::NameLaws::span_blank), unfolding(semantics::specs::Bytes::all_of))]
fn starts_ok(plan: &[u8], guard: usize, update: usize) -> bool
    requires laid { Laid plan.now × (guard + 4 ≤ length plan.now) × (update + 4 ≤ length plan.now) }
    requires update_value { (span_at plan.now guard).size + (span_at plan.now update).size ≡ 0 }
    ensures { (f : ℕ → Bool) → result ≡ pair_ok plan.now f guard update }
{
    let words = header::code_words(plan);
    (records::span_start(plan, guard) <= words) & (records::span_start(plan, update) <= words)
}

// A guard and an update that may name the variables of a mask.
#[tactic(auto, unfolding(semantics::specs::Bytes::all_of))]
fn pair_ok(plan: &[u8], names: u64, guard: usize, update: usize) -> bool
    requires { Laid plan.now × (guard + 4 ≤ length plan.now) × (update + 4 ≤ length plan.now) }
    ensures { result ≡ pair_ok plan.now (bit names) guard update }
{
    span::span_ok(plan, false, false, names, guard)
        && span::span_ok(plan, true, false, names, update)
}

// The variables that the component of transition t, whose record is at a place, owns.
fn own_mask(plan: &[u8], owned: &[u64; 16], t: usize, at: usize) -> u64
    requires laid { Laid plan.now × (t < transitions plan.now) × (component_of plan.now t < max_components) }
    requires owned { Owned plan.now owned.now × (at ≡ transition_at plan.now t) }
    ensures { (v : ℕ) → bit result v ≡ owned_by plan.now (component_of plan.now t) v }
{
    owned[usize::from(plan[at])]
}

// The guard and the action of a transition, which name its component's variables. Empty ones ask for no mask.
#[tactic(auto, using(crate::proofs::NameLaws::pair_names), unfolding(semantics::specs::Rules::transition_code))]
fn transition_code(plan: &[u8], owned: &[u64; 16], t: usize) -> bool
    requires laid { Laid plan.now }
    requires t_bound { (t < transitions plan.now) × (component_of plan.now t < max_components) × Owned plan.now owned.now }
    ensures { result ≡ transition_code plan.now t }
{
    let at = records::transition_at(plan, t);
    let guard = at + GUARD;
    let action = at + ACTION;
    if both_empty(plan, guard, action) {
        return starts_ok(plan, guard, action);
    }
    pair_ok(plan, own_mask(plan, owned, t, at), guard, action)
}

// The code of all transitions.
#[tactic(auto, using(crate::proofs::NameLaws::component_low))]
fn transitions_code(plan: &[u8], owned: &[u64; 16]) -> bool
    requires laid { Laid plan.now }
    requires plan_value { every (transitions plan.now) (transition_ok plan.now) ≡ true }
    requires owned { Owned plan.now owned.now }
    ensures { result ≡ every (transitions plan.now) (transition_code plan.now) }
{
    every(
        header::transitions(plan),
        |t| transition_code(plan, owned, t),
    )
}

// The guard and the transfer of an interaction, which name the variables of the components taking part; likewise.
#[tactic(auto, using(crate::proofs::NameLaws::pair_names), unfolding(semantics::specs::Rules::interaction_code))]
fn interaction_code(plan: &[u8], owned: &[u64; 16], i: usize) -> bool
    requires laid { Laid plan.now }
    requires i_bound { (i < interactions plan.now) × Owned plan.now owned.now }
    ensures { result ≡ interaction_code plan.now i }
{
    let at = records::interaction_at(plan, i);
    let guard = at + INTERACTION_GUARD;
    let transfer = at + TRANSFER;
    if both_empty(plan, guard, transfer) {
        return starts_ok(plan, guard, transfer);
    }
    pair_ok(plan, names::shared_mask(plan, owned, i), guard, transfer)
}

// The code of all interactions.
fn interactions_code(plan: &[u8], owned: &[u64; 16]) -> bool
    requires laid { Laid plan.now }
    requires owned { Owned plan.now owned.now }
    ensures { result ≡ every (interactions plan.now) (interaction_code plan.now) }
{
    every(
        header::interactions(plan),
        |i| interaction_code(plan, owned, i),
    )
}

// A proposition, which names any variable.
#[tactic(auto, using(crate::proofs::NameLaws::span_names), unfolding(semantics::specs::Rules::proposition_code))]
fn proposition_code(plan: &[u8], all: u64, k: usize) -> bool
    requires laid { Laid plan.now }
    requires k_bound { (k < propositions plan.now) × ((v : ℕ) → bit all v ≡ declared plan.now v) }
    ensures { result ≡ proposition_code plan.now k }
{
    span::span_ok(plan, false, true, all, records::proposition_at(plan, k))
}

// The code of all propositions.
fn propositions_code(plan: &[u8]) -> bool
    requires { Laid plan.now }
    ensures { result ≡ every (propositions plan.now) (proposition_code plan.now) }
{
    let all = names::all_mask(plan);
    every(
        header::propositions(plan),
        |k| proposition_code(plan, all, k),
    )
}

// Whether all code keeps the rules.
#[tactic(auto, unfolding(semantics::specs::Bytes::all_of, semantics::specs::Rules::code_ok))]
pub fn code_ok(plan: &[u8]) -> bool
    requires laid { Laid plan.now }
    requires plan_value { every (variables plan.now) (variable_ok plan.now) ≡ true }
    requires plan_value_2 { every (transitions plan.now) (transition_ok plan.now) ≡ true }
    ensures { result ≡ code_ok plan.now }
{
    let mut owned = [0u64; 16];
    names::owned_masks(plan, &mut owned);
    transitions_code(plan, &owned) && interactions_code(plan, &owned) && propositions_code(plan)
}
