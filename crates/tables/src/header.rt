// The header of a plan: refusals 1 to 3.
ghost use Rattle.std.specs.Prelude.{◌≡◌, true, ◌≤◌, ◌<◌, length, eqb};
ghost use Rattle.semantics.specs.Bytes.{every};
ghost use Rattle.semantics.specs.Plan.{reserved_byte, max_oracles, propositions, section_size};
ghost use Rattle.semantics.specs.Rules.{within, head_ok, state_count_ok, oracle_counts_ok, counts_ok, layout_ok};

use layout::header::{
    HEADER, added_oracles, added_word, all_states, code_words, components, first_oracle,
    interactions, letters, oracle_states, oracles, propositions, reserved_byte, section,
    total_length, transitions, variables,
};
use words::bytes::tagged;

// Whether the header's last two bytes are zero.
#[tactic(auto, unfolding(semantics::specs::Bytes::every))]
fn reserved_zero(plan: &[u8]) -> bool
    requires { 48 ≤ length plan.now }
    ensures { result ≡ every 2 (λ k. eqb (reserved_byte plan.now k) 0) }
{
    (reserved_byte(plan, 0) == 0) & (reserved_byte(plan, 1) == 0)
}

// 1: the header is there, with its letters and its zeros.
#[tactic(auto, unfolding(semantics::specs::Rules::head_ok, semantics::specs::Bytes::all_of))]
pub fn head_ok(plan: &[u8]) -> bool
    ensures { result ≡ head_ok plan.now }
{
    if plan.len() < HEADER {
        return false;
    }
    tagged(plan, b"PLAN") & reserved_zero(plan)
}

// low ≤ n ≤ high
#[tactic(auto, using(std::proofs::lemmas::Bool::Decides::nat_tests), unfolding(semantics::specs::Rules::within, semantics::specs::Bytes::all_of))]
pub fn ranged(low: usize, high: usize, n: usize) -> bool
    ensures { result ≡ within low high n }
{
    (low..=high).contains(&n)
}

// 2, for oracle n: it has 1 to 32 states, or none where the plan has no oracle n.
#[tactic(auto, using(semantics::proofs::Oracles::used_count, semantics::proofs::Oracles::unused_count))]
fn state_count_ok(plan: &[u8], n: usize) -> bool
    requires { (48 ≤ length plan.now) × (n < max_oracles) }
    ensures { result ≡ state_count_ok plan.now n }
{
    let states = oracle_states(plan, n);
    if n < oracles(plan) {
        ranged(1, 32, states)
    } else {
        states == 0
    }
}

// 2, for how many oracles are added and for the states of all; the four bytes of those added are zero where there are none.
#[tactic(auto, unfolding(semantics::specs::Rules::oracle_counts_ok, semantics::specs::Bytes::all_of, semantics::specs::Bytes::every))]
fn oracle_counts_ok(plan: &[u8]) -> bool
    requires { 48 ≤ length plan.now }
    ensures { result ≡ oracle_counts_ok plan.now }
{
    let first = state_count_ok(plan, 0);
    if added_word(plan) == 0 {
        return first;
    }
    (added_oracles(plan) <= 3)
        & (first & state_count_ok(plan, 1) & state_count_ok(plan, 2) & state_count_ok(plan, 3))
}

// 2: the counts and the first oracle state are in their ranges.
#[tactic(auto, unfolding(semantics::specs::Rules::counts_ok, semantics::specs::Bytes::all_of))]
pub fn counts_ok(plan: &[u8]) -> bool
    requires { 48 ≤ length plan.now }
    ensures { result ≡ counts_ok plan.now }
{
    ranged(1, 16, components(plan))
        & (variables(plan) <= 64)
        & (transitions(plan) <= 256)
        & ranged(1, 64, interactions(plan))
        & (propositions(plan) <= 4)
        & oracle_counts_ok(plan)
        & (first_oracle(plan) < oracle_states(plan, 0))
        & (code_words(plan) <= 4096)
}

// The size in bytes of section n, by the counts. The match stays: the plan format numbers the sections.
#[tactic(auto, unfolding(semantics::specs::Plan::section_size))]
fn section_size(plan: &[u8], n: usize) -> usize
    requires { (48 ≤ length plan.now) × (propositions plan.now ≤ 4) × (n < 8) }
    ensures { (result ≡ section_size plan.now n) × (result ≤ 5000000) }
{
    match n {
        0 => 4 * components(plan),
        1 => 8 * variables(plan),
        2 => 12 * transitions(plan),
        3 => 24 * interactions(plan),
        4 => 8 * interactions(plan),
        5 => 4 * propositions(plan),
        6 => (1 + letters(plan)) * all_states(plan),
        7 => 2 * code_words(plan),
        _ => 0,
    }
}

// 3: each section begins where the last one ended, and the plan ends with the last one.
#[tactic(auto, using(words::proofs::Loops::every_step, semantics::proofs::Basics::every_fails), unfolding(semantics::specs::Rules::layout_ok, semantics::specs::Bytes::all_of, semantics::specs::Plan::section_start))]
pub fn layout_ok(plan: &[u8]) -> bool
    requires { (48 ≤ length plan.now) × (counts_ok plan.now ≡ true) }
    ensures { result ≡ layout_ok plan.now }
{
    let mut at = HEADER;
    for n in 0..8 {
        if section(plan, n) != at {
            return false;
        }
        at += section_size(plan, n);
    }
    (total_length(plan) == at) & (plan.len() == at)
}
