// The header of a plan: its number, its counts, the places of its sections.
ghost use Rattle.std.specs.Prelude.{◌≡◌, ◌+◌, ◌≤◌, ◌<◌, length};
ghost use Rattle.semantics.specs.Bytes.{u32};
ghost use Rattle.semantics.specs.Plan.{number_byte, reserved_byte, total_length, components, variables, transitions, max_oracles, interactions, propositions, first_oracle, added_oracles, oracles, oracle_states, states_before, code_words, letters, section};
ghost use Rattle.layout.specs.Laid.{Laid};

use words::bytes::{field, u16_at, u32_at};

// How long the header is.
pub const HEADER: usize = 48;

// Byte k of the plan's number.
pub fn number_byte(plan: &[u8], k: usize) -> u8
    requires { (48 ≤ length plan.now) × (k < 4) }
    ensures { result ≡ number_byte plan.now k }
{
    plan[4 + k]
}

// Byte k of those that are zero.
pub fn reserved_byte(plan: &[u8], k: usize) -> u8
    requires { (48 ≤ length plan.now) × (k < 2) }
    ensures { result ≡ reserved_byte plan.now k }
{
    plan[46 + k]
}

// One name for each field of two bytes: its contract has that name, and a const parameter would put a number in its place at each call.
pub fn total_length(plan: &[u8]) -> usize
    requires { 48 ≤ length plan.now }
    ensures { (result ≡ total_length plan.now) × (result < 65536) }
{
    field(plan, 8)
}

pub fn components(plan: &[u8]) -> usize
    requires { 48 ≤ length plan.now }
    ensures { (result ≡ components plan.now) × (result < 65536) }
{
    field(plan, 10)
}

pub fn variables(plan: &[u8]) -> usize
    requires { 48 ≤ length plan.now }
    ensures { (result ≡ variables plan.now) × (result < 65536) }
{
    field(plan, 12)
}

pub fn transitions(plan: &[u8]) -> usize
    requires { 48 ≤ length plan.now }
    ensures { (result ≡ transitions plan.now) × (result < 65536) }
{
    field(plan, 14)
}

// The number of transitions as an entry of a table: no transition.
pub fn no_transition(plan: &[u8]) -> u16
    requires { 48 ≤ length plan.now }
    ensures { result ≡ transitions plan.now }
{
    u16_at(plan, 14)
}

pub fn interactions(plan: &[u8]) -> usize
    requires { 48 ≤ length plan.now }
    ensures { (result ≡ interactions plan.now) × (result < 65536) }
{
    field(plan, 16)
}

pub fn propositions(plan: &[u8]) -> usize
    requires { 48 ≤ length plan.now }
    ensures { (result ≡ propositions plan.now) × (result < 65536) }
{
    field(plan, 18)
}

pub fn first_oracle(plan: &[u8]) -> usize
    requires { 48 ≤ length plan.now }
    ensures { (result ≡ first_oracle plan.now) × (result < 65536) }
{
    field(plan, 22)
}

pub fn code_words(plan: &[u8]) -> usize
    requires { 48 ≤ length plan.now }
    ensures { (result ≡ code_words plan.now) × (result < 65536) }
{
    field(plan, 24)
}

// How many oracles are added to the first one.
pub fn added_oracles(plan: &[u8]) -> usize
    requires { 48 ≤ length plan.now }
    ensures { (result ≡ added_oracles plan.now) × (result < 256) }
{
    usize::from(plan[42])
}

// How many oracles are added, and the states of each, as one number.
pub fn added_word(plan: &[u8]) -> u32
    requires { 48 ≤ length plan.now }
    ensures { result ≡ u32 plan.now 42 }
{
    u32_at(plan, 42)
}

// How many oracles there are in all.
pub fn oracles(plan: &[u8]) -> usize
    requires { 48 ≤ length plan.now }
    ensures { (result ≡ oracles plan.now) × (result ≤ 256) }
{
    1 + added_oracles(plan)
}

// How many states oracle n has.
#[tactic(auto, using(crate::proofs::Places::first_states, crate::proofs::Places::added_states))]
pub fn oracle_states(plan: &[u8], n: usize) -> usize
    requires { (48 ≤ length plan.now) × (n < max_oracles) }
    ensures { (result ≡ oracle_states plan.now n) × (result < 65536) }
{
    if n == 0 {
        return field(plan, 20);
    }
    usize::from(plan[42 + n])
}

// How many states all oracles have together.
#[tactic(auto, using(crate::proofs::Places::first_alone), unfolding(semantics::specs::Plan::states_before))]
pub fn all_states(plan: &[u8]) -> usize
    requires { 48 ≤ length plan.now }
    ensures { (result ≡ states_before plan.now max_oracles) × (result < 262144) }
{
    let first = oracle_states(plan, 0);
    if added_word(plan) == 0 {
        return first;
    }
    first + oracle_states(plan, 1) + oracle_states(plan, 2) + oracle_states(plan, 3)
}

// Where section n begins.
pub fn section(plan: &[u8], n: usize) -> usize
    requires { (48 ≤ length plan.now) × (n < 8) }
    ensures { (result ≡ section plan.now n) × (result < 65536) }
{
    field(plan, 26 + 2 * n)
}

// How many letters there are.
#[tactic(auto, using(words::proofs::BitLaws::one_shl, crate::proofs::Places::power_low))]
pub fn letters(plan: &[u8]) -> usize
    requires { (48 ≤ length plan.now) × (propositions plan.now ≤ 4) }
    ensures { (result ≡ letters plan.now) × (result ≤ 16) }
{
    1usize << propositions(plan)
}

// The counts that an image holds, as its bytes: each is below 256.
#[tactic(auto, unfolding(semantics::specs::Bytes::u16))]
pub fn component_byte(plan: &[u8]) -> u8
    requires { Laid plan.now }
    ensures { result ≡ components plan.now }
{
    plan[10]
}

#[tactic(auto, unfolding(semantics::specs::Bytes::u16))]
pub fn variable_byte(plan: &[u8]) -> u8
    requires { Laid plan.now }
    ensures { result ≡ variables plan.now }
{
    plan[12]
}

#[tactic(auto, unfolding(semantics::specs::Bytes::u16))]
pub fn interaction_byte(plan: &[u8]) -> u8
    requires { Laid plan.now }
    ensures { result ≡ interactions plan.now }
{
    plan[16]
}

// The first oracle state as an image's byte: it is below 32.
#[tactic(auto, unfolding(semantics::specs::Bytes::u16))]
pub fn first_oracle_byte(plan: &[u8]) -> u8
    requires { (Laid plan.now) × (first_oracle plan.now < 256) }
    ensures { result ≡ first_oracle plan.now }
{
    plan[22]
}
