// The records of a plan: where each stands, and where it keeps what.
ghost use Rattle.std.specs.Prelude.{◌≡◌, ◌+◌, ◌*◌, ◌≤◌, ◌<◌, length};
ghost use Rattle.semantics.specs.Plan.{components, variables, transitions, interactions, propositions, max_oracles, states_before, code_words, letters, section, component_at, variable_at, transition_at, interaction_at, rank_row, proposition_at, row_at, span_at, word};
ghost use Rattle.layout.specs.Laid.{Laid};

use super::header::{letters, section};
use words::bytes::{field, u16_at, u64_at};

// A component's record: its locations, then these. The last byte is zero.
pub const START_LOCATION: usize = 1;

pub const PORTS: usize = 2;

pub const COMPONENT_ZERO: usize = 3;

// One name for each kind of record here and below: its contract has that name, and a const parameter would put a number in its place at each call.
pub fn component_at(plan: &[u8], c: usize) -> usize
    requires { Laid plan.now × (c < components plan.now) }
    ensures { (result ≡ component_at plan.now c) × (result + 4 ≤ length plan.now) }
{
    section(plan, 0) + 4 * c
}

// A variable's record: its owner, three zeros, its starting value.
pub const VARIABLE_ZEROS: usize = 1;

pub const START_VALUE: usize = 4;

pub fn variable_at(plan: &[u8], v: usize) -> usize
    requires { Laid plan.now × (v < variables plan.now) }
    ensures { (result ≡ variable_at plan.now v) × (result + 8 ≤ length plan.now) }
{
    section(plan, 1) + 8 * v
}

// A transition's record: its component, then these; guard and action are spans.
pub const SOURCE: usize = 1;

pub const PORT: usize = 2;

pub const DESTINATION: usize = 3;

pub const GUARD: usize = 4;

pub const ACTION: usize = 8;

pub fn transition_at(plan: &[u8], t: usize) -> usize
    requires { Laid plan.now × (t < transitions plan.now) }
    ensures { (result ≡ transition_at plan.now t) × (result + 12 ≤ length plan.now) }
{
    section(plan, 2) + 12 * t
}

// An interaction's record: a port for each of sixteen components, then the spans of guard and transfer.
pub const INTERACTION_GUARD: usize = 16;

pub const TRANSFER: usize = 20;

pub fn interaction_at(plan: &[u8], i: usize) -> usize
    requires { Laid plan.now × (i < interactions plan.now) }
    ensures { (result ≡ interaction_at plan.now i) × (result + 24 ≤ length plan.now) }
{
    section(plan, 3) + 24 * i
}

// The interactions above i, as a mask.
pub fn rank_row(plan: &[u8], i: usize) -> u64
    requires { Laid plan.now × (i < interactions plan.now) }
    ensures { result ≡ rank_row plan.now i }
{
    u64_at(plan, section(plan, 4) + 8 * i)
}

pub fn proposition_at(plan: &[u8], k: usize) -> usize
    requires { Laid plan.now × (k < propositions plan.now) }
    ensures { (result ≡ proposition_at plan.now k) × (result + 4 ≤ length plan.now) }
{
    section(plan, 5) + 4 * k
}

// A row of the oracles' tables: a state's verdict, then the next state for each letter. The rows of all oracles are counted through.
pub const NEXT: usize = 1;

#[tactic(auto, using(crate::proofs::Places::rows_low, crate::proofs::Places::row_in))]
pub fn row_at(plan: &[u8], row: usize) -> usize
    requires { Laid plan.now × (row < states_before plan.now max_oracles) }
    ensures { (result ≡ row_at plan.now row) × (result + (1 + letters plan.now) ≤ length plan.now) }
{
    section(plan, 6) + (1 + letters(plan)) * row
}

// A span's record: its start, then its size.
const SPAN_SIZE: usize = 2;

pub fn span_start(plan: &[u8], at: usize) -> usize
    requires { at + 4 ≤ length plan.now }
    ensures { (result ≡ (span_at plan.now at).start) × (result < 65536) }
{
    field(plan, at)
}

pub fn span_size(plan: &[u8], at: usize) -> usize
    requires { at + 4 ≤ length plan.now }
    ensures { (result ≡ (span_at plan.now at).size) × (result < 65536) }
{
    field(plan, at + SPAN_SIZE)
}

// Where the code words begin.
pub fn code_at(plan: &[u8]) -> usize
    requires { Laid plan.now }
    ensures { (result ≡ section plan.now 7) × (result + 2 * code_words plan.now ≤ length plan.now) }
{
    section(plan, 7)
}

// Word k of the code, which begins at a place: a loop reads that place once.
pub fn word_from(plan: &[u8], base: usize, k: usize) -> u16
    requires { Laid plan.now × (base ≡ section plan.now 7) × (k < code_words plan.now) }
    ensures { result ≡ word plan.now k }
{
    u16_at(plan, base + 2 * k)
}

pub fn word_at(plan: &[u8], k: usize) -> u16
    requires { Laid plan.now × (k < code_words plan.now) }
    ensures { result ≡ word plan.now k }
{
    word_from(plan, code_at(plan), k)
}
