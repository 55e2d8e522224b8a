#![tactic(auto)]
// The check of a plan: refusals 1 to 10, with 20 before 10, in order, of its header, its tables and its code.
ghost use Rattle.std.specs.Prelude.{◌≡◌};
ghost use Rattle.semantics.specs.Refusal.{refusal};
ghost use Rattle.semantics.specs.Rules.{header_rules, table_rules, code_rules, plan_refusal};
ghost use Rattle.layout.specs.Laid.{Laid};
ghost use Rattle.plan.specs.Numbers.{checked_number};

use crate::refusal::Refusal;
use layout::header::added_oracles;
use oracle::rule;
use ranks::order;
use tables::{header, records};

pub mod names;
pub mod refusal;
pub mod spans;

// The first refusal of the header, 1 to 3.
#[tactic(auto, using(layout::proofs::Sections::header_in), unfolding(semantics::specs::Refusal::refusal, semantics::specs::Refusal::unless))]
fn header_refusal(plan: &[u8]) -> Result<(), Refusal>
    ensures { checked_number result ≡ refusal (header_rules plan.now) }
{
    if !header::head_ok(plan) {
        return Err(Refusal::BadHead);
    }
    if !header::counts_ok(plan) {
        return Err(Refusal::BadCount);
    }
    if !header::layout_ok(plan) {
        return Err(Refusal::BadLayout);
    }
    Ok(())
}

// The first refusal of the tables, 4 to 9 and 20.
#[tactic(auto, using(crate::proofs::Passing::none_added), unfolding(semantics::specs::Refusal::refusal, semantics::specs::Refusal::unless))]
fn table_refusal(plan: &[u8]) -> Result<(), Refusal>
    requires { Laid plan.now }
    ensures { checked_number result ≡ refusal (table_rules plan.now) }
{
    if !records::components_ok(plan) {
        return Err(Refusal::BadComponent);
    }
    if !records::variables_ok(plan) {
        return Err(Refusal::BadVariable);
    }
    if !records::transitions_ok(plan) {
        return Err(Refusal::BadTransition);
    }
    if !records::interactions_ok(plan) {
        return Err(Refusal::BadInteraction);
    }
    if !order::ranks_ok(plan) {
        return Err(Refusal::BadRank);
    }
    if !rule::first_ok(plan) {
        return Err(Refusal::BadOracle);
    }
    if added_oracles(plan) == 0 {
        return Ok(());
    }
    if !rule::added_ok(plan) {
        return Err(Refusal::BadAdded);
    }
    Ok(())
}

// The refusal of the code, 10, where the tables are in order.
#[tactic(auto, unfolding(semantics::specs::Refusal::refusal, semantics::specs::Refusal::unless))]
fn code_refusal(plan: &[u8]) -> Result<(), Refusal>
    requires { Laid plan.now × (refusal (table_rules plan.now) ≡ 0) }
    ensures { checked_number result ≡ refusal (code_rules plan.now) }
{
    if !spans::code_ok(plan) {
        return Err(Refusal::BadCode);
    }
    Ok(())
}

// The first refusal that applies to the plan.
pub fn check(plan: &[u8]) -> Result<(), Refusal>
    ensures { checked_number result ≡ plan_refusal plan.now }
{
    header_refusal(plan)?;
    table_refusal(plan)?;
    code_refusal(plan)
}
