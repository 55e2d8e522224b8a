// The variables that a span may name, as 64-bit masks.
ghost use Rattle.std.specs.Prelude.{◌≡◌, ℕ, ◌<◌, true, length, get_or};
ghost use Rattle.semantics.specs.Bytes.{bit, every};
ghost use Rattle.semantics.specs.Plan.{max_components, variables, interactions};
ghost use Rattle.semantics.specs.Code.{shared_in, declared};
ghost use Rattle.semantics.specs.Rules.{variable_ok};
ghost use Rattle.layout.specs.Laid.{Laid};
ghost use Rattle.plan.specs.Owned.{Owned};

use layout::{header, records};
use words::bits;

// The variables that each component owns, put into masks that are empty.
#[tactic(auto, using(crate::proofs::NameLaws::owned_all, crate::proofs::NameLaws::owner_low))]
pub fn owned_masks(plan: &[u8], out: &mut [u64; 16])
    requires laid { Laid plan.now }
    requires plan_value { every (variables plan.now) (variable_ok plan.now) ≡ true }
    requires out_len { (length out.old ≡ max_components) × ((c : ℕ) → get_or out.old c 0 ≡ 0) }
    ensures { Owned plan.now out.new }
{
    for v in 0..header::variables(plan) {
        let owner = usize::from(plan[records::variable_at(plan, v)]);
        out[owner] = bits::with_bit(out[owner], v);
    }
}

// A component's mask where it takes part, none else. 255 is the record's byte for no port, and part_mask is over the byte.
fn part(port: u8, mask: u64) -> u64
    ensures { result ≡ Rattle.plan.specs.Owned.part_mask port mask }
{
    if port == 255 {
        return 0;
    }
    mask
}

// The variables of the components that take part in interaction i.
#[tactic(auto, using(crate::proofs::NameLaws::gathered_none, crate::proofs::NameLaws::gathered_next, crate::proofs::NameLaws::gathered_all))]
pub fn shared_mask(plan: &[u8], owned: &[u64; 16], i: usize) -> u64
    requires laid { Laid plan.now }
    requires i_bound { (i < interactions plan.now) × Owned plan.now owned.now }
    ensures { (v : ℕ) → bit result v ≡ shared_in plan.now i v }
{
    let at = records::interaction_at(plan, i);
    let mut mask = 0;
    for c in 0..16 {
        mask |= part(plan[at + c], owned[c]);
    }
    mask
}

// All the plan's variables.
#[tactic(auto, unfolding(semantics::specs::Code::declared))]
pub fn all_mask(plan: &[u8]) -> u64
    requires { Laid plan.now }
    ensures { (v : ℕ) → bit result v ≡ declared plan.now v }
{
    bits::first_bits(header::variables(plan))
}
