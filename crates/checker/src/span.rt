// The checker of a span: which words may stand in it, and how deep the stack is after each.
ghost use Rattle.std.specs.Prelude.{◌≡◌, ◌+◌, ◌/◌, ◌%◌, ◌≤◌, ◌<◌, cond, ◌||◌, [], ◌∷◌, length, ltb, eqb};
ghost use Rattle.std.proofs.Math.Option.{some};
ghost use Rattle.semantics.specs.Bytes.{bit, all_of};
ghost use Rattle.semantics.specs.Plan.{no_port, components, code_words, locations, ports, span_at};
ghost use Rattle.semantics.specs.Code.{decode, operator_pops, operator_pushes, depth_after, deeper, depth, final_depth, ends_at, span_ok};
ghost use Rattle.layout.specs.Laid.{Laid};
ghost use Rattle.checker.specs.Depth.{held, role_of};

use code::word;
use layout::{header, records};
use words::bits;

// 01 names the constant tables. What operator n pops and pushes: 0 add, 1 subtract, 2 equal, 3 at least, 4 and, 5 or, 6 not, 7 implies.
static POPS: [u8; 8] = [2, 2, 2, 2, 2, 2, 1, 2];

static PUSHES: [u8; 8] = [1, 1, 1, 1, 1, 1, 1, 1];

// The depth after a word that is allowed or not, needs so many values and gives so many; none where a rule is broken.
#[tactic(auto, unfolding(semantics::specs::Code::depth_after, semantics::specs::Bytes::all_of))]
fn depth_after(ok: bool, need: usize, give: usize, d: usize) -> Option<usize>
    requires { (d ≤ 8) × (give < 256) }
    ensures { result ≡ held (depth_after ok need give d) }
{
    if ok && need <= d && d - need + give <= 8 {
        Some(d - need + give)
    } else {
        None
    }
}

// The depth after operator n.
#[tactic(auto, unfolding(semantics::specs::Code::depth_after, semantics::specs::Bytes::all_of, semantics::specs::Code::operator_pops, semantics::specs::Code::operator_pushes))]
fn operator(n: usize, d: usize) -> Option<usize>
    requires { d ≤ 8 }
    ensures { result ≡ held (depth_after (ltb n 8) (operator_pops n) (operator_pushes n) d) }
{
    if n >= 8 {
        return None;
    }
    depth_after(true, usize::from(POPS[n]), usize::from(PUSHES[n]), d)
}

// The rules that the words of a span keep: the plan that they stand in, whether they may store (kind 3) and look at locations and last ports (kinds 4 and 5), and
// the variables that they may name.
#[derive(Clone, Copy)]
struct Rules<'a> {
    plan: &'a [u8],
    stores: bool,
    looks: bool,
    names: u64,
    ghost laid: { Laid plan.now },
}

impl Rules<'_> {
    // Whether variable n may be named.
    fn named(&self, n: usize) -> bool
        ensures { result ≡ bit self.now.names n }
    {
        let names = self.names;
        n < 64 && bits::bit(names, n)
    }

    // Whether kind 4 may ask for the location n % 256 of component n / 256.
    #[tactic(auto, unfolding(semantics::specs::Bytes::all_of))]
    fn may_ask_place(&self, n: usize) -> bool
        ensures { let p = self.now.plan.now in result ≡ all_of (self.now.looks ∷ ltb (n / 256) (components p) ∷ ltb (n % 256) (locations p (n / 256)) ∷ []) }
    {
        let c = n >> 8;
        self.looks
            && c < header::components(self.plan)
            && (n & 255) < usize::from(self.plan[records::component_at(self.plan, c)])
    }

    // Whether kind 5 may ask for the last port n % 256 of component n / 256, or for none yet.
    #[tactic(auto, unfolding(semantics::specs::Bytes::all_of))]
    fn may_ask_port(&self, n: usize) -> bool
        ensures { let p = self.now.plan.now in result ≡ all_of (self.now.looks ∷ ltb (n / 256) (components p) ∷ (eqb (n % 256) no_port || ltb (n % 256) (ports p (n / 256))) ∷ []) }
    {
        let c = n >> 8;
        let q = n & 255;
        self.looks
            && c < header::components(self.plan)
            && (q == 255)
                | (q < usize::from(self.plan[records::component_at(self.plan, c) + records::PORTS]))
    }

    // The depth after a word of the kinds 0 to 5. The top four bits are the kind: in hexadecimal the first digit. A tree of matches, three arms at most, since
    // more would become a jump through a table.
    #[tactic(auto, using(words::proofs::TestLaws::both_hold), unfolding(semantics::specs::Code::decode, semantics::specs::Code::instruction, semantics::specs::Code::deeper, semantics::specs::Code::allowed, semantics::specs::Code::pops, semantics::specs::Code::pushes))]
    fn by_kind(&self, d: usize, w: u16) -> Option<usize>
        requires { (d ≤ 8) × (w < 24576) }
        ensures { let r = self.now in result ≡ held (deeper r.plan.now (role_of r.stores r.looks) (bit r.names) (decode w) (some d)) }
    {
        let n = usize::from(word::operand(w));
        match w {
            ..=0x1fff => match w {
                ..=0x0fff => depth_after(true, 0, 1, d),
                _ => depth_after(true, 1, 1, d),
            },
            0x2000..=0x3fff => match w {
                ..=0x2fff => depth_after(self.named(n), 0, 1, d),
                _ => depth_after(self.stores & self.named(n), 1, 0, d),
            },
            _ => match w {
                ..=0x4fff => depth_after(self.may_ask_place(n), 0, 1, d),
                _ => depth_after(self.may_ask_port(n), 0, 1, d),
            },
        }
    }

    // The depth after a word: of the kinds 0 to 5, an operator (kind 6), or unknown, the operators past 7 and the kinds 7 to 15.
    #[tactic(auto, unfolding(semantics::specs::Code::decode, semantics::specs::Code::instruction, semantics::specs::Code::deeper, semantics::specs::Code::allowed, semantics::specs::Code::pops, semantics::specs::Code::pushes))]
    fn deepen(&self, d: usize, w: u16) -> Option<usize>
        requires { d ≤ 8 }
        ensures { let r = self.now in result ≡ held (deeper r.plan.now (role_of r.stores r.looks) (bit r.names) (decode w) (some d)) }
    {
        match w {
            0..=0x5fff => self.by_kind(d, w),
            0x6000..=0x6007 => operator(usize::from(w - 0x6000), d),
            0x6008..=0xffff => None,
        }
    }

    // The depth after the words from a start on.
    #[tactic(auto, unfolding(semantics::specs::Code::depth))]
    fn depth(&self, start: usize, size: usize) -> Option<usize>
        requires { start + size ≤ code_words self.now.plan.now }
        ensures { let r = self.now in result ≡ held (depth r.plan.now (role_of r.stores r.looks) (bit r.names) start size) }
    {
        let mut d = 0;
        for i in 0..size {
            d = self.deepen(d, records::word_at(self.plan, start + i))?;
        }
        Some(d)
    }

    // The depth at which a span ends.
    #[tactic(auto, unfolding(semantics::specs::Code::final_depth))]
    fn final_depth(&self) -> usize
        ensures { result ≡ final_depth (role_of self.now.stores self.now.looks) }
    {
        if self.stores { 0 } else { 1 }
    }

    // Whether the words from a start on keep the rules and end at the depth that they must.
    fn words_ok(&self, start: usize, size: usize) -> bool
        requires { start + size ≤ code_words self.now.plan.now }
        ensures { let r = self.now in let role = role_of r.stores r.looks in result ≡ ends_at (final_depth role) (depth r.plan.now role (bit r.names) start size) }
    {
        self.depth(start, size) == Some(self.final_depth())
    }
}

// Whether the span at a place of the plan keeps the rules. In line, so that an empty span costs no call.
#[tactic(auto, unfolding(semantics::specs::Bytes::all_of, semantics::specs::Code::span_ok))]
#[inline(always)]
pub fn span_ok(plan: &[u8], stores: bool, looks: bool, names: u64, at: usize) -> bool
    requires laid { Laid plan.now }
    requires at_in_bounds { at + 4 ≤ length plan.now }
    ensures { result ≡ span_ok plan.now (record { stores = stores; looks = looks }) (bit names) (span_at plan.now at) }
{
    let start = records::span_start(plan, at);
    let size = records::span_size(plan, at);
    if size > 64 || start + size > header::code_words(plan) {
        return false;
    }
    if size == 0 {
        return !looks;
    }
    Rules {
        plan,
        stores,
        looks,
        names,
    }
    .words_ok(start, size)
}
