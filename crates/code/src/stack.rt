// The evaluator's stack.
#![tactic(auto, using(arith::proofs::Signed32::back32, crate::proofs::StackHeld::stacking))]

ghost use Rattle.std.specs.Prelude.{◌≡◌, [], ◌∷◌, ◌≤◌, ◌<◌, length, drop, get_or};
ghost use Rattle.semantics.specs.Code.{top, operator_pops};
ghost use Rattle.code.specs.Held.{combined};

use crate::operators::operated;
use arith::tests;
use std::marker::Model;

// How deep the stack is, its top, and the values below it. Their array is lent: as a field it would hold depth and top in memory, and a guard takes 1.07 times as long.
#[derive(Drop)]
pub struct Stack<'a> {
    cells: &'a mut [i32; 8],
    depth: usize,
    top: i32,
}

impl<'a> Model for Stack<'a> {
    ghost use Rattle.std.specs.Prelude.{List, ℤ, ◌≤◌, ◌≡◌, length};
    ghost use Rattle.code.specs.Held.{held};

    ghost Value = { List ℤ };

    ghost view = { λ s. held s.cells.now s.depth s.top };

    ghost invariant = { λ s. (s.depth ≤ 8) × (length s.cells.now ≡ 8) };
}

impl<'a> Stack<'a> {
    // No value.
    #[tactic(auto, unfolding(crate::specs::Held::held))]
    pub fn new(cells: &'a mut [i32; 8]) -> Stack<'a>
        ensures { result ≡ [] }
    {
        Stack {
            cells,
            depth: 0,
            top: 0,
        }
    }

    // The stack with v on it.
    pub fn push(&mut self, v: i32)
        requires { length self.old < 8 }
        ensures { self.new ≡ v ∷ self.old }
    {
        self.cells[self.depth] = self.top;
        self.depth += 1;
        self.top = v;
    }

    // The stack without its top.
    pub fn pop(&mut self)
        requires { 0 < length self.old }
        ensures { self.new ≡ drop 1 self.old }
    {
        self.depth -= 1;
        self.top = self.cells[self.depth];
    }

    // The stack with v in the place of its top.
    pub fn put(&mut self, v: i32)
        requires { 0 < length self.old }
        ensures { self.new ≡ v ∷ drop 1 self.old }
    {
        self.top = v;
    }

    // The top.
    pub fn peek(&self) -> i32
        requires { 0 < length self.now }
        ensures { result ≡ top self.now }
    {
        self.top
    }

    // The stack after operator n. `not`, 6, replaces the top.
    #[tactic(auto, using(arith::proofs::Signed32::back32, crate::proofs::OperatorsHeld::not_held, crate::proofs::OperatorsHeld::operated_held, crate::proofs::StackHeld::stacking))]
    pub fn combine(&mut self, n: u16)
        requires { (n < 8) × (0 < length self.old) × (operator_pops n ≤ length self.old) }
        ensures { self.new ≡ combined n self.old }
    {
        match n {
            6 => self.top = tests::truth(!tests::holds(self.top)),
            _ => {
                self.depth -= 1;
                self.top = operated(n, self.cells[self.depth], self.top);
            }
        }
    }
}
