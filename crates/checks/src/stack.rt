// The rows that are open while rows are checked.
ghost use Rattle.std.specs.Prelude.{◌≡◌, ◌<◌, ◌≤◌, [], length, Some, OnOk};
ghost use Rattle.std.specs.List.{list_any};
ghost use Rattle.hir.specs.Refusals.{answered};
ghost use Rattle.reactive.specs.Codes.{code_number};
ghost use Rattle.checks.specs.Grammar.{lacking};
ghost use Rattle.checks.specs.Rows.{wrong_depth, closing, placed, opened, unplaced, ended};

use crate::grammar::{Places, children};
use fixed_stack::FixedStack;
use hir::refusal::Refusal;
use hir::span::MOST_OPEN;
use reactive::code::Code;
use std::marker::Model;

// The open rows, outermost first, each as the places that it has left.
#[derive(Drop)]
pub struct Stack {
    rows: FixedStack<Places, MOST_OPEN>,
}

impl Model for Stack {
    ghost use Rattle.std.specs.Prelude.{map, reverse};
    ghost use Rattle.checks.specs.Grammar.{slots};
    ghost use Rattle.checks.specs.Rows.{Open};

    ghost Value = { Open };

    ghost view = { λ s. reverse (map slots s.rows) };
}

impl Stack {
    // No open row.
    pub fn new() -> Stack
        ensures { result ≡ [] }
    {
        Stack {
            rows: FixedStack::new(),
        }
    }

    // Whether a row may not have this depth: row 0 has depth 0, a later one lies in it, at most one deeper than the row before.
    fn wrong_depth(&self, depth: usize) -> bool
        ensures { result ≡ wrong_depth self.now depth }
    {
        let height = self.rows.len();
        depth > height || (depth == 0 && height > 0)
    }

    // Whether a row that one of this depth closes lacks a child. By a loop: a proof for `any` was tried and did not close.
    fn lacks(&self, depth: usize) -> bool
        requires { depth ≤ length self.now }
        ensures { result ≡ list_any lacking (closing self.now depth) }
    {
        for places in &self.rows[depth..] {
            if places.lack() {
                return true;
            }
        }
        false
    }

    // Puts a row of this code within the open rows, where it has its place there.
    fn place(&mut self, code: Code) -> Result<(), Refusal>
        requires { length self.old < 128 }
        ensures value { result ≡ answered (unplaced (placed self.old (code_number code))) tt }
        ensures rows { OnOk result (placed self.old (code_number code) ≡ Some self.new) }
    {
        match self.rows.pop() {
            Some(places) => {
                let Some(rest) = places.follow(code) else {
                    return Err(Refusal::Shape);
                };
                self.rows.push(rest);
            }
            None if code != Code::Block => return Err(Refusal::Shape),
            None => {}
        }
        self.rows.push(children(code));
        Ok(())
    }

    // Opens a row, where its depth and code and the children of the rows that it closes are right.
    pub fn enter(&mut self, depth: usize, code: Code) -> Result<(), Refusal>
        requires { depth < 128 }
        ensures value { result ≡ answered (unplaced (opened self.old depth (code_number code))) tt }
        ensures rows { OnOk result (opened self.old depth (code_number code) ≡ Some self.new) }
    {
        if self.wrong_depth(depth) || self.lacks(depth) {
            return Err(Refusal::Shape);
        }
        self.rows.truncate(depth);
        self.place(code)
    }

    // Refuses where there is no row at all, or an open one lacks a child.
    pub fn finish(&self) -> Result<(), Refusal>
        ensures { result ≡ answered (ended self.now) tt }
    {
        if self.rows.is_empty() || self.lacks(0) {
            return Err(Refusal::Shape);
        }
        Ok(())
    }
}
