// A stack of fixed capacity that lies in the value itself.
#![tactic(auto)]

ghost use Rattle.std.specs.Prelude.{◌≡◌, ◌-◌, ◌<◌, ◌≤◌, [], ◌∷◌, ◌++◌, ◌↔◌, length, take, IsSome};
ghost use Rattle.std.specs.Option.{option_to_list};

use std::marker::Model;
use std::ops::DerefSlice;

// Beside the kit's ArrayVec, which writes a blank over each place that it gives back: in a walk, for each row.
#[derive(Drop)]
pub struct FixedStack<T, const CAPACITY: usize> {
    places: [T; CAPACITY],
    len: usize,
}

impl<T, const CAPACITY: usize> Model for FixedStack<T, CAPACITY> {
    ghost use Rattle.std.specs.Prelude.{◌≡◌, ◌≤◌, List, length, take};

    ghost Value = { List T };

    ghost view = { λ s. take s.len s.places };

    ghost invariant = { λ s. (s.len ≤ CAPACITY) × (length s.places ≡ CAPACITY) };
}

impl<T: Default, const CAPACITY: usize> FixedStack<T, CAPACITY> {
    // An empty stack.
    pub fn new() -> FixedStack<T, CAPACITY>
        ensures { result ≡ [] }
    {
        FixedStack {
            places: Default::default(),
            len: 0,
        }
    }
}

// What is on the stack, the top last.
impl<T, const CAPACITY: usize> DerefSlice for FixedStack<T, CAPACITY> {
    type Elem = T;

    ghost deref_gives = { λ s xs. (xs ≡ s) × (length xs ≤ CAPACITY) };

    fn deref(&self) -> &[T] {
        &self.places[..self.len]
    }
}

impl<T, const CAPACITY: usize> FixedStack<T, CAPACITY> {
    // How many there are.
    pub fn len(&self) -> usize
        ensures { result ≡ length self.now }
    {
        self.len
    }
}

impl<T: Copy, const CAPACITY: usize> FixedStack<T, CAPACITY> {
    // Puts one on the top.
    pub fn push(&mut self, item: T)
        requires { length self.old < CAPACITY }
        ensures { self.new ≡ self.old ++ item ∷ [] }
    {
        self.places[self.len] = item;
        self.len += 1;
    }

    // Takes the top away, where there is one.
    pub fn pop(&mut self) -> Option<T>
        ensures variant { IsSome result ↔ (0 < length self.old) }
        ensures items { self.old ≡ self.new ++ option_to_list result }
    {
        let top = self.last().copied()?;
        self.len -= 1;
        Some(top)
    }

    // Takes away all but the first ones.
    pub fn truncate(&mut self, len: usize)
        ensures { self.new ≡ take len self.old }
    {
        self.len = self.len.min(len);
    }
}
