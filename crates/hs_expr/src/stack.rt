//! Stacks that contracts see as lists, the top first.

ghost use Rattle.std.specs.Prelude.{◌≡◌, ◌∷◌, [], List, OnOk, OnErr, MatchOption, reverse};

use crate::List;
use std::alloc::{AllocError, Global};
use std::marker::Model;
use std::mem;

/// A stack that contracts see as its items, the top first.
#[derive(Debug, Drop)]
pub struct Stack<T> {
    inner: Vec<T>,
}

impl<T> Model for Stack<T> {
    ghost use Rattle.std.specs.Prelude.{List, reverse};
    ghost use Rattle.std.specs.Coded.{coded_list};

    ghost Value = { List T };

    ghost coded = { coded_list T.code };

    ghost view = { λ stack. reverse stack.inner.items };
}

impl<T> Stack<T> {
    pub fn new(alloc: Global) -> Stack<T>
        ensures { result ≡ [] }
    {
        Stack {
            inner: Vec::new(alloc),
        }
    }

    /// Puts an item on top. Out of memory, the stack is as before.
    #[tactic(auto, using(crate::proofs::Stacks::turned))]
    pub fn push(&mut self, item: T) -> Result<(), AllocError>
    where
        T: Drop,
        ensures ok { OnOk result (self.new ≡ item ∷ self.old) }
        ensures err { OnErr result (self.new ≡ self.old) }
    {
        self.inner.push(item)?;
        Ok(())
    }

    /// Takes the item on top.
    #[tactic(auto, using(crate::proofs::Stacks::turned))]
    pub fn pop(&mut self) -> Option<T>
        ensures { MatchOption result ((self.old ≡ []) × (self.new ≡ []))
            (λ item. self.old ≡ item ∷ self.new) }
    {
        self.inner.pop()
    }

    /// The item on top.
    pub fn top(&self) -> Option<T>
    where
        T: Copy,
        ensures { MatchOption result (self.now ≡ [])
            (λ item. (rest : List T) × (self.now ≡ item ∷ rest)) }
    {
        self.inner.as_slice().last().copied()
    }

    /// Takes all items, the bottom first.
    #[tactic(auto, using(crate::proofs::Stacks::turned))]
    pub fn take(&mut self, alloc: Global) -> List<T>
        ensures items { result ≡ reverse self.old }
        ensures emptied { self.new ≡ [] }
    {
        List::from_vec(mem::replace(&mut self.inner, Vec::new(alloc)))
    }

    /// The items from the top on, without taking memory.
    pub fn into_vec(self) -> Vec<T>
        ensures { result.items ≡ self }
    {
        let Stack { mut inner } = self;
        inner.reverse();
        inner
    }
}
