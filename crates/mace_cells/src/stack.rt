// Stacks of fixed room, so that nothing has to be asked for while a search runs.
ghost use Rattle.std.specs.Prelude.{◌≡◌, ◌<◌, List, [], ◌∷◌, IfOk, MatchOption, length};
ghost use Rattle.mace_cells.specs.Stacked.{stacked, rest_of, IsItemAt};

use std::alloc::{AllocError, Global};
use std::marker::Model;

/// A stack with room for so many items; contracts see the room and the items, the latest first.
#[derive(Drop)]
pub struct Stack<T> {
    // The earliest first.
    items: Vec<T>,
}

impl<T> Model for Stack<T> {
    ghost use Rattle.std.specs.Prelude.{reverse, vec_capacity};
    ghost use Rattle.mace_cells.specs.Stacked.{Stacked, coded_stacked};

    ghost Value = { Stacked T };

    ghost coded = { coded_stacked T.code };

    ghost view = { λ a. record {
      room = vec_capacity a.items;
      list = reverse a.items.items;
    } };
}

impl<T: Copy + Drop> Stack<T> {
    /// An empty stack with room for so many items.
    pub fn new(alloc: Global, room: usize) -> Result<Stack<T>, AllocError>
        ensures { IfOk result (λ s. s ≡ stacked room []) }
    {
        Ok(Stack {
            items: Vec::with_capacity(alloc, room)?,
        })
    }

    /// How many items there are.
    pub fn len(&self) -> usize
        ensures { result ≡ length self.now.list }
    {
        self.items.len()
    }

    /// The latest item.
    pub fn top(&self) -> Option<T>
        ensures { MatchOption result (self.now.list ≡ []) (λ x. (rest : List T)
            × (self.now.list ≡ x ∷ rest)) }
    {
        match self.items.last() {
            None => None,
            Some(item) => Some(*item),
        }
    }

    /// An item, the earliest being 0.
    pub fn get(&self, at: usize) -> T
        requires { at < length self.now.list }
        ensures { IsItemAt self.now.list at result }
    {
        self.items[at]
    }

    /// Puts an item on.
    pub fn push(&mut self, item: T)
        requires { length self.old.list < self.old.room }
        ensures { self.new ≡ stacked self.old.room (item ∷ self.old.list) }
    {
        self.items.push_reserved(item);
    }

    /// Takes the latest item off.
    pub fn pop(&mut self)
        requires { 0 < length self.old.list }
        ensures { self.new ≡ stacked self.old.room (rest_of self.old.list) }
    {
        let _latest = self.items.pop();
    }
}
