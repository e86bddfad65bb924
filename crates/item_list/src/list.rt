// A list of items in order, over a deque.
ghost use Rattle.std.specs.Borrow.{sem, Lends, Array};
ghost use Rattle.std.specs.List.{refill};
ghost use Rattle.std.specs.Iterator.Runs.{YieldsRefsInOrder};
ghost use Rattle.std.specs.VecDeque.Iter.{deque_iter_rest, deque_iter_steps};
ghost use Rattle.item_list.specs.contracts.list.ItemList.{the_row as list_row};
ghost use Rattle.std.specs.Prelude.{◌≡◌, [], ◌∷◌, ◌++◌, ◌<◌, ◌↔◌, length, slice_get, IsSome, IfSome, OnOk, IfErr, IfNone, OnErr};

use std::alloc::{AllocError, Global};
use std::collections::{VecDeque, vec_deque};
use std::marker::Model;

/// A list of items in order.
#[derive(Drop)]
pub struct ItemList<T> {
    items: VecDeque<T>,
}

impl<T> Model for ItemList<T> {
    ghost use Rattle.std.specs.Prelude.{List};

    ghost Value = { List T };

    ghost view = { λ l. l.items.items };
}

impl<T> ItemList<T> {
    /// An empty list, which takes no memory.
    pub fn new(alloc: Global) -> Self
        ensures { result ≡ [] }
    {
        ItemList {
            items: VecDeque::new(alloc),
        }
    }

    /// The list of a vector's items, in its memory.
    pub fn from_vec(items: Vec<T>) -> Self
        ensures { result ≡ items.items }
    {
        ItemList {
            items: VecDeque::from(items),
        }
    }

    /// The vector of the list's items, in its memory.
    pub fn into_vec(self) -> Vec<T>
        ensures { result.items ≡ self }
    {
        Vec::from(self.items)
    }

    /// Adds an item at the end. Where memory runs out, the item is handed back and the list is as
    /// before.
    pub fn push(&mut self, item: T) -> Result<(), (T, AllocError)>
        ensures ok { OnOk result (self.new ≡ self.old ++ item ∷ []) }
        ensures err { OnErr result (self.new ≡ self.old) }
        ensures handed_back { IfErr result (λ e. e.0 ≡ item) }
    {
        match self.items.push_back(item) {
            Ok(()) => Ok(()),
            Err(refused) => Err((refused.value, AllocError)),
        }
    }

    /// Takes the first item out. None comes exactly where the list is empty.
    pub fn take_first(&mut self) -> Option<T>
        ensures some { IsSome result ↔ (0 < length self.old) }
        ensures taken { IfSome result (λ first. self.old ≡ first ∷ self.new) }
        ensures none { IfNone result (self.new ≡ self.old) }
    {
        self.items.pop_front()
    }

    /// The number of items.
    pub fn len(&self) -> usize
        ensures { result ≡ length self.now }
    {
        self.items.len()
    }

    /// Lends the item at place `n`, counted from 0.
    pub fn get(&self, n: usize) -> &T
        requires { n < length self.now }
        ensures { slice_get self.now n ≡ Some result.now }
    {
        &self.items[n]
    }

    /// Lends the items in order.
    pub fn iter(&self) -> vec_deque::Iter<'_, T>
        ensures rest { deque_iter_rest result ≡ self.now }
        ensures runs { YieldsRefsInOrder (deque_iter_steps {X = T}) deque_iter_rest }
    {
        self.items.iter()
    }

    /// Lends all items for writing.
    pub fn as_mut_slice(&mut self) -> &mut [T]
        ensures* writes_back { sem 𝓛
            (Lends (list_row T.row) (Array T.row 0) self.entry result
            (refill (length self.old) self.old)) }
        ensures value { result.now ≡ self.old }
    {
        self.items.make_contiguous()
    }
}

impl<T: Drop> ItemList<T> {
    /// Adds an item at the end. Where memory runs out, the item is dropped and the list is as
    /// before.
    pub fn append(&mut self, item: T) -> Result<(), AllocError>
        ensures ok { OnOk result (self.new ≡ self.old ++ item ∷ []) }
        ensures err { OnErr result (self.new ≡ self.old) }
    {
        match self.items.push_back(item) {
            Ok(()) => Ok(()),
            Err(_) => Err(AllocError),
        }
    }
}

impl<'a, T> IntoIterator for &'a ItemList<T> {
    type Item = &'a T;

    type IntoIter = vec_deque::Iter<'a, T>;

    ghost into_iter_gives = { λ list it. deque_iter_rest it ≡ list.now };

    fn into_iter(self) -> Self::IntoIter {
        self.iter()
    }
}
