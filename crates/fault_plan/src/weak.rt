// The weak places of a chip.
ghost use Rattle.std.specs.Prelude.{◌≡◌, ◌++◌, ◌∷◌, [], ◌<◌, length, slice_get, OnOk, OnErr};

use nand_model::Weak;
use std::alloc::{AllocError, Global};
use std::marker::Model;

/// The weak places of a chip, in the order of the plan's lines. Contracts see it as their list.
#[derive(Drop)]
pub struct WeakList {
    places: Vec<Weak>,
}

impl Model for WeakList {
    ghost use Rattle.std.specs.Prelude.{List};
    ghost use Rattle.nand_model.specs.declared.words.Weak.{Weak as Place};

    ghost Value = { List Place };

    ghost view = { λ w. w.places.items };
}

impl WeakList {
    /// No weak place. It takes no memory.
    pub fn new(alloc: Global) -> WeakList
        ensures { result ≡ [] }
    {
        WeakList {
            places: Vec::new(alloc),
        }
    }

    /// Adds a weak place at the end. Where memory runs out, all is as before.
    pub fn push(&mut self, weak: Weak) -> Result<(), AllocError>
        ensures ok { OnOk result (self.new ≡ self.old ++ weak ∷ []) }
        ensures err { OnErr result (self.new ≡ self.old) }
    {
        self.places.push(weak)?;
        Ok(())
    }

    /// The number of weak places.
    pub fn len(&self) -> usize
        ensures { result ≡ length self.now }
    {
        self.places.len()
    }

    /// Lends the weak place at place `n` of the list, counted from 0.
    pub fn get(&self, n: usize) -> &Weak
        requires { n < length self.now }
        ensures { slice_get self.now n ≡ Some result.now }
    {
        &self.places[n]
    }
}
