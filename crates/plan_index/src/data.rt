// Where data stand, by their NAME.
ghost use Rattle.std.specs.Prelude.{◌≡◌, ◌+◌, ◌≤◌, ◌∷◌, ◌++◌, [], List, length, None, OnOk};
ghost use Rattle.std.specs.Option.{option_copied};
ghost use Rattle.plan_grammar.specs.declared.lines.DataLine.{DataLine as Data};
ghost use Rattle.plan_grammar.specs.Devices.{data_length};
ghost use Rattle.plan_index.specs.Data.{AreData, place_of};

use std::alloc::{AllocError, Global};
use std::collections::BTreeMap;

/// Where data stand, and how many bytes they are.
#[derive(Clone, Copy)]
pub struct DataPlace {
    /// Their place among the lines of data.
    pub place: usize,
    /// Their bytes.
    pub len: u32,
}

/// What is kept of the lines of data.
#[derive(Drop)]
pub struct DataIndex {
    /// Where they stand, by NAME.
    pub places: BTreeMap<Vec<u8>, DataPlace>,
    /// The bytes of all data.
    pub total: u32,
}

impl DataIndex {
    /// Of no lines. It takes no memory.
    pub fn new(alloc: Global) -> DataIndex
        ensures { AreData [] result }
    {
        DataIndex {
            places: BTreeMap::new(alloc),
            total: 0,
        }
    }

    /// Where the data of a NAME stand. None comes exactly where there are none.
    pub fn find(&self, name: &[u8]) -> Option<&DataPlace>
        ensures { (payloads : List Data) → AreData payloads self.now
            → option_copied result ≡ place_of payloads name.now }
    {
        self.places.get(name)
    }

    /// Adds data of a new NAME, which stand behind so many others.
    pub fn add(&mut self, alloc: Global, name: &[u8], at: DataPlace) -> Result<(), AllocError>
        requires { self.old.total + at.len ≤ 16777216 }
        ensures { OnOk result ((payloads : List Data) (payload : Data) → AreData payloads self.old
            → payload.name ≡ name.now → data_length payload ≡ at.len → at.place ≡ length payloads
            → place_of payloads name.now ≡ None → AreData (payloads ++ payload ∷ []) self.new) }
    {
        let mut key = Vec::new(alloc);
        key.extend_from_slice(name)?;
        self.places.insert(key, at)?;
        self.total += at.len;
        Ok(())
    }
}
