// A list of bytes.
ghost use Rattle.std.specs.Prelude.{◌≡◌, [], ◌++◌, length, replicate, OnOk, OnErr, IfOk};
ghost use Rattle.std.specs.Borrow.{sem};
ghost use Rattle.nand_model.specs.Lending.{LendsBytes};

use std::alloc::{AllocError, Global};
use std::marker::Model;

/// A list of bytes: the body, the free bytes or the cells of a page, the states of blocks, or text.
#[derive(Drop)]
pub struct Bytes {
    items: Vec<u8>,
}

impl Model for Bytes {
    ghost use Rattle.std.specs.Prelude.{List, ℕ};

    ghost Value = { List ℕ };

    ghost view = { λ b. b.items.items };
}

impl Bytes {
    /// `len` times this byte.
    pub fn filled(alloc: Global, byte: u8, len: usize) -> Result<Bytes, AllocError>
        ensures { IfOk result (λ b. b ≡ replicate len byte) }
    {
        Ok(Bytes {
            items: vec![in alloc; byte; len]?,
        })
    }

    /// No bytes, with room for so many.
    pub fn with_room(alloc: Global, len: usize) -> Result<Bytes, AllocError>
        ensures { IfOk result (λ b. b ≡ []) }
    {
        Ok(Bytes {
            items: Vec::with_capacity(alloc, len)?,
        })
    }

    /// A copy of these bytes.
    pub fn from_slice(alloc: Global, from: &[u8]) -> Result<Bytes, AllocError>
        ensures { IfOk result (λ b. b ≡ from.now) }
    {
        Ok(Bytes {
            items: from.to_vec(alloc)?,
        })
    }

    /// Adds these bytes at the end. Where memory runs out, the list is as before.
    pub fn push_slice(&mut self, from: &[u8]) -> Result<(), AllocError>
        ensures ok { OnOk result (self.new ≡ self.old ++ from.now) }
        ensures err { OnErr result (self.new ≡ self.old) }
    {
        self.items.extend_from_slice(from)
    }

    /// Takes the bytes out; their room stays.
    pub fn clear(&mut self)
        ensures { self.new ≡ [] }
    {
        self.items.clear();
    }

    /// Lends the bytes.
    pub fn as_slice(&self) -> &[u8]
        ensures { result.now ≡ self.now }
    {
        &self.items
    }

    /// Lends the bytes for writing.
    pub fn as_mut_slice(&mut self) -> &mut [u8]
        ensures* writes_back { sem 𝓛 (LendsBytes self.entry result) }
        ensures value { result.now ≡ self.old }
    {
        self.items.as_mut_slice()
    }
}
