// Memory for pages that have no cells yet.
ghost use Rattle.std.specs.Prelude.{◌≡◌, ◌<◌, ◌≤◌, ◌+◌, OnOk};
ghost use Rattle.chip_sim.specs.Blanks.{blank_cells};

use nand_model::Bytes;
use std::alloc::{AllocError, Global};
use std::marker::Model;

/// A store of erased pages. Contracts see it as the bytes of a page and the number of pages that
/// are left.
#[derive(Drop)]
pub struct BlankPages {
    raw_len: usize,
    pages: Vec<Bytes>,
}

impl Model for BlankPages {
    ghost use Rattle.std.specs.Prelude.{◌≡◌, All, vec_len};
    ghost use Rattle.chip_sim.specs.Blanks.{BlanksLeft, blank_cells};

    ghost Value = { BlanksLeft };

    ghost view = { λ b. record { raw = b.raw_len; left = vec_len b.pages } };

    ghost invariant = { λ b. All (λ cells. cells ≡ blank_cells b.raw_len) b.pages.items };
}

impl BlankPages {
    /// An empty store of pages of `raw_len` bytes, which takes no memory.
    pub fn new(alloc: Global, raw_len: usize) -> BlankPages
        ensures { result ≡ record { raw = raw_len; left = 0 } }
    {
        BlankPages {
            raw_len,
            pages: Vec::new(alloc),
        }
    }

    /// Takes memory until there are `pages` pages.
    pub fn reserve(&mut self, pages: usize) -> Result<(), AllocError>
        ensures raw { self.new.raw ≡ self.old.raw }
        ensures room { OnOk result (pages ≤ self.new.left) }
        ensures no_less { self.old.left ≤ self.new.left }
    {
        let alloc = *self.pages.allocator();
        for _ in self.pages.len()..pages {
            self.pages.push(Bytes::filled(alloc, 0xff, self.raw_len)?)?;
        }
        Ok(())
    }

    /// Takes a page out.
    pub fn take(&mut self) -> Bytes
        requires { 0 < self.old.left }
        ensures blank { result ≡ blank_cells self.old.raw }
        ensures raw { self.new.raw ≡ self.old.raw }
        ensures left { self.old.left ≡ self.new.left + 1 }
    {
        self.pages.pop().unwrap()
    }
}
