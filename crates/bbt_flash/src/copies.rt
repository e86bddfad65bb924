// The two copies of a table: their places, which of them are whole and which are still to be
// written.
ghost use Rattle.std.specs.Prelude.{◌≡◌};
ghost use Rattle.chip_paths.specs.Writing.{other_of, whole_count, with_place, with_whole};

use nand_model::Which;

/// The blocks of the two copies of a table.
#[derive(Clone, Copy, Debug, PartialEq, Eq)]
pub struct Places {
    /// The block of the primary copy.
    pub primary: u32,
    /// The block of the mirror copy.
    pub mirror: u32,
}

/// Which of the two copies are whole.
#[derive(Clone, Copy, Debug, PartialEq, Eq)]
pub struct WholeCopies {
    pub primary: bool,
    pub mirror: bool,
}

/// The copies that are still to be written.
#[derive(Clone, Copy, Debug, PartialEq, Eq)]
pub enum CopiesLeft {
    /// None is left.
    Nothing,
    /// This one.
    Last(Which),
    /// Both, this one first.
    Both { first: Which },
}

/// The other one of the two copies.
pub fn other_of(which: Which) -> Which
    ensures { result ≡ other_of which }
{
    match which {
        Which::Primary => Which::Mirror,
        Which::Mirror => Which::Primary,
    }
}

impl Places {
    ghost use Rattle.bbt_flash.specs.Copies.{places_in};

    /// Changes the block of a copy.
    pub fn set(&mut self, which: Which, block: u32)
        ensures { places_in self.new ≡ with_place (places_in self.old) which block }
    {
        match which {
            Which::Primary => self.primary = block,
            Which::Mirror => self.mirror = block,
        }
    }
}

impl WholeCopies {
    ghost use Rattle.bbt_flash.specs.Copies.{whole_in};

    /// Changes whether a copy is whole.
    pub fn set(&mut self, which: Which, is_whole: bool)
        ensures { whole_in self.new ≡ with_whole (whole_in self.old) which is_whole }
    {
        match which {
            Which::Primary => self.primary = is_whole,
            Which::Mirror => self.mirror = is_whole,
        }
    }

    /// The number of whole copies.
    pub fn count(&self) -> u32
        ensures { result ≡ whole_count (whole_in self.now) }
    {
        match (self.primary, self.mirror) {
            (true, true) => 2,
            (false, false) => 0,
            _ => 1,
        }
    }
}
