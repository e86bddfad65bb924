// Whether a chip is quiet, block by block.
ghost use Rattle.std.specs.Prelude.{◌≡◌, ◌≤◌, ◌<◌, ◌+◌, ◌^◌, ◌&&◌, ◌==◌, nat_le, not, true};
ghost use Rattle.chip_paths.specs.Writing.{count_if};
ghost use Rattle.nand_model.specs.Quiet.{has_no_flip_in, is_correctable, is_quiet_table_page, word_flips};
ghost use Rattle.nand_model.specs.Sizes.{first_page, page_count, step_count};
ghost use Rattle.chip_core.specs.Quiet.{is_quiet_block, unquiet_count};

use crate::table_pages::is_table_block;
use nand_iface::Flash;
use nand_model::Geometry;

/// What an attach keeps of the quiet of its chip.
#[derive(Debug, Drop)]
pub struct QuietWatch {
    /// How many blocks are not quiet now.
    pub unquiet: u32,
    /// Whether the chip was quiet just before each event so far.
    pub so_far: bool,
}

impl QuietWatch {
    /// Looks at each block of a chip, before the first event of its attach.
    pub fn start<F: Flash>(flash: &F, g: &Geometry) -> QuietWatch
        requires { (F.state flash.now).geometry ≡ g.now }
        ensures unquiet { result.unquiet ≡ unquiet_count g.now (F.state flash.now).pages }
        ensures so_far { result.so_far ≡ true }
    {
        let mut unquiet = 0;
        for block in 0..g.blocks {
            if !block_is_quiet(flash, g, block) {
                unquiet += 1;
            }
        }
        QuietWatch {
            unquiet,
            so_far: true,
        }
    }

    /// An event comes next.
    pub fn event_comes(&mut self)
        ensures so_far { self.new.so_far ≡ (self.old.so_far && (self.old.unquiet == 0)) }
        ensures unquiet { self.new.unquiet ≡ self.old.unquiet }
    {
        self.so_far = self.so_far && self.unquiet == 0;
    }

    /// A block that was quiet or not was changed, and is quiet now or not.
    pub fn saw(&mut self, was: bool, is: bool)
        requires counted { count_if (not was) ≤ self.old.unquiet }
        requires few { self.old.unquiet ≤ 4096 }
        ensures unquiet { self.new.unquiet + count_if (not was)
            ≡ self.old.unquiet + count_if (not is) }
        ensures so_far { self.new.so_far ≡ self.old.so_far }
    {
        if !was {
            self.unquiet -= 1;
        }
        if !is {
            self.unquiet += 1;
        }
    }
}

/// Whether a block is quiet: its marker, and with tables the table page of one of the last four.
pub fn block_is_quiet<F: Flash>(flash: &F, g: &Geometry, block: u32) -> bool
    requires sizes { (F.state flash.now).geometry ≡ g.now }
    requires there { block < g.now.blocks }
    ensures { result ≡ is_quiet_block g.now (F.state flash.now).pages block }
{
    let page = block * g.pages_per_block;
    has_no_flip_in(flash, page, g.page, g.page + 1)
        && (!is_table_block(g, block) || table_page_is_quiet(flash, g, page))
}

// Whether a page has no flip since its last good erase in the bytes `from` up to but not including
// `to`.
fn has_no_flip_in<F: Flash>(flash: &F, page: u32, from: u32, to: u32) -> bool
    requires page { page < page_count (F.state flash.now).geometry }
    requires from { from ≤ 5000 }
    requires to { to ≤ 5000 }
    ensures { result ≡ has_no_flip_in ((F.state flash.now).pages page) from to }
{
    flash.flips(page, 8 * from, 8 * to) == 0
}

// Whether a page in which a table stands is quiet.
fn table_page_is_quiet<F: Flash>(flash: &F, g: &Geometry, page: u32) -> bool
    requires sizes { (F.state flash.now).geometry ≡ g.now }
    requires page { page < page_count g.now }
    ensures { result ≡ is_quiet_table_page g.now ((F.state flash.now).pages page) }
{
    (g.bbt != 1 || has_no_flip_in(flash, page, g.page + 8, g.page + 13))
        && is_correctable(flash, g, page)
        && (!flash.torn(page) || !flash.flipped_since(page))
}

// Whether the word of each step of a page has at most as many flips as the code corrects.
fn is_correctable<F: Flash>(flash: &F, g: &Geometry, page: u32) -> bool
    requires sizes { (F.state flash.now).geometry ≡ g.now }
    requires page { page < page_count g.now }
    ensures { result ≡ is_correctable g.now ((F.state flash.now).pages page) }
{
    for step in 0..g.steps() {
        if !step_is_correctable(flash, g, page, step) {
            return false;
        }
    }
    true
}

// Whether the word of a step has at most as many flips as the code corrects.
fn step_is_correctable<F: Flash>(flash: &F, g: &Geometry, page: u32, step: u32) -> bool
    requires sizes { (F.state flash.now).geometry ≡ g.now }
    requires page { page < page_count g.now }
    requires step { step < step_count g.now }
    ensures { result ≡ nat_le (word_flips g.now ((F.state flash.now).pages page).flips step)
        g.now.t }
{
    let parity = 8 * (g.page + g.parity_start() + step * g.parity_len());
    let in_body = flash.flips(page, 4096 * step, 4096 * (step + 1));
    let in_parity = flash.flips(page, parity, parity + 13 * g.t);
    in_body <= g.t && in_parity <= g.t - in_body
}
