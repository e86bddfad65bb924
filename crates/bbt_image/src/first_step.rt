// The first step of a page by itself: a page's code tells how many steps of a page fail, and not
// which.
ghost use Rattle.std.specs.Prelude.{◌≡◌, ◌≤◌, ℕ, List, ◌++◌, length, take, drop, slice_range, is_some};
ghost use Rattle.nand_model.specs.Page.{step_read};
ghost use Rattle.nand_model.specs.Sizes.{raw_len};
ghost use Rattle.bbt_image.specs.FirstStep.{HasFirstStepAlone};

use nand_iface::PageCode;
use nand_model::Geometry;

// Makes a page that has the first step of another one, and is erased elsewhere.
pub(crate) fn put_first_step(g: &Geometry, image: &[u8], alone: &mut [u8])
    requires page { length image.now ≡ raw_len g.now }
    requires room { length alone.old ≡ raw_len g.now }
    ensures step { HasFirstStepAlone g.now image.now alone.new }
    ensures long { length alone.new ≡ raw_len g.now }
{
    let start = (g.page + g.parity_start()) as usize;
    let end = start + g.parity_len() as usize;
    alone.fill(0xff);
    copy_part(image, alone, 0, 512);
    copy_part(image, alone, start, end);
}

// Copies the bytes from `start` up to but not including `end` of a page to the same place of another
// one.
fn copy_part(from: &[u8], to: &mut [u8], start: usize, end: usize)
    requires order { start ≤ end }
    requires within { end ≤ length from.now }
    requires same { length to.old ≡ length from.now }
    ensures { to.new ≡ take start to.old ++ slice_range from.now start end ++ drop end to.old }
{
    to[start..end].copy_from_slice(&from[start..end]);
}

// Whether the first step of a page can be decoded, by a page that has it alone.
pub(crate) fn is_first_step_readable<C: PageCode>(g: &Geometry, code: &C, alone: &mut [u8]) -> bool
    requires { length alone.old ≡ raw_len g.now }
    ensures { (image : List ℕ) → HasFirstStepAlone g.now image alone.old
        → result ≡ is_some (step_read g.now image 0).corrected }
{
    code.decode(g, alone).failed == 0
}
