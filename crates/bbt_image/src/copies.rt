// What counts as a copy of a table.
ghost use Rattle.std.specs.Prelude.{◌≡◌, ◌≢◌, ◌↔◌, None, length, true, IfOk, OnOk, OnErr};
ghost use Rattle.nand_model.specs.Page.{decoded};
ghost use Rattle.nand_model.specs.Sizes.{raw_len};
ghost use Rattle.nand_model.specs.Table.{copy_in, has_tables};
ghost use Rattle.bbt_image.specs.Taking.{HasNoPattern, HoldsCopy, IsUnreadable, TellsKind};

use crate::NoCopy;
use crate::first_step::{is_first_step_readable, put_first_step};
use crate::header::{kind_in, table_in, version_in};
use crate::states::take_states;
use bbt_ram::BlockTable;
use nand_iface::PageCode;
use nand_model::{Geometry, Which};

// The bytes of the largest page with its spare.
const LARGEST_PAGE: usize = 4320;

/// Takes the copy of a table from a page as it was read raw: gives its kind and its version, and
/// replaces all states of the table. The page is decoded in its place.
///
/// With the header in the spare (`bbt` 1), `NoPattern` comes exactly where neither pattern stands
/// there as it was read. With the header in the body (`bbt` 2), it comes exactly where the first
/// step can be decoded and neither pattern then stands at its head. `Unreadable` comes exactly where
/// some step cannot be decoded and `NoPattern` does not come. After a refusal the table is
/// unchanged, and nothing is said of the bytes of the page. The page has `raw_len` bytes. No memory
/// is taken.
pub fn take<C: PageCode>(
    g: &Geometry,
    code: &C,
    image: &mut [u8],
    table: &mut BlockTable,
) -> Result<(Which, u8), NoCopy>
    requires tables { has_tables g.now ≡ true }
    requires whole { length image.old ≡ raw_len g.now }
    requires blocks { length table.old ≡ g.now.blocks }
    ensures copy { IfOk result (λ found. HoldsCopy g.now image.old found table.new) }
    ensures no_copy { OnErr result (copy_in g.now image.old ≡ None) }
    ensures no_pattern { (result ≡ Err NoCopy.NoPattern) ↔ HasNoPattern g.now image.old }
    ensures unreadable { (result ≡ Err NoCopy.Unreadable) ↔ IsUnreadable g.now image.old }
    ensures unchanged { OnErr result (table.new ≡ table.old) }
    ensures decoded { OnOk result (image.new ≡ (decoded g.now image.old).image) }
{
    let which = kind(g, code, image)?;
    take_states(table_in(g, image), table);
    Ok((which, version_in(g, image)))
}

// The kind of the copy in a page, which is decoded then.
fn kind<C: PageCode>(g: &Geometry, code: &C, image: &mut [u8]) -> Result<Which, NoCopy>
    requires { length image.old ≡ raw_len g.now }
    ensures kind { TellsKind g.now image.old result }
    ensures decoded { OnOk result (image.new ≡ (decoded g.now image.old).image) }
{
    if g.bbt == 1 {
        kind_by_spare(g, code, image)
    } else {
        kind_by_body(g, code, image)
    }
}

// The kind of the copy in a page whose header stands in the spare, which is looked at first.
fn kind_by_spare<C: PageCode>(g: &Geometry, code: &C, image: &mut [u8]) -> Result<Which, NoCopy>
    requires whole { length image.old ≡ raw_len g.now }
    requires in_spare { g.now.bbt ≡ 1 }
    ensures kind { TellsKind g.now image.old result }
    ensures decoded { OnOk result (image.new ≡ (decoded g.now image.old).image) }
{
    match kind_in(g, image) {
        Some(which) => {
            if code.decode(g, image).failed == 0 {
                Ok(which)
            } else {
                Err(NoCopy::Unreadable)
            }
        }
        None => Err(NoCopy::NoPattern),
    }
}

// The kind of the copy in a page whose header stands at the head of the body, which is looked at
// once the page is decoded.
fn kind_by_body<C: PageCode>(g: &Geometry, code: &C, image: &mut [u8]) -> Result<Which, NoCopy>
    requires whole { length image.old ≡ raw_len g.now }
    requires in_body { g.now.bbt ≢ 1 }
    ensures kind { TellsKind g.now image.old result }
    ensures decoded { OnOk result (image.new ≡ (decoded g.now image.old).image) }
{
    let mut buffer = [0; LARGEST_PAGE];
    let alone = &mut buffer[..image.len()];
    put_first_step(g, image, alone);
    let failed = code.decode(g, image).failed;
    match kind_in(g, image) {
        Some(which) => {
            if failed == 0 {
                Ok(which)
            } else {
                Err(NoCopy::Unreadable)
            }
        }
        None => {
            if failed == 0 || is_first_step_readable(g, code, alone) {
                Err(NoCopy::NoPattern)
            } else {
                Err(NoCopy::Unreadable)
            }
        }
    }
}
