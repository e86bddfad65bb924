// Operations of one page event.
ghost use Rattle.std.specs.Prelude.{◌≡◌, ◌≢◌, ◌<◌, ◌≤◌, ◌+◌, length, replicate, is_ok, is_none, OnErr};
ghost use Rattle.nand_model.specs.Page.{marker_byte, kind_of, marker_image, Decoding, decoded, encoded};
ghost use Rattle.nand_model.specs.Chip.{ProgramCall, EraseCall, Complete, ProgramEvent, EraseEvent, happens, failure_of};
ghost use Rattle.nand_model.specs.Sizes.{first_page, page_count, raw_len};
ghost use Rattle.nand_iface.specs.Flash.{FitsPage};
ghost use Rattle.nand_model.specs.Counts.{HasRisen};
ghost use Rattle.page_ops.specs.Writes.{write_ended, erase_ended};

use crate::{EraseError, WriteError};
use nand_iface::{Flash, PageCode, PageKind, PageRead, ProgramFailed};
use nand_model::Geometry;

/// Reads a page and corrects it by its code: `image` becomes the corrected page, steps that could
/// not be decoded as they were read.
///
/// `Uncorrectable` comes exactly where some step could not be decoded, else `Bitflips` exactly
/// where the greatest number of corrected bits of a step is at least the chip's threshold
/// (nand_base).
pub fn read<F: Flash, C: PageCode>(
    flash: &F,
    code: &C,
    page: u32,
    image: &mut [u8],
) -> (PageKind, PageRead)
    requires { FitsPage (F.state flash.now).geometry page image.old }
    ensures image { image.new
        ≡ (decoded (F.state flash.now).geometry ((F.state flash.now).pages page).cells).image }
    ensures kind { result.0 ≡ kind_of (F.state flash.now).geometry
        (decoded (F.state flash.now).geometry ((F.state flash.now).pages page).cells) }
    ensures corrected { result.1.corrected
        ≡ (decoded (F.state flash.now).geometry ((F.state flash.now).pages page).cells).corrected }
    ensures greatest { result.1.greatest
        ≡ (decoded (F.state flash.now).geometry ((F.state flash.now).pages page).cells).greatest }
    ensures failed { result.1.failed
        ≡ (decoded (F.state flash.now).geometry ((F.state flash.now).pages page).cells).failed }
{
    let g = flash.geometry();
    flash.read_page(page, image);
    let read = code.decode(&g, image);
    (kind(&g, read), read)
}

// What a decoded page is called.
fn kind(g: &Geometry, read: PageRead) -> PageKind
    ensures { (d : Decoding) → d.failed ≡ read.failed → d.greatest ≡ read.greatest → result
        ≡ kind_of g.now d }
{
    if read.failed > 0 {
        PageKind::Uncorrectable
    } else if read.greatest >= g.threshold {
        PageKind::Bitflips
    } else {
        PageKind::Clean
    }
}

/// Reads a page as it stands: `image` becomes its cells.
pub fn read_raw<F: Flash>(flash: &F, page: u32, image: &mut [u8])
    requires { FitsPage (F.state flash.now).geometry page image.old }
    ensures { image.new ≡ ((F.state flash.now).pages page).cells }
{
    flash.read_page(page, image);
}

// Programs a page that may be written.
fn program<F: Flash>(flash: &mut F, page: u32, image: &[u8]) -> Result<(), WriteError>
    requires place { FitsPage (F.state flash.old).geometry page image.now }
    requires room { 0 < F.room flash.old }
    ensures state { F.state flash.new
        ≡ happens F.fault_model (F.state flash.old) (Complete (ProgramEvent page image.now)) }
    ensures ended { result ≡ write_ended
        (failure_of F.fault_model (F.state flash.old) (ProgramCall page)) }
    ensures failed { OnErr result (HasRisen (F.state flash.old).faults (F.state flash.new).faults) }
    ensures room { F.room flash.old ≤ F.room flash.new + 1 }
    ensures bit_room { F.bit_room flash.old ≤ F.bit_room flash.new }
{
    match flash.program_page(page, image) {
        Ok(()) => Ok(()),
        Err(ProgramFailed) => Err(WriteError::ProgramFailed),
    }
}

/// Writes a page whose block has this entry: `image`, a body with its free bytes, is completed by
/// marker bytes and parities, and programmed.
///
/// `BadBlock` comes exactly where the entry is not 0, and then nothing changes. `MarkerByte` never
/// comes. `ProgramFailed` comes exactly where the chip fails the program, and its count of faults
/// then rises. It takes at most one page of the room.
pub fn write<F: Flash, C: PageCode>(
    flash: &mut F,
    code: &C,
    page: u32,
    state: u32,
    image: &mut [u8],
) -> Result<(), WriteError>
    requires place { FitsPage (F.state flash.old).geometry page image.old }
    requires room { 0 < F.room flash.old }
    ensures refused { state ≢ 0 → (result ≡ Err WriteError.BadBlock) × (flash.new ≡ flash.old)
        × (image.new ≡ image.old) }
    ensures image { state ≡ 0 → image.new ≡ encoded (F.state flash.old).geometry image.old }
    ensures state { state ≡ 0 → F.state flash.new
        ≡ happens F.fault_model (F.state flash.old)
        (Complete (ProgramEvent page (encoded (F.state flash.old).geometry image.old))) }
    ensures ended { state ≡ 0 → result
        ≡ write_ended (failure_of F.fault_model (F.state flash.old) (ProgramCall page)) }
    ensures failed { result ≡ Err WriteError.ProgramFailed →
        HasRisen (F.state flash.old).faults (F.state flash.new).faults }
    ensures room { F.room flash.old ≤ F.room flash.new + 1 }
    ensures bit_room { F.bit_room flash.old ≤ F.bit_room flash.new }
{
    if state != 0 {
        return Err(WriteError::BadBlock);
    }
    let g = flash.geometry();
    code.encode(&g, image);
    program(flash, page, image)
}

/// Programs a page whose block has this entry with the image as it is.
///
/// `BadBlock` comes exactly where the entry is not 0; then `MarkerByte` exactly where spare byte 0
/// of the image is not 0xFF; nothing changes on either. `ProgramFailed` comes exactly where the
/// chip then fails the program, and its count of faults rises. It takes at most one page of the
/// room.
pub fn write_raw<F: Flash>(
    flash: &mut F,
    page: u32,
    state: u32,
    image: &[u8],
) -> Result<(), WriteError>
    requires place { FitsPage (F.state flash.old).geometry page image.now }
    requires room { 0 < F.room flash.old }
    ensures refused { state ≢ 0 → (result ≡ Err WriteError.BadBlock) × (flash.new ≡ flash.old) }
    ensures marker { state ≡ 0 → marker_byte (F.state flash.old).geometry image.now ≢ 0xff
        → (result ≡ Err WriteError.MarkerByte) × (flash.new ≡ flash.old) }
    ensures state { state ≡ 0 → marker_byte (F.state flash.old).geometry image.now ≡ 0xff
        → F.state flash.new ≡ happens F.fault_model (F.state flash.old)
        (Complete (ProgramEvent page image.now)) }
    ensures ended { state ≡ 0 → marker_byte (F.state flash.old).geometry image.now ≡ 0xff
        → result ≡ write_ended (failure_of F.fault_model (F.state flash.old) (ProgramCall page)) }
    ensures failed { result ≡ Err WriteError.ProgramFailed →
        HasRisen (F.state flash.old).faults (F.state flash.new).faults }
    ensures room { F.room flash.old ≤ F.room flash.new + 1 }
    ensures bit_room { F.bit_room flash.old ≤ F.bit_room flash.new }
{
    if state != 0 {
        return Err(WriteError::BadBlock);
    }
    if image[flash.geometry().page as usize] != 0xff {
        return Err(WriteError::MarkerByte);
    }
    program(flash, page, image)
}

/// Erases a block that has this entry.
///
/// `BadBlock` comes exactly where the entry is not 0, and then nothing changes. `EraseFailed` comes
/// exactly where the chip fails the erase, and its count of faults then rises.
pub fn erase<F: Flash>(flash: &mut F, block: u32, state: u32) -> Result<(), EraseError>
    requires { block < (F.state flash.old).geometry.blocks }
    ensures refused { state ≢ 0 → (result ≡ Err EraseError.BadBlock) × (flash.new ≡ flash.old) }
    ensures state { state ≡ 0 → F.state flash.new
        ≡ happens F.fault_model (F.state flash.old) (Complete (EraseEvent block)) }
    ensures ended { state ≡ 0 → result
        ≡ erase_ended (failure_of F.fault_model (F.state flash.old) (EraseCall block)) }
    ensures failed { result ≡ Err EraseError.EraseFailed →
        HasRisen (F.state flash.old).faults (F.state flash.new).faults }
    ensures room { F.room flash.old ≤ F.room flash.new }
    ensures bit_room { F.bit_room flash.old ≤ F.bit_room flash.new }
{
    if state != 0 {
        return Err(EraseError::BadBlock);
    }
    match flash.erase_block(block) {
        Ok(()) => Ok(()),
        Err(_) => Err(EraseError::EraseFailed),
    }
}

/// Marks a block on the chip: programs 0x00 into spare byte 0 of its first page and 0xFF elsewhere.
/// `image` is where the page is put together, and has it afterwards.
///
/// `ProgramFailed` comes exactly where the chip fails the program, and its count of faults then
/// rises. It takes at most one page of the room.
pub fn marker<F: Flash>(flash: &mut F, block: u32, image: &mut [u8]) -> Result<(), ProgramFailed>
    requires block { block < (F.state flash.old).geometry.blocks }
    requires whole { length image.old ≡ raw_len (F.state flash.old).geometry }
    requires room { 0 < F.room flash.old }
    ensures image { image.new ≡ marker_image (F.state flash.old).geometry }
    ensures state { F.state flash.new ≡ happens F.fault_model (F.state flash.old)
        (Complete (ProgramEvent (first_page (F.state flash.old).geometry block)
        (marker_image (F.state flash.old).geometry))) }
    ensures ok { is_ok result
        ≡ is_none
        (failure_of F.fault_model (F.state flash.old)
        (ProgramCall (first_page (F.state flash.old).geometry block))) }
    ensures failed { OnErr result (HasRisen (F.state flash.old).faults (F.state flash.new).faults) }
    ensures room { F.room flash.old ≤ F.room flash.new + 1 }
    ensures bit_room { F.bit_room flash.old ≤ F.bit_room flash.new }
{
    let g = flash.geometry();
    put_marker(&g, image);
    flash.program_page(block_start(&g, block), image)
}

// The first page of a block.
fn block_start(g: &Geometry, block: u32) -> u32
    requires { block < g.now.blocks }
    ensures page { result ≡ first_page g.now block }
    ensures there { result < page_count g.now }
{
    block * g.pages_per_block
}

/// Writes the image that marks a block: 0x00 in spare byte 0, and 0xFF elsewhere.
pub fn put_marker(g: &Geometry, image: &mut [u8])
    requires { length image.old ≡ raw_len g.now }
    ensures { image.new ≡ marker_image g.now }
{
    clear(image);
    image[g.page as usize] = 0;
}

// Bytes as an erase leaves them.
fn clear(image: &mut [u8])
    ensures { image.new ≡ replicate (length image.old) 0xff }
{
    image.fill(0xff);
}
