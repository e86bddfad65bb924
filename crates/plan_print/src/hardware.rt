// The lines of controllers, chips and partitions.
ghost use Rattle.std.specs.Prelude.{◌≡◌, ◌++◌, OnOk, flat_map, map};
ghost use Rattle.plan_grammar.specs.Canonical.{chip_lines, chip_words, controller_lines, detail_words, part_words, weak_kind_text};
ghost use Rattle.plan_print.specs.Lines.{line_of, text_of};

use crate::forms::put_tear;
use crate::words::{put_decimals, put_list, put_text};
use nand_model::{BlockList, Bytes, Geometry, ItemList, Weak, WeakKind};
use plan_grammar::{ChipLines, DetailLine, PartLine};
use std::alloc::AllocError;

// Appends the line of a chip's sizes.
fn put_geometry(out: &mut Bytes, g: &Geometry) -> Result<(), AllocError>
    ensures { OnOk result (out.new ≡ out.old ++ line_of (chip_words g.now)) }
{
    let sizes = [
        g.page,
        g.spare,
        g.pages_per_block,
        g.blocks,
        g.t,
        g.bbt,
        g.threshold,
    ];
    put_text(out, "chip")?;
    put_decimals(out, &sizes)?;
    put_text(out, "\n")
}

// Appends what fails at a weak place.
fn put_weak_kind(out: &mut Bytes, kind: WeakKind) -> Result<(), AllocError>
    ensures { OnOk result (out.new ≡ out.old ++ weak_kind_text kind) }
{
    match kind {
        WeakKind::Program => put_text(out, "program"),
        WeakKind::Erase => put_text(out, "erase"),
    }
}

// Appends the line of bad blocks.
fn put_bad(out: &mut Bytes, blocks: &BlockList) -> Result<(), AllocError>
    ensures { OnOk result
        (out.new ≡ out.old ++ line_of (detail_words (DetailLine.Bad blocks.now))) }
{
    put_text(out, "bad")?;
    put_list(out, blocks)?;
    put_text(out, "\n")
}

// Appends the line of a weak place.
fn put_weak(out: &mut Bytes, weak: &Weak) -> Result<(), AllocError>
    ensures { OnOk result
        (out.new ≡ out.old ++ line_of (detail_words (DetailLine.Weak weak.now))) }
{
    put_text(out, "weak ")?;
    put_weak_kind(out, weak.kind)?;
    put_decimals(out, &[weak.at, weak.after])?;
    put_text(out, " ")?;
    put_tear(out, &weak.tear)?;
    put_text(out, "\n")
}

// Appends the line of bad blocks, of a weak place or of a bus.
fn put_detail(out: &mut Bytes, detail: &DetailLine) -> Result<(), AllocError>
    ensures { OnOk result (out.new ≡ out.old ++ line_of (detail_words detail.now)) }
{
    match detail {
        DetailLine::Bad(blocks) => put_bad(out, blocks),
        DetailLine::Weak(weak) => put_weak(out, weak),
        DetailLine::Bus => put_text(out, "bus\n"),
    }
}

// Appends the lines that tell more of a chip.
fn put_details(out: &mut Bytes, details: &ItemList<DetailLine>) -> Result<(), AllocError>
    ensures { OnOk result (out.new ≡ out.old ++ text_of (map detail_words details.now)) }
{
    for detail in details {
        put_detail(out, detail)?;
    }
    Ok(())
}

// Appends the line of a partition.
fn put_part(out: &mut Bytes, part: &PartLine) -> Result<(), AllocError>
    ensures { OnOk result (out.new ≡ out.old ++ line_of (part_words part.now)) }
{
    put_text(out, "part")?;
    put_decimals(out, &[part.start, part.count])?;
    put_text(out, "\n")
}

// Appends the lines of partitions.
fn put_parts(out: &mut Bytes, parts: &ItemList<PartLine>) -> Result<(), AllocError>
    ensures { OnOk result (out.new ≡ out.old ++ text_of (map part_words parts.now)) }
{
    for part in parts {
        put_part(out, part)?;
    }
    Ok(())
}

// Appends the lines of a chip.
fn put_chip(out: &mut Bytes, chip: &ChipLines) -> Result<(), AllocError>
    ensures { OnOk result (out.new ≡ out.old ++ text_of (chip_lines chip.now)) }
{
    put_geometry(out, &chip.geometry)?;
    put_details(out, &chip.details)?;
    put_parts(out, &chip.parts)
}

// Appends the lines of a controller.
fn put_controller(out: &mut Bytes, chips: &ItemList<ChipLines>) -> Result<(), AllocError>
    ensures { OnOk result (out.new ≡ out.old ++ text_of (controller_lines chips.now)) }
{
    put_text(out, "controller\n")?;
    for chip in chips {
        put_chip(out, chip)?;
    }
    Ok(())
}

/// Appends the lines of controllers.
pub fn put_controllers(
    out: &mut Bytes,
    controllers: &ItemList<ItemList<ChipLines>>,
) -> Result<(), AllocError>
    ensures { OnOk result
        (out.new ≡ out.old ++ text_of (flat_map controller_lines controllers.now)) }
{
    for chips in controllers {
        put_controller(out, chips)?;
    }
    Ok(())
}
