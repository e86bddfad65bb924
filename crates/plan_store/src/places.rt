// Where a line may stand.
ghost use Rattle.std.specs.Prelude.{◌≡◌, Ok, Err, MatchResult};
ghost use Rattle.plan_grammar.specs.declared.kind.PlanKind.TheVariants.{WrongPlace};
ghost use Rattle.plan_grammar.specs.Rules.{rule, there, last_of};
ghost use Rattle.plan_grammar.specs.Hardware.{is_hardware, has_chip, last_chips, last_chip, open_chip};
ghost use Rattle.plan_grammar.specs.Faults.{last_boot, open_boot};
ghost use Rattle.plan_grammar.specs.Sessions.{running_boot};

use nand_model::ItemList;
use plan_grammar::{BootLines, ChipLines, PlanKind, PlanLines, SessionLines};
use plan_index::last;

/// A rule that a test decides.
pub fn rule(holds: bool, kind: PlanKind) -> Result<(), PlanKind>
    ensures { result ≡ rule holds kind }
{
    if holds { Ok(()) } else { Err(kind) }
}

/// Whether there are no data and no boot yet.
pub fn is_hardware(lines: &PlanLines) -> bool
    ensures { result ≡ is_hardware lines.now }
{
    lines.payloads.len() == 0 && lines.boots.len() == 0
}

/// Whether there is a controller, and the last one has a chip.
pub fn has_chip(lines: &PlanLines) -> bool
    ensures { result ≡ has_chip lines.now }
{
    match last(&lines.controllers) {
        Some(chips) => chips.len() != 0,
        None => false,
    }
}

/// The chips of the last controller.
pub fn last_chips(lines: &PlanLines) -> Result<&ItemList<ChipLines>, PlanKind>
    ensures { MatchResult result (λ chips. last_chips lines.now ≡ Ok chips.now)
        (λ kind. last_chips lines.now ≡ Err kind) }
{
    last(&lines.controllers).ok_or(PlanKind::WrongPlace)
}

/// The last chip of the last controller.
#[tactic(auto, unfolding(plan_grammar::specs::Hardware::last_chip))]
pub fn last_chip(lines: &PlanLines) -> Result<&ChipLines, PlanKind>
    ensures { MatchResult result (λ chip. last_chip lines.now ≡ Ok chip.now)
        (λ kind. last_chip lines.now ≡ Err kind) }
{
    let chips = last_chips(lines)?;
    last(chips).ok_or(PlanKind::WrongPlace)
}

/// The chip of which lines may tell more here.
#[tactic(auto, unfolding(plan_grammar::specs::Hardware::open_chip))]
pub fn open_chip(lines: &PlanLines) -> Result<&ChipLines, PlanKind>
    ensures { MatchResult result (λ chip. open_chip lines.now ≡ Ok chip.now)
        (λ kind. open_chip lines.now ≡ Err kind) }
{
    if !is_hardware(lines) {
        return Err(PlanKind::WrongPlace);
    }
    let chip = last_chip(lines)?;
    if chip.parts.len() != 0 {
        return Err(PlanKind::WrongPlace);
    }
    Ok(chip)
}

/// The last boot.
pub fn last_boot(lines: &PlanLines) -> Result<&BootLines, PlanKind>
    ensures { MatchResult result (λ boot. last_boot lines.now ≡ Ok boot.now)
        (λ kind. last_boot lines.now ≡ Err kind) }
{
    last(&lines.boots).ok_or(PlanKind::WrongPlace)
}

/// The boot whose flips and cuts may stand here.
#[tactic(auto, unfolding(plan_grammar::specs::Faults::open_boot))]
pub fn open_boot(lines: &PlanLines) -> Result<&BootLines, PlanKind>
    ensures { MatchResult result (λ boot. open_boot lines.now ≡ Ok boot.now)
        (λ kind. open_boot lines.now ≡ Err kind) }
{
    let boot = last_boot(lines)?;
    if boot.sessions.len() != 0 {
        return Err(PlanKind::WrongPlace);
    }
    Ok(boot)
}

/// The boot to which sessions, commands and a schedule may be added.
#[tactic(auto, unfolding(plan_grammar::specs::Sessions::running_boot))]
pub fn running_boot(lines: &PlanLines) -> Result<&BootLines, PlanKind>
    ensures { MatchResult result (λ boot. running_boot lines.now ≡ Ok boot.now)
        (λ kind. running_boot lines.now ≡ Err kind) }
{
    let boot = last_boot(lines)?;
    if boot.schedule.len() != 0 {
        return Err(PlanKind::WrongPlace);
    }
    Ok(boot)
}

/// The last session of a boot.
pub fn last_session(boot: &BootLines) -> Result<&SessionLines, PlanKind>
    ensures { MatchResult result
        (λ session. there (last_of boot.now.sessions) WrongPlace ≡ Ok session.now)
        (λ kind. there (last_of boot.now.sessions) WrongPlace ≡ Err kind) }
{
    last(&boot.sessions).ok_or(PlanKind::WrongPlace)
}
