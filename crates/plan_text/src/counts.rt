// How many lines of a kind a plan has.
ghost use Rattle.std.specs.Prelude.{◌≡◌, ◌<◌, ◌^◌, sum_by};
ghost use Rattle.nand_model.specs.declared.words.WeakKind.TheVariants.{Program, Erase};
ghost use Rattle.plan_grammar.specs.Faults.{flips_of};
ghost use Rattle.plan_grammar.specs.Meaning.{plan_of};
ghost use Rattle.plan_text.specs.Counts.{cuts_of, is_weak_line, weak_lines};
ghost use Rattle.plan_text.specs.Plan.{cut_count, flip_count, weak_count};

use crate::plan::Plan;
use nand_model::{ItemList, WeakKind};
use plan_grammar::{BootLines, ChipLines, DetailLine, FaultLine};

// The flip lines of a boot.
fn flips_of(boot: &BootLines) -> usize
    ensures { result ≡ flips_of boot.now }
{
    boot.faults
        .iter()
        .filter(|fault| matches!(fault, FaultLine::Flip { .. }))
        .count()
}

// The cut lines of a boot.
fn cuts_of(boot: &BootLines) -> usize
    ensures { result ≡ cuts_of boot.now }
{
    boot.faults
        .iter()
        .filter(|fault| matches!(fault, FaultLine::Cut { .. }))
        .count()
}

// The flip lines of boots.
fn all_flips(boots: &ItemList<BootLines>) -> usize
    requires { sum_by flips_of boots.now < 2 ^ 32 }
    ensures { result ≡ sum_by flips_of boots.now }
{
    let mut count = 0;
    for boot in boots {
        count += flips_of(boot);
    }
    count
}

// The cut lines of boots.
fn all_cuts(boots: &ItemList<BootLines>) -> usize
    requires { sum_by cuts_of boots.now < 2 ^ 32 }
    ensures { result ≡ sum_by cuts_of boots.now }
{
    let mut count = 0;
    for boot in boots {
        count += cuts_of(boot);
    }
    count
}

// Whether a line is a weak place of this kind.
fn is_weak_line(kind: WeakKind, detail: &DetailLine) -> bool
    ensures { result ≡ is_weak_line kind detail.now }
{
    match detail {
        DetailLine::Bad(_) | DetailLine::Bus => false,
        DetailLine::Weak(weak) => weak.kind == kind,
    }
}

// The weak lines of a kind of a chip.
fn weak_lines(kind: WeakKind, chip: &ChipLines) -> usize
    ensures { result ≡ weak_lines kind chip.now }
{
    chip.details
        .iter()
        .filter(|detail| is_weak_line(kind, detail))
        .count()
}

// The weak lines of a kind of chips.
fn weak_of_chips(kind: WeakKind, chips: &ItemList<ChipLines>) -> usize
    requires { sum_by (weak_lines kind) chips.now < 2 ^ 32 }
    ensures { result ≡ sum_by (weak_lines kind) chips.now }
{
    let mut count = 0;
    for chip in chips {
        count += weak_lines(kind, chip);
    }
    count
}

// The weak lines of a kind of controllers.
fn all_weak(kind: WeakKind, controllers: &ItemList<ItemList<ChipLines>>) -> usize
    requires { sum_by (sum_by (weak_lines kind)) controllers.now < 2 ^ 32 }
    ensures { result ≡ sum_by (sum_by (weak_lines kind)) controllers.now }
{
    let mut count = 0;
    for chips in controllers {
        count += weak_of_chips(kind, chips);
    }
    count
}

impl Plan {
    /// The number of flip lines over all boots.
    pub fn flips(&self) -> u32
        ensures { result ≡ flip_count (plan_of self.now) }
    {
        let _kept = &self.commands;
        all_flips(&self.lines().boots) as u32
    }

    /// The number of cut lines over all boots.
    pub fn cuts(&self) -> u32
        ensures { result ≡ cut_count (plan_of self.now) }
    {
        let _kept = &self.commands;
        all_cuts(&self.lines().boots) as u32
    }

    /// The number of weak pages over all chips.
    pub fn weak_programs(&self) -> u32
        ensures { result ≡ weak_count Program (plan_of self.now) }
    {
        self.weak(WeakKind::Program)
    }

    /// The number of weak blocks over all chips.
    pub fn weak_erases(&self) -> u32
        ensures { result ≡ weak_count Erase (plan_of self.now) }
    {
        self.weak(WeakKind::Erase)
    }

    // The number of weak places of a kind over all chips.
    fn weak(&self, kind: WeakKind) -> u32
        ensures { result ≡ weak_count kind (plan_of self.now) }
    {
        let _kept = &self.commands;
        all_weak(kind, &self.lines().controllers) as u32
    }
}
