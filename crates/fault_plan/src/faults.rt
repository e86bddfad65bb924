// The flips and the cut of a controller in a boot.
ghost use Rattle.std.specs.Prelude.{◌≡◌, ◌++◌, ◌∷◌, [], ◌<◌, ◌≤◌, length, slice_get, option_copied, OnOk, OnErr, IfSome, None};
ghost use Rattle.fault_plan.specs.Due.{first_due};
ghost use Rattle.nand_model.specs.Cuts.{tear_at};

use nand_model::{CutAt, Flip, Tear};
use std::alloc::{AllocError, Global};
use std::collections::BTreeSet;
use std::marker::Model;

/// The faults of a controller in a boot: its flips, in the order of the plan's lines, and at most
/// one cut. Contracts see both.
#[derive(Drop)]
pub struct Faults {
    flips: Vec<Flip>,
    // Of each flip its event and its place in the list, so that an event finds its own flips alone.
    by_event: BTreeSet<(u32, usize)>,
    cut: Option<CutAt>,
}

impl Model for Faults {
    ghost use Rattle.fault_plan.specs.BootFaults.{BootFaults};
    ghost use Rattle.fault_plan.specs.ByEvent.{AreByEvent};

    ghost Value = { BootFaults };

    ghost view = { λ f. record { flips = f.flips.items; cut = f.cut } };

    ghost invariant = { λ f. AreByEvent f.flips.items f.by_event };
}

impl Faults {
    /// No fault. It takes no memory.
    pub fn new(alloc: Global) -> Faults
        ensures { result ≡ record { flips = []; cut = None } }
    {
        Faults {
            flips: Vec::new(alloc),
            by_event: BTreeSet::new(alloc),
            cut: None,
        }
    }

    /// Adds a flip at the end. Where memory runs out, all is as before.
    pub fn push(&mut self, flip: Flip) -> Result<(), AllocError>
        ensures ok { OnOk result (self.new ≡ record self.old
            { flips = self.old.flips ++ flip ∷ [] }) }
        ensures err { OnErr result (self.new ≡ self.old) }
    {
        self.flips.reserve(1)?;
        self.by_event.insert((flip.before, self.flips.len()))?;
        self.flips.push_reserved(flip);
        Ok(())
    }

    /// Sets the cut, in place of an earlier one.
    pub fn set_cut(&mut self, cut: CutAt)
        ensures { self.new ≡ record self.old { cut = Some cut } }
    {
        self.cut = Some(cut);
    }

    /// Lends the tear of the cut. None comes exactly where there is no cut, or it tears another
    /// page event.
    pub fn cut_at(&self, event: u32) -> Option<&Tear>
        ensures { option_copied result ≡ tear_at self.now.cut event }
    {
        match &self.cut {
            Some(cut) if cut.event == event => Some(&cut.tear),
            _ => None,
        }
    }

    /// The number of flips.
    pub fn len(&self) -> usize
        ensures { result ≡ length self.now.flips }
    {
        self.flips.len()
    }

    /// The first place, counted from 0, at or after `from` of a flip whose bits turn over before
    /// this page event. None comes exactly where there is none.
    pub fn due(&self, event: u32, from: usize) -> Option<usize>
        ensures first { result ≡ first_due self.now.flips event from }
        ensures within { IfSome result (λ n. (from ≤ n) × (n < length self.now.flips)) }
    {
        match self.by_event.range((event, from)..).next() {
            Some(&(of, n)) if of == event => Some(n),
            _ => None,
        }
    }

    /// Lends the flip at place `n`, counted from 0.
    pub fn flip(&self, n: usize) -> &Flip
        requires { n < length self.now.flips }
        ensures { slice_get self.now.flips n ≡ Some result.now }
    {
        &self.flips[n]
    }
}

#[cfg(test)]
mod tests {
    use super::*;
    use nand_model::BlockList;
    use std::test::Fail;

    #[test]
    fn finds_the_flips_of_an_event(rt: HostRuntime) -> Result<(), Fail> {
        let alloc = rt.alloc();
        let mut faults = Faults::new(alloc);
        for (page, before) in [(0, 18), (3, 20), (1, 18), (2, 19)] {
            let flip = Flip {
                chip: 0,
                page,
                before,
                bits: BlockList::new(alloc),
            };
            faults.push(flip)?;
        }
        let rows = [
            ((18, 0), Some(0)),
            ((18, 1), Some(2)),
            ((18, 3), None),
            ((19, 0), Some(3)),
            ((21, 0), None),
            ((20, 9), None),
        ];
        for ((event, from), place) in rows {
            assert_eq!(rt; faults.due(event, from), place);
        }
        assert_eq!(rt; faults.len(), 4);
        Ok(())
    }

    #[test]
    fn keeps_the_last_cut(rt: HostRuntime) -> Result<(), Fail> {
        let mut faults = Faults::new(rt.alloc());
        faults.set_cut(CutAt {
            event: 3,
            tear: Tear::Everything,
        });
        faults.set_cut(CutAt {
            event: 7,
            tear: Tear::Seed(1),
        });
        assert!(rt; faults.cut_at(3).is_none());
        assert!(rt; matches!(faults.cut_at(7), Some(Tear::Seed(1))));
        Ok(())
    }
}
