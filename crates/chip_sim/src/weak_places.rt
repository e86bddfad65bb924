// The weak places of a chip with their calls.
ghost use Rattle.std.specs.Prelude.{◌≡◌, ℕ, map, true, option_copied, option_map, IfOk};
ghost use Rattle.nand_model.specs.Chip.{done_bits, weak_after_call, weak_fails};
ghost use Rattle.fault_plan.specs.WeakPlaces.{are_apart, call_at};

use crate::place_index::PlaceIndex;
use fault_plan::{WeakKind, WeakList};
use nand_model::Tear;
use std::alloc::{AllocError, Global};
use std::marker::Model;

/// The weak places of a chip, each with the number of its calls so far, which is counted up to
/// those that succeed. Contracts see each beside that number.
#[derive(Drop)]
pub struct WeakPlaces {
    list: WeakList,
    calls: Vec<u32>,
    index: PlaceIndex,
}

impl Model for WeakPlaces {
    ghost use Rattle.std.specs.Prelude.{◌≡◌, List, length, true};
    ghost use Rattle.std.specs.List.{zip};
    ghost use Rattle.nand_model.specs.Chip.{WeakCount};
    ghost use Rattle.chip_sim.specs.Weakness.{IsIndexed};

    ghost Value = { List WeakCount };

    ghost view = { λ w. zip w.list w.calls.items };

    ghost invariant = { λ w. IsIndexed w.list w.calls.items w.index };
}

impl WeakPlaces {
    /// These weak places, none of which was called yet.
    #[tactic(auto, using(crate::proofs::Weakness::uncalled))]
    pub fn new(alloc: Global, list: WeakList) -> Result<WeakPlaces, AllocError>
        requires { are_apart list ≡ true }
        ensures { IfOk result (λ places. places ≡ map (λ weak. (weak, 0)) list) }
    {
        let calls = vec![in alloc; 0u32; list.len()]?;
        let index = PlaceIndex::new(alloc, &list)?;
        Ok(WeakPlaces { list, calls, index })
    }

    /// The tear with which a program or erase of this page or block fails now. None comes exactly
    /// where it does not fail.
    pub fn failing(&self, kind: WeakKind, at: u32) -> Option<&Tear>
        ensures { (raw : ℕ) → option_map (done_bits raw) (option_copied result)
            ≡ weak_fails raw self.now (call_at kind at) }
    {
        let place = self.index.find(kind, at)?;
        let weak = self.list.get(place);
        if weak.after <= self.calls[place] {
            Some(&weak.tear)
        } else {
            None
        }
    }

    /// Counts a program or erase of this page or block.
    pub fn count(&mut self, kind: WeakKind, at: u32)
        ensures { self.new ≡ weak_after_call self.old (call_at kind at) }
    {
        if let Some(place) = self.index.find(kind, at) {
            let after = self.list.get(place).after;
            let calls = &mut self.calls[place];
            *calls = calls.saturating_add(1).min(after);
        }
    }
}
