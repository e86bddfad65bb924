// An index of weak places.
ghost use Rattle.std.specs.Prelude.{◌≡◌, ◌==◌, ℕ, IfOk, OnOk, if◌then◌else◌};
ghost use Rattle.std.specs.BTreeMap.{get};
ghost use Rattle.std.specs.Ordering.{nat_cmp};
ghost use Rattle.nand_model.specs.Chip.{Call, is_weak_at};
ghost use Rattle.fault_plan.specs.WeakPlaces.{call_at};
ghost use Rattle.chip_sim.specs.Weakness.{first_weak, place_in};

use fault_plan::{Weak, WeakKind, WeakList};
use std::alloc::{AllocError, Global};
use std::collections::BTreeMap;

/// For each weak page and block its place in the list of weak places.
#[derive(Drop)]
pub struct PlaceIndex {
    programs: BTreeMap<u32, usize>,
    erases: BTreeMap<u32, usize>,
}

impl PlaceIndex {
    /// The index of these weak places.
    #[tactic(auto, using(crate::proofs::Weakness::first_weak_drop))]
    pub fn new(alloc: Global, list: &WeakList) -> Result<PlaceIndex, AllocError>
        ensures { IfOk result
            (λ index. (call : Call) → place_in index call ≡ first_weak 0 list.now call) }
    {
        let mut index = PlaceIndex {
            programs: BTreeMap::new(alloc),
            erases: BTreeMap::new(alloc),
        };
        let mut n = list.len();
        while n > 0 {
            n -= 1;
            index.put(list.get(n), n)?;
        }
        Ok(index)
    }

    // Puts in a weak page or block at this place of the list.
    fn put(&mut self, weak: &Weak, place: usize) -> Result<(), AllocError>
        ensures { (call : Call) → OnOk result (place_in self.new call
            ≡ (if is_weak_at weak.now call then Some place else place_in self.old call)) }
    {
        match weak.kind {
            WeakKind::Program => put_place(&mut self.programs, weak.at, place),
            WeakKind::Erase => put_place(&mut self.erases, weak.at, place),
        }
    }

    /// The place of a weak page or block. None comes exactly where there is none.
    pub fn find(&self, kind: WeakKind, at: u32) -> Option<usize>
        ensures { result ≡ place_in self.now (call_at kind at) }
    {
        match kind {
            WeakKind::Program => self.programs.get(&at).copied(),
            WeakKind::Erase => self.erases.get(&at).copied(),
        }
    }
}

// Puts a place in under the number of a page or block.
fn put_place(places: &mut BTreeMap<u32, usize>, at: u32, place: usize) -> Result<(), AllocError>
    ensures { (other : ℕ) → OnOk result (get nat_cmp places.new other
        ≡ (if at == other then Some place else get nat_cmp places.old other)) }
{
    places.insert(at, place)?;
    Ok(())
}
