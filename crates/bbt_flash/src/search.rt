// The search of the last four blocks for the copies of a table.
ghost use Rattle.std.specs.Prelude.{◌≡◌, ◌<◌, ◌≤◌, ◌+◌, ◌-◌, ◌==◌, ℕ, List, [], ◌++◌, All, Some, None, IfSome, IfOk, length, vec_len, vec_capacity, true, slice_get, position};
ghost use Rattle.std.specs.List.{list_any};
ghost use Rattle.chip_paths.specs.Copies.{block_found, first_free, found_among, found_calls_bad, place_beside, places_for, version_found};
ghost use Rattle.nand_model.specs.Sizes.{raw_len};
ghost use Rattle.nand_model.specs.Table.{has_tables};
ghost use Rattle.bbt_flash.specs.Copies.{places_in};
ghost use Rattle.bbt_flash.specs.Held.{HeldFits, calls_other_bad, copies_of, copy_at, held_copy, is_valid_held, new_candidates, new_copies};

use crate::blocks::{any_other, is_other};
use crate::copies::Places;
use crate::held::{Held, is_same};
use crate::markers::is_marker_good;
use crate::spares::SpareTables;
use bbt_image::take;
use nand_iface::{PageCode, Which};
use nand_model::Geometry;
use std::alloc::{AllocError, Global};

/// A search of the last four blocks, from the last downwards, with room for all that it may find:
/// how many blocks were read, the candidates' blocks and the copies that candidates hold.
#[derive(Drop)]
pub struct Search {
    pub geometry: Geometry,
    pub next: u32,
    candidates: Vec<u32>,
    helds: Vec<Held>,
    spares: SpareTables,
    ghost tables: { has_tables geometry ≡ true },
    ghost few: { next ≤ 4 },
    ghost few_candidates: { vec_len candidates ≤ next },
    ghost candidate_room: { 4 ≤ vec_capacity candidates },
    ghost few_helds: { vec_len helds ≤ next },
    ghost held_room: { 4 ≤ vec_capacity helds },
    ghost spare_blocks: { spares.blocks ≡ geometry.blocks },
    ghost spare_room: { 4 ≤ next + spares.left },
    ghost candidates_there: { All (λ block. block < geometry.blocks) candidates.items },
    ghost helds_fit: { All (HeldFits geometry.blocks) helds.items },
}

impl Search {
    /// A search that has read no block. It takes all memory.
    pub fn start(alloc: Global, g: Geometry) -> Result<Search, AllocError>
        requires { has_tables g ≡ true }
        ensures sizes { IfOk result (λ search. search.geometry ≡ g) }
        ensures next { IfOk result (λ search. search.next ≡ 0) }
        ensures candidates { IfOk result (λ search. search.candidates.items ≡ []) }
        ensures copies { IfOk result (λ search. search.helds.items ≡ []) }
    {
        Ok(Search {
            geometry: g,
            next: 0,
            candidates: Vec::with_capacity(alloc, 4)?,
            helds: Vec::with_capacity(alloc, 4)?,
            spares: SpareTables::new(alloc, g.blocks, 4)?,
        })
    }

    /// The block that is read next.
    pub fn block(&self) -> u32
        requires { self.now.next < 4 }
        ensures block { result ≡ self.now.geometry.blocks - (self.now.next + 1) }
        ensures there { result < self.now.geometry.blocks }
    {
        self.geometry.blocks - (self.next + 1)
    }

    /// Takes in the first page of the next block, as it was read raw. Nothing is said of the bytes
    /// of the page then.
    pub fn read<C: PageCode>(&mut self, code: &C, image: &mut [u8])
        requires next { self.old.next < 4 }
        requires whole { length image.old ≡ raw_len self.old.geometry }
        ensures sizes { self.new.geometry ≡ self.old.geometry }
        ensures next { self.new.next ≡ self.old.next + 1 }
        ensures candidates { self.new.candidates.items ≡ self.old.candidates.items
            ++ new_candidates self.old.geometry
            (self.old.geometry.blocks - (self.old.next + 1)) image.old }
        ensures copies { copies_of self.new.helds.items ≡ copies_of self.old.helds.items
            ++ new_copies self.old.geometry
            (self.old.geometry.blocks - (self.old.next + 1)) image.old }
    {
        let g = self.geometry;
        let block = self.block();
        self.next += 1;
        if is_marker_good(&g, image) {
            self.candidates.push_reserved(block);
            let mut table = self.spares.take();
            if let Ok((which, version)) = take(&g, code, image, &mut table) {
                self.helds.push_reserved(Held {
                    block,
                    which,
                    version,
                    table,
                });
            }
        }
    }

    /// The place of the first copy of this kind that is not disowned.
    pub fn found(&self, which: Which) -> Option<usize>
        ensures copy { copy_at self.now.helds.items result
            ≡ found_among (copies_of self.now.helds.items) which }
        ensures there { IfSome result (λ n. n < vec_len self.now.helds) }
    {
        self.place_of(which)
    }

    // The same place, by the tests of the list's items.
    fn place_of(&self, which: Which) -> Option<usize>
        ensures { result ≡ position (is_valid_held self.now.helds.items which)
            self.now.helds.items }
    {
        self.helds.iter().position(|held| is_same(held.which, which)
            && !self.is_disowned(held.block))
    }

    /// The version of a copy that was found.
    pub fn version_of(&self, found: Option<usize>) -> Option<u8>
        requires { IfSome found (λ n. n < vec_len self.now.helds) }
        ensures { result ≡ version_found (copy_at self.now.helds.items found) }
    {
        match found {
            Some(n) => Some(self.helds[n].version),
            None => None,
        }
    }

    /// The places of the two copies, from those that were found.
    pub fn places(&self, primary: Option<usize>, mirror: Option<usize>) -> Places
        requires primary { IfSome primary (λ n. n < vec_len self.now.helds) }
        requires mirror { IfSome mirror (λ n. n < vec_len self.now.helds) }
        ensures places { places_in result ≡ places_for self.now.geometry self.now.candidates.items
            (copy_at self.now.helds.items primary) (copy_at self.now.helds.items mirror) }
        ensures primary_there { result.primary < self.now.geometry.blocks }
        ensures mirror_there { result.mirror < self.now.geometry.blocks }
    {
        let own = self.block_of(primary);
        let other = self.block_of(mirror);
        let first = self.place_beside(primary, mirror, own, other);
        let second = self.place_beside(primary, mirror, other, Some(first));
        Places {
            primary: first,
            mirror: second,
        }
    }

    /// Hands a copy out.
    pub fn into_copy(self, n: usize) -> Held
        requires { n < vec_len self.helds }
        ensures copy { slice_get self.helds.items n ≡ Some result }
        ensures fits { HeldFits self.geometry.blocks result }
    {
        let Search { helds, .. } = self;
        let mut helds = helds;
        helds.swap_remove(n)
    }

    // The block of a copy that was found.
    fn block_of(&self, found: Option<usize>) -> Option<u32>
        requires { IfSome found (λ n. n < vec_len self.now.helds) }
        ensures block { result ≡ block_found (copy_at self.now.helds.items found) }
        ensures there { IfSome result (λ block. block < self.now.geometry.blocks) }
    {
        match found {
            Some(n) => Some(self.helds[n].block),
            None => None,
        }
    }

    // Whether a found copy calls a block bad.
    fn calls_bad(&self, found: Option<usize>, block: u32) -> bool
        requires { IfSome found (λ n. n < vec_len self.now.helds) }
        ensures { result ≡ found_calls_bad (copy_at self.now.helds.items found) block }
    {
        match found {
            Some(n) => self.helds[n].calls_bad(block),
            None => false,
        }
    }

    // The place of a copy, which has its own block or gets one that is not the other's place.
    fn place_beside(
        &self,
        primary: Option<usize>,
        mirror: Option<usize>,
        own: Option<u32>,
        other: Option<u32>,
    ) -> u32
        requires primary { IfSome primary (λ n. n < vec_len self.now.helds) }
        requires mirror { IfSome mirror (λ n. n < vec_len self.now.helds) }
        requires own { IfSome own (λ block. block < self.now.geometry.blocks) }
        ensures place { result ≡ place_beside self.now.geometry self.now.candidates.items
            (copy_at self.now.helds.items primary) (copy_at self.now.helds.items mirror) own other }
        ensures there { result < self.now.geometry.blocks }
    {
        match own {
            Some(block) => block,
            None => {
                match self.first_free(primary, mirror, other) {
                    Some(block) => block,
                    None => any_other(&self.geometry, other),
                }
            }
        }
    }

    // The highest candidate that is not the other copy's place and that no found copy calls bad.
    fn first_free(
        &self,
        primary: Option<usize>,
        mirror: Option<usize>,
        other: Option<u32>,
    ) -> Option<u32>
        requires primary { IfSome primary (λ n. n < vec_len self.now.helds) }
        requires mirror { IfSome mirror (λ n. n < vec_len self.now.helds) }
        ensures { result ≡ first_free (copy_at self.now.helds.items primary)
            (copy_at self.now.helds.items mirror) other self.now.candidates.items }
    {
        self.candidates.iter().copied().find(|block| {
            is_other(other, *block)
                && !self.calls_bad(primary, *block)
                && !self.calls_bad(mirror, *block)
        })
    }

    // Whether the copy of another block calls this one bad.
    fn is_disowned(&self, block: u32) -> bool
        ensures { result ≡ list_any (calls_other_bad block) self.now.helds.items }
    {
        self.helds.iter().any(|held| held.calls_other_bad(block))
    }
}
