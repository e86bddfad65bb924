// What follows from the choice of a copy.
ghost use Rattle.std.specs.Prelude.{◌≡◌, ◌<◌, ℕ, List, IfSome};
ghost use Rattle.chip_paths.specs.Attach.{origin_of, whole_at_first};
ghost use Rattle.chip_paths.specs.Copies.{rewritten, used_copy};
ghost use Rattle.bbt_flash.specs.Copies.{copies_in, whole_in};
ghost use Rattle.bbt_flash.specs.Held.{copy_at};
ghost use Rattle.bbt_flash.specs.declared.held.Held.{Held};

use crate::copies::{CopiesLeft, WholeCopies};
use nand_iface::Origin;
use nand_model::{Choice, Which};

/// The place of the copy that is used, by what was chosen.
pub fn used(choice: Choice, primary: Option<usize>, mirror: Option<usize>) -> Option<usize>
    ensures copy { (helds : List Held) → copy_at helds result
        ≡ used_copy choice (copy_at helds primary) (copy_at helds mirror) }
    ensures there { (count : ℕ) → IfSome primary (λ n. n < count)
        → IfSome mirror (λ n. n < count) → IfSome result (λ n. n < count) }
{
    match choice {
        Choice::Primary { .. } => primary,
        Choice::Mirror { .. } => mirror,
        Choice::Neither => None,
    }
}

/// Where a table comes from, by what was chosen.
pub fn origin_of(choice: Choice) -> Origin
    ensures { result ≡ origin_of choice }
{
    match choice {
        Choice::Primary { .. } => Origin::Primary,
        Choice::Mirror { .. } => Origin::Mirror,
        Choice::Neither => Origin::Markers,
    }
}

/// The copies that are whole before those are written again that a choice names.
pub fn whole_at_first(choice: Choice) -> WholeCopies
    ensures { whole_in result ≡ whole_at_first choice }
{
    match choice {
        Choice::Primary { rewrite } => WholeCopies {
            primary: true,
            mirror: !rewrite,
        },
        Choice::Mirror { rewrite } => WholeCopies {
            primary: !rewrite,
            mirror: true,
        },
        Choice::Neither => WholeCopies {
            primary: false,
            mirror: false,
        },
    }
}

/// The copies that are written again by a choice.
pub fn rewritten(choice: Choice) -> CopiesLeft
    ensures { copies_in result ≡ rewritten choice }
{
    match choice {
        Choice::Primary { rewrite: true } => CopiesLeft::Last(Which::Mirror),
        Choice::Mirror { rewrite: true } => CopiesLeft::Last(Which::Primary),
        Choice::Primary { rewrite: false } | Choice::Mirror { rewrite: false } => {
            CopiesLeft::Nothing
        }
        Choice::Neither => CopiesLeft::Both {
            first: Which::Primary,
        },
    }
}
