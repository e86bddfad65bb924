// The last item of a list.
ghost use Rattle.std.specs.Prelude.{◌≡◌};
ghost use Rattle.std.specs.Option.{option_copied};
ghost use Rattle.plan_grammar.specs.Rules.{last_of};

use nand_model::ItemList;

/// Lends the last item. None comes exactly where the list is empty.
pub fn last<T>(list: &ItemList<T>) -> Option<&T>
    ensures { option_copied result ≡ last_of list.now }
{
    let count = list.len();
    if count == 0 {
        None
    } else {
        Some(list.get(count - 1))
    }
}
