//! Laws of the two copies of a table: at each moment of a boot, how many of them are whole, and what
//! the next boot finds.
#![tactic(auto)]

ghost use Rattle.std.specs.Prelude.{List};
ghost use Rattle.nand_model.specs.Chip.{ChipState, FaultModel};
ghost use Rattle.command_model.specs.Boot.{Boot};
ghost use Rattle.copy_laws.specs.Copies.{
  AttachesFindTwo,
  OperationsKeepCopies,
  TooFewCopiesFollowAFailure,
  WritingsEndWhole,
};

/// While a chip with tables is attached, in any boot: two copies are whole, or in this boot an
/// erase or a program of the block in a copy's place failed, and none of the last four blocks was
/// left to take its place. So marks are answered `copies N` only then.
pub fn too_few_copies_follow_a_failure<W>()
    ensures { (model : FaultModel W) (boot : Boot) (starts : List (ChipState W)) →
        TooFewCopiesFollowAFailure model boot starts }
{}

/// Two whole copies stay whole through all operations, until such a failure comes.
pub fn operations_keep_copies<W>()
    ensures { (model : FaultModel W) (boot : Boot) (starts : List (ChipState W)) →
        OperationsKeepCopies model boot starts }
{}

/// In each boot of a run of a chip that was new at first, as far as its torn events were fair and
/// its attaches quiet: while it is attached and nothing is pending on it, both places hold the
/// table and the version in memory, unless such a failure came in this boot.
pub fn writings_end_whole()
    ensures { WritingsEndWhole }
{}

/// Whenever such a boot ends while the chip is attached, nothing is pending on it and two copies are
/// whole, the next quiet attach takes the primary and comes to two whole copies with the same table
/// and version.
pub fn attaches_find_two()
    ensures { AttachesFindTwo }
{}
