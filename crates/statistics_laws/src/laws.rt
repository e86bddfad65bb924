// The law of the ECC statistics of a boot.
ghost use Rattle.std.specs.Prelude.{ℕ, List};
ghost use Rattle.nand_model.specs.Chip.{ChipState, FaultModel};
ghost use Rattle.command_model.specs.Boot.{Boot};
ghost use Rattle.statistics_laws.specs.Counts.{CountsAreSmall, StandOnce, StatisticsFollow};

/// Whatever the boot, its flips, its cut and its turns, the corrected bits and the failed steps
/// that a device has counted are at most 128 for each turn: a page has at most eight steps, and a
/// code corrects at most 16 bits of each.
pub fn counts_are_small<W>()
    ensures { (model : FaultModel W) (boot : Boot) (starts : List (ChipState W)) (attaches : ℕ)
        (turns : List ℕ) →
        CountsAreSmall model boot starts attaches turns }
{}

/// The corrected bits and the failed steps that a device has counted are the sums of those of its
/// answered reads, over sessions among which each one of the boot stands once.
pub fn statistics_follow_reads<W>()
    ensures { (model : FaultModel W) (boot : Boot) (starts : List (ChipState W)) (attaches : ℕ)
        (turns numbers : List ℕ) (dev : ℕ) →
        StandOnce boot numbers → StatisticsFollow model boot starts attaches turns numbers dev }
{}
