ghost use Rattle.std.specs.Prelude.{◌≡◌, ℕ, List, [], Some, slice_get, Contains};
ghost use Rattle.nand_model.specs.Chip.{ChipState, FaultModel, new_chip};
ghost use Rattle.nand_model.specs.Partitions.{Partitions};
ghost use Rattle.nand_model.specs.declared.geometry.Geometry.{Geometry};
ghost use Rattle.nand_model.specs.declared.words.Note.{Note};
ghost use Rattle.nand_model.specs.declared.words.Weak.{Weak};
ghost use Rattle.command_model.specs.Boot.{Boot};
ghost use Rattle.run_model.specs.Course.{Course};
ghost use Rattle.run_model.specs.History.{ChipBoot, IsChipLife, AreOneThread};
ghost use Rattle.run_model.specs.ReadBack.{ProgrammedPagesReadBack, ReadsBackAlong};
ghost use Rattle.run_model.specs.Run.{AreBoots};
ghost use Rattle.read_laws.specs.Fresh.{IsFresh};
ghost use Rattle.read_laws.specs.Laws.{WrongBitsWereFlipped, FilledPagesReadBack, DoneWritesFillPages, CoursesReadBack, RunsReadBack};

/// New chips are fresh, whichever blocks are factory bad: a marker stands in no step's word.
pub fn new_chips_are_fresh()
    ensures { (g : Geometry) (bad : List ℕ) (weak : List Weak) → IsFresh (new_chip g bad weak) }
{}

/// A page that one good program gave an image, since it was fresh or last erased well, differs from
/// the image in no more bits of a step's word than were flipped there since then, before the
/// program or after it.
pub fn wrong_bits_were_flipped<W>()
    ensures { (model : FaultModel W) (chip : ChipState W) → WrongBitsWereFlipped model chip }
{}

/// A page that one good program has filled, with at most t flips in each step's word, decodes to
/// the body and the parity bits that were written, and its counts are those of the wrong bits. No
/// step fails.
pub fn filled_pages_read_back<W>()
    ensures any_chip { (model : FaultModel W) (chip : ChipState W) →
        FilledPagesReadBack model chip }
    ensures new_chip { (g : Geometry) (bad : List ℕ) (weak : List Weak) →
        ProgrammedPagesReadBack g bad weak }
{}

/// A write that was answered done has filled its page with one good program, where that was erased
/// before.
pub fn done_writes_fill_pages<W>()
    ensures { (model : FaultModel W) (chip : ChipState W) → DoneWritesFillPages model chip }
{}

/// Each answered read of such a page, in the life of a chip that was fresh, gives it back, with
/// exact counts and by them its kind.
pub fn lives_read_back<W>()
    ensures one_life { (model : FaultModel W) (partitions : Partitions) (k : ℕ)
        (chip : ChipState W) (life : List ChipBoot)
        (notes : List (List Note)) → IsFresh chip → IsChipLife model partitions k chip life notes →
        ReadsBackAlong model chip [] life }
    ensures one_thread { (model : FaultModel W) (partitions : Partitions)
        (starts : List (ChipState W)) (lives : List (List ChipBoot))
        (notes : List (List Note)) → AreOneThread model partitions starts lives notes →
        (k : ℕ) (chip : ChipState W) (life : List ChipBoot) → slice_get starts k ≡ Some chip →
        IsFresh chip → slice_get lives k ≡ Some life →
        ReadsBackAlong model chip [] life }
{}

/// In every course, whatever its turns, flips, cut and failures: the notes are a history of one
/// thread, in which each answered read of such a page, of a chip that was fresh, gives it back.
pub fn courses_read_back<W>()
    ensures { (model : FaultModel W) (boot : Boot) (starts : List (ChipState W)) (attaches : ℕ)
        (turns : List ℕ) →
        CoursesReadBack model boot starts attaches turns }
{}

/// The same over all boots of a run, each from the states that the one before it left.
pub fn runs_read_back<W>()
    ensures { (model : FaultModel W) (partitions : Partitions) (starts : List (ChipState W))
        (boots : List Boot)
        (turns : List (List ℕ)) (courses : List (Course W)) →
        ((boot : Boot) → Contains boots boot → boot.partitions ≡ partitions) →
        AreBoots model starts boots turns courses →
        RunsReadBack model partitions starts boots courses }
{}
