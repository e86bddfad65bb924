//! Laws of whole runs of a plan: the parts of the headline, for every plan, of any number of
//! controllers and boots.
#![tactic(auto)]

ghost use Rattle.std.specs.Prelude.{◌≡◌, ℕ, List, ◌++◌, ◌∷◌, [], length, map, true};
ghost use Rattle.nand_model.specs.Chip.{ChipState, SimFaults, sim_faults};
ghost use Rattle.nand_model.specs.declared.geometry.Geometry.{Geometry};
ghost use Rattle.nand_model.specs.declared.words.Command.{Command};
ghost use Rattle.run_model.specs.Course.{Course};
ghost use Rattle.run_model.specs.Run.{HasTableBlocks};
ghost use Rattle.command_model.specs.Command.{script_of};
ghost use Rattle.command_model.specs.Boot.{AreAscending};
ghost use Rattle.plan_model.specs.Plan.{BootPlan, ChipPlan, PlanData, boot_part, new_chips};
ghost use Rattle.plan_grammar.specs.Hardware.{leaves_table_blocks};
ghost use Rattle.plan_laws.specs.Within.{IsWithinLimits};
ghost use Rattle.report_model.specs.Report.{report_text};
ghost use Rattle.headline_model.specs.Headline.{
  AreReplay,
  AreTrueHistories,
  Courses,
  IsLegalReport,
  IsReplayOf,
  IsReportOfRun,
  IsRun,
  KeepMarks,
  notes_of_run,
  replay_turns,
  starts_at,
};
ghost use Rattle.run_laws.specs.Replay.{IsReplayed, rounds_after, session_numbers};
ghost use Rattle.headline_laws.specs.Bodies.{WritesBodies};
ghost use Rattle.headline_laws.specs.TableBlocks.{HaveTableBlocks};
ghost use Rattle.headline_laws.specs.Replays.{
  AreReplaysOfAll,
  AreReplaysOfBoots,
  IsReplayOfBoot,
  own_schedule,
};

/// Every legal run of a plan has true histories, whatever its turns, flips, cuts and weak places:
/// the notes of each controller are a history of one thread in which each session's operations
/// stand once and in order, and a programmed page with few flips reads back, over all boots.
pub fn runs_have_true_histories()
    ensures { (plan : PlanData) (turns : List (List (List ℕ))) (courses : Courses) →
        IsRun plan turns courses → AreTrueHistories plan courses }
{}

/// A plan has one replay, whatever the numbers of rounds.
pub fn replay_is_the_only_one()
    ensures { (plan : PlanData) (courses other : Courses) → AreReplay plan courses →
        AreReplay plan other → other ≡ courses }
{}

/// Replays of the boots of each controller, each boot with a number of rounds of its own, are a
/// replay of the plan: one number of rounds serves all, since more rounds change nothing.
pub fn replays_join()
    ensures { (plan : PlanData) (courses : Courses) → AreReplaysOfAll plan courses →
        AreReplay plan courses }
{}

/// Replays of a controller's boots grow by that of the next boot, from the states that they left.
pub fn replays_grow()
    ensures { (plan : PlanData) (c : ℕ) (chips : List ChipPlan)
        (starts : List (ChipState SimFaults)) (boots : List BootPlan)
        (courses : List (Course SimFaults)) (boot : BootPlan) (course : Course SimFaults) →
        AreReplaysOfBoots plan c chips starts boots courses →
        IsReplayOfBoot plan c chips boot (starts_at starts courses (length boots)) course →
        AreReplaysOfBoots plan c chips starts (boots ++ boot ∷ []) (courses ++ course ∷ []) }
{}

/// The turns of a replay of a boot are a controller's own of the schedule, and then rounds of its
/// own sessions. So what such turns lead to is a replay of that boot.
pub fn rounds_are_replays()
    ensures turns { (plan : PlanData) (c : ℕ) (chips : List ChipPlan) (boot : BootPlan)
        (rounds : ℕ) →
        replay_turns boot rounds c
        ≡ rounds_after (own_schedule boot c)
        (session_numbers (boot_part plan c chips boot)) rounds }
    ensures replay { (plan : PlanData) (c : ℕ) (chips : List ChipPlan) (boot : BootPlan)
        (starts : List (ChipState SimFaults)) (course : Course SimFaults) →
        IsReplayed sim_faults (boot_part plan c chips boot) starts (own_schedule boot c) course →
        IsReplayOfBoot plan c chips boot starts course }
{}

/// In every legal run of a plan the marks of each chip survive, also past cuts, flips and
/// failures: a rescan shows bad what was acknowledged, and nothing whose marking had not begun, as
/// far as torn events were fair and attaches quiet. At each moment one whole copy of a table stays,
/// and two whole copies hold the table in memory.
pub fn marks_are_kept()
    ensures { (plan : PlanData) (turns : List (List (List ℕ))) (courses : Courses) →
        IsRun plan turns courses → KeepMarks plan courses }
{}

/// Whatever the replies, a command writes bodies of one page alone: so nothing that it writes
/// shifts a byte of parity onto a marker.
pub fn commands_write_whole_bodies()
    ensures { (g : Geometry) (command : Command) → WritesBodies g (script_of g command) }
{}

/// The rule of plans on bad blocks is what the laws of marks ask of a chip: with tables, at most
/// two of its last four blocks are factory-bad. So it holds of each chip of a plan within its
/// limits.
pub fn plans_leave_table_blocks()
    ensures chip { (g : Geometry) (bad : List ℕ) → leaves_table_blocks g bad ≡ true →
        HasTableBlocks g bad }
    ensures plan { (plan : PlanData) → IsWithinLimits plan → HaveTableBlocks plan }
{}

/// Each boot of a controller's replays begins with chips of the plan's sizes.
pub fn sizes_stay()
    ensures { (plan : PlanData) (c : ℕ) (chips : List ChipPlan) (boots : List BootPlan)
        (courses : List (Course SimFaults)) (n : ℕ) →
        AreReplaysOfBoots plan c chips (new_chips chips) boots courses →
        map (λ (s : ChipState SimFaults). s.geometry) (starts_at (new_chips chips) courses n)
        ≡ map (λ (chip : ChipPlan). chip.geometry) chips }
{}

/// The report of a plan's replay says all of the headline: it is that of the only replay, its
/// histories are true and the marks are kept. So does each legal report, that of any legal run.
/// A plan has one report of its replay.
pub fn reports_are_whole()
    ensures replay { (plan : PlanData) (courses : Courses) (text : List ℕ) →
        AreReplay plan courses → text ≡ report_text plan (notes_of_run plan courses) →
        IsReplayOf plan text }
    ensures legal { (plan : PlanData) (text : List ℕ) → IsLegalReport plan text →
        IsReportOfRun plan text }
    ensures one { (plan : PlanData) (text other : List ℕ) → IsReplayOf plan text →
        IsReplayOf plan other → other ≡ text }
{}

/// The numbers of a controller's sessions ascend in each boot.
pub fn sessions_ascend()
    ensures { (plan : PlanData) (c : ℕ) (chips : List ChipPlan) (boot : BootPlan) →
        AreAscending (boot_part plan c chips boot).sessions }
{}
