// Every interleaving of the first turns of two sessions, beside the rules.
ghost use Rattle.std.specs.Prelude.{◌≡◌, true};
ghost use Rattle.ctl_core.specs.Past.{course_of, takes_turns};

use crate::driving::{attach_all, take_turn};
use crate::plain::{Side, Told};
use crate::small::small_core;
use ctl_core::{Core, SessionEnd};
use nand_iface::{Flash, History, PageCode};
use nand_model::{Note, Op, Outcome, Reply};
use std::alloc::AllocError;
use std::test::Fail;

// What a note says.
fn told(note: &Note) -> Told {
    match note {
        Note::Attached {
            chip,
            quiet: true,
            ..
        } => Told::Attached(*chip),
        Note::Began {
            session,
            op: Op::Erase { dev, block: 0 },
        } => Told::Began(*session, *dev),
        Note::Began {
            session,
            op: Op::IsBad { dev, block: 0 },
        } => Told::Began(*session, *dev),
        Note::Began {
            session,
            op: Op::Mark { dev, block: 0 },
        } => Told::Began(*session, *dev),
        Note::Answered {
            session,
            reply: Reply::Done,
        } => Told::Answered(*session, 0),
        Note::Answered {
            session,
            reply: Reply::State(state),
        } => Told::Answered(*session, *state),
        _ => Told::Other,
    }
}

// Whether the notes say this.
fn all_told(history: &History, want: &[Told]) -> bool {
    if history.len() != want.len() {
        return false;
    }
    for n in 0..history.len() {
        if told(history.get(n)) != want[n] {
            return false;
        }
    }
    true
}

// How the sessions ended, as each outcome should be.
fn ended_well(end: &SessionEnd) -> bool {
    end.len() == 2 && !end.cut() && fine(end.get(0)) && fine(end.get(1))
}

// An erase of one block, a mark, or a block that is good or worn.
fn fine(outcome: &Outcome) -> bool {
    matches!(
        outcome,
        Outcome::FlashErase {
            erased: 1,
            bad: 0,
            failed: 0
        } | Outcome::IsBad {
            reply: Reply::State(0 | 1)
        } | Outcome::MarkBad { reply: Reply::Done }
    )
}

// Plays the sessions that the first bits of `order` name, and then both in turn to their end.
// Whether each turn is answered and noted as the rules say.
fn play<F: Flash, C: PageCode>(
    core: &mut Core<F, C>,
    order: u32,
    want: &mut Vec<Told>,
) -> Result<bool, AllocError>
    requires { takes_turns (course_of F.fault_model F.state core.old) ≡ true }
{
    let mut first = Side::START;
    let mut second = Side::START;
    for n in 0..24u32 {
        let asked = if n < 6 { order >> n } else { n };
        let (turn, note) = if asked % 2 == 0 {
            let (side, turn, note) = first.turn(0, second);
            first = side;
            (turn, note)
        } else {
            let (side, turn, note) = second.turn(1, first);
            second = side;
            (turn, note)
        };
        if take_turn(core, asked % 2)? != turn {
            return Ok(false);
        }
        if let Some(note) = note {
            want.push(note)?;
        }
        if !all_told(core.notes(), want) {
            return Ok(false);
        }
    }
    Ok(first.done() && second.done())
}

#[test]
fn every_interleaving_goes_by_the_rules(rt: HostRuntime) -> Result<(), Fail> {
    let alloc = rt.alloc();
    for order in 0..64 {
        let mut core = small_core(alloc)?;
        attach_all(&mut core)?;
        let mut want = vec![in alloc; Told::Attached(0), Told::Attached(1)]?;
        assert!(rt; play(&mut core, order, &mut want)?, "at {order}");
        assert_eq!(rt; core.turn_count(), 11);
        assert_eq!(rt; core.session(1), Some(1));
        assert_eq!(rt; core.session(2), None);
        if !core.over() {
            return Err("the sessions are not over".into());
        }
        let ended = core.finish()?;
        assert!(rt; all_told(&ended.notes, &want));
        assert_eq!(rt; ended.flashes.len(), 2);
        assert_eq!(rt; ended.stats.len(), 2);
        assert_eq!(rt; ended.bad, 1);
        assert_eq!(rt; ended.outcomes.len(), 2);
        for n in 0..ended.outcomes.len() {
            assert!(rt; ended_well(ended.outcomes.get(n)));
        }
    }
    Ok(())
}
