// A session from its start to its end.
ghost use Rattle.std.specs.Prelude.{IsTrue};
ghost use Rattle.command_model.specs.Runnable.{Fits};

use crate::told::{add, op_told, outcome_told, sizes};
use nand_iface::History;
use nand_model::{
    BadMode, Bytes, Command, Geometry, ItemList, Note, Outcome, PageKind, PageRead, Reply,
};
use session_steps::{Session, SessionEnd};
use std::alloc::{AllocError, Global};
use std::test::Fail;

// Session 7, its commands and the notes.
#[derive(Drop)]
struct Run {
    commands: ItemList<Command>,
    notes: History,
    session: Session,
}

impl Run {
    // `isbad` of a block, and then `nanddump` of the first page, each with a `nandwrite` of no data
    // behind it.
    fn new(alloc: Global) -> Result<Run, AllocError> {
        let mut commands = ItemList::new(alloc);
        commands.append(Command::IsBad {
            dev: 3,
            blocks: 16,
            block: 5,
        })?;
        commands.append(writing_nothing(alloc)?)?;
        commands.append(Command::NandDump {
            dev: 3,
            blocks: 16,
            off: 0,
            len: 2048,
            raw: true,
            oob: false,
            bad: BadMode::DumpBad,
        })?;
        commands.append(writing_nothing(alloc)?)?;
        Ok(Run {
            commands,
            notes: History::new(alloc),
            session: Session::new(alloc, 7),
        })
    }

    // The next operation, or that the session is over.
    fn next(&mut self, alloc: Global) -> Result<String, AllocError> {
        let g = sizes();
        let is_over = self.session.is_over(&self.commands, &self.notes);
        match self.session.next_command(&self.commands, &self.notes) {
            Some(command) if fits(&g, command) && !is_over => {
                op_told(
                    alloc,
                    &self.session.next_op(&self.commands, &g, &self.notes)?,
                )
            }
            None if is_over => String::from_str(alloc, "over"),
            _ => String::from_str(alloc, "another command"),
        }
    }

    // Adds the next operation to a text.
    fn tell(&mut self, alloc: Global, text: &mut String) -> Result<(), AllocError> {
        add(text, self.next(alloc)?.as_str())
    }

    // The session has a reply.
    fn answer(&mut self, reply: Reply) -> Result<(), AllocError> {
        let place = self.notes.len();
        self.notes.reserve(1)?;
        self.notes.push(Note::Answered { session: 7, reply });
        self.session.replied(place);
        Ok(())
    }

    // How the session ended.
    fn finish(self, alloc: Global) -> Result<String, AllocError> {
        ended_told(
            alloc,
            &self.session.finish(&self.commands, &self.notes, false)?,
        )
    }
}

// `nandwrite` of no data.
fn writing_nothing(alloc: Global) -> Result<Command, AllocError> {
    Ok(Command::NandWrite {
        dev: 3,
        blocks: 16,
        mark: true,
        raw: false,
        oob: false,
        pad: true,
        off: 0,
        bytes: Bytes::with_room(alloc, 0)?,
    })
}

// Whether this is one of the two commands that ask for operations, on a chip of such sizes.
fn fits(g: &Geometry, command: &Command) -> bool
    ensures { IsTrue result → Fits g.now command.now }
{
    match command {
        Command::IsBad { blocks: 16, .. } => true,
        Command::NandDump {
            blocks: 16,
            off: 0,
            len: 2048,
            ..
        } => g.page == 2048 && g.pages_per_block == 64,
        _ => false,
    }
}

// The number of a session that ended, whether it was cut, and its outcomes.
fn ended_told(alloc: Global, ended: &SessionEnd) -> Result<String, AllocError> {
    let mut text = format!(in alloc; "{} {}:", ended.session(), ended.cut())?;
    for n in 0..ended.len() {
        text.push_str(" ")?;
        text.push_str(outcome_told(alloc, ended.get(n))?.as_str())?;
        text.push_str(",")?;
    }
    Ok(text)
}

// A page that is read erased.
fn erased_page(alloc: Global) -> Result<Reply, AllocError> {
    Ok(Reply::Page {
        kind: PageKind::Raw,
        read: PageRead {
            corrected: 0,
            greatest: 0,
            failed: 0,
        },
        image: Bytes::filled(alloc, 0xff, 2112)?,
    })
}

// What the session asks for, the first operation twice.
fn tell_all(alloc: Global, run: &mut Run, text: &mut String) -> Result<(), AllocError> {
    run.tell(alloc, text)?;
    run.tell(alloc, text)?;
    run.answer(Reply::State(0))?;
    run.tell(alloc, text)?;
    run.answer(erased_page(alloc)?)?;
    run.tell(alloc, text)
}

// What the session asks for, and how it ends.
fn told(alloc: Global) -> Result<String, AllocError> {
    let mut text = String::new(alloc);
    let mut run = Run::new(alloc)?;
    tell_all(alloc, &mut run, &mut text)?;
    add(&mut text, run.finish(alloc)?.as_str())?;
    Ok(text)
}

const TOLD: &str = "isbad 3 5 0\nisbad 3 5 0\nraw read 3 0 0\nover\n\
    7 false: state 0, 0 0 0 Whole, 1 0 0 0 of 2048, 0 0 0 Whole,\n";

#[test]
fn goes_through_its_commands(rt: HostRuntime) -> Result<(), Fail> {
    assert_eq!(rt; told(rt.alloc())?.as_str(), TOLD);
    Ok(())
}

// The end of session 4, which was cut after an erase.
fn cut_after_an_erase(alloc: Global) -> Result<String, Fail> {
    let mut ended = SessionEnd::new(alloc, 4, true);
    let erased = Outcome::FlashErase {
        erased: 16,
        bad: 0,
        failed: 0,
    };
    if ended.push(erased).is_err() {
        return Err("memory".into());
    }
    Ok(ended_told(alloc, &ended)?)
}

#[test]
fn keeps_outcomes(rt: HostRuntime) -> Result<(), Fail> {
    assert_eq!(rt; cut_after_an_erase(rt.alloc())?.as_str(), "4 true: 16 0 0,");
    Ok(())
}
