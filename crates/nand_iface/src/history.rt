// The notes of a controller.
ghost use Rattle.std.specs.Prelude.{◌≡◌, ◌≤◌, ◌<◌, ◌+◌, [], ◌∷◌, ◌++◌, length, slice_get, OnOk};

use nand_model::Note;
use std::alloc::{AllocError, Global};
use std::marker::Model;

/// A list of notes in the order in which they were made. Contracts see it as the notes beside its
/// room: how many more may be added without memory.
#[derive(Drop)]
pub struct History {
    notes: Vec<Note>,
}

impl Model for History {
    ghost use Rattle.std.specs.Prelude.{◌-◌, vec_len, vec_capacity};
    ghost use Rattle.nand_iface.specs.NotesAndRoom.{NotesAndRoom};

    ghost Value = { NotesAndRoom };

    ghost view = { λ h. record { notes = h.notes.items; room = vec_capacity h.notes - vec_len h.notes } };
}

impl History {
    /// A history without notes, which takes no memory.
    pub fn new(alloc: Global) -> History
        ensures { result.notes ≡ [] }
    {
        History {
            notes: Vec::new(alloc),
        }
    }

    /// Makes the room at least `notes`, and leaves the notes as they are. Where memory runs out,
    /// the room is no less than before.
    pub fn reserve(&mut self, notes: u32) -> Result<(), AllocError>
        ensures room { OnOk result (notes ≤ self.new.room) }
        ensures no_less { self.old.room ≤ self.new.room }
        ensures notes { self.new.notes ≡ self.old.notes }
    {
        self.notes.reserve(notes as usize)
    }

    /// Adds a note at the end. It takes no memory, and one note of the room.
    pub fn push(&mut self, note: Note)
        requires { 0 < self.old.room }
        ensures notes { self.new.notes ≡ self.old.notes ++ note ∷ [] }
        ensures room { self.old.room ≡ self.new.room + 1 }
    {
        self.notes.push_reserved(note);
    }

    /// The number of notes.
    pub fn len(&self) -> usize
        ensures { result ≡ length self.now.notes }
    {
        self.notes.len()
    }

    /// Lends the note at place `n`, counted from 0.
    pub fn get(&self, n: usize) -> &Note
        requires { n < length self.now.notes }
        ensures { slice_get self.now.notes n ≡ Some result.now }
    {
        &self.notes[n]
    }
}

#[cfg(test)]
mod tests {
    use super::*;
    use nand_model::Reply;
    use std::test::Fail;

    fn done(session: u32) -> Note {
        let reply = Reply::Done;
        Note::Answered { session, reply }
    }

    fn session_of(note: &Note) -> u32 {
        match note {
            Note::Answered { session, .. } => *session,
            _ => 0,
        }
    }

    #[test]
    fn keeps_notes_in_order(rt: HostRuntime) -> Result<(), Fail> {
        let mut history = History::new(rt.alloc());
        history.reserve(3)?;
        history.push(done(7));
        history.push(done(4));
        history.push(done(9));
        assert_eq!(rt; history.len(), 3);
        assert_eq!(rt; session_of(history.get(0)), 7);
        assert_eq!(rt; session_of(history.get(1)), 4);
        assert_eq!(rt; session_of(history.get(2)), 9);
        Ok(())
    }
}
