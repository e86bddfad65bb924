// The arguments of the program, served to its exit status.
ghost use Rattle.std.specs.Prelude.{◌≡◌, ◌<◌, ◌⊎◌, ℕ, List, Some, None, IfErr, IfOk, IsErr};
ghost use Rattle.std.specs.Vec.Iter.{into_iter_items};
ghost use Rattle.nand_model.specs.Counts.{HasRisen};
ghost use Rattle.nandlab.specs.Answer.{AreRefused, AreServed, IsCalm, Leaves};
ghost use Rattle.nandlab.specs.Arguments.{NoMemory, words_told};
ghost use Rattle.nandlab.specs.Status.{exit_code};
ghost use Rattle.nandlab.specs.Words.{given_to, request_of, words_behind};

use crate::status::{Status, code};
use crate::top::serial_top;
use lab_outside::{Sink, Source};
use std::alloc::{AllocError, Global};
use std::env::Args;
use std::io;
use std::io::ErrorKind;

// The words behind the program's name.
fn words_behind(alloc: Global, args: Args) -> Result<Vec<String>, AllocError>
    ensures { IfOk result (λ words. words.items ≡ words_behind (into_iter_items args)) }
{
    let mut rest = args;
    let _name = rest.next();
    let mut words = Vec::new(alloc);
    for word in rest {
        words.push(word)?;
    }
    Ok(words)
}

// The words of a call by its arguments, as far as they were read: none where one of them is not
// UTF-8.
fn words_told(alloc: Global, arguments: io::Result<Args>) -> Result<Vec<String>, AllocError>
    ensures words { IfOk result (λ words. words.items ≡ words_told arguments) }
    ensures no_memory { IfErr arguments (λ error. NoMemory error → IsErr result) }
{
    match arguments {
        Ok(args) => words_behind(alloc, args),
        Err(error) if error.kind() == ErrorKind::OutOfMemory => Err(AllocError),
        Err(_) => Ok(Vec::new(alloc)),
    }
}

/// Serves the arguments of a call, of which the first is the program's name, as `serial_top` serves
/// the words behind it, and gives the exit status of the process. Arguments that could not be read,
/// as where one is not UTF-8, are refused as no words are; where memory ran out the status is 6.
pub fn exit_status<S: Source, K: Sink>(
    alloc: Global,
    arguments: io::Result<Args>,
    source: &mut S,
    sink: &mut K,
) -> u8
    // The words.
    ensures usage { result ≡ 2 → request_of (words_told arguments) ≡ None }
    ensures refused { request_of (words_told arguments) ≡ None → (result ≡ 2)
        ⊎ ((result ≡ 5) ⊎ (result ≡ 6)) }
    ensures no_memory { IfErr arguments (λ error. NoMemory error → result ≡ 6) }

    // The bytes.
    ensures complete { IsCalm (S.faults source.old) (S.faults source.new)
        → IsCalm (K.faults sink.old) (K.faults sink.new)
        → (bytes : List ℕ)
        → given_to (words_told arguments) (S.left source.old) ≡ Some bytes
        → AreServed (words_told arguments) bytes → (result ≡ 0) ⊎ (result ≡ 6) }
    ensures refusing { IsCalm (S.faults source.old) (S.faults source.new)
        → IsCalm (K.faults sink.old) (K.faults sink.new)
        → (bytes : List ℕ)
        → given_to (words_told arguments) (S.left source.old) ≡ Some bytes
        → AreRefused (words_told arguments) bytes → (result ≡ 3) ⊎ (result ≡ 6) }
    ensures written { (bytes before : List ℕ)
        → given_to (words_told arguments) (S.left source.old) ≡ Some bytes
        → K.held sink.old ≡ Some before → (status : Status) × (result ≡ exit_code status)
        × Leaves (words_told arguments) bytes status before (K.held sink.new) }

    // The faults.
    ensures read_fault { result ≡ 4 → HasRisen (S.faults source.old) (S.faults source.new) }
    ensures ended_by_fault { S.faults source.old < S.faults source.new → result ≡ 4 }
    ensures write_fault { result ≡ 5 → HasRisen (K.faults sink.old) (K.faults sink.new) }
{
    match words_told(alloc, arguments) {
        Ok(words) => code(serial_top(alloc, &words, source, sink)),
        Err(_) => code(Status::Memory),
    }
}
