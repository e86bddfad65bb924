// The top call.
ghost use Rattle.std.specs.Prelude.{◌≡◌, ◌<◌, ◌≤◌, ◌⊎◌, ℕ, List, [], None, Some, Err, length, option_map, IfOk, IfSome, OnOk};
ghost use Rattle.std.specs.Io.KnownBytes.{IsAtEnd, append_known};
ghost use Rattle.lab_outside.specs.Outside.{TookPrefix};
ghost use Rattle.lab_outside.specs.declared.reading.ReadError.TheVariants.{Failed, TooLong, Memory as NoMemory};
ghost use Rattle.nand_model.specs.Counts.{HasRisen};
ghost use Rattle.nandlab.specs.Words.{given_of, given_to, most_asked, most_read, request_of};
ghost use Rattle.nandlab.specs.Answer.{AreRefused, AreServed, IsCalm, Leaves};

use crate::answer::answer_to;
use crate::refusal::{TOO_LONG, USAGE};
use crate::request::Request;
use crate::status::Status;
use crate::words::request;
use lab_outside::{ReadError, Sink, Source, read_to_end, write_all};
use nand_model::Bytes;
use std::alloc::Global;

// Writes a text, and answers this status, or `WriteFault` where the sink failed.
fn written<K: Sink>(sink: &mut K, text: &[u8], status: Status) -> Status
    ensures count { K.faults sink.old ≤ K.faults sink.new }
    ensures either { ((result ≡ status)
        × (K.held sink.new ≡ append_known (K.held sink.old) text.now))
        ⊎ ((result ≡ Status.WriteFault) × HasRisen (K.faults sink.old) (K.faults sink.new)
        × TookPrefix (K.held sink.old) (K.held sink.new) text.now) }
{
    match write_all(sink, text) {
        Ok(()) => status,
        Err(_) => Status::WriteFault,
    }
}

// The bytes that a request is given: all that the source has left, or none where it reads nothing.
fn given<S: Source>(alloc: Global, request: Request, source: &mut S) -> Result<Bytes, ReadError>
    ensures count { S.faults source.old ≤ S.faults source.new }
    ensures unread { most_read request ≡ None
        → (S.left source.new ≡ S.left source.old) × (S.faults source.new ≡ S.faults source.old) }

    ensures all { IfOk result (λ bytes. IfSome (given_of (most_read request) (S.left source.old))
        (λ left. bytes ≡ left)) }
    ensures end { (most : ℕ) → most_read request ≡ Some most → OnOk result
        (S.left source.new ≡ option_map (λ _. []) (S.left source.old)) }
    ensures too_long { result ≡ Err TooLong → (most : ℕ) × (most_read request ≡ Some most)
        × IfSome (S.left source.old) (λ bytes. most < length bytes) }

    ensures calm { OnOk result (S.faults source.new ≡ S.faults source.old) }
    ensures calm_too_long { result ≡ Err TooLong → S.faults source.new ≡ S.faults source.old }
    ensures calm_memory { result ≡ Err NoMemory → S.faults source.new ≡ S.faults source.old }
    ensures risen { result ≡ Err Failed → HasRisen (S.faults source.old) (S.faults source.new) }
{
    match request.most_read() {
        Some(most) => read_to_end(alloc, source, most),
        None => Ok(Bytes::filled(alloc, 0, 0)?),
    }
}

/// Serves the words of a call: `check` reads a plan from the source and writes its canonical text
/// to the sink, `replay` writes the report of its replay, and `run` does what `replay` does.
/// `make N` reads nothing, and writes the summary of the replay of the plan of the number N. `bus`
/// reads a script of bus cycles and writes what it does at a new chip. `encode14 T` reads steps of
/// 1024 bytes and writes each followed by its stored parity, for T wrong bits; `decode14 T` reads
/// such units and writes how each was read.
///
/// Bytes that are no plan or no script are refused with `line L: KIND`: the first line that breaks a
/// rule, and the first rule that it breaks; a script with an illegal cycle with `cycle N: Illegal`;
/// steps or units of which the last is not whole with `line 0: NotMultiple`. `line 0: TooLong` comes
/// as soon as more than 16,777,216 bytes have come, and for a script more than 1,048,576. Other words
/// get the usage line, and nothing is read. It waits for nobody.
pub fn serial_top<S: Source, K: Sink>(
    alloc: Global,
    words: &Vec<String>,
    source: &mut S,
    sink: &mut K,
) -> Status
    // The words.
    ensures usage { result ≡ Status.Usage → request_of words.now.items ≡ None }
    ensures refused { request_of words.now.items ≡ None → (result ≡ Status.Usage)
        ⊎ ((result ≡ Status.WriteFault) ⊎ (result ≡ Status.Memory)) }
    ensures unread { most_asked (request_of words.now.items) ≡ None
        → (S.left source.new ≡ S.left source.old) × (S.faults source.new ≡ S.faults source.old) }

    // The bytes.
    ensures fine { result ≡ Status.Fine
        → IfSome (given_to words.now.items (S.left source.old)) (AreServed words.now.items) }
    ensures fine_at_end { result ≡ Status.Fine → (most : ℕ)
        → most_asked (request_of words.now.items) ≡ Some most → IsAtEnd (S.left source.new) }
    ensures plan_refused { result ≡ Status.PlanRefused
        → IfSome (given_to words.now.items (S.left source.old)) (AreRefused words.now.items) }
    ensures refused_at_end { result ≡ Status.PlanRefused → (most : ℕ)
        → most_asked (request_of words.now.items) ≡ Some most
        → IfSome (S.left source.old) (λ bytes. length bytes ≤ most → IsAtEnd (S.left source.new)) }
    ensures complete { IsCalm (S.faults source.old) (S.faults source.new)
        → IsCalm (K.faults sink.old) (K.faults sink.new)
        → (bytes : List ℕ) → given_to words.now.items (S.left source.old) ≡ Some bytes
        → AreServed words.now.items bytes → (result ≡ Status.Fine) ⊎ (result ≡ Status.Memory) }
    ensures refusing { IsCalm (S.faults source.old) (S.faults source.new)
        → IsCalm (K.faults sink.old) (K.faults sink.new)
        → (bytes : List ℕ) → given_to words.now.items (S.left source.old) ≡ Some bytes
        → AreRefused words.now.items bytes
        → (result ≡ Status.PlanRefused) ⊎ (result ≡ Status.Memory) }
    ensures written { (bytes before : List ℕ)
        → given_to words.now.items (S.left source.old) ≡ Some bytes → K.held sink.old ≡ Some before
        → Leaves words.now.items bytes result before (K.held sink.new) }

    // The faults.
    ensures read_fault { result ≡ Status.ReadFault →
        HasRisen (S.faults source.old) (S.faults source.new) }
    ensures ended_by_fault { S.faults source.old < S.faults source.new → result ≡ Status.ReadFault }
    ensures write_fault { result ≡ Status.WriteFault →
        HasRisen (K.faults sink.old) (K.faults sink.new) }
    ensures counts { (S.faults source.old ≤ S.faults source.new)
        × (K.faults sink.old ≤ K.faults sink.new) }
{
    match request(alloc, words) {
        Ok(None) => written(sink, USAGE, Status::Usage),
        Ok(Some(request)) => match given(alloc, request, source) {
            Ok(bytes) => match answer_to(alloc, request, bytes.as_slice()) {
                Ok(answer) => written(sink, answer.text.as_slice(), answer.status),
                Err(_) => Status::Memory,
            },
            Err(ReadError::Failed) => Status::ReadFault,
            Err(ReadError::TooLong) => written(sink, TOO_LONG, Status::PlanRefused),
            Err(ReadError::Memory) => Status::Memory,
        },
        Err(_) => Status::Memory,
    }
}
