// All that a source has left, read up to a limit.
ghost use Rattle.std.specs.Prelude.{◌≡◌, ◌++◌, ℕ, ◌<◌, ◌≤◌, ◌+◌, ◌^◌, length, take, Err, IfOk, OnOk, OnErr, IfSome, IsTrue, false, vec_len, []};
ghost use Rattle.std.specs.Option.{option_map};
ghost use Rattle.lab_outside.specs.declared.reading.ReadError.TheVariants.{Failed as FailedRead, Memory};
ghost use Rattle.std.specs.Io.KnownBytes.{prepend_known, IsAtEnd};
ghost use Rattle.lab_outside.specs.Outside.{GaveAtMost, MovesBytes};
ghost use Rattle.nand_model.specs.Counts.{HasRisen};

use crate::{Failed, Source};
use nand_model::Bytes;
use std::alloc::{AllocError, Global};
use thiserror::Error;

/// Why a source was not read to its end.
#[derive(Clone, Copy, Debug, PartialEq, Eq, Error)]
pub enum ReadError {
    /// A call of the source failed before more bytes than the limit had come.
    #[error("the source failed")]
    Failed,
    /// More bytes than the limit have come.
    #[error("the source has more bytes than the limit")]
    TooLong,
    /// Memory ran out.
    #[error("out of memory")]
    Memory,
}

impl From<Failed> for ReadError {
    ghost from_gives = { λ _ e. e ≡ FailedRead };

    fn from(_: Failed) -> ReadError {
        ReadError::Failed
    }
}

impl From<AllocError> for ReadError {
    ghost from_gives = { λ _ e. e ≡ Memory };

    fn from(_: AllocError) -> ReadError {
        ReadError::Memory
    }
}

/// The most bytes that one call asks for.
const PIECE: usize = 65_536;

/// Reads all that the source has left, at most `limit` bytes, in pieces of up to 65,536 bytes.
///
/// Errors: `TooLong` as soon as more bytes than `limit` have come. `Failed` where a call of the
/// source failed before that. `Memory` where memory ran out. What had come is lost then.
pub fn read_to_end<S: Source>(
    alloc: Global,
    source: &mut S,
    limit: usize,
) -> Result<Bytes, ReadError>
    ensures count { S.faults source.old ≤ S.faults source.new }

    ensures all { IfOk result (λ bytes. IfSome (S.left source.old) (λ left. bytes ≡ left)) }
    ensures end { OnOk result (S.left source.new ≡ option_map (λ _. []) (S.left source.old)) }
    ensures within { IfOk result (λ bytes. length bytes ≤ limit) }

    ensures too_long { result ≡ Err ReadError.TooLong →
        IfSome (S.left source.old) (λ bytes. limit < length bytes) }

    ensures calm { OnOk result (S.faults source.new ≡ S.faults source.old) }
    ensures calm_too_long { result ≡ Err ReadError.TooLong → S.faults source.new
        ≡ S.faults source.old }
    ensures calm_memory { result ≡ Err ReadError.Memory → S.faults source.new
        ≡ S.faults source.old }

    ensures risen { result ≡ Err ReadError.Failed →
        HasRisen (S.faults source.old) (S.faults source.new) }
    ensures failed { result ≡ Err ReadError.Failed →
        GaveAtMost (S.left source.old) (S.left source.new) limit }
{
    let mut piece = buffer(alloc, PIECE)?;
    let mut bytes = Bytes::filled(alloc, 0, 0)?;
    while read_piece(source, &mut piece, &mut bytes, limit)? {}
    Ok(bytes)
}

/// Room for one piece.
fn buffer(alloc: Global, len: usize) -> Result<Vec<u8>, AllocError>
    ensures { IfOk result (λ room. vec_len room ≡ len) }
{
    vec![in alloc; 0; len]
}

/// Reads the next piece to the end of `bytes`. False is the end of the source.
fn read_piece<S: Source>(
    source: &mut S,
    piece: &mut [u8],
    bytes: &mut Bytes,
    limit: usize,
) -> Result<bool, ReadError>
    requires asks { 0 < length piece.old }
    requires within { length bytes.old ≤ limit }
    ensures count { S.faults source.old ≤ S.faults source.new }

    ensures moved { OnOk result
        (MovesBytes (S.left source.old) (S.left source.new) bytes.old bytes.new) }
    ensures more { IfOk result (λ more. IsTrue more → length bytes.old < length bytes.new) }
    ensures end { IfOk result (λ more. more ≡ false → IsAtEnd (S.left source.new)) }
    ensures still_within { OnOk result (length bytes.new ≤ limit) }

    ensures too_long { result ≡ Err ReadError.TooLong
        → IfSome (S.left source.old) (λ left. limit < length bytes.old + length left) }

    ensures calm { OnOk result (S.faults source.new ≡ S.faults source.old) }
    ensures calm_too_long { result ≡ Err ReadError.TooLong → S.faults source.new
        ≡ S.faults source.old }
    ensures calm_memory { result ≡ Err ReadError.Memory → S.faults source.new
        ≡ S.faults source.old }

    ensures risen { result ≡ Err ReadError.Failed →
        HasRisen (S.faults source.old) (S.faults source.new) }
    ensures failed { result ≡ Err ReadError.Failed → S.left source.new ≡ S.left source.old }
    ensures unmoved { OnErr result (bytes.new ≡ bytes.old) }
{
    let count = source.read(piece)?;
    if count > limit - bytes.as_slice().len() {
        return Err(ReadError::TooLong);
    }
    bytes.push_slice(&piece[..count])?;
    Ok(count > 0)
}
