// Bytes that a command copies: units, images, bodies and replies.
ghost use Rattle.std.specs.Prelude.{◌≡◌, ◌≤◌, ◌<◌, ◌+◌, ◌-◌, ◌^◌, ◌++◌, length, take, drop, replicate, IfOk};
ghost use Rattle.command_model.specs.Command.{block_size, unit_size};
ghost use Rattle.command_model.specs.NandTest.{body_read};

use nand_model::{Bytes, Geometry, Reply};
use std::alloc::{AllocError, Global};

// These bytes, and then 0xFF up to so many.
pub fn padded(alloc: Global, bytes: &[u8], len: usize) -> Result<Bytes, AllocError>
    requires { length bytes.now ≤ len }
    ensures { IfOk result (λ b. b ≡ bytes.now ++ replicate (len - length bytes.now) 0xff) }
{
    with_erased(alloc, bytes, len - bytes.len())
}

// These bytes, and then so many 0xFF.
pub fn with_erased(alloc: Global, bytes: &[u8], more: usize) -> Result<Bytes, AllocError>
    ensures { IfOk result (λ b. b ≡ bytes.now ++ replicate more 0xff) }
{
    let mut all = Bytes::from_slice(alloc, bytes)?;
    let erased = Bytes::filled(alloc, 0xff, more)?;
    all.push_slice(erased.as_slice())?;
    Ok(all)
}

// The body of a page image, or all of a shorter one.
pub fn body_of(alloc: Global, image: &[u8], page: u32) -> Result<Bytes, AllocError>
    ensures { IfOk result (λ b. b ≡ take page image.now) }
{
    let len = image.len().min(page as usize);
    Bytes::from_slice(alloc, &image[..len])
}

// The body in a reply; no bytes where it is not a page.
pub fn page_body<'a>(g: &Geometry, reply: &'a Reply) -> &'a [u8]
    ensures { result.now ≡ body_read g.now reply.now }
{
    match reply {
        Reply::Page { image, .. } => {
            let image = image.as_slice();
            &image[..image.len().min(g.page as usize)]
        }
        _ => &[],
    }
}

// A copy of a reply.
pub fn copy_of(alloc: Global, reply: &Reply) -> Result<Reply, AllocError>
    ensures { IfOk result (λ copy. copy ≡ reply.now) }
{
    Ok(match reply {
        Reply::Done => Reply::Done,
        Reply::OutOfRange => Reply::OutOfRange,
        Reply::BadBlock => Reply::BadBlock,
        Reply::MarkerByte => Reply::MarkerByte,
        Reply::ProgramFailed => Reply::ProgramFailed,
        Reply::EraseFailed => Reply::EraseFailed,
        Reply::MarkerFailed => Reply::MarkerFailed,
        Reply::TableFailed(which) => Reply::TableFailed(*which),
        Reply::Reserved => Reply::Reserved,
        Reply::Copies(copies) => Reply::Copies(*copies),
        Reply::State(state) => Reply::State(*state),
        Reply::Counts {
            corrected,
            failed,
            bad,
        } => Reply::Counts {
            corrected: *corrected,
            failed: *failed,
            bad: *bad,
        },
        Reply::Page { kind, read, image } => Reply::Page {
            kind: *kind,
            read: *read,
            image: Bytes::from_slice(alloc, image.as_slice())?,
        },
    })
}

// At most `len` of these bytes, from `from` on.
pub fn part_of(bytes: &[u8], from: usize, len: usize) -> &[u8]
    requires { from + len < 2 ^ 64 }
    ensures { result.now ≡ take len (drop from bytes.now) }
{
    let first = from.min(bytes.len());
    let end = (from + len).min(bytes.len());
    &bytes[first..end]
}

// The bytes of a page that a command handles: its body, with `-o` its spare too.
pub fn unit_len(g: &Geometry, oob: bool) -> u32
    ensures { result ≡ unit_size g.now oob }
{
    if oob { g.raw_len() } else { g.page }
}

// The bytes of the bodies of a block.
pub fn block_len(g: &Geometry) -> u64
    ensures { result ≡ block_size g.now }
{
    u64::from(g.pages_per_block) * u64::from(g.page)
}
