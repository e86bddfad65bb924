// The bodies that nandtest writes.
ghost use Rattle.std.specs.Prelude.{◌≡◌, ◌+◌, ◌*◌, ◌<◌, bytes_eq, IfOk};
ghost use Rattle.nand_model.specs.Seeds.{seed_byte};
ghost use Rattle.command_model.specs.NandTest.{kept_body as body_kept, test_body as body_of_pass};

use crate::copies::{padded, part_of};
use nand_model::{Bytes, Geometry, mix};
use std::alloc::{AllocError, Global};

// The byte at a place of the body that a pass with this seed writes to a page of the device.
fn test_byte(g: &Geometry, seed: u64, page: u32, place: u32) -> u8
    ensures { result ≡ seed_byte seed (page * g.now.page + place) }
{
    let index = u64::from(page) * u64::from(g.page) + u64::from(place);
    (mix(seed, index) & 0xff) as u8
}

// The body that a pass with this seed writes to a page of the device.
pub fn test_body(alloc: Global, g: &Geometry, seed: u64, page: u32) -> Result<Bytes, AllocError>
    ensures { IfOk result (λ body. body ≡ body_of_pass g.now seed page) }
{
    let mut body = Bytes::with_room(alloc, g.page as usize)?;
    for place in 0..g.page {
        body.push_slice(&[test_byte(g, seed, page, place)])?;
    }
    Ok(body)
}

// Whether this is the body that a pass with this seed writes to a page of the device.
pub fn is_test_body(g: &Geometry, seed: u64, page: u32, body: &[u8]) -> bool
    ensures { result ≡ bytes_eq (body_of_pass g.now seed page) body.now }
{
    if body.len() != g.page as usize {
        return false;
    }
    for place in 0..g.page {
        if body[place as usize] != test_byte(g, seed, page, place) {
            return false;
        }
    }
    true
}

// The body that was kept of the page at a place, of kept bodies one after the other.
pub fn kept_body(alloc: Global, g: &Geometry, kept: &[u8], place: u32) -> Result<Bytes, AllocError>
    requires { place < 128 }
    ensures { IfOk result (λ body. body ≡ body_kept g.now kept.now place) }
{
    let len = g.page as usize;
    padded(alloc, part_of(kept, place as usize * len, len), len)
}
