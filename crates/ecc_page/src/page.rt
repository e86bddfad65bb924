// A whole page, step after step.
ghost use Rattle.std.specs.Prelude.{◌≡◌, ◌<◌, ◌≤◌, ◌+◌, ◌*◌, length, max, flat_map, sum_by, count_by, fold, cond, unwrap_or, is_none, IfSome};
ghost use Rattle.nand_model.specs.Page.{StepRead, step_body};
ghost use Rattle.nand_model.specs.Sizes.{numbers_from, parity_bytes, step_count};
ghost use Rattle.ecc_page.specs.Steps.{parity_stored, reads_of};

use crate::masking::mask_of_code;
use crate::step::{decode_step, encode_step};
use nand_iface::PageCode;
use nand_model::{Geometry, PageRead};

/// The BCH code over steps of 512 bytes, with its stored parities at the end of the spare (the
/// layout of nand_base for large pages, the code and the mask of nand_ecc's software BCH).
#[derive(Clone, Copy, Debug, PartialEq, Eq)]
pub struct EccPage;

impl PageCode for EccPage {
    fn encode(&self, g: &Geometry, image: &mut [u8]) {
        let (body, spare) = image.split_at_mut(g.page as usize);
        spare[0] = 0xff;
        spare[1] = 0xff;
        let start = g.parity_start() as usize;
        fill_parities(g, body, &mut spare[start..]);
    }

    fn decode(&self, g: &Geometry, image: &mut [u8]) -> PageRead {
        let (body, spare) = image.split_at_mut(g.page as usize);
        let start = g.parity_start() as usize;
        decode_steps(g, body, &mut spare[start..])
    }
}

// Writes the stored parities of all steps of a body.
fn fill_parities(g: &Geometry, body: &[u8], parities: &mut [u8])
    requires body { length body.now ≡ g.now.page }
    requires parities { length parities.old ≡ step_count g.now * parity_bytes g.now }
    ensures { parities.new ≡ flat_map (λ s. parity_stored g.now.t (step_body g.now body.now s))
        (numbers_from 0 (step_count g.now)) }
{
    let len = g.parity_len() as usize;
    let mask = mask_of_code(g.t);
    for s in 0..g.steps() as usize {
        let step = &body[512 * s..512 * (s + 1)];
        encode_step(g.t, mask, step, &mut parities[s * len..(s + 1) * len]);
    }
}

// Corrects all steps of a body and their stored parities, and counts.
fn decode_steps(g: &Geometry, body: &mut [u8], parities: &mut [u8]) -> PageRead
    requires body { length body.old ≡ g.now.page }
    requires parities { length parities.old ≡ step_count g.now * parity_bytes g.now }
    ensures body { body.new ≡ flat_map (λ (r : StepRead). r.body)
        (reads_of g.now body.old parities.old) }
    ensures parities { parities.new
        ≡ flat_map (λ (r : StepRead). r.parity) (reads_of g.now body.old parities.old) }
    ensures corrected { result.corrected
        ≡ sum_by (λ (r : StepRead). unwrap_or r.corrected 0)
        (reads_of g.now body.old parities.old) }
    ensures greatest { result.greatest
        ≡ fold (λ n (r : StepRead). max n (unwrap_or r.corrected 0)) 0
        (reads_of g.now body.old parities.old) }
    ensures failed { result.failed
        ≡ count_by (λ (r : StepRead). is_none r.corrected) (reads_of g.now body.old parities.old) }
{
    let len = g.parity_len() as usize;
    let mask = mask_of_code(g.t);
    let mut read = PageRead {
        corrected: 0,
        greatest: 0,
        failed: 0,
    };
    for s in 0..g.steps() as usize {
        let step = &mut body[512 * s..512 * (s + 1)];
        let stored = &mut parities[s * len..(s + 1) * len];
        let corrected = decode_step(g.t, mask, step, stored);
        read = with_step(read, corrected);
    }
    read
}

// The counts with those of one more step.
fn with_step(read: PageRead, corrected: Option<u32>) -> PageRead
    requires step { IfSome corrected (λ n. n ≤ 16) }
    requires corrected_fits { read.corrected ≤ 1000 }
    requires failed_fits { read.failed ≤ 1000 }
    ensures corrected { result.corrected ≡ read.corrected + unwrap_or corrected 0 }
    ensures greatest { result.greatest ≡ max read.greatest (unwrap_or corrected 0) }
    ensures failed { result.failed ≡ read.failed + cond (is_none corrected) 1 0 }
{
    match corrected {
        Some(n) => PageRead {
            corrected: read.corrected + n,
            greatest: read.greatest.max(n),
            failed: read.failed,
        },
        None => PageRead {
            failed: read.failed + 1,
            ..read
        },
    }
}
