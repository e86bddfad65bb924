// The code of a page as the layers above it see it.
ghost use Rattle.std.specs.Prelude.{◌≡◌, length};
ghost use Rattle.nand_model.specs.Page.{decoded, encoded};
ghost use Rattle.nand_model.specs.Sizes.{raw_len};

use nand_model::{Geometry, PageRead};

/// The code that protects a page, by whole pages with their spare (as the ECC of nand_base does
/// it).
///
/// Its meaning is that of page images and nearest code words alone: no layer above speaks of a
/// parity's bits.
pub trait PageCode: Copy {
    /// Completes a page that is to be written: spare bytes 0 and 1 become 0xFF, and the parity of
    /// each step is filled in. All other bytes stay.
    fn encode(&self, g: &Geometry, image: &mut [u8])
        requires { length image.old ≡ raw_len g.now }
        ensures { image.new ≡ encoded g.now image.old };

    /// Corrects each step of a page that was read to the nearest code word, and leaves a step as it
    /// is where none is near. All other bytes stay.
    ///
    /// It gives the number of bits put right over all decoded steps, the greatest such number of a
    /// step, and the number of steps that could not be decoded.
    fn decode(&self, g: &Geometry, image: &mut [u8]) -> PageRead
        requires { length image.old ≡ raw_len g.now }
        ensures image { image.new ≡ (decoded g.now image.old).image }
        ensures corrected { result.corrected ≡ (decoded g.now image.old).corrected }
        ensures greatest { result.greatest ≡ (decoded g.now image.old).greatest }
        ensures failed { result.failed ≡ (decoded g.now image.old).failed };
}
