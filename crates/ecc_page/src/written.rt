// The law of written pages.
ghost use Rattle.std.specs.Prelude.{◌≡◌, ◌<◌, ◌+◌, ℕ, List, length, All};
ghost use Rattle.nand_model.specs.Page.{page_image};
ghost use Rattle.nand_model.specs.Sizes.{parity_start, raw_len};
ghost use Rattle.nand_model.specs.declared.geometry.Geometry.{Geometry};
ghost use Rattle.ecc_page.specs.Written.{GivesBack, IsNearImage};

/// A page that was written and then had at most t bits of each step's word turned over decodes to
/// the body and the parity bits that were written, and its counts are those of the bits that were
/// off. No step fails.
pub fn written_pages_read_back()
    ensures { (g : Geometry) (body free cells : List ℕ)
        → length body ≡ g.page → 2 + length free ≡ parity_start g → length cells ≡ raw_len g
        → All (λ byte. byte < 256) body
        → IsNearImage g (page_image g body free) cells
        → GivesBack g (page_image g body free) cells }
{}
