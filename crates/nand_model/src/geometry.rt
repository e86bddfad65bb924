// The sizes of a chip.
ghost use Rattle.std.specs.Prelude.{◌≡◌, ◌↔◌, ◌≤◌, true, false, IfOk};
ghost use Rattle.code_model.specs.Code.{code_512};
ghost use Rattle.nand_model.specs.Layout.{IsGeometry, has_sizes, has_page_size, has_block_count, has_room, threshold_in_force};

use thiserror::Error;

/// The sizes of a chip, the strength of its code, where its bad-block tables stand, and its
/// threshold of bit flips (after the parameters of nandsim).
#[derive(Clone, Copy, Debug, PartialEq, Eq)]
pub struct Geometry {
    /// Bytes of a page's body.
    pub page: u32,
    /// Bytes of a page's spare area.
    pub spare: u32,
    /// Pages of a block.
    pub pages_per_block: u32,
    /// Blocks of the chip.
    pub blocks: u32,
    /// Wrong bits that the code corrects in each step of 512 bytes.
    pub t: u32,
    /// 0: no tables on flash; 1: their header stands in the spare; 2: it stands at the head of the
    /// body.
    pub bbt: u32,
    /// Corrected bits of a step from which on a read reports bit flips.
    pub threshold: u32,
    ghost in_bounds: { IsGeometry page spare pages_per_block blocks t bbt threshold },
}

/// Why sizes are refused.
#[derive(Clone, Copy, Debug, PartialEq, Eq, Error)]
pub enum GeometryError {
    /// A number is none of those that a chip may have.
    #[error("a chip cannot have these sizes")]
    BadSize,
    /// The spare does not hold the marker, the header of a table and the parities.
    #[error("the spare area does not hold the layout")]
    SpareTooSmall,
}

impl Geometry {
    ghost use Rattle.nand_model.specs.Sizes.{step_count, parity_bytes, parity_start, raw_len};

    /// The geometry of these sizes. A threshold of 0 stands for three quarters of `t`, rounded up,
    /// as in nand_base.
    ///
    /// `BadSize` comes exactly where (page, spare) is none of (2048, 64), (4096, 128), (4096, 224),
    /// or `pages_per_block` is neither 64 nor 128, or `blocks` is not a multiple of 4 from 8 to
    /// 4,096, or `t` is not from 1 to 16, or `bbt` is above 2, or `threshold` is above `t`.
    /// Otherwise `SpareTooSmall` comes exactly where the spare does not hold the layout.
    pub fn new(
        page: u32,
        spare: u32,
        pages_per_block: u32,
        blocks: u32,
        t: u32,
        bbt: u32,
        threshold: u32,
    ) -> Result<Geometry, GeometryError>
        ensures bad_size { (result ≡ Err GeometryError.BadSize)
            ↔ (has_sizes page spare pages_per_block blocks t bbt threshold ≡ false) }
        ensures too_small { (result ≡ Err GeometryError.SpareTooSmall)
            ↔ ((has_sizes page spare pages_per_block blocks t bbt threshold ≡ true)
            × (has_room (code_512 t) page spare bbt ≡ false)) }
        ensures page { IfOk result (λ g. g.page ≡ page) }
        ensures spare { IfOk result (λ g. g.spare ≡ spare) }
        ensures pages_per_block { IfOk result (λ g. g.pages_per_block ≡ pages_per_block) }
        ensures blocks { IfOk result (λ g. g.blocks ≡ blocks) }
        ensures t { IfOk result (λ g. g.t ≡ t) }
        ensures bbt { IfOk result (λ g. g.bbt ≡ bbt) }
        ensures threshold { IfOk result (λ g. g.threshold ≡ threshold_in_force t threshold) }
    {
        if !sizes_fit(page, spare, pages_per_block, blocks, t, bbt, threshold) {
            return Err(GeometryError::BadSize);
        }
        if !spare_has_room(page, spare, t, bbt) {
            return Err(GeometryError::SpareTooSmall);
        }
        let threshold = in_force(t, threshold);
        Ok(Geometry {
            page,
            spare,
            pages_per_block,
            blocks,
            t,
            bbt,
            threshold,
        })
    }

    /// The steps of a page, each of 512 bytes of the body with its parity.
    pub fn steps(&self) -> u32
        ensures { result ≡ step_count self.now }
    {
        self.page / 512
    }

    /// The bytes of a step's parity: 13t bits in whole bytes.
    pub fn parity_len(&self) -> u32
        ensures { result ≡ parity_bytes self.now }
    {
        (13 * self.t + 7) / 8
    }

    /// The place in the spare at which the parity of step 0 begins.
    pub fn parity_start(&self) -> u32
        ensures { result ≡ parity_start self.now }
    {
        self.spare - self.steps() * self.parity_len()
    }

    /// The bytes of a page with its spare.
    pub fn raw_len(&self) -> u32
        ensures { result ≡ raw_len self.now }
    {
        self.page + self.spare
    }
}

// The numbers are those that a chip may have.
fn sizes_fit(
    page: u32,
    spare: u32,
    pages_per_block: u32,
    blocks: u32,
    t: u32,
    bbt: u32,
    threshold: u32,
) -> bool
    ensures { result ≡ has_sizes page spare pages_per_block blocks t bbt threshold }
{
    page_fits(page, spare)
        && (pages_per_block == 64 || pages_per_block == 128)
        && blocks_fit(blocks)
        && (1 <= t && t <= 16)
        && bbt <= 2
        && threshold <= t
}

// Body and spare are those of a large page.
fn page_fits(page: u32, spare: u32) -> bool
    ensures { result ≡ has_page_size page spare }
{
    (page == 2048 && spare == 64)
        || (page == 4096 && spare == 128)
        || (page == 4096 && spare == 224)
}

// The table has whole bytes, and the chip has more than the blocks for its tables.
fn blocks_fit(blocks: u32) -> bool
    ensures { result ≡ has_block_count blocks }
{
    8 <= blocks && blocks <= 4096 && blocks % 4 == 0
}

// The spare has room for the marker, the header of a table where it stands there, and the parities.
fn spare_has_room(page: u32, spare: u32, t: u32, bbt: u32) -> bool
    requires page_fits { page ≤ 4096 }
    requires t_fits { t ≤ 16 }
    ensures { result ≡ has_room (code_512 t) page spare bbt }
{
    let parities = page / 512 * ((13 * t + 7) / 8);
    parities + 2 <= spare && (bbt != 1 || parities + 13 <= spare)
}

// The threshold that is in force.
fn in_force(t: u32, threshold: u32) -> u32
    requires { t ≤ 16 }
    ensures { result ≡ threshold_in_force t threshold }
{
    if threshold == 0 {
        (3 * t + 3) / 4
    } else {
        threshold
    }
}
