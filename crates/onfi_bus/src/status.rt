// The status byte.
ghost use Rattle.std.specs.Prelude.{⊤, ◌≡◌, [], ◌∷◌, Bool, codes};
ghost use Rattle.onfi_bus.specs.Device.{status_byte};

use bitflags::{Flag, Flags, bitflag_items};

/// The status byte of a chip, after ONFI.
#[derive(Clone, Copy, PartialEq, Eq, Debug)]
pub struct StatusBits(u8);

bitflag_items! {
    impl StatusBits: u8 {
        const FAIL = 0x01;
        const ARRAY_READY = 0x20;
        const READY = 0x40;
        const WRITABLE = 0x80;
        const AT_REST = 0xe0;
    }
}

impl Flags for StatusBits {
    type Bits = u8;

    ghost exact = { ⊤ };

    ghost table = { (codes "FAIL", 0x01) ∷ (codes "ARRAY_READY", 0x20) ∷ (codes "READY", 0x40)
        ∷ (codes "WRITABLE", 0x80) ∷ (codes "AT_REST", 0xe0) ∷ [] };

    ghost set_of = { λ bits. bits.0 };

    fn flags<'a>() -> &'a [Flag<StatusBits>] {
        StatusBits::FLAGS
    }

    fn bits(&self) -> u8 {
        self.0
    }

    fn from_bits_retain(bits: u8) -> StatusBits {
        StatusBits(bits)
    }
}

/// The status byte of a chip at rest, with or without the fail bit.
pub fn status(failed: bool) -> u8
    ensures { result ≡ status_byte failed }
{
    let mut bits = StatusBits::AT_REST;
    if failed {
        bits.insert(StatusBits::FAIL);
    }
    bits.bits()
}

/// Whether a status byte has the fail bit.
pub fn has_fail_bit(byte: u8) -> bool
    ensures { (failed : Bool) → byte ≡ status_byte failed → result ≡ failed }
{
    StatusBits::from_bits_retain(byte).contains(StatusBits::FAIL)
}
