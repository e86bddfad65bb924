// The check for an erased step.
ghost use Rattle.std.specs.Prelude.{◌≡◌, ◌<◌, ◌≤◌, ℕ, length, count_by, nat_eq, Some, None};
ghost use Rattle.code_model.specs.Bits.{bits_of};
ghost use Rattle.code_model.specs.Code.{code_512, parity_len};
ghost use Rattle.ecc_page.specs.Erased.{IsErasedRead, is_zero, zero_bits};
ghost use Rattle.ecc_page.specs.Steps.{read_of};

/// Tells whether a step with its stored parity of (13 t + 7) / 8 bytes, for t from 1 to 16, is that
/// of an erased page with at most t bits gone to 0: `Some(n)` exactly where n bits of its 4096 + 13
/// t are 0, and n is at most t. The padding does not count. The decoder then puts these n bits
/// right and leaves the padding. It takes no memory.
pub fn erased_check(t: u32, step: &[u8; 512], parity: &[u8]) -> Option<u32>
    requires strength { (0 < t) × (t ≤ 16) }
    requires room { length parity.now ≡ parity_len (code_512 t) }
    ensures some { zero_bits t step.now parity.now ≤ t → result
        ≡ Some (zero_bits t step.now parity.now) }
    ensures none { t < zero_bits t step.now parity.now → result ≡ None }
    ensures decoded { (n : ℕ) → result ≡ Some n →
        IsErasedRead t parity.now n (read_of t step.now parity.now) }
{
    let last = parity.len() - 1;
    let padding = 8 * parity.len() as u32 - 13 * t;
    let zeros = zeros_of(step)
        + zeros_of(&parity[..last])
        + (!parity[last] >> padding).count_ones();
    if zeros <= t { Some(zeros) } else { None }
}

// The bits of bytes that are 0.
fn zeros_of(bytes: &[u8]) -> u32
    requires { length bytes.now ≤ 512 }
    ensures zeros { result ≡ count_by is_zero (bits_of bytes.now) }
    ensures most { result ≤ 4096 }
{
    let mut zeros = 0;
    for byte in bytes {
        zeros += byte.count_zeros();
    }
    zeros
}
