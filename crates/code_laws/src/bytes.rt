// Bytes and their bits.
ghost use Rattle.std.specs.Prelude.{◌≡◌, ◌<◌, ◌≤◌, ◌+◌, ◌*◌, ◌++◌, ℕ, List, length, take, drop, slice_index};
ghost use Rattle.code_model.specs.Bits.{bit_of, bits_from, bits_of, bytes_of_bits};
ghost use Rattle.code_model.specs.Word.{AreBits};

/// Bytes have eight bits each, which are 0 and 1 and write the bytes.
pub fn bytes_laws()
    ensures long { (bytes : List ℕ) → length (bits_of bytes) ≡ 8 * length bytes }
    ensures bits { (bytes : List ℕ) → AreBits (bits_of bytes) }
    ensures append { (xs ys : List ℕ) → bits_of (xs ++ ys) ≡ bits_of xs ++ bits_of ys }
    ensures bit { (bytes : List ℕ) (k : ℕ)
        → k < 8 * length bytes → slice_index (bits_of bytes) k ≡ bit_of bytes k }
    ensures run { (bytes : List ℕ) (n k : ℕ)
        → k + n ≤ 8 * length bytes → bits_from bytes k n ≡ take n (drop k (bits_of bytes)) }
    ensures bytes_and_back { (bytes : List ℕ)
        → ((k : ℕ) → k < length bytes → slice_index bytes k < 256)
        → bytes_of_bits (bits_of bytes) ≡ bytes }
    ensures bits_and_back { (n : ℕ) (bits : List ℕ)
        → AreBits bits → length bits ≡ 8 * n → bits_of (bytes_of_bits bits) ≡ bits }
{}
