// The BCH bound.
ghost use Rattle.std.specs.Prelude.{◌≡◌, ◌≤◌, ◌+◌, ◌*◌, ℕ, List, length};
ghost use Rattle.code_model.specs.Word.{distance};
ghost use Rattle.code_model.specs.Code.{Code, IsBchCode, IsCodeWord, code_512, code_1024, word_bits};

/// The codes over steps of 512 and of 1024 bytes are BCH codes, up to 16 wrong bits.
pub fn bch_codes()
    ensures small { (t : ℕ) → t ≤ 16 → IsBchCode (code_512 t) }
    ensures large { (t : ℕ) → t ≤ 16 → IsBchCode (code_1024 t) }
{}

/// Two code words that differ from one word in at most t places each are equal, for every BCH code.
pub fn bch_bound()
    ensures { (code : Code) (w c d : List ℕ)
        → IsBchCode code
        → length w ≡ word_bits code
        → IsCodeWord code c → distance w c ≤ code.strength
        → IsCodeWord code d → distance w d ≤ code.strength
        → c ≡ d }
{}

/// The bound for the codes over steps of 512 bytes.
pub fn bch_bound_512()
    ensures { (t : ℕ) (w c d : List ℕ)
        → t ≤ 16
        → length w ≡ 4096 + 13 * t
        → IsCodeWord (code_512 t) c → distance w c ≤ t
        → IsCodeWord (code_512 t) d → distance w d ≤ t
        → c ≡ d }
{}

/// The bound for the codes over steps of 1024 bytes.
pub fn bch_bound_1024()
    ensures { (t : ℕ) (w c d : List ℕ)
        → t ≤ 16
        → length w ≡ 8192 + 14 * t
        → IsCodeWord (code_1024 t) c → distance w c ≤ t
        → IsCodeWord (code_1024 t) d → distance w d ≤ t
        → c ≡ d }
{}
