// What holds of the answers to all bytes.
ghost use Rattle.std.specs.Prelude.{◌≡◌, ℕ, List};
ghost use Rattle.bus_script.specs.Answer.{IsRefusal, IsTextOf};
ghost use Rattle.bus_script.specs.declared.error.ScriptError.{ScriptError};

/// Bytes come to one text at most, and they are not both run to their end and refused.
pub fn scripts_have_one_answer()
    ensures one_text { (bytes one other : List ℕ) → IsTextOf bytes one → IsTextOf bytes other →
        one ≡ other }
    ensures never_both { (bytes text : List ℕ) (error : ScriptError) → IsTextOf bytes text →
        IsRefusal bytes error → ⊥ }
{}
