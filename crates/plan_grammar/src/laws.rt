// What holds of all bytes.
ghost use Rattle.plan_grammar.specs.Laws.{HasReading, OnePlan, OneRefusal, NeverBoth};

/// Bytes are a plan, or they are refused at a line for a kind.
pub fn bytes_have_a_reading()
    ensures { HasReading }
{}

/// Bytes are one plan at most, are refused at one line for one kind at most, and never both.
pub fn bytes_have_one_reading()
    ensures plan { OnePlan }
    ensures refusal { OneRefusal }
    ensures never_both { NeverBoth }
{}
