// Which calls of a flash fail.
ghost use Rattle.std.specs.Prelude.{◌≡◌};
ghost use Rattle.chip_tests.specs.Failures.{is_told};

use nand_model::Tear;

/// Which programs and erases of a flash fail from now on.
#[derive(Clone, Copy, Debug)]
pub struct Failures {
    /// Bit n, from the lowest, tells that the program number n fails, from 0.
    pub programs: u64,
    /// The same of the erases.
    pub erases: u64,
    /// Whether a call that fails does all of its bits, or none.
    pub does_all: bool,
}

impl Failures {
    ghost use Rattle.chip_tests.specs.Failures.{told_tear};

    /// Which bits a call that fails does.
    pub fn tear(&self) -> Tear
        ensures { result ≡ told_tear self.now.does_all }
    {
        if self.does_all {
            Tear::Everything
        } else {
            Tear::Nothing
        }
    }
}

/// Whether the next of these calls fails, by its bit.
pub fn is_told(calls: u64) -> bool
    ensures { result ≡ is_told calls }
{
    calls % 2 == 1
}
