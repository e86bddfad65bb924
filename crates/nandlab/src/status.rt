// How a call of the program ends.
ghost use Rattle.std.specs.Prelude.{◌≡◌};
ghost use Rattle.nandlab.specs.Status.{exit_code};

/// How a call of the program ended.
#[derive(Clone, Copy, Debug, PartialEq, Eq)]
pub enum Status {
    /// All was read and written.
    Fine,
    /// The words are not accepted.
    Usage,
    /// The bytes read are refused: they are no plan, no script or no input of the code.
    PlanRefused,
    /// The source failed.
    ReadFault,
    /// The sink failed.
    WriteFault,
    /// Memory ran out.
    Memory,
}

/// The exit status of the process: 0 for `Fine`, then 2 to 6.
pub fn code(status: Status) -> u8
    ensures { result ≡ exit_code status }
{
    match status {
        Status::Fine => 0,
        Status::Usage => 2,
        Status::PlanRefused => 3,
        Status::ReadFault => 4,
        Status::WriteFault => 5,
        Status::Memory => 6,
    }
}
