// What replies mean to a command.
ghost use Rattle.std.specs.Prelude.{◌≡◌};
ghost use Rattle.command_model.specs.Command.{is_done, says_bad, stats_outcome};

use nand_model::{Outcome, Reply};

// The operation was done.
pub fn was_done(reply: &Reply) -> bool
    ensures { result ≡ is_done reply.now }
{
    matches!(reply, Reply::Done)
}

// The block was said to be bad.
pub fn tells_bad(reply: &Reply) -> bool
    ensures { result ≡ says_bad reply.now }
{
    match reply {
        Reply::State(state) => *state != 0,
        _ => false,
    }
}

// The statistics that were answered, or zeros.
pub fn counted(reply: &Reply) -> Outcome
    ensures { result ≡ stats_outcome reply.now }
{
    match reply {
        Reply::Counts {
            corrected,
            failed,
            bad,
        } => Outcome::Stats {
            corrected: *corrected,
            failed: *failed,
            bad: u64::from(*bad),
        },
        _ => Outcome::Stats {
            corrected: 0,
            failed: 0,
            bad: 0,
        },
    }
}
