// A whole text written to a sink, in as few calls as the sink allows.
ghost use Rattle.std.specs.Prelude.{◌≡◌, ◌<◌, ◌≤◌, ◌^◌, OnOk, OnErr};
ghost use Rattle.std.specs.Io.KnownBytes.{append_known};
ghost use Rattle.lab_outside.specs.Outside.{TookPrefix};
ghost use Rattle.nand_model.specs.Counts.{HasRisen};

use crate::{Failed, Sink};

/// Writes all of `bytes`: each call of the sink is given all that it has not taken yet.
///
/// Errors: `Failed` where a call of the sink failed. The sink then took a prefix of `bytes`.
pub fn write_all<K: Sink>(sink: &mut K, bytes: &[u8]) -> Result<(), Failed>
    ensures count { K.faults sink.old ≤ K.faults sink.new }
    ensures ok { OnOk result (K.held sink.new ≡ append_known (K.held sink.old) bytes.now) }
    ensures risen { OnErr result (HasRisen (K.faults sink.old) (K.faults sink.new)) }
    ensures failed { OnErr result (TookPrefix (K.held sink.old) (K.held sink.new) bytes.now) }
{
    let mut written = 0;
    while written < bytes.len() {
        written += sink.write(&bytes[written..])?;
    }
    Ok(())
}
