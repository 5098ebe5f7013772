//! Pushing all of some bytes into a sink, which may take fewer at once than it is offered.

ghost use Rattle.std.specs.Prelude.{◌<◌, OnErr, OnOk};
ghost use Rattle.pb_main.specs.Pushed.{HasTaken, HasTakenPart};

use pb_text::{DeviceFault, Sink};

/// Pushes these bytes, from the first one to the last. Where a push fails nothing more is offered, so that the sink has taken a
/// beginning of them, each byte once.
pub(crate) fn push_all<S: Sink>(sink: &mut S, bytes: &[u8]) -> Result<(), DeviceFault>
    requires { (S.state sink.old).failures < u64.MAX }
    ensures ok { OnOk result (HasTaken bytes.now (S.state sink.old) (S.state sink.new)) }
    ensures failed { OnErr result (HasTakenPart bytes.now (S.state sink.old) (S.state sink.new)) }
{
    let mut taken = 0;
    while taken < bytes.len() {
        taken += sink.push(&bytes[taken..])?;
    }
    Ok(())
}
