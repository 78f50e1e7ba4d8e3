// Files that are read whole.
ghost use Rattle.std.specs.Prelude.{◌≡◌, ◌≤◌, length, IfOk, OnErr, IsErrOf};
ghost use Rattle.hrt_base.specs.Calls.{Rose};
ghost use Rattle.hrt_inputs.specs.Inputs.{BeginsAtMost, IsAt, IsTooLong, KeepsPorts, OnlyRead, WasRead, unread};

use crate::{Limit, Stop};
use hrt_base::{Begun, Host, Port, ReadEnd, read_all};
use std::alloc::Global;

/// The bytes of a file, read on the port to its end, unless it has more than `limit` bytes.
#[tactic(auto, using(crate::proofs::KeptPorts::not_read_keeps, crate::proofs::KeptPorts::read_keeps))]
pub(crate) fn read_file<H: Host>(
    alloc: Global,
    host: &mut H,
    port: Port,
    name: &str,
    limit: usize,
) -> Result<Vec<u8>, ReadEnd>
    requires { (H.world host.old).begun port ≡ Begun.Idle }
    ensures read { IfOk result (λ bytes. WasRead H.told port name.now bytes.items (H.world host.old) (H.world host.new)) }
    ensures short { IfOk result (λ bytes. length bytes.items ≤ limit) }
    ensures too_long { IsErrOf result ReadEnd.TooLong → IsTooLong H.told port name.now limit (H.world host.old) (H.world host.new) }
    ensures failed { IsErrOf result ReadEnd.Failed → Rose (H.world host.old).read_faults (H.world host.new).read_faults }
    ensures given_up { OnErr result (OnlyRead H.told (H.world host.old) (H.world host.new)) }
    ensures begun { BeginsAtMost port (H.world host.old) (H.world host.new) }
    ensures others { KeepsPorts H.told (IsAt port) (H.world host.old) (H.world host.new) }
{
    host.begin_read(port, name)?;
    read_all(alloc, host, port, limit)
}

/// Why a file was not read: it failed, memory was wanting, or this limit was passed.
pub(crate) fn unread(end: ReadEnd, limit: Limit) -> Stop
    ensures { result ≡ unread end limit }
{
    match end {
        ReadEnd::TooLong => Stop::Exceeded(limit),
        ReadEnd::Failed => Stop::ReadFault,
        ReadEnd::NoMemory => Stop::NoMemory,
    }
}
