// Whole texts over a host that moves bytes in pieces.
ghost use Rattle.std.specs.Prelude.{◌≡◌, ◌<◌, ◌≤◌, List, ℕ, [], length, IfOk, OnOk, OnErr, IsErrOf};
ghost use Rattle.hrt_base.specs.Calls.{Rose, Taken, Sent, SentPart, TakenPart, TakenWithin, TakenPast};

use crate::{Begun, Failed, Host, Port, ReadEnd};
use std::alloc::Global;

/// Writes all the bytes, in as many pieces as the host wants.
#[tactic(auto, using(crate::proofs::Pieces::sent_part, crate::proofs::Pieces::sent_none))]
pub fn write_all<H: Host>(host: &mut H, port: Port, bytes: &[u8]) -> Result<(), Failed>
    requires { (H.world host.old).begun port ≡ Begun.Writing }
    ensures sent { OnOk result (Sent H.told port bytes.now (H.world host.old) (H.world host.new)) }
    ensures failed { OnErr result (SentPart H.told port bytes.now (H.world host.old) (H.world host.new)) }
{
    let mut done = 0;
    while done < bytes.len() {
        let count = host.write(port, &bytes[done..])?;
        done += count;
    }
    Ok(())
}

/// Reads to the end. `TooLong` says that there are more than `limit` bytes; what was read is then let go.
#[tactic(auto, using(crate::proofs::Pieces::taken_none, crate::proofs::Pieces::taken_more, crate::proofs::Pieces::taken_part, crate::proofs::Pieces::taken_parts))]
pub fn read_all<H: Host>(
    alloc: Global,
    host: &mut H,
    port: Port,
    limit: usize,
) -> Result<Vec<u8>, ReadEnd>
    requires { (H.world host.old).begun port ≡ Begun.Reading }
    ensures whole { IfOk result (λ bytes. Taken H.told port bytes.items (H.world host.old) (H.world host.new)) }
    ensures end { H.told → OnOk result ((H.world host.new).content.rest port ≡ []) }
    ensures short { IfOk result (λ bytes. length bytes.items ≤ limit) }
    ensures part { OnErr result (TakenPart H.told port (H.world host.old) (H.world host.new)) }
    ensures failed { IsErrOf result ReadEnd.Failed → Rose (H.world host.old).read_faults (H.world host.new).read_faults }
    ensures failed_within { IsErrOf result ReadEnd.Failed → TakenWithin H.told port limit (H.world host.old) (H.world host.new) }
    ensures too_long { IsErrOf result ReadEnd.TooLong → TakenPast H.told port limit (H.world host.old) (H.world host.new) }
    ensures longer { IsErrOf result ReadEnd.TooLong → H.told → limit < length ((H.world host.old).content.rest port) }
    ensures no_memory { IsErrOf result ReadEnd.NoMemory → TakenWithin H.told port limit (H.world host.old) (H.world host.new) }
{
    let mut bytes = Vec::new(alloc);
    let mut buffer = [0; 4096];
    loop {
        let count = host.read(port, &mut buffer)?;
        if count == 0 {
            return Ok(bytes);
        }
        if count > limit - bytes.len() {
            return Err(ReadEnd::TooLong);
        }
        bytes.extend_from_slice(&buffer[..count])?;
    }
}
