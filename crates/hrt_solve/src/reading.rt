// Proofs from their port into a checker.
ghost use Rattle.std.specs.Prelude.{◌≡◌, [], IfErr, OnOk};
ghost use Rattle.proof_checker.specs.declared.phase.Phase.TheVariants.{Reading};
ghost use Rattle.proof_checker.specs.Standing.{StandsFor};
ghost use Rattle.hrt_solve.specs.Judged.{EndsReading, IsFed};

use hrt_base::{Begun, Host, Port, ReadEnd};
use proof_checker::Checker;
use std::alloc::Global;

// The most bytes that a proof has.
const MOST_BYTES: usize = 1 << 40;

/// Feeds the checker, to which nothing was fed yet, all bytes of the proof, piece by piece.
pub fn feed_proof<H: Host>(
    alloc: Global,
    host: &mut H,
    checker: &mut Checker,
) -> Result<(), ReadEnd>
    requires begun { (H.world host.old).begun Port.Proof ≡ Begun.Reading }
    requires none { checker.old.bytes ≡ [] }
    requires open { checker.old.phase ≡ Reading }
    requires stands { StandsFor [] checker.old }
    ensures fed { OnOk result (IsFed H.told checker.old checker.new (H.world host.old) (H.world host.new)) }
    ensures ended { IfErr result (λ end. EndsReading H.told end (H.world host.old) (H.world host.new)) }
{
    let mut buffer = [0; 65_536];
    let mut left = MOST_BYTES;
    loop {
        let count = host.read(Port::Proof, &mut buffer)?;
        if count == 0 {
            return Ok(());
        }
        if count > left {
            return Err(ReadEnd::TooLong);
        }
        if checker.feed(alloc, &buffer[..count]).is_err() {
            return Err(ReadEnd::NoMemory);
        }
        left -= count;
    }
}
