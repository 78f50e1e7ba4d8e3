//! Texts that are written piece by piece, and the names of both sides.

ghost use Rattle.std.specs.Prelude.{◌≡◌, ◌<◌, flat_map, length, OnOk, OnErr};
ghost use Rattle.hrt_base.specs.Calls.{Sent, SentPart};
ghost use Rattle.rank_tables.specs.WellFormed.{IsWellFormed};
ghost use Rattle.hrt_reader.specs.Spelling.{name_at};
ghost use Rattle.hrt_reader.specs.Written.{names_of};

use hrt_base::{Begun, Failed, Host, Port, write_all};
use rank_tables::Instance;

/// Writes the pieces one after the other.
pub fn write_pieces<H: Host>(host: &mut H, port: Port, pieces: &[&[u8]]) -> Result<(), Failed>
    requires { (H.world host.old).begun port ≡ Begun.Writing }
    ensures sent { OnOk result (Sent H.told port (flat_map (λ piece. piece.now) pieces.now) (H.world host.old) (H.world host.new)) }
    ensures failed { OnErr result (SentPart H.told port (flat_map (λ piece. piece.now) pieces.now) (H.world host.old) (H.world host.new)) }
{
    for piece in pieces {
        write_all(host, port, piece)?;
    }
    Ok(())
}

/// A side of an instance.
#[derive(Clone, Copy, Debug)]
pub enum Side {
    Residents,
    Hospitals,
}

/// How many names this side has.
pub fn count_of(instance: &Instance, side: Side) -> u32
    ensures count { result ≡ length (names_of side instance.now) }
    ensures well_formed { IsWellFormed instance.now }
{
    match side {
        Side::Residents => instance.residents(),
        Side::Hospitals => instance.hospitals(),
    }
}

/// The bytes of the name of number `number` on this side.
pub fn name_of(instance: &Instance, side: Side, number: u32) -> &[u8]
    requires { number < length (names_of side instance.now) }
    ensures { result.now ≡ name_at (names_of side instance.now) number }
{
    match side {
        Side::Residents => instance.resident_name(number).bytes(),
        Side::Hospitals => instance.hospital_name(number).bytes(),
    }
}
