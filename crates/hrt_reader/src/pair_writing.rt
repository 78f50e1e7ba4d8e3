//! Writing pairs in their canonical spelling.

ghost use Rattle.std.specs.Prelude.{◌≡◌, ◌++◌, ◌∷◌, [], All, IsTrue, OnOk, OnErr};
ghost use Rattle.hrt_base.specs.Calls.{Sent, SentPart};
ghost use Rattle.rank_tables.specs.Numbers.{is_distinct};
ghost use Rattle.rank_tables.specs.Tables.{IsPairNo, numbers_of};
ghost use Rattle.hrt_reader.specs.PairsText.{SpellsPairs, pair_text, pairs_spelling};

use crate::pieces::write_pieces;
use hrt_base::{Begun, Failed, Host, PairNo, Port};
use rank_tables::Instance;

/// Writes the line of a pair.
pub fn write_pair<H: Host>(
    instance: &Instance,
    pair: PairNo,
    host: &mut H,
    port: Port,
) -> Result<(), Failed>
    requires begun { (H.world host.old).begun port ≡ Begun.Writing }
    requires number { IsPairNo instance.now pair.0 }
    ensures sent { OnOk result (Sent H.told port (pair_text instance.now pair.0 ++ 10 ∷ []) (H.world host.old) (H.world host.new)) }
    ensures failed { OnErr result (SentPart H.told port (pair_text instance.now pair.0 ++ 10 ∷ []) (H.world host.old) (H.world host.new)) }
{
    let resident = instance.resident_name(instance.resident_of(pair)).bytes();
    let hospital = instance.hospital_name(instance.hospital_of(pair)).bytes();
    write_pieces(
        host,
        port,
        &[
            b"pair ".as_slice(),
            resident,
            b" ".as_slice(),
            hospital,
            b"\n".as_slice(),
        ],
    )
}

/// Writes the canonical spelling of distinct pairs. After `Failed` a prefix of it was sent.
pub fn write_pairs<H: Host>(
    inst: &Instance,
    pairs: &[PairNo],
    host: &mut H,
    port: Port,
) -> Result<(), Failed>
    requires begun { (H.world host.old).begun port ≡ Begun.Writing }
    requires in_range { All (λ p. IsPairNo inst.now p.0) pairs.now }
    requires distinct { IsTrue (is_distinct (numbers_of pairs.now)) }
    ensures sent { OnOk result (Sent H.told port (pairs_spelling inst.now (numbers_of pairs.now)) (H.world host.old) (H.world host.new)) }
    ensures failed { OnErr result (SentPart H.told port (pairs_spelling inst.now (numbers_of pairs.now)) (H.world host.old) (H.world host.new)) }
    ensures read_back { SpellsPairs inst.now (pairs_spelling inst.now (numbers_of pairs.now)) (numbers_of pairs.now) }
{
    // Its contract says that the lists are well-formed.
    let _count = inst.residents();
    for pair in pairs {
        write_pair(inst, *pair, host, port)?;
    }
    Ok(())
}
