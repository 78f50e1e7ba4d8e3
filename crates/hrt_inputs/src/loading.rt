// Instances and pairs from files.
ghost use Rattle.std.specs.Prelude.{◌≡◌, ◌≤◌, length, All, IfOk, IfErr, IsTrue, Ok};
ghost use Rattle.rank_tables.specs.Instance.{pair_count};
ghost use Rattle.rank_tables.specs.Numbers.{is_distinct};
ghost use Rattle.rank_tables.specs.Tables.{numbers_of, IsPairNo};
ghost use Rattle.rank_tables.specs.WellFormed.{most_pairs};
ghost use Rattle.hrt_inputs.specs.declared.limit.Limit.TheVariants.{InstanceBytes, PairsBytes};
ghost use Rattle.hrt_inputs.specs.Inputs.{BeginsAtMost, IsAt, KeepsPorts};
ghost use Rattle.hrt_inputs.specs.Limits.{most};
ghost use Rattle.hrt_inputs.specs.Loading.{ArePairsLoaded, IsLoaded, StopsLoading, StopsLoadingPairs, StopsPairsText, StopsText};
ghost use Rattle.hrt_inputs.specs.Taken.{pairs_in, taken_lists};

use crate::input::{read_file, unread};
use crate::{Limit, Stop};
use hrt_base::{Begun, Host, PairNo, Port};
use hrt_reader::{LimitKind, PairsRefusal, ReadRefusal, read_instance, read_pairs};
use rank_tables::Instance;
use std::alloc::Global;

/// The instance in a file, unless it has more acceptable pairs, or more terms of the 0/1 model, than are taken.
pub fn load<H: Host>(alloc: Global, host: &mut H, name: &str) -> Result<Instance, Stop>
    requires { (H.world host.old).begun Port.Instance ≡ Begun.Idle }
    ensures loaded { IfOk result (λ lists. IsLoaded H.told name.now lists (H.world host.old) (H.world host.new)) }
    ensures few { IfOk result (λ lists. pair_count lists ≤ most_pairs) }
    ensures stopped { IfErr result (λ stop. StopsLoading H.told name.now stop (H.world host.old) (H.world host.new)) }
    ensures begun { BeginsAtMost Port.Instance (H.world host.old) (H.world host.new) }
    ensures others { KeepsPorts H.told (IsAt Port.Instance) (H.world host.old) (H.world host.new) }
{
    match read_file(
        alloc,
        host,
        Port::Instance,
        name,
        Limit::InstanceBytes.most() as usize,
    ) {
        Ok(bytes) => instance_in(alloc, &bytes),
        Err(end) => Err(unread(end, Limit::InstanceBytes)),
    }
}

// The instance that a text spells.
fn instance_in(alloc: Global, bytes: &[u8]) -> Result<Instance, Stop>
    requires { length bytes.now ≤ most InstanceBytes }
    ensures lists { IfOk result (λ lists. taken_lists bytes.now ≡ Ok lists) }
    ensures few { IfOk result (λ lists. pair_count lists ≤ most_pairs) }
    ensures stopped { IfErr result (StopsText (taken_lists bytes.now)) }
{
    match read_instance(alloc, bytes) {
        Ok(inst) => Ok(inst),
        Err(ReadRefusal::Bad { kind, line }) => Err(Stop::Refused { kind, line }),
        Err(ReadRefusal::Limit(LimitKind::Residents)) => Err(Stop::Exceeded(Limit::Residents)),
        Err(ReadRefusal::Limit(LimitKind::Hospitals)) => Err(Stop::Exceeded(Limit::Hospitals)),
        Err(ReadRefusal::Limit(LimitKind::Pairs)) => Err(Stop::Exceeded(Limit::Pairs)),
        Err(ReadRefusal::Limit(LimitKind::Terms)) => Err(Stop::Exceeded(Limit::Terms)),
        Err(ReadRefusal::NoMemory) => Err(Stop::NoMemory),
    }
}

/// The pairs of the instance in a file, as they stand there.
pub fn load_pairs<H: Host>(
    alloc: Global,
    host: &mut H,
    name: &str,
    inst: &Instance,
) -> Result<Vec<PairNo>, Stop>
    requires { (H.world host.old).begun Port.Pairs ≡ Begun.Idle }
    ensures loaded { IfOk result (λ pairs. ArePairsLoaded H.told name.now inst.now (numbers_of pairs.items) (H.world host.old) (H.world host.new)) }
    ensures in_range { IfOk result (λ pairs. All (λ p. IsPairNo inst.now p.0) pairs.items) }
    ensures distinct { IfOk result (λ pairs. IsTrue (is_distinct (numbers_of pairs.items))) }
    ensures stopped { IfErr result (λ stop. StopsLoadingPairs H.told name.now inst.now stop (H.world host.old) (H.world host.new)) }
    ensures begun { BeginsAtMost Port.Pairs (H.world host.old) (H.world host.new) }
    ensures others { KeepsPorts H.told (IsAt Port.Pairs) (H.world host.old) (H.world host.new) }
{
    match read_file(
        alloc,
        host,
        Port::Pairs,
        name,
        Limit::PairsBytes.most() as usize,
    ) {
        Ok(bytes) => pairs_in(alloc, &bytes, inst),
        Err(end) => Err(unread(end, Limit::PairsBytes)),
    }
}

// The pairs that a text spells.
fn pairs_in(alloc: Global, bytes: &[u8], inst: &Instance) -> Result<Vec<PairNo>, Stop>
    requires { length bytes.now ≤ most PairsBytes }
    ensures pairs { IfOk result (λ pairs. pairs_in inst.now bytes.now ≡ Ok (numbers_of pairs.items)) }
    ensures in_range { IfOk result (λ pairs. All (λ p. IsPairNo inst.now p.0) pairs.items) }
    ensures distinct { IfOk result (λ pairs. IsTrue (is_distinct (numbers_of pairs.items))) }
    ensures stopped { IfErr result (StopsPairsText (pairs_in inst.now bytes.now)) }
{
    match read_pairs(alloc, bytes, inst) {
        Ok(pairs) => Ok(pairs),
        Err(PairsRefusal::Bad { kind, line }) => Err(Stop::PairsRefused { kind, line }),
        Err(PairsRefusal::NoMemory) => Err(Stop::NoMemory),
    }
}
