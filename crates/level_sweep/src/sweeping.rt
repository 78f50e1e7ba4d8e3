// The lowest open level, in one sweep from the last level down.
ghost use Rattle.std.specs.Prelude.{◌≡◌, ◌≤◌, ◌<◌, ◌+◌, ◌-◌, ◌^◌, length};
ghost use Rattle.std.specs.List.{sum_by};
ghost use Rattle.std.specs.List.Sorted.{IsPermutation};
ghost use Rattle.level_sweep.specs.Levels.{IsLowestOpen, from_of, weights};
ghost use Rattle.level_sweep.specs.Sweeps.{AreFalling, IsLevel, late, never_false, never_false_share, passed, reached, stepped};
ghost use Rattle.level_sweep.specs.Rows.{IsLowestOfRows};

/// How a literal stands: it is free at every level, or true or false from a level on and free below it.
#[derive(Clone, Copy, Debug, PartialEq, Eq)]
pub enum Stand {
    Free,
    True(u32),
    False(u32),
}

/// A row's literal: its coefficient, and how it stands.
#[derive(Clone, Copy, Debug, PartialEq, Eq)]
pub struct Standing {
    pub weight: u128,
    pub stand: Stand,
}

/// How far the sweep has come: what the literals weigh that aren't false at the levels that are next, the greatest weight that is free
/// there, the level that was reached last, and the lowest level from there on at which the row is open.
#[derive(Clone, Copy)]
struct Sweep {
    sum: u128,
    greatest: u128,
    last: Option<u32>,
    lowest: Option<u32>,
}

/// The later a literal becomes true or false, the less.
fn late(stand: Stand) -> u64
    ensures { result ≡ late stand }
{
    match stand {
        Stand::Free => 0,
        Stand::True(from) => 4_294_967_296 - from as u64,
        Stand::False(from) => 4_294_967_296 - from as u64,
    }
}

/// Sorts literals: free ones first, then by falling level.
fn sort(stands: &mut [Standing])
    ensures falling { AreFalling stands.new }
    ensures permutation { IsPermutation stands.old stands.new }
{
    stands.sort_unstable_by_key(|s| late(s.stand));
}

/// The weight of a literal that is false at no level, or 0.
fn never_false_share(s: Standing) -> u128
    ensures { result ≡ never_false_share s }
{
    match s.stand {
        Stand::False(_) => 0,
        _ => s.weight,
    }
}

/// What the literals weigh that are false at no level.
fn never_false(stands: &[Standing]) -> u128
    requires { weights stands.now ≤ 2 ^ 126 }
    ensures { result ≡ never_false stands.now }
{
    let mut sum = 0;
    for s in stands {
        sum += never_false_share(*s);
    }
    sum
}

/// The sweep reaches a level.
fn reached(sweep: Sweep, level: u32, degree: u128) -> Sweep
    requires { degree + sweep.greatest ≤ 2 ^ 127 }
    ensures is { result ≡ reached degree level sweep }
    ensures level { level < 4294967296 }
{
    let is_next = match sweep.last {
        None => true,
        Some(last) => last != level,
    };
    if is_next && sweep.sum < degree + sweep.greatest {
        return Sweep {
            last: Some(level),
            lowest: Some(level),
            ..sweep
        };
    }
    Sweep {
        last: Some(level),
        ..sweep
    }
}

/// The sweep passes a literal.
fn passed(sweep: Sweep, s: Standing) -> Sweep
    requires { sweep.sum + s.weight ≤ 2 ^ 127 }
    ensures { result ≡ passed s sweep }
{
    Sweep {
        sum: sweep.sum + (s.weight - never_false_share(s)),
        greatest: sweep.greatest.max(s.weight),
        ..sweep
    }
}

/// The sweep comes to a literal: it reaches its level, and passes it.
fn step(sweep: Sweep, s: Standing, degree: u128) -> Sweep
    requires sum { sweep.sum + s.weight ≤ 2 ^ 127 }
    requires degree { degree + sweep.greatest ≤ 2 ^ 127 }
    ensures is { result ≡ stepped degree s sweep }
    ensures level { IsLevel (from_of s.stand) }
{
    match s.stand {
        Stand::Free => passed(sweep, s),
        Stand::True(level) => passed(reached(sweep, level, degree), s),
        Stand::False(level) => passed(reached(sweep, level, degree), s),
    }
}

/// The least level at which a row of sorted literals is open, or none.
fn lowest_falling(stands: &[Standing], degree: u128) -> Option<u32>
    requires sum { weights stands.now ≤ 2 ^ 126 }
    requires degree { degree ≤ 2 ^ 126 }
    requires falling { AreFalling stands.now }
    ensures { IsLowestOpen degree stands.now result }
{
    let mut sweep = Sweep {
        sum: never_false(stands),
        greatest: 0,
        last: None,
        lowest: None,
    };
    for s in stands {
        sweep = step(sweep, *s, degree);
    }
    reached(sweep, 0, degree).lowest
}

/// The least level at which a row with these literals is open, or none: at which the literals that aren't false weigh less than the
/// degree, or a free one weighs more than they can spare. It brings the literals into another order, and takes no memory.
pub fn lowest_open(stands: &mut [Standing], degree: u128) -> Option<u32>
    requires sum { weights stands.old ≤ 2 ^ 126 }
    requires degree { degree ≤ 2 ^ 126 }
    ensures lowest { IsLowestOpen degree stands.old result }
    ensures rows { IsLowestOfRows degree stands.old result }
    ensures order { IsPermutation stands.old stands.new }
{
    sort(stands);
    lowest_falling(stands, degree)
}
