// The sequence by which restarts are spaced: 1, 1, 2, 1, 1, 2, 4, and so on. After Luby, Sinclair and Zuckerman.
ghost use Rattle.std.specs.Prelude.{◌≡◌, ℕ, ◌+◌, ◌-◌, ◌*◌, ◌<◌, ◌≤◌, ◌^◌};
ghost use Rattle.search_guides.specs.Luby.{luby, luby_within};

/// The number of the sequence at place i, counted from 1.
pub fn luby(i: u64) -> u64
    requires some { 1 ≤ i }
    requires most { i ≤ 2 ^ 40 }
    ensures value { result ≡ luby i }
    ensures positive { 1 ≤ result }
    ensures bound { result ≤ i }
{
    luby_within(41, i)
}

// The number at place i, which is below 2^k.
fn luby_within(k: u32, i: u64) -> u64
    requires levels { k ≤ 41 }
    requires some { 1 ≤ i }
    requires most { i < 2 ^ k }
    ensures value { result ≡ luby_within k i }
    ensures positive { 1 ≤ result }
    ensures bound { result ≤ i }
{
    let half = half_of(k);
    if i + 1 == 2 * half {
        half
    } else if i < half {
        luby_within(k - 1, i)
    } else {
        luby_within(k - 1, i + 1 - half)
    }
}

// Half of 2^k.
fn half_of(k: u32) -> u64
    requires some { 1 ≤ k }
    requires few { k ≤ 41 }
    ensures value { result ≡ 2 ^ (k - 1) }
    ensures twice { 2 * result ≡ 2 ^ k }
    ensures positive { 1 ≤ result }
    ensures small { 2 ^ (k - 1) ≤ 2 ^ 40 }
{
    1 << (k - 1)
}

/// The sequence is what its definition says: `2^k` at place `2^(k+1) - 1`, and at a place i from `2^k` on and before that one
/// the number at place `i - 2^k + 1`.
pub fn luby_follows()
    ensures full { (k : ℕ) → k < 41 → luby (2 ^ (k + 1) - 1) ≡ 2 ^ k }
    ensures part { (k i : ℕ) → k < 41 → 2 ^ k ≤ i → i + 1 < 2 ^ (k + 1) → luby i ≡ luby (i + 1 - 2 ^ k) }
{}
