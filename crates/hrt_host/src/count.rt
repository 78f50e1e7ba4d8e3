// What both hosts count by.
ghost use Rattle.std.specs.Prelude.{◌≡◌, ◌<◌, ◌≤◌, ◌==◌};
ghost use Rattle.std.specs.List.{list_any};
ghost use Rattle.hrt_base.specs.World.{port_no};
ghost use Rattle.hrt_base.specs.Calls.{Rose};
ghost use Rattle.hrt_host.specs.Plan.{one_more};

use hrt_base::{Failed, Port};

/// A port's place in a table of ports.
pub fn place(port: Port) -> usize
    ensures at { result ≡ port_no port }
    ensures below { result < 7 }
{
    match port {
        Port::Instance => 0,
        Port::Pairs => 1,
        Port::Model => 2,
        Port::Proof => 3,
        Port::Report => 4,
        Port::ModelTwo => 5,
        Port::ProofTwo => 6,
    }
}

/// Counts a fault.
pub fn fault(count: &mut u64) -> Failed
    ensures counted { count.new ≡ one_more count.old }
    ensures rose { Rose count.old count.new }
    ensures later { count.old ≤ count.new }
{
    *count = count.saturating_add(1);
    Failed
}

/// Counts a call, and says whether it is one of those that fail.
pub fn fails(calls: &mut u64, failing: &[u64]) -> bool
    ensures counted { calls.new ≡ one_more calls.old }
    ensures value { result ≡ list_any (λ k. k == one_more calls.old) failing.now }
{
    *calls = calls.saturating_add(1);
    failing.contains(calls)
}
