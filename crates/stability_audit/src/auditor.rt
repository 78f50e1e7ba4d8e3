// The audit.
ghost use Rattle.std.specs.Prelude.{◌≡◌, ◌↔◌, IfOk, IsTrue};
ghost use Rattle.rank_tables.specs.Stability.{is_weakly_stable};
ghost use Rattle.rank_tables.specs.Tables.{numbers_of};
ghost use Rattle.stability_audit.specs.Verdict.{ArePairs, sizes_of, verdict_of};

use crate::Verdict;
use crate::tallies::Tallies;
use hrt_base::{NoMemory, PairNo};
use rank_tables::Instance;
use std::alloc::Global;
use std::marker::Model;

/// Audits lists of pairs. It is seen as the counts of residents and hospitals that it was made for.
#[derive(Drop)]
pub struct Auditor {
    tallies: Tallies,
}

impl Model for Auditor {
    ghost use Rattle.std.specs.Prelude.{length};
    ghost use Rattle.stability_audit.specs.Verdict.{Sizes};
    ghost use Rattle.stability_audit.specs.Tallies.{IsClear};

    ghost Value = { Sizes };

    ghost view = { λ a. record { residents = length a.tallies.residents.items; hospitals = length a.tallies.hospitals.items } };

    ghost invariant = { λ a. IsClear a.tallies.residents.items × IsClear a.tallies.hospitals.items };
}

impl Auditor {
    /// An auditor for instances of as many residents and hospitals as this one. It keeps 16 bytes for each.
    pub fn new(alloc: Global, inst: &Instance) -> Result<Auditor, NoMemory>
        ensures { IfOk result (λ auditor. auditor ≡ sizes_of inst.now) }
    {
        Ok(Auditor {
            tallies: Tallies::new(alloc, inst.residents() as usize, inst.hospitals() as usize)?,
        })
    }

    /// Says whether the pairs are a weakly stable matching, or the first reason why not: a resident in two pairs, then a
    /// hospital in more than it has posts, then a blocking pair, each the least. It takes no memory, and time that grows
    /// linearly with the pairs of the instance.
    pub fn audit(&mut self, inst: &Instance, pairs: &[PairNo]) -> Verdict
        requires sizes { self.old ≡ sizes_of inst.now }
        requires pairs { ArePairs inst.now (numbers_of pairs.now) }
        ensures verdict { result ≡ verdict_of inst.now (numbers_of pairs.now) }
        ensures stable { result ≡ Verdict.Stable ↔ IsTrue (is_weakly_stable inst.now (numbers_of pairs.now)) }
        ensures sizes { self.new ≡ self.old }
    {
        self.tallies.mark(inst, pairs);
        let verdict = self.tallies.verdict(inst, pairs);
        self.tallies.clear(inst, pairs);
        verdict
    }
}
