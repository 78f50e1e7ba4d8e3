// The pairs that block a candidate.
ghost use Rattle.std.specs.Prelude.{◌≡◌, ◌<◌, ◌↔◌, drop, length, min, not, take, IfOk, IsTrue};
ghost use Rattle.std.specs.List.{list_all};
ghost use Rattle.rank_tables.specs.Instance.{pair_count};
ghost use Rattle.rank_tables.specs.Numbers.{numbers_to};
ghost use Rattle.rank_tables.specs.Stability.{blocks};
ghost use Rattle.rank_tables.specs.Tables.{numbers_of};
ghost use Rattle.lazy_stability.specs.Candidates.{AreBlocking, blocking, candidate};
ghost use Rattle.lazy_stability.specs.Table.{sizes_of};

use crate::table::Table;
use hrt_base::{NoMemory, PairNo};
use pb_propagate::Engine;
use rank_tables::Instance;
use std::alloc::Global;
use std::marker::Model;

/// What a candidate makes of each resident and of each hospital, made once for a search: the rank of the best hospital that a resident
/// has, the rank of the worst resident that a hospital has, and its free posts. So each pair tells at once whether it blocks. It is seen
/// as the counts of residents and hospitals that it was made for.
#[derive(Drop)]
pub struct Posts {
    table: Table,
}

impl Model for Posts {
    ghost use Rattle.std.specs.Prelude.{◌≡◌, length};
    ghost use Rattle.lazy_stability.specs.Table.{Sizes};

    ghost Value = { Sizes };

    ghost view = { λ p. record { residents = length p.table.best.items; hospitals = length p.table.worst.items } };

    ghost invariant = { λ p. length p.table.free.items ≡ length p.table.worst.items };
}

impl Posts {
    /// Tables for instances of as many residents and hospitals as this one. They take 4 bytes for each resident and 8 for each hospital.
    pub fn new(alloc: Global, inst: &Instance) -> Result<Posts, NoMemory>
        ensures { IfOk result (λ posts. posts ≡ sizes_of inst.now) }
    {
        Ok(Posts {
            table: Table::new(alloc, inst)?,
        })
    }

    /// Writes the least pairs that block the candidate of an engine, as many as there are and fit, and answers how many: 0 exactly where
    /// none blocks it. It takes no memory. The time grows with the pairs, residents and hospitals.
    pub fn broken(&mut self, inst: &Instance, engine: &Engine, out: &mut [PairNo]) -> usize
        requires sizes { self.old ≡ sizes_of inst.now }
        requires some { 0 < length out.old }
        ensures count { result ≡ min (length out.old) (length (blocking inst.now (candidate inst.now engine.now))) }
        ensures pairs { numbers_of (take result out.new) ≡ take (length out.old) (blocking inst.now (candidate inst.now engine.now)) }
        ensures blocking { AreBlocking inst.now (candidate inst.now engine.now) (take result out.new) }
        ensures none { result ≡ 0 ↔ IsTrue (list_all (λ p. not (blocks inst.now (candidate inst.now engine.now) p)) (numbers_to (pair_count inst.now))) }
        ensures rest { drop result out.new ≡ drop result out.old }
        ensures length { length out.new ≡ length out.old }
        ensures sizes { self.new ≡ self.old }
    {
        self.table.broken(inst, engine, out)
    }
}
