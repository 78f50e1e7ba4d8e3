// The guide that picks what residents rank highest.
ghost use Rattle.std.specs.Prelude.{◌≡◌, ◌-◌, ◌<◌, ◌^◌, [], OnOk};
ghost use Rattle.rank_tables.specs.Instance.{Lists};
ghost use Rattle.search_guides.specs.Ranks.{AreByRank, IsRankPick};
ghost use Rattle.search_guides.specs.Restarts.{after_asking, after_row, is_due, unused};

use crate::Guide;
use crate::ranked::{RankedPair, by_rank, first_free};
use crate::restarts::Restarts;
use crate::scores::decided;
use hrt_base::{Lit, NoMemory};
use pb_propagate::Engine;
use pb_rows::Row;
use rank_tables::Instance;
use std::alloc::Global;
use std::marker::Model;

/// Picks the free pair of least rank by its resident, and the least of those. Restarts are wanted by the sequence of Luby.
#[derive(Drop)]
pub struct ByRank {
    order: Vec<RankedPair>,
    restarts: Restarts,
}

impl Model for ByRank {
    ghost use Rattle.search_guides.specs.Ranks.{Ranking};

    ghost Value = { Ranking };

    ghost view = { λ g. record { order = g.order.items; tallies = g.restarts } };
}

impl ByRank {
    /// A guide that was told nothing, for no pairs.
    pub fn new(alloc: Global) -> ByRank
        ensures { result ≡ record { order = []; tallies = unused } }
    {
        ByRank {
            order: Vec::new(alloc),
            restarts: Restarts::new(),
        }
    }
}

impl Guide for ByRank {
    ghost count = { λ g. g.tallies.told };

    fn prepare(&mut self, alloc: Global, inst: &Instance) -> Result<(), NoMemory>
        ensures order { OnOk result (AreByRank inst.now self.new.order) }
        ensures tallies { OnOk result (self.new.tallies ≡ unused) }
    {
        self.order = by_rank(alloc, inst)?;
        self.restarts = Restarts::new();
        Ok(())
    }

    fn pick(&mut self, engine: &Engine) -> Option<Lit>
        ensures pick { (lists : Lists) → AreByRank lists self.old.order → IsRankPick lists engine.now result }
        ensures kept { self.new ≡ self.old }
    {
        decided(first_free(engine, &self.order))
    }

    fn told(&mut self, _row: &Row)
        requires { self.old.tallies.told < 2 ^ 64 - 1 }
        ensures { self.new ≡ record self.old { tallies = after_row self.old.tallies } }
    {
        self.restarts.tell();
    }

    fn wants_restart(&mut self) -> bool
        ensures due { result ≡ is_due self.old.tallies }
        ensures after { self.new ≡ record self.old { tallies = after_asking self.old.tallies } }
    {
        self.restarts.ask()
    }

    fn told_count(&self) -> u64 {
        self.restarts.told()
    }
}
