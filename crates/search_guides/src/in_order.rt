// The guide that picks by number.
ghost use Rattle.std.specs.Prelude.{◌≡◌, ◌+◌, ◌-◌, ◌<◌, ◌^◌, false, OnOk};
ghost use Rattle.search_guides.specs.Picks.{IsPick};

use crate::Guide;
use crate::scores::{decided, least};
use hrt_base::{Lit, NoMemory};
use pb_propagate::Engine;
use pb_rows::Row;
use rank_tables::Instance;
use std::alloc::Global;
use std::marker::Model;

/// Picks the least free variable, and never wants a restart. It is seen as the number of rows that it was told.
#[derive(Drop)]
pub struct InOrder {
    told: u64,
}

impl Model for InOrder {
    ghost use Rattle.std.specs.Prelude.{ℕ};

    ghost Value = { ℕ };

    ghost view = { λ g. g.told };
}

impl InOrder {
    /// A guide that was told nothing.
    pub fn new() -> InOrder
        ensures { result ≡ 0 }
    {
        InOrder { told: 0 }
    }
}

impl Guide for InOrder {
    ghost count = { λ g. g };

    fn prepare(&mut self, _alloc: Global, _inst: &Instance) -> Result<(), NoMemory> {
        self.told = 0;
        Ok(())
    }

    fn pick(&mut self, engine: &Engine) -> Option<Lit>
        ensures pick { IsPick engine.now (λ _. 0) result }
        ensures kept { self.new ≡ self.old }
    {
        decided(least(engine))
    }

    fn told(&mut self, _row: &Row) {
        self.told += 1;
    }

    fn wants_restart(&mut self) -> bool
        ensures never { result ≡ false }
        ensures kept { self.new ≡ self.old }
    {
        false
    }

    fn told_count(&self) -> u64 {
        self.told
    }
}
