// The guide that picks what occurred most.
ghost use Rattle.std.specs.Prelude.{◌≡◌, ◌+◌, ◌-◌, ◌/◌, ◌<◌, ◌^◌, [], OnOk, replicate};
ghost use Rattle.rank_tables.specs.Instance.{pair_count};
ghost use Rattle.search_guides.specs.Counts.{counted, halved, raised};
ghost use Rattle.search_guides.specs.Picks.{IsPick, score_in};
ghost use Rattle.search_guides.specs.Restarts.{after_asking, after_row, is_due, unused};

use crate::Guide;
use crate::restarts::Restarts;
use crate::scores::{decided, highest};
use hrt_base::{Lit, NoMemory, Term};
use pb_propagate::Engine;
use pb_rows::Row;
use rank_tables::Instance;
use std::alloc::Global;
use std::marker::Model;

/// Picks the free variable that occurred in most told rows, and the least of those. All counts are halved where one reaches
/// 2^32. Restarts are wanted by the sequence of Luby.
#[derive(Drop)]
pub struct ByActivity {
    counts: Vec<u32>,
    restarts: Restarts,
}

impl Model for ByActivity {
    ghost use Rattle.search_guides.specs.Counts.{Activity};

    ghost Value = { Activity };

    ghost view = { λ g. record { counts = g.counts.items; tallies = g.restarts } };
}

impl ByActivity {
    /// A guide that was told nothing, and counts no variable.
    pub fn new(alloc: Global) -> ByActivity
        ensures { result ≡ record { counts = []; tallies = unused } }
    {
        ByActivity {
            counts: Vec::new(alloc),
            restarts: Restarts::new(),
        }
    }
}

impl Guide for ByActivity {
    ghost count = { λ g. g.tallies.told };

    fn prepare(&mut self, alloc: Global, inst: &Instance) -> Result<(), NoMemory>
        ensures { OnOk result (self.new ≡ record { counts = replicate (pair_count inst.now) 0; tallies = unused }) }
    {
        self.counts = vec![in alloc; 0u32; inst.pairs() as usize]?;
        self.restarts = Restarts::new();
        Ok(())
    }

    fn pick(&mut self, engine: &Engine) -> Option<Lit>
        ensures pick { IsPick engine.now (score_in self.old.counts) result }
        ensures kept { self.new ≡ self.old }
    {
        decided(highest(engine, &self.counts))
    }

    fn told(&mut self, row: &Row)
        requires { self.old.tallies.told < 2 ^ 64 - 1 }
        ensures { self.new ≡ record { counts = counted row.now.terms self.old.counts; tallies = after_row self.old.tallies } }
    {
        count_row(&mut self.counts, row.terms());
        self.restarts.tell();
    }

    fn wants_restart(&mut self) -> bool
        ensures due { result ≡ is_due self.old.tallies }
        ensures after { self.new ≡ record self.old { tallies = after_asking self.old.tallies } }
    {
        self.restarts.ask()
    }

    fn told_count(&self) -> u64 {
        self.restarts.told()
    }
}

// Counts each variable of a row once more.
fn count_row(counts: &mut Vec<u32>, terms: &[Term])
    ensures { counts.new.items ≡ counted terms.now counts.old.items }
{
    for term in terms {
        raise(counts, term.lit.var);
    }
}

// Counts a variable once more, where it has a count.
fn raise(counts: &mut Vec<u32>, var: u32)
    ensures { counts.new.items ≡ raised var counts.old.items }
{
    if var == 0 || var as usize > counts.len() {
        return;
    }
    let place = var as usize - 1;
    let count = counts[place];
    if count < u32::MAX {
        counts[place] = count + 1;
    } else {
        halve(counts);
        counts[place] = half_of_next(count);
    }
}

// Half of the next number.
fn half_of_next(count: u32) -> u32
    ensures { result ≡ (count + 1) / 2 }
{
    ((count as u64 + 1) / 2) as u32
}

// Halves every count.
fn halve(counts: &mut Vec<u32>)
    ensures { counts.new.items ≡ halved counts.old.items }
{
    for count in counts.iter_mut() {
        *count /= 2;
    }
}
