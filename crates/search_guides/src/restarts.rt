// When a guide wants a restart.
ghost use Rattle.std.specs.Prelude.{◌≡◌, ◌+◌, ◌-◌, ◌<◌, ◌^◌};
ghost use Rattle.search_guides.specs.Restarts.{after_asking, after_row, is_due, unused};

use crate::spacing::luby;
use std::marker::Model;

// So many times a restart is wanted at most.
const MOST_WANTED: u64 = 1 << 40;

// So many rows are told between two restarts, times the number of the sequence.
const ROWS: u64 = 100;

/// The rows that a guide was told, and the restarts that it wanted.
#[derive(Drop)]
pub struct Restarts {
    told: u64,
    /// How many it had been told when it last wanted a restart.
    marked: u64,
    wanted: u64,
}

impl Model for Restarts {
    ghost use Rattle.search_guides.specs.Restarts.{Tallies, AreTallies};

    ghost Value = { Tallies };

    ghost view = { λ r. record { told = r.told; marked = r.marked; wanted = r.wanted } };

    ghost invariant = { λ r. AreTallies (record { told = r.told; marked = r.marked; wanted = r.wanted }) };
}

impl Restarts {
    /// Nothing told, nothing wanted.
    pub fn new() -> Restarts
        ensures { result ≡ unused }
    {
        Restarts {
            told: 0,
            marked: 0,
            wanted: 0,
        }
    }

    /// How many rows were told.
    pub fn told(&self) -> u64
        ensures { result ≡ self.now.told }
    {
        self.told
    }

    /// One row more was told.
    pub fn tell(&mut self)
        requires { self.old.told < 2 ^ 64 - 1 }
        ensures { self.new ≡ after_row self.old }
    {
        self.told += 1;
    }

    /// Whether a restart is wanted now.
    pub fn ask(&mut self) -> bool
        ensures due { result ≡ is_due self.old }
        ensures after { self.new ≡ after_asking self.old }
    {
        if !self.is_due() {
            return false;
        }
        self.marked = self.told;
        self.wanted += 1;
        true
    }

    fn is_due(&self) -> bool
        ensures { result ≡ is_due self.now }
    {
        if self.wanted >= MOST_WANTED {
            return false;
        }
        ROWS * luby(self.wanted + 1) <= self.told - self.marked
    }
}
