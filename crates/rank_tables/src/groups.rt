// Lists with ties.
ghost use Rattle.std.specs.Prelude.{◌≡◌, ◌+◌, ◌<◌, drop, ◌++◌, [], ◌∷◌, length, true, false, OnOk, OnErr, slice_index_or};
ghost use Rattle.rank_tables.specs.Groups.{tied_on, until, cut, IsCut};

use hrt_base::NoMemory;
use std::alloc::Global;
use std::marker::Model;

/// A list of groups of numbers, best first. A group of several is a tie. It is seen as a list of lists.
#[derive(Debug, Drop)]
pub struct Groups {
    numbers: Vec<u32>,
    starts: Vec<usize>,
}

impl Model for Groups {
    ghost use Rattle.std.specs.Prelude.{List, ℕ, length};
    ghost use Rattle.rank_tables.specs.Groups.{cut, IsCut};

    ghost Value = { List (List ℕ) };

    ghost view = { λ g. cut g.numbers.items g.starts.items };

    ghost invariant = { λ g. IsCut (length g.numbers.items) g.starts.items };
}

impl Groups {
    /// No group.
    pub fn new(alloc: Global) -> Groups
        ensures { result ≡ [] }
    {
        Groups {
            numbers: Vec::new(alloc),
            starts: Vec::new(alloc),
        }
    }

    #[tactic(auto, using(crate::proofs::Cuts::IsCut_tied, crate::proofs::Cuts::IsCut_apart, crate::proofs::Cuts::cut_tied, crate::proofs::Cuts::cut_apart, crate::proofs::Cuts::length_cut))]
    /// Adds a number to the last group where it is tied, and else as a group of its own.
    pub fn push(&mut self, number: u32, tied: bool) -> Result<(), NoMemory>
        requires { tied ≡ true → 0 < length self.old }
        ensures joined { OnOk result (tied ≡ true → self.new ≡ tied_on self.old number) }
        ensures apart { OnOk result (tied ≡ false → self.new ≡ self.old ++ (number ∷ []) ∷ []) }
        ensures err { OnErr result (self.new ≡ self.old) }
    {
        if tied {
            self.numbers.push(number)?;
            return Ok(());
        }
        let start = self.numbers.len();
        self.numbers.push(number)?;
        match self.starts.push(start) {
            Ok(()) => Ok(()),
            Err(_) => {
                let _ = self.numbers.pop();
                Err(NoMemory)
            }
        }
    }

    /// How many groups there are.
    #[tactic(auto, using(crate::proofs::Cuts::length_cut))]
    pub fn count(&self) -> usize
        ensures { result ≡ length self.now }
    {
        self.starts.len()
    }

    /// The group at place k, from 0 on.
    #[tactic(auto, using(crate::proofs::Cuts::length_cut))]
    pub fn group(&self, k: usize) -> &[u32]
        requires { k < length self.now }
        ensures value { result.now ≡ slice_index_or self.now k [] }
        ensures some { 0 < length result.now }
    {
        group_of(&self.numbers, &self.starts, k)
    }
}

// The group at place k.
#[tactic(auto, using(crate::proofs::Cuts::group_at_more, crate::proofs::Cuts::group_some_more, crate::proofs::Cuts::group_within_more))]
fn group_of<'a>(numbers: &'a [u32], starts: &[usize], k: usize) -> &'a [u32]
    requires place { k < length starts.now }
    requires cut { IsCut (length numbers.now) starts.now }
    ensures value { result.now ≡ slice_index_or (cut numbers.now starts.now) k [] }
    ensures some { 0 < length result.now }
{
    let start = starts[k];
    let end = end_of(starts, k, numbers.len());
    &numbers[start..end]
}

// Where the group at place k ends, of so many numbers.
pub fn end_of(starts: &[usize], k: usize, total: usize) -> usize
    requires { k < length starts.now }
    ensures { result ≡ until total (drop (k + 1) starts.now) }
{
    if k + 1 < starts.len() {
        starts[k + 1]
    } else {
        total
    }
}
