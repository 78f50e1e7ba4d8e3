// The offers that were made.
ghost use Rattle.std.specs.Prelude.{◌≡◌, ◌-◌, ◌≤◌, ◌++◌, ◌∷◌, [], IfOk, OnOk, false, length, replicate, slice_set, true};
ghost use Rattle.pair_reduction.specs.Flags.{is_marked};

use crate::known::no_marks;
use hrt_base::{NoMemory, PairNo, RowNo};
use std::alloc::Global;

/// Offers that were made: each is made once, and its row stays live until the reduction ends.
#[derive(Drop)]
pub(crate) struct Offers {
    /// Pairs whose offer was made.
    pub(crate) offered: Vec<bool>,
    /// The rows of these offers, in the order in which they were made.
    pub(crate) made: Vec<RowNo>,
}

impl Offers {
    /// No offer was made.
    pub(crate) fn new(alloc: Global, pairs: u32) -> Result<Offers, NoMemory>
        ensures offered { IfOk result (λ offers. offers.offered.items ≡ replicate pairs false) }
        ensures made { IfOk result (λ offers. offers.made.items ≡ []) }
    {
        let offered = no_marks(alloc, pairs)?;
        Ok(Offers {
            offered,
            made: Vec::new(alloc),
        })
    }

    /// Tells whether the offer of a pair was made.
    pub(crate) fn is_offered(&self, q: PairNo) -> bool
        requires q { 1 ≤ q.0 }
        requires last { q.0 ≤ length self.now.offered.items }
        ensures { result ≡ is_marked self.now.offered.items q.0 }
    {
        self.offered[q.0 as usize - 1]
    }

    /// Records the offer of a pair, by its row.
    pub(crate) fn add(&mut self, q: PairNo, id: RowNo) -> Result<(), NoMemory>
        requires q { 1 ≤ q.0 }
        requires last { q.0 ≤ length self.old.offered.items }
        ensures offered { OnOk result (self.new.offered.items ≡ slice_set self.old.offered.items (q.0 - 1) true) }
        ensures made { OnOk result (self.new.made.items ≡ self.old.made.items ++ id ∷ []) }
    {
        self.made.push(id)?;
        self.offered[q.0 as usize - 1] = true;
        Ok(())
    }
}
