// The tables of an audit.
ghost use Rattle.std.specs.Prelude.{◌≡◌, [], length, IfOk, option_map};
ghost use Rattle.std.specs.List.{find};
ghost use Rattle.rank_tables.specs.Numbers.{numbers_to};
ghost use Rattle.rank_tables.specs.Instance.{pair_count};
ghost use Rattle.rank_tables.specs.Tables.{IsPairNo, numbers_of};
ghost use Rattle.stability_audit.specs.Tallies.{AreTallied, IsClear, both_want, lesser};
ghost use Rattle.stability_audit.specs.Verdict.{ArePairs, resident_twice, hospital_over, verdict_of};

use crate::Verdict;
use crate::tally::Tally;
use hrt_base::{NoMemory, PairNo};
use rank_tables::Instance;
use std::alloc::Global;

// By resident and by hospital, what the pairs of an audit make of it.
#[derive(Drop)]
pub struct Tallies {
    pub residents: Vec<Tally>,
    pub hospitals: Vec<Tally>,
}

impl Tallies {
    // Tables of no pair, for so many residents and hospitals.
    pub fn new(alloc: Global, residents: usize, hospitals: usize) -> Result<Tallies, NoMemory>
        ensures residents { IfOk result (λ tallies. length tallies.residents.items ≡ residents) }
        ensures hospitals { IfOk result (λ tallies. length tallies.hospitals.items ≡ hospitals) }
        ensures residents_clear { IfOk result (λ tallies. IsClear tallies.residents.items) }
        ensures hospitals_clear { IfOk result (λ tallies. IsClear tallies.hospitals.items) }
    {
        Ok(Tallies {
            residents: vec![in alloc; Tally::NO_PAIR; residents]?,
            hospitals: vec![in alloc; Tally::NO_PAIR; hospitals]?,
        })
    }

    // Takes the pairs into the tables.
    pub fn mark(&mut self, inst: &Instance, pairs: &[PairNo])
        requires pairs { ArePairs inst.now (numbers_of pairs.now) }
        requires clear { AreTallied inst.now [] self.old.residents.items self.old.hospitals.items }
        ensures { AreTallied inst.now (numbers_of pairs.now) self.new.residents.items self.new.hospitals.items }
    {
        for pair in pairs {
            let r = inst.resident_of(*pair) as usize;
            self.residents[r] = self.residents[r].one_more(inst.rank_by_resident(*pair));
            let h = inst.hospital_of(*pair) as usize;
            self.hospitals[h] = self.hospitals[h].one_more(inst.rank_by_hospital(*pair));
        }
    }

    // Takes the pairs out of the tables.
    pub fn clear(&mut self, inst: &Instance, pairs: &[PairNo])
        requires pairs { ArePairs inst.now (numbers_of pairs.now) }
        requires marked { AreTallied inst.now (numbers_of pairs.now) self.old.residents.items self.old.hospitals.items }
        ensures { AreTallied inst.now [] self.new.residents.items self.new.hospitals.items }
    {
        for pair in pairs {
            self.residents[inst.resident_of(*pair) as usize] = Tally::NO_PAIR;
            self.hospitals[inst.hospital_of(*pair) as usize] = Tally::NO_PAIR;
        }
    }

    // The least resident in two of the pairs.
    fn resident_twice(&self, inst: &Instance, pairs: &[PairNo]) -> Option<u32>
        requires pairs { ArePairs inst.now (numbers_of pairs.now) }
        requires marked { AreTallied inst.now (numbers_of pairs.now) self.now.residents.items self.now.hospitals.items }
        ensures { result ≡ resident_twice inst.now (numbers_of pairs.now) }
    {
        let mut least = None;
        for pair in pairs {
            let r = inst.resident_of(*pair);
            if self.residents[r as usize].count > 1 {
                least = Some(lesser(least, r));
            }
        }
        least
    }

    // The least hospital in more of the pairs than it has posts.
    fn hospital_over(&self, inst: &Instance, pairs: &[PairNo]) -> Option<u32>
        requires pairs { ArePairs inst.now (numbers_of pairs.now) }
        requires marked { AreTallied inst.now (numbers_of pairs.now) self.now.residents.items self.now.hospitals.items }
        ensures { result ≡ hospital_over inst.now (numbers_of pairs.now) }
    {
        let mut least = None;
        for pair in pairs {
            let h = inst.hospital_of(*pair);
            if self.hospitals[h as usize].count > inst.capacity(h) as usize {
                least = Some(lesser(least, h));
            }
        }
        least
    }

    // The least pair that both of it want, by the tables.
    fn wanted_pair(&self, inst: &Instance) -> Option<PairNo>
        requires residents { length self.now.residents.items ≡ length inst.now.residents }
        requires hospitals { length self.now.hospitals.items ≡ length inst.now.hospitals }
        ensures { option_map (λ pair. pair.0) result
            ≡ find (both_want inst.now self.now.residents.items self.now.hospitals.items) (numbers_to (pair_count inst.now)) }
    {
        for p in 1..inst.pairs() + 1 {
            if self.both_want(inst, PairNo(p)) {
                return Some(PairNo(p));
            }
        }
        None
    }

    // Whether both of the pair want it, by the tables.
    fn both_want(&self, inst: &Instance, pair: PairNo) -> bool
        requires pair { IsPairNo inst.now pair.0 }
        requires residents { length self.now.residents.items ≡ length inst.now.residents }
        requires hospitals { length self.now.hospitals.items ≡ length inst.now.hospitals }
        ensures { result ≡ both_want inst.now self.now.residents.items self.now.hospitals.items pair.0 }
    {
        let r = inst.resident_of(pair) as usize;
        let h = inst.hospital_of(pair);
        let posts = inst.capacity(h) as usize;
        self.residents[r].wants(1, inst.rank_by_resident(pair))
            && self.hospitals[h as usize].wants(posts, inst.rank_by_hospital(pair))
    }

    // What the pairs in the tables are.
    pub fn verdict(&self, inst: &Instance, pairs: &[PairNo]) -> Verdict
        requires pairs { ArePairs inst.now (numbers_of pairs.now) }
        requires marked { AreTallied inst.now (numbers_of pairs.now) self.now.residents.items self.now.hospitals.items }
        ensures { result ≡ verdict_of inst.now (numbers_of pairs.now) }
    {
        if let Some(r) = self.resident_twice(inst, pairs) {
            return Verdict::ResidentTwice(r);
        }
        if let Some(h) = self.hospital_over(inst, pairs) {
            return Verdict::OverCapacity(h);
        }
        match self.wanted_pair(inst) {
            Some(pair) => Verdict::Blocked(pair),
            None => Verdict::Stable,
        }
    }
}

// The lesser of two numbers, where there is a first.
fn lesser(least: Option<u32>, number: u32) -> u32
    ensures { result ≡ lesser least number }
{
    match least {
        Some(other) => other.min(number),
        None => number,
    }
}
