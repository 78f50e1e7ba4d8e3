// What the pairs of a candidate make of each resident and of each hospital.
ghost use Rattle.std.specs.Prelude.{◌≡◌, ◌<◌, ◌≤◌, ◌++◌, ◌∷◌, [], ℕ, ◌&&◌, nat_lt, drop, length, max, min, take, IfOk, List};
ghost use Rattle.rank_tables.specs.Tables.{IsPairNo, numbers_of};
ghost use Rattle.rank_tables.specs.Stability.{blocks, hospital_wants, resident_wants};
ghost use Rattle.rank_tables.specs.Instance.{capacity_of};
ghost use Rattle.lazy_stability.specs.Table.{AreFree, AreNone, AreRoom, ArePosts, is_above};
ghost use Rattle.lazy_stability.specs.Candidates.{blocking, candidate, point_of_trail};

use hrt_base::{NoMemory, PairNo, Value};
use pb_propagate::Engine;
use rank_tables::Instance;
use std::alloc::Global;

/// Whether the pair's variable is true.
pub(crate) fn is_taken(engine: &Engine, p: PairNo) -> bool
    ensures { result ≡ point_of_trail engine.now.trail p.0 }
{
    engine.value(p.0) == Value::True
}

#[derive(Drop)]
pub(crate) struct Table {
    /// By resident the rank of the best hospital that it has, 0 where it has none.
    pub best: Vec<u32>,
    /// By hospital the rank of the worst resident that it has, 0 where it has none.
    pub worst: Vec<u32>,
    /// By hospital how many posts are free.
    pub free: Vec<u32>,
}

/// Nobody has a rank.
fn clear_ranks(ranks: &mut Vec<u32>)
    ensures none { AreNone ranks.new.items }
    ensures length { length ranks.new.items ≡ length ranks.old.items }
{
    for k in 0..ranks.len() {
        ranks[k] = 0;
    }
}

/// All posts are free.
fn free_posts(free: &mut Vec<u32>, inst: &Instance)
    requires { length free.old.items ≡ length inst.now.hospitals }
    ensures all { AreFree inst.now free.new.items }
    ensures length { length free.new.items ≡ length free.old.items }
{
    for h in 0..inst.hospitals() {
        free[h as usize] = inst.capacity(h);
    }
}

/// Whether a rank is strictly higher than the best one, where there is one.
fn is_above(best: u32, rank: u32) -> bool
    ensures { result ≡ is_above best rank }
{
    best == 0 || rank < best
}

/// The better of a rank and the best one so far, 0 where there is none.
fn better(best: u32, rank: u32) -> u32
    requires { 1 ≤ rank }
    ensures { (x : ℕ) → is_above result x ≡ (is_above best x && nat_lt x rank) }
{
    if best == 0 {
        return rank;
    }
    if best < rank {
        return best;
    }
    rank
}

/// The worse of two ranks.
fn worse(worst: u32, rank: u32) -> u32
    ensures { result ≡ max worst rank }
{
    if worst < rank {
        return rank;
    }
    worst
}

impl Table {
    /// Room for an instance.
    pub(crate) fn new(alloc: Global, inst: &Instance) -> Result<Table, NoMemory>
        ensures { IfOk result (λ table. AreRoom inst.now table.best.items table.worst.items table.free.items) }
    {
        let residents = inst.residents() as usize;
        let hospitals = inst.hospitals() as usize;
        Ok(Table {
            best: vec![in alloc; 0; residents]?,
            worst: vec![in alloc; 0; hospitals]?,
            free: vec![in alloc; 0; hospitals]?,
        })
    }

    /// No pair is taken.
    #[tactic(auto, using(crate::proofs::Tabled::none_posts))]
    pub(crate) fn clear(&mut self, inst: &Instance)
        requires { AreRoom inst.now self.old.best.items self.old.worst.items self.old.free.items }
        ensures { ArePosts inst.now [] self.new.best.items self.new.worst.items self.new.free.items }
    {
        clear_ranks(&mut self.best);
        clear_ranks(&mut self.worst);
        free_posts(&mut self.free, inst);
    }

    /// One more pair is taken.
    #[tactic(auto, using(crate::proofs::Tabled::one_more_taken))]
    pub(crate) fn take(&mut self, inst: &Instance, p: PairNo)
        requires p { IsPairNo inst.now p.0 }
        requires room { AreRoom inst.now self.old.best.items self.old.worst.items self.old.free.items }
        ensures { (m : List ℕ) → ArePosts inst.now m self.old.best.items self.old.worst.items self.old.free.items → ArePosts inst.now (m ++ p.0 ∷ []) self.new.best.items self.new.worst.items self.new.free.items }
    {
        let r = inst.resident_of(p) as usize;
        let h = inst.hospital_of(p) as usize;
        self.best[r] = better(self.best[r], inst.rank_by_resident(p));
        self.worst[h] = worse(self.worst[h], inst.rank_by_hospital(p));
        self.free[h] = self.free[h].saturating_sub(1);
    }

    /// Whether the pair's resident has no hospital, or ranks this one strictly higher than each that it has.
    #[tactic(auto, using(crate::proofs::Tabled::resident_told))]
    pub(crate) fn resident_wants(&self, inst: &Instance, p: PairNo) -> bool
        requires p { IsPairNo inst.now p.0 }
        requires room { AreRoom inst.now self.now.best.items self.now.worst.items self.now.free.items }
        ensures { (m : List ℕ) → ArePosts inst.now m self.now.best.items self.now.worst.items self.now.free.items → result ≡ resident_wants inst.now m p.0 }
    {
        is_above(
            self.best[inst.resident_of(p) as usize],
            inst.rank_by_resident(p),
        )
    }

    /// Whether the pair's hospital has a free post, or ranks this resident strictly higher than one that it has.
    #[tactic(auto, using(crate::proofs::Tabled::hospital_told))]
    pub(crate) fn hospital_wants(&self, inst: &Instance, p: PairNo) -> bool
        requires p { IsPairNo inst.now p.0 }
        requires room { AreRoom inst.now self.now.best.items self.now.worst.items self.now.free.items }
        ensures { (m : List ℕ) → ArePosts inst.now m self.now.best.items self.now.worst.items self.now.free.items → result ≡ hospital_wants inst.now m p.0 }
    {
        let h = inst.hospital_of(p) as usize;
        self.free[h] > 0 || inst.rank_by_hospital(p) < self.worst[h]
    }

    /// The pairs of the candidate are taken, and no others.
    fn fill(&mut self, inst: &Instance, engine: &Engine)
        requires { AreRoom inst.now self.old.best.items self.old.worst.items self.old.free.items }
        ensures { ArePosts inst.now (candidate inst.now engine.now) self.new.best.items self.new.worst.items self.new.free.items }
    {
        self.clear(inst);
        for taken in 1..inst.pairs() + 1 {
            if !is_taken(engine, PairNo(taken)) {
                continue;
            }
            self.take(inst, PairNo(taken));
        }
    }

    /// Whether a pair blocks the candidate whose pairs are taken.
    #[tactic(auto, using(crate::proofs::Asked::taken_apart, crate::proofs::Asked::other_asked))]
    fn blocks(&self, inst: &Instance, engine: &Engine, p: PairNo) -> bool
        requires p { IsPairNo inst.now p.0 }
        requires taken { ArePosts inst.now (candidate inst.now engine.now) self.now.best.items self.now.worst.items self.now.free.items }
        ensures { result ≡ blocks inst.now (candidate inst.now engine.now) p.0 }
    {
        if is_taken(engine, p) {
            return false;
        }
        if !self.resident_wants(inst, p) {
            return false;
        }
        self.hospital_wants(inst, p)
    }

    /// Writes the least pairs that block the candidate whose pairs are taken.
    fn write(&self, inst: &Instance, engine: &Engine, out: &mut [PairNo]) -> usize
        requires taken { ArePosts inst.now (candidate inst.now engine.now) self.now.best.items self.now.worst.items self.now.free.items }
        requires some { 0 < length out.old }
        ensures count { result ≡ min (length out.old) (length (blocking inst.now (candidate inst.now engine.now))) }
        ensures pairs { numbers_of (take result out.new) ≡ take (length out.old) (blocking inst.now (candidate inst.now engine.now)) }
        ensures rest { drop result out.new ≡ drop result out.old }
        ensures length { length out.new ≡ length out.old }
    {
        let mut count = 0;
        for p in 1..inst.pairs() + 1 {
            if !self.blocks(inst, engine, PairNo(p)) {
                continue;
            }
            out[count] = PairNo(p);
            count += 1;
            if count == out.len() {
                return count;
            }
        }
        count
    }

    /// Takes the pairs of the candidate, and writes the least pairs that block it.
    pub(crate) fn broken(&mut self, inst: &Instance, engine: &Engine, out: &mut [PairNo]) -> usize
        requires room { AreRoom inst.now self.old.best.items self.old.worst.items self.old.free.items }
        requires some { 0 < length out.old }
        ensures room { AreRoom inst.now self.new.best.items self.new.worst.items self.new.free.items }
        ensures count { result ≡ min (length out.old) (length (blocking inst.now (candidate inst.now engine.now))) }
        ensures pairs { numbers_of (take result out.new) ≡ take (length out.old) (blocking inst.now (candidate inst.now engine.now)) }
        ensures rest { drop result out.new ≡ drop result out.old }
        ensures length { length out.new ≡ length out.old }
    {
        self.fill(inst, engine);
        self.write(inst, engine, out)
    }
}
