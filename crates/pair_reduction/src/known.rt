// What the reduction knows between two visits.
ghost use Rattle.std.specs.Prelude.{◌≡◌, ◌<◌, ◌≤◌, ℕ, IfOk, IfSome, None, OnOk, false, length, replicate, slice_set, true};
ghost use Rattle.rank_tables.specs.Instance.{pair_count};
ghost use Rattle.rank_tables.specs.Tables.{IsPairNo};
ghost use Rattle.pair_reduction.specs.declared.sides.Side.{Side};
ghost use Rattle.pair_reduction.specs.Flags.{is_marked, is_waiting};
ghost use Rattle.pair_reduction.specs.Known.{IsKept, MarksFree, Rests, Sets, Waits, marks_on, waiting_on};
ghost use Rattle.pair_reduction.specs.Sides.{list_count, other};

use crate::sides::{Side, list_of, other};
use crate::waiting::Waiting;
use derivation::Deleted;
use hrt_base::{NoMemory, PairNo};
use rank_tables::Instance;
use std::alloc::Global;

/// What is known of the pairs, and which lists are to be visited.
#[derive(Drop)]
pub(crate) struct Known {
    pub(crate) gone: Deleted,
    /// Pairs that are sure of a post.
    pub(crate) sure: Vec<bool>,
    /// Pairs whose resident has nothing else.
    pub(crate) only: Vec<bool>,
    pub(crate) residents: Waiting,
    pub(crate) hospitals: Waiting,
}

/// So many pairs, none marked.
pub(crate) fn no_marks(alloc: Global, pairs: u32) -> Result<Vec<bool>, NoMemory>
    ensures { IfOk result (λ marks. marks.items ≡ replicate pairs false) }
{
    let mut marks = Vec::with_capacity(alloc, pairs as usize)?;
    for _ in 0..pairs {
        marks.push(false)?;
    }
    Ok(marks)
}

impl Known {
    /// Nothing is known yet, and all lists wait.
    pub(crate) fn new(alloc: Global, inst: &Instance) -> Result<Known, NoMemory>
        ensures kept { IfOk result (IsKept inst.now) }
        ensures gone { IfOk result (λ known. known.gone ≡ replicate (pair_count inst.now) None) }
    {
        let gone = Deleted::new(alloc, inst.pairs())?;
        let sure = no_marks(alloc, inst.pairs())?;
        let only = no_marks(alloc, inst.pairs())?;
        let residents = Waiting::all(alloc, inst.residents())?;
        let hospitals = Waiting::all(alloc, inst.hospitals())?;
        Ok(Known {
            gone,
            sure,
            only,
            residents,
            hospitals,
        })
    }

    /// The pairs that are known to be free on a side.
    pub(crate) fn marks(&self, side: Side) -> &[bool]
        ensures { result.now ≡ marks_on side self.now }
    {
        match side {
            Side::Resident => &self.only,
            Side::Hospital => &self.sure,
        }
    }

    /// Tells whether a pair is known to be free on a side.
    pub(crate) fn is_marked(&self, side: Side, p: PairNo) -> bool
        requires p { 1 ≤ p.0 }
        requires last { p.0 ≤ length (marks_on side self.now) }
        ensures { result ≡ is_marked (marks_on side self.now) p.0 }
    {
        self.marks(side)[p.0 as usize - 1]
    }

    /// Makes a list of a side wait.
    pub(crate) fn wait(&mut self, side: Side, n: u32) -> Result<(), NoMemory>
        requires { n < length (waiting_on side self.old) }
        ensures { OnOk result (Waits side self.old self.new n) }
    {
        match side {
            Side::Resident => self.residents.add(n)?,
            Side::Hospital => self.hospitals.add(n)?,
        }
        Ok(())
    }

    /// Marks a pair as free on a side.
    fn set(&mut self, side: Side, p: PairNo)
        requires p { 1 ≤ p.0 }
        requires last { p.0 ≤ length (marks_on side self.old) }
        ensures { Sets side self.old self.new p.0 }
    {
        match side {
            Side::Resident => self.only[p.0 as usize - 1] = true,
            Side::Hospital => self.sure[p.0 as usize - 1] = true,
        }
    }

    /// Marks a pair as free on a side. Its list on the other side waits then.
    pub(crate) fn mark(&mut self, inst: &Instance, side: Side, p: PairNo) -> Result<(), NoMemory>
        requires kept { IsKept inst.now self.old }
        requires p { IsPairNo inst.now p.0 }
        ensures { OnOk result (MarksFree side inst.now self.old self.new p.0) }
    {
        let across = other(side);
        self.wait(across, list_of(inst, across, p))?;
        self.set(side, p);
        Ok(())
    }

    /// A list that waits, if one does.
    pub(crate) fn next(&mut self) -> Option<(Side, u32)>
        ensures same { self.new ≡ self.old }
        ensures some { IfSome result (λ x. is_waiting (waiting_on x.0 self.old) x.1 ≡ true) }
        ensures declared { IfSome result (λ x. x.1 < length (waiting_on x.0 self.old)) }
        ensures none { result ≡ None → (side : Side) (n : ℕ) → is_waiting (waiting_on side self.old) n ≡ false }
    {
        if let Some(r) = self.residents.first() {
            return Some((Side::Resident, r));
        }
        if let Some(h) = self.hospitals.first() {
            return Some((Side::Hospital, h));
        }
        None
    }

    /// A list of a side waits no more.
    pub(crate) fn settle(&mut self, side: Side, n: u32)
        requires { n < length (waiting_on side self.old) }
        ensures { Rests side self.old self.new n }
    {
        match side {
            Side::Resident => self.residents.remove(n),
            Side::Hospital => self.hospitals.remove(n),
        }
    }
}
