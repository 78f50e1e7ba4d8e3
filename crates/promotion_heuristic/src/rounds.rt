// The steps: proposals, one after another.
ghost use Rattle.std.specs.Prelude.{◌≡◌, ℕ, ◌+◌, ◌<◌, false, length, option_map, Some, IfOk, OnOk, IfSome};
ghost use Rattle.rank_tables.specs.Instance.{pair_at};
ghost use Rattle.rank_tables.specs.Tables.{IsPairNo};
ghost use Rattle.promotion_heuristic.specs.Promotion.{start, standing_of, has_room, displaced, is_lower, worst, taken, turned_away, proposed, proposal};
ghost use Rattle.promotion_heuristic.specs.Rounds.{IsKept, left_out, IsReached, AreSettled};

use crate::queues::Queues;
use crate::standing::Standing;
use crate::tenant::Tenant;
use crate::turning::{goes_on, pair_ahead};
use hrt_base::{NoMemory, PairNo};
use rank_tables::Instance;
use std::alloc::Global;

/// The standings of all residents, and the tenants of all hospitals.
#[derive(Drop)]
pub struct Rounds {
    pub standings: Vec<Standing>,
    pub queues: Queues,
}

impl Rounds {
    /// Every resident at the top of its list, and every hospital without a tenant.
    pub fn start(alloc: Global, inst: &Instance) -> Result<Rounds, NoMemory>
        ensures standings { IfOk result (λ rounds. rounds.standings.items ≡ start inst.now) }
        ensures kept { IfOk result (λ rounds. IsKept inst.now rounds.standings.items rounds.queues) }
    {
        let top = Standing {
            last: 0,
            promoted: false,
            assigned: false,
        };
        let standings = vec![in alloc; top; inst.residents() as usize]?;
        let queues = Queues::new(alloc, inst.hospitals())?;
        Ok(Rounds { standings, queues })
    }

    // Assigns the resident of pair p by it.
    fn take(&mut self, inst: &Instance, p: PairNo) -> Result<(), NoMemory>
        requires number { IsPairNo inst.now p.0 }
        requires kept { IsKept inst.now self.old.standings.items self.old.queues }
        requires unassigned { (standing_of self.old.standings.items (pair_at inst.now p.0).resident).assigned ≡ false }
        ensures standings { OnOk result (self.new.standings.items ≡ taken inst.now self.old.standings.items p.0) }
        ensures kept { OnOk result (IsKept inst.now self.new.standings.items self.new.queues) }
    {
        let resident = inst.resident_of(p);
        let promoted = self.standings[resident as usize].promoted;
        let tenant = Tenant {
            rank: inst.rank_by_hospital(p),
            unpromoted: !promoted,
            resident,
        };
        self.queues.push(inst.hospital_of(p), tenant)?;
        self.standings[resident as usize] = Standing {
            last: p.0,
            promoted,
            assigned: true,
        };
        Ok(())
    }

    // Turns the resident of pair p away.
    fn turn_away(&mut self, inst: &Instance, p: PairNo)
        requires number { IsPairNo inst.now p.0 }
        requires residents { length self.old.standings.items ≡ length inst.now.residents }
        ensures standings { self.new.standings.items ≡ turned_away inst.now self.old.standings.items p.0 }
        ensures queues { self.new.queues ≡ self.old.queues }
    {
        let r = inst.resident_of(p);
        let promoted = self.standings[r as usize].promoted;
        self.standings[r as usize] = goes_on(inst, r, promoted, p);
    }

    // Puts out the resident of pair w, the worst one of hospital h.
    fn put_out(&mut self, inst: &Instance, h: u32, w: PairNo)
        requires declared { h < length inst.now.hospitals }
        requires number { IsPairNo inst.now w.0 }
        requires kept { IsKept inst.now self.old.standings.items self.old.queues }
        requires worst { worst inst.now self.old.standings.items h ≡ Some w.0 }
        ensures standings { self.new.standings.items ≡ turned_away inst.now self.old.standings.items w.0 }
        ensures kept { IsKept inst.now self.new.standings.items self.new.queues }
    {
        let _worst = self.queues.pop(h);
        self.turn_away(inst, w);
    }

    // The worst pair of hospital h, if it has a resident.
    fn worst(&self, inst: &Instance, h: u32) -> Option<PairNo>
        requires declared { h < length inst.now.hospitals }
        requires kept { IsKept inst.now self.now.standings.items self.now.queues }
        ensures pair { option_map (λ p. p.0) result ≡ worst inst.now self.now.standings.items h }
        ensures number { IfSome result (λ p. IsPairNo inst.now p.0) }
    {
        match self.queues.worst(h) {
            Some(worst) => Some(PairNo(self.standings[worst.resident as usize].last)),
            None => None,
        }
    }

    // Whether hospital h has a free post.
    fn has_room(&self, inst: &Instance, h: u32) -> bool
        requires declared { h < length inst.now.hospitals }
        requires kept { IsKept inst.now self.now.standings.items self.now.queues }
        ensures { result ≡ has_room inst.now self.now.standings.items h }
    {
        self.queues.len(h) < inst.capacity(h) as usize
    }

    // Whether the hospital of both pairs holds the resident of p lower than that of q.
    fn is_lower(&self, inst: &Instance, p: PairNo, q: PairNo) -> bool
        requires p { IsPairNo inst.now p.0 }
        requires q { IsPairNo inst.now q.0 }
        requires residents { length self.now.standings.items ≡ length inst.now.residents }
        ensures { result ≡ is_lower inst.now self.now.standings.items p.0 q.0 }
    {
        let rank_of_p = inst.rank_by_hospital(p);
        let rank_of_q = inst.rank_by_hospital(q);
        let p_promoted = self.standings[inst.resident_of(p) as usize].promoted;
        let q_promoted = self.standings[inst.resident_of(q) as usize].promoted;
        rank_of_q < rank_of_p || rank_of_p == rank_of_q && !p_promoted && q_promoted
    }

    // The worst pair of the hospital of p, if that is lower than p.
    fn displaced(&self, inst: &Instance, p: PairNo) -> Option<PairNo>
        requires number { IsPairNo inst.now p.0 }
        requires kept { IsKept inst.now self.now.standings.items self.now.queues }
        ensures pair { option_map (λ w. w.0) result ≡ displaced inst.now self.now.standings.items p.0 }
        ensures worst { IfSome result (λ w. worst inst.now self.now.standings.items (pair_at inst.now p.0).hospital ≡ Some w.0) }
        ensures number { IfSome result (λ w. IsPairNo inst.now w.0) }
    {
        match self.worst(inst, inst.hospital_of(p)) {
            Some(w) => {
                if self.is_lower(inst, w, p) {
                    Some(w)
                } else {
                    None
                }
            }
            None => None,
        }
    }

    // Lets the resident of pair p propose by it, and names the resident that this leaves unassigned, if any.
    fn propose(&mut self, inst: &Instance, p: PairNo) -> Result<Option<u32>, NoMemory>
        requires number { IsPairNo inst.now p.0 }
        requires kept { IsKept inst.now self.old.standings.items self.old.queues }
        requires proposal { proposal inst.now self.old.standings.items ≡ Some p.0 }
        ensures standings { OnOk result (self.new.standings.items ≡ proposed inst.now self.old.standings.items p.0) }
        ensures kept { OnOk result (IsKept inst.now self.new.standings.items self.new.queues) }
        ensures left { IfOk result (λ left. left ≡ left_out inst.now self.old.standings.items p.0) }
    {
        let h = inst.hospital_of(p);
        if self.has_room(inst, h) {
            self.take(inst, p)?;
            return Ok(None);
        }
        if let Some(w) = self.displaced(inst, p) {
            self.put_out(inst, h, w);
            self.take(inst, p)?;
            return Ok(Some(inst.resident_of(w)));
        }
        self.turn_away(inst, p);
        Ok(Some(inst.resident_of(p)))
    }

    /// Lets resident r propose, and then each resident that is put out in turn, until none of the residents up to r is
    /// waiting.
    pub fn settle(&mut self, inst: &Instance, r: u32) -> Result<(), NoMemory>
        requires declared { r < length inst.now.residents }
        requires kept { IsKept inst.now self.old.standings.items self.old.queues }
        requires reached { IsReached inst.now self.old.standings.items }
        requires settled { AreSettled inst.now self.old.standings.items r }
        ensures kept { OnOk result (IsKept inst.now self.new.standings.items self.new.queues) }
        ensures reached { OnOk result (IsReached inst.now self.new.standings.items) }
        ensures settled { OnOk result (AreSettled inst.now self.new.standings.items (r + 1)) }
    {
        let mut named = Some(r);
        'chain: while let Some(current) = named {
            named = match pair_ahead(&self.standings, inst, current) {
                Some(p) => self.propose(inst, p)?,
                None => None,
            };
        }
        Ok(())
    }
}
