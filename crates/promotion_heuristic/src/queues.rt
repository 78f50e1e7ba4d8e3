// The residents of each hospital, of whom it can name the worst at once.
ghost use Rattle.std.specs.Prelude.{◌≡◌, ◌<◌, ◌∷◌, [], ℕ, ◌==◌, if◌then◌else◌, length, IfOk, OnOk, IfSome, MatchOption};
ghost use Rattle.promotion_heuristic.specs.Queues.{row, IsFirst, Adds};

use crate::tenant::Tenant;
use hrt_base::NoMemory;
use std::alloc::Global;
use std::collections::BinaryHeap;
use std::marker::Model;

/// A row of tenants for each hospital.
#[derive(Drop)]
pub struct Queues {
    rows: Vec<BinaryHeap<Tenant, Global>>,
}

impl Model for Queues {
    ghost use Rattle.std.specs.Prelude.{List, map, All};
    ghost use Rattle.promotion_heuristic.specs.declared.tenant.Tenant.{Tenant};
    ghost use Rattle.promotion_heuristic.specs.Heaps.{items_of, IsOrdered};

    ghost Value = { List (List Tenant) };

    ghost view = { λ q. map items_of q.rows.items };

    ghost invariant = { λ q. All IsOrdered q.rows.items };
}

impl Queues {
    /// No tenant at any of so many hospitals.
    pub fn new(alloc: Global, hospitals: u32) -> Result<Queues, NoMemory>
        ensures count { IfOk result (λ q. length q ≡ hospitals) }
        ensures empty { IfOk result (λ q. (h : ℕ) → row q h ≡ []) }
    {
        let mut rows = Vec::new(alloc);
        for _h in 0..hospitals {
            rows.push(BinaryHeap::new(alloc))?;
        }
        Ok(Queues { rows })
    }

    /// How many tenants hospital h has.
    pub fn len(&self, h: u32) -> usize
        requires { h < length self.now }
        ensures { result ≡ length (row self.now h) }
    {
        self.rows[h as usize].as_slice().len()
    }

    /// The worst tenant of hospital h, if it has one.
    pub fn worst(&self, h: u32) -> Option<Tenant>
        requires { h < length self.now }
        ensures { MatchOption result (row self.now h ≡ []) (IsFirst (row self.now h)) }
    {
        self.rows[h as usize].peek().copied()
    }

    /// Adds a tenant to hospital h.
    pub fn push(&mut self, h: u32, tenant: Tenant) -> Result<(), NoMemory>
        requires { h < length self.old }
        ensures { OnOk result (Adds self.old self.new h tenant) }
    {
        self.rows[h as usize].push(tenant)?;
        Ok(())
    }

    /// Takes out the worst tenant of hospital h.
    pub fn pop(&mut self, h: u32) -> Option<Tenant>
        requires { h < length self.old }
        ensures { MatchOption result (row self.old h ≡ []) (λ x. IsFirst (row self.old h) x × Adds self.new self.old h x) }
    {
        self.rows[h as usize].pop()
    }
}
