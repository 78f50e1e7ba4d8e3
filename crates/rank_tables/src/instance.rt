// An instance: the written lists, and tables over them.
ghost use Rattle.std.specs.Prelude.{◌≡◌, ℕ, IsTrue, ◌+◌, ◌<◌, ◌≤◌, length, map, All, option_map, slice_get, nat_lt, Some, IfSome, is_some, ◌&&◌, IfOk, IsOk, IfErr};
ghost use Rattle.rank_tables.specs.Instance.{Lists, lists_of, pair_count, pair_at, pair_no, rank_by_resident, rank_by_hospital, pairs_of_resident, rising_pairs_of_hospital, pairs_as_listed, one_sided, capacity_of, groups_of_resident, groups_of_hospital, resident_names, hospital_names};
ghost use Rattle.rank_tables.specs.Numbers.{is_in, is_distinct};
ghost use Rattle.rank_tables.specs.WellFormed.{IsWellFormed, names_of_residents, names_of_hospitals, most_residents, most_hospitals, most_capacity, most_pairs, most_terms};
ghost use Rattle.rank_tables.specs.Tables.{IsPairNo, IsOfResident, IsOfHospital, numbers_of, entry_of};
ghost use Rattle.rank_tables.specs.Terms.{model_terms};

use crate::entry::PairEntry;
use crate::tables::{Tables, tables_of};
use crate::terms::terms_of;
use crate::{BuildRefusal, Draft, DraftHospital, DraftResident, Groups, Name};
use hrt_base::PairNo;
use std::alloc::Global;
use std::marker::Model;

const MOST_TERMS: u64 = 8_000_000;

/// An instance, seen as its written lists. Residents and hospitals are numbered from 0, pairs from 1.
#[derive(Debug, Drop)]
pub struct Instance {
    residents: Vec<DraftResident>,
    hospitals: Vec<DraftHospital>,
    tables: Tables,
    terms: u32,
}

impl Model for Instance {
    ghost use Rattle.rank_tables.specs.Instance.{Lists};
    ghost use Rattle.rank_tables.specs.Tables.{IsKept};
    ghost use Rattle.rank_tables.specs.Building.{rows_of};

    ghost Value = { Lists };

    ghost view = { λ i. record { residents = i.residents.items; hospitals = i.hospitals.items } };

    ghost invariant = { λ i. IsKept (record { residents = i.residents.items; hospitals = i.hospitals.items })
        i.tables.entries.items (rows_of i.tables.by_resident.items) (rows_of i.tables.by_hospital.items) i.tables.unanswered i.terms };
}

impl Instance {
    /// The instance of a draft. `TooManyPairs` is answered from 100,001 acceptable pairs on, and with fewer `TooManyTerms`
    /// from 8,000,001 terms of the 0/1 model on. The time grows linearly with the number of namings.
    pub fn build(alloc: Global, draft: Draft) -> Result<Instance, BuildRefusal>
        requires { IsWellFormed (lists_of draft) }
        ensures ok { IfOk result (λ instance. instance ≡ lists_of draft) }
        ensures few { IsOk result → pair_count (lists_of draft) ≤ most_pairs }
        ensures few_terms { IsOk result → model_terms (lists_of draft) ≤ most_terms }
        ensures too_many { IfErr result (λ refusal. refusal ≡ BuildRefusal.TooManyPairs → most_pairs < pair_count (lists_of draft)) }
        ensures too_many_terms { IfErr result (λ refusal. refusal ≡ BuildRefusal.TooManyTerms
            → (pair_count (lists_of draft) ≤ most_pairs) × (most_terms < model_terms (lists_of draft))) }
    {
        let tables = tables_of(alloc, &draft.residents, &draft.hospitals)?;
        let terms = terms_of(&draft, &tables);
        if terms > MOST_TERMS {
            return Err(BuildRefusal::TooManyTerms);
        }
        let Draft {
            residents,
            hospitals,
        } = draft;
        Ok(Instance {
            residents,
            hospitals,
            tables,
            terms: terms as u32,
        })
    }

    /// How many residents there are.
    pub fn residents(&self) -> u32
        ensures count { result ≡ length self.now.residents }
        ensures few { result ≤ most_residents }
        ensures well_formed { IsWellFormed self.now }
    {
        self.residents.len() as u32
    }

    /// How many hospitals there are.
    pub fn hospitals(&self) -> u32
        ensures count { result ≡ length self.now.hospitals }
        ensures few { result ≤ most_hospitals }
        ensures well_formed { IsWellFormed self.now }
    {
        self.hospitals.len() as u32
    }

    /// How many acceptable pairs there are.
    pub fn pairs(&self) -> u32
        ensures count { result ≡ pair_count self.now }
        ensures few { result ≤ most_pairs }
    {
        self.tables.entries.len() as u32
    }

    /// How many namings aren't answered, on both sides together.
    pub fn one_sided(&self) -> u32
        ensures { result ≡ one_sided self.now }
    {
        self.tables.unanswered
    }

    /// How many terms the rows of the 0/1 model of the instance have together.
    pub fn model_terms(&self) -> u32
        ensures count { result ≡ model_terms self.now }
        ensures few { result ≤ most_terms }
    {
        self.terms
    }

    /// How many posts hospital h has. It may be none.
    pub fn capacity(&self, h: u32) -> u32
        requires { h < length self.now.hospitals }
        ensures value { result ≡ capacity_of self.now h }
        ensures few { result ≤ most_capacity }
    {
        self.hospitals[h as usize].capacity
    }

    /// The name of resident r.
    pub fn resident_name(&self, r: u32) -> &Name
        requires { r < length self.now.residents }
        ensures { slice_get (names_of_residents self.now) r ≡ Some result.now }
    {
        &self.residents[r as usize].name
    }

    /// The name of hospital h.
    pub fn hospital_name(&self, h: u32) -> &Name
        requires { h < length self.now.hospitals }
        ensures { slice_get (names_of_hospitals self.now) h ≡ Some result.now }
    {
        &self.hospitals[h as usize].name
    }

    /// The written list of resident r: numbers of hospitals, one-sided namings among them.
    pub fn resident_list(&self, r: u32) -> &Groups
        requires { r < length self.now.residents }
        ensures { result.now ≡ groups_of_resident self.now r }
    {
        &self.residents[r as usize].groups
    }

    /// The written list of hospital h: numbers of residents, one-sided namings among them.
    pub fn hospital_list(&self, h: u32) -> &Groups
        requires { h < length self.now.hospitals }
        ensures { result.now ≡ groups_of_hospital self.now h }
    {
        &self.hospitals[h as usize].groups
    }

    // What is kept of pair p.
    fn entry(&self, p: PairNo) -> PairEntry
        requires { IsPairNo self.now p.0 }
        ensures { result ≡ entry_of self.now p.0 }
    {
        self.tables.entries[p.0 as usize - 1]
    }

    /// The resident of pair p.
    pub fn resident_of(&self, p: PairNo) -> u32
        requires { IsPairNo self.now p.0 }
        ensures value { result ≡ (pair_at self.now p.0).resident }
        ensures declared { result < length self.now.residents }
    {
        self.entry(p).resident
    }

    /// The hospital of pair p.
    pub fn hospital_of(&self, p: PairNo) -> u32
        requires { IsPairNo self.now p.0 }
        ensures value { result ≡ (pair_at self.now p.0).hospital }
        ensures declared { result < length self.now.hospitals }
    {
        self.entry(p).hospital
    }

    /// The number of the pair of resident r and hospital h, or `None` where not each names the other. It takes time that
    /// grows with the list of the resident.
    pub fn pair_no(&self, r: u32, h: u32) -> Option<PairNo>
        requires resident { r < length self.now.residents }
        requires hospital { h < length self.now.hospitals }
        ensures number { option_map (λ p. p.0) result ≡ pair_no self.now r h }
        ensures acceptable { is_some result ≡ (resident_names self.now r h && hospital_names self.now h r) }
        ensures pair { IfSome result (λ p. IsPairNo self.now p.0 × ((pair_at self.now p.0).resident ≡ r) × ((pair_at self.now p.0).hospital ≡ h)) }
    {
        for p in self.pairs_of_resident(r) {
            if self.hospital_of(*p) == h {
                return Some(*p);
            }
        }
        None
    }

    /// The rank of the hospital of pair p in the list of its resident, from 1 on. Hospitals in a tie have one rank.
    pub fn rank_by_resident(&self, p: PairNo) -> u32
        requires { IsPairNo self.now p.0 }
        ensures value { result ≡ rank_by_resident self.now p.0 }
        ensures some { 1 ≤ result }
    {
        self.entry(p).resident_rank
    }

    /// The rank of the resident of pair p in the list of its hospital, from 1 on. Residents in a tie have one rank.
    pub fn rank_by_hospital(&self, p: PairNo) -> u32
        requires { IsPairNo self.now p.0 }
        ensures value { result ≡ rank_by_hospital self.now p.0 }
        ensures some { 1 ≤ result }
    {
        self.entry(p).hospital_rank
    }

    /// Whether the resident of both pairs ranks that of a strictly higher.
    pub fn resident_prefers(&self, a: PairNo, b: PairNo) -> bool
        requires a { IsPairNo self.now a.0 }
        requires b { IsPairNo self.now b.0 }
        requires one_resident { (pair_at self.now a.0).resident ≡ (pair_at self.now b.0).resident }
        ensures { result ≡ nat_lt (rank_by_resident self.now a.0) (rank_by_resident self.now b.0) }
    {
        self.rank_by_resident(a) < self.rank_by_resident(b)
    }

    /// Whether the hospital of both pairs ranks that of a strictly higher.
    pub fn hospital_prefers(&self, a: PairNo, b: PairNo) -> bool
        requires a { IsPairNo self.now a.0 }
        requires b { IsPairNo self.now b.0 }
        requires one_hospital { (pair_at self.now a.0).hospital ≡ (pair_at self.now b.0).hospital }
        ensures { result ≡ nat_lt (rank_by_hospital self.now a.0) (rank_by_hospital self.now b.0) }
    {
        self.rank_by_hospital(a) < self.rank_by_hospital(b)
    }

    /// The pairs of resident r in the order of its list, which is rising.
    pub fn pairs_of_resident(&self, r: u32) -> &[PairNo]
        requires { r < length self.now.residents }
        ensures numbers { numbers_of result.now ≡ pairs_of_resident self.now r }
        ensures each { All (λ p. IsOfResident self.now r p.0) result.now }
    {
        &self.tables.by_resident[r as usize]
    }

    /// The pairs of hospital h in the order of its list.
    pub fn pairs_of_hospital(&self, h: u32) -> &[PairNo]
        requires { h < length self.now.hospitals }
        ensures numbers { numbers_of result.now ≡ pairs_as_listed self.now h }
        ensures each { All (λ p. IsOfHospital self.now h p.0) result.now }
        ensures same { (p : ℕ) → is_in p (numbers_of result.now) ≡ is_in p (rising_pairs_of_hospital self.now h) }
        ensures count { length result.now ≡ length (rising_pairs_of_hospital self.now h) }
        ensures distinct { IsTrue (is_distinct (numbers_of result.now)) }
    {
        &self.tables.by_hospital[h as usize]
    }
}
