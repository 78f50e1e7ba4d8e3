// The model of an instance.
ghost use Rattle.std.specs.Prelude.{◌≡◌, ◌-◌, ◌<◌, ◌≤◌, length, sum_by, slice_get, Some, IfOk, IfSome};
ghost use Rattle.rank_tables.specs.Instance.{pair_count};
ghost use Rattle.rank_tables.specs.WellFormed.{most_pairs};
ghost use Rattle.rank_tables.specs.Tables.{IsPairNo};
ghost use Rattle.rank_tables.specs.Terms.{model_terms};
ghost use Rattle.stability_model.specs.Model.{AreShortRows, IsExact, IsRow, TellsBlocking, hospital_row, hospital_row_no, objective, pair_row, pair_row_no, resident_row, resident_row_no, rows, term, term_count, written_rows};

use crate::buckets::pairs_by_hospital;
use crate::making::{push_hospital_rows, push_pair_rows, push_resident_rows};
use crate::terms::objective_terms;
use hrt_base::{NoMemory, PairNo, Term};
use pb_rows::Row;
use rank_tables::Instance;
use std::alloc::Global;

/// The 0/1 model of an instance, after Kwanashie and Manlove (2014), seen as the lists of its instance. Variable p says
/// that pair p is taken. Rows are numbered from 1: by residents, then by hospitals, then by pairs.
#[derive(Drop)]
pub struct Model<'a> {
    inst: &'a Instance,
    rows: Vec<Row>,
    resident_rows: Vec<Option<u32>>,
    hospital_rows: Vec<Option<u32>>,
    before_pairs: u32,
}

impl<'a> std::marker::Model for Model<'a> {
    ghost use Rattle.rank_tables.specs.Instance.{Lists};
    ghost use Rattle.stability_model.specs.Making.{IsModelOf};

    ghost Value = { Lists };

    ghost view = { λ m. m.inst.now };

    ghost invariant = { λ m. IsModelOf m.inst.now m.rows.items m.resident_rows.items m.hospital_rows.items m.before_pairs };
}

impl<'a> Model<'a> {
    /// Makes the model. A point satisfies all rows exactly where its pairs are a weakly stable matching (`exact`). The count of
    /// terms that an instance tells is that of the rows (`terms`).
    #[tactic(auto, using(crate::proofs::ModelExact::is_exact, crate::proofs::TermCount::terms_counted))]
    pub fn of(alloc: Global, inst: &'a Instance) -> Result<Model<'a>, NoMemory>
        ensures is { IfOk result (λ m. m ≡ inst.now) }
        ensures exact { IsExact inst.now }
        ensures terms { model_terms inst.now ≡ sum_by term_count (written_rows inst.now) }
    {
        let buckets = pairs_by_hospital(alloc, inst)?;
        let mut rows = Vec::new(alloc);
        let resident_rows = push_resident_rows(alloc, &mut rows, inst)?;
        let hospital_rows = push_hospital_rows(alloc, &mut rows, inst, &buckets)?;
        let before_pairs = rows.len() as u32;
        push_pair_rows(alloc, &mut rows, inst, &buckets)?;
        Ok(Model {
            inst,
            rows,
            resident_rows,
            hospital_rows,
            before_pairs,
        })
    }

    /// The instance that the model was made of.
    pub fn instance(&self) -> &'a Instance
        ensures { result.now ≡ self.now }
    {
        self.inst
    }

    /// The coefficient of a pair's variable in the objective, whose sum is to be as small as it can be.
    pub fn objective(&self, p: PairNo) -> i128
        requires { IsPairNo self.now p.0 }
        ensures { slice_get (objective self.now) (p.0 - 1) ≡ Some (term result p.0) }
    {
        -1
    }

    /// The terms of the objective, one for each pair, in order.
    pub fn objective_terms(&self, alloc: Global) -> Result<Vec<Term>, NoMemory>
        ensures is { IfOk result (λ terms. terms.items ≡ objective self.now) }
        ensures few { pair_count self.now ≤ most_pairs }
    {
        Ok(objective_terms(alloc, self.inst.pairs())?)
    }

    /// How many rows there are, at most 140,000. Each is over the variables of the pairs, and its coefficients sum to at most
    /// 2^60, as is its degree (`short`).
    pub fn row_count(&self) -> u32
        ensures count { result ≡ length (rows self.now) }
        ensures few { result ≤ 140000 }
        ensures short { AreShortRows (pair_count self.now) (rows self.now) }
    {
        self.rows.len() as u32
    }

    /// A copy of row number k.
    pub fn row(&self, alloc: Global, k: u32) -> Result<Row, NoMemory>
        requires first { 1 ≤ k }
        requires last { k ≤ length (rows self.now) }
        ensures { IfOk result (λ row. slice_get (rows self.now) (k - 1) ≡ Some row) }
    {
        self.rows[k as usize - 1].copy(alloc)
    }

    /// The number of the row that resident r is in at most one pair, or `None` where it has no acceptable pair.
    pub fn resident_row(&self, r: u32) -> Option<u32>
        requires { r < length self.now.residents }
        ensures number { result ≡ resident_row_no self.now r }
        ensures row { IfSome result (λ k. IsRow self.now k (resident_row self.now r)) }
    {
        self.resident_rows[r as usize]
    }

    /// The number of the row that hospital h is in at most as many pairs as it has posts, or `None` where it has no
    /// acceptable pair.
    pub fn hospital_row(&self, h: u32) -> Option<u32>
        requires { h < length self.now.hospitals }
        ensures number { result ≡ hospital_row_no self.now h }
        ensures row { IfSome result (λ k. IsRow self.now k (hospital_row self.now h)) }
    {
        self.hospital_rows[h as usize]
    }

    /// The number of the row of pair p, which holds at a matching exactly where p doesn't block it (`blocking`).
    pub fn pair_row(&self, p: PairNo) -> u32
        requires { IsPairNo self.now p.0 }
        ensures number { result ≡ pair_row_no self.now p.0 }
        ensures row { IsRow self.now result (pair_row self.now p.0) }
        ensures blocking { TellsBlocking self.now p.0 }
    {
        self.before_pairs + p.0
    }
}
