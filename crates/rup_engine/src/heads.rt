// What is kept beside a row, so that a look at it needn't go through its terms.
ghost use Rattle.std.specs.Prelude.{◌≡◌, ◌≤◌, ◌<◌, ◌^◌, ◌⊎◌, Contains, IfOk, OnOk};
ghost use Rattle.std.specs.List.{All};
ghost use Rattle.pb_rows.specs.Terms.{IsPositive, positive_part};
ghost use Rattle.rup_engine.specs.Slots.{IsShort, Picks};

use crate::one_row::weight_of;
use crate::store::Slot;
use crate::visit::degree_of;
use hrt_base::{NoMemory, RowNo, Term};
use pb_rows::Row;
use std::alloc::Global;

/// The greatest coefficient, or 0.
fn greatest(terms: &[Term]) -> u128
    requires positive { All (λ t. IsPositive t.coef) terms.now }
    ensures most { All (λ t. positive_part t.coef ≤ result) terms.now }
    ensures bound { result < 2 ^ 127 }
{
    let mut most = 0;
    for t in terms {
        most = weight_of(*t).max(most);
    }
    most
}

/// The least coefficient, or 0 where there is no term.
fn least(terms: &[Term]) -> u128
    requires positive { All (λ t. IsPositive t.coef) terms.now }
    ensures bound { result < 2 ^ 127 }
{
    let mut least = greatest(terms);
    for t in terms {
        least = weight_of(*t).min(least);
    }
    least
}

/// Appends a term whose coefficient exceeds a number.
fn push_above(t: Term, least: u128, more: &mut Vec<Term>) -> Result<(), NoMemory>
    requires { IsPositive t.coef }
    ensures { OnOk result (Picks least t more.old.items more.new.items) }
{
    if least < weight_of(t) {
        more.push(t)?;
        return Ok(());
    }
    Ok(())
}

/// The terms whose coefficients exceed a number.
fn above(alloc: Global, terms: &[Term], least: u128) -> Result<Vec<Term>, NoMemory>
    requires { All (λ t. IsPositive t.coef) terms.now }
    ensures within { IfOk result (λ more. All (Contains terms.now) more.items) }
    ensures rest { IfOk result (λ more. All (λ t. Contains more.items t ⊎ (positive_part t.coef ≤ least)) terms.now) }
{
    let mut more = Vec::new(alloc);
    for t in terms {
        push_above(*t, least, &mut more)?;
    }
    Ok(more)
}

/// A row with its number, its heads and its bounds. The heads are the terms with more than the least coefficient.
pub fn slot_of(alloc: Global, number: RowNo, row: Row) -> Result<Slot, NoMemory>
    ensures number { IfOk result (λ s. s.number ≡ number) }
    ensures row { IfOk result (λ s. s.row ≡ row) }
    ensures short { IfOk result (λ s. IsShort s.heads.items s.rest s.bound s.row) }
{
    let terms = row.terms();
    let least = least(terms);
    let heads = above(alloc, terms, least)?;
    let degree = degree_of(&row);
    let bound = degree + greatest(terms);
    Ok(Slot {
        number,
        row,
        heads,
        rest: degree + least,
        bound,
    })
}
