// Which clause is the last.
ghost use Rattle.std.specs.Prelude.{◌≡◌, count_by, length};
ghost use Rattle.std.specs.List.{All};
ghost use Rattle.pb_rows.specs.Terms.{opposite_lit};
ghost use Rattle.pb_rows.specs.Points.{IsCovered};
ghost use Rattle.propagation.specs.Following.{IsOver};
ghost use Rattle.conflict_rows.specs.Marks.{is_one_at, set_of_level};

use crate::marks::{Mark, is_false_of_level};
use hrt_base::Term;
use pb_rows::Row;

/// How many literals became false at a level.
fn count_at(terms: &[Term], marks: &[Mark], level: u32) -> usize
    requires { All (λ t. IsCovered (length marks.now) t.lit.var) terms.now }
    ensures { result ≡ count_by (λ u. set_of_level marks.now level (opposite_lit u.lit)) terms.now }
{
    let mut count = 0;
    for u in terms {
        if is_false_of_level(marks, u.lit, level) {
            count += 1;
        }
    }
    count
}

/// Tells whether a level is above 0 and just one literal of a row became false at it, in time linear in the terms.
pub fn has_one_at(row: &Row, marks: &[Mark], level: u32) -> bool
    requires { IsOver (length marks.now) row.now }
    ensures { result ≡ is_one_at marks.now level row.now }
{
    level > 0 && count_at(row.terms(), marks, level) == 1
}
