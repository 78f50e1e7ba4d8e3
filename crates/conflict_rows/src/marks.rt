// What is kept of a trail, by variable.
ghost use Rattle.std.specs.Prelude.{◌≡◌, ◌<◌, ◌≤◌, not, length};
ghost use Rattle.pb_rows.specs.Terms.{opposite_lit};
ghost use Rattle.pb_rows.specs.Points.{IsCovered};
ghost use Rattle.conflict_rows.specs.Marks.{marks_true, mark_of, set_before, set_now, set_of_level, set_up_to};

use hrt_base::Lit;

/// What a table by variable keeps of a trail: the place of the variable's literal, counted from 1 and oldest first, whether
/// that literal is the negated one, and its level. The place is 0 where the variable is free. A table has variable v at place
/// v - 1.
#[derive(Clone, Copy, Debug, PartialEq, Eq)]
pub struct Mark {
    pub place: u32,
    pub neg: bool,
    pub level: u32,
}

/// The mark of a variable.
fn mark_of(marks: &[Mark], var: u32) -> Mark
    requires { IsCovered (length marks.now) var }
    ensures { result ≡ mark_of marks.now var }
{
    marks[(var - 1) as usize]
}

/// Tells whether the mark is that of a true literal with this sign.
fn marks_true(mark: Mark, neg: bool) -> bool
    ensures { result ≡ marks_true mark neg }
{
    mark.place > 0 && mark.neg == neg
}

/// The level in the mark of a variable.
pub fn level_of(marks: &[Mark], var: u32) -> u32
    requires { IsCovered (length marks.now) var }
    ensures { result ≡ (mark_of marks.now var).level }
{
    mark_of(marks, var).level
}

/// Tells whether a literal is false.
pub fn is_false(marks: &[Mark], lit: Lit) -> bool
    requires { IsCovered (length marks.now) lit.var }
    ensures { result ≡ set_now marks.now (opposite_lit lit) }
{
    marks_true(mark_of(marks, lit.var), !lit.neg)
}

/// Tells whether a literal is false under the first k literals of the trail.
pub fn is_false_before(marks: &[Mark], lit: Lit, k: u32) -> bool
    requires { IsCovered (length marks.now) lit.var }
    ensures { result ≡ set_before marks.now k (opposite_lit lit) }
{
    let mark = mark_of(marks, lit.var);
    marks_true(mark, !lit.neg) && mark.place <= k
}

/// Tells whether a literal is false up to a level.
pub fn is_false_at(marks: &[Mark], lit: Lit, level: u32) -> bool
    requires { IsCovered (length marks.now) lit.var }
    ensures { result ≡ set_up_to marks.now level (opposite_lit lit) }
{
    let mark = mark_of(marks, lit.var);
    marks_true(mark, !lit.neg) && mark.level <= level
}

/// Tells whether a literal is true up to a level.
pub fn is_true_at(marks: &[Mark], lit: Lit, level: u32) -> bool
    requires { IsCovered (length marks.now) lit.var }
    ensures { result ≡ set_up_to marks.now level lit }
{
    let mark = mark_of(marks, lit.var);
    marks_true(mark, lit.neg) && mark.level <= level
}

/// Tells whether a literal became false at a level.
pub fn is_false_of_level(marks: &[Mark], lit: Lit, level: u32) -> bool
    requires { IsCovered (length marks.now) lit.var }
    ensures { result ≡ set_of_level marks.now level (opposite_lit lit) }
{
    let mark = mark_of(marks, lit.var);
    marks_true(mark, !lit.neg) && mark.level == level
}
