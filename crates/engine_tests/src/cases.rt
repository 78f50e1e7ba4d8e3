// Small systems of rows in which an engine is easily wrong.
ghost use Rattle.std.specs.Prelude.{◌≡◌};

use crate::Compared;
use crate::rows::{lit, negated, plain};
use conflict_cuts::Outcome;
use pb_propagate::Visit;
use pb_rows::Row;
use std::alloc::Global;
use std::marker::Brand;
use std::process::Abort;
use std::sync::ledger::{Blank, Ledger};
use std::test::Fail;

/// A row that is falsified without decisions is open there, though its newest false literal was decided.
fn falsified_at_once<L: Ledger>(rt: &impl Abort, alloc: Global, blank: Blank) -> Result<(), Fail>
    requires name { blank.name ≡ L.name }
    requires parts { blank.parts ≡ L.parts }
    requires one { blank.parts ≡ 1 }
{
    let first = [plain(5, 2), plain(4, 3), plain(5, 4)];
    let second = [negated(3, 1), plain(2, 3)];
    let third = [plain(1, 1), negated(2, 2), plain(1, 3), negated(3, 4)];
    let fourth = [plain(1, 1), negated(3, 2), negated(3, 3), negated(3, 4)];
    let rows = [
        (first.as_slice(), 6),
        (second.as_slice(), 3),
        (third.as_slice(), 3),
        (fourth.as_slice(), 5),
    ];
    let mut engine = Compared::<L>::of(alloc, blank, 4, &rows)?;
    assert!(rt; matches!(engine.decide(alloc, lit(3, false))?, Outcome::Conflict(_)));
    let learned = engine.add(alloc, &[plain(5, 1), negated(1, 3)], 2)?;
    assert_eq!(rt; engine.engine().level(), 0);
    assert_eq!(rt; engine.propagate(alloc)?, Outcome::Conflict(learned));
    Ok(())
}

/// A learned row may be falsified at the level to which it leads back: then nothing comes onto the trail.
fn falsified_where_it_leads<L: Ledger>(
    rt: &impl Abort,
    alloc: Global,
    blank: Blank,
) -> Result<(), Fail>
    requires name { blank.name ≡ L.name }
    requires parts { blank.parts ≡ L.parts }
    requires one { blank.parts ≡ 1 }
{
    let first = [plain(1, 1), negated(1, 2)];
    let second = [negated(1, 4), plain(1, 5), plain(1, 6)];
    let third = [
        plain(1, 1),
        plain(1, 2),
        plain(1, 3),
        plain(2, 4),
        negated(2, 5),
        negated(2, 6),
    ];
    let rows = [
        (first.as_slice(), 1),
        (second.as_slice(), 2),
        (third.as_slice(), 5),
    ];
    let mut engine = Compared::<L>::of(alloc, blank, 6, &rows)?;
    engine.decide(alloc, lit(1, true))?;
    assert!(rt; matches!(engine.decide(alloc, lit(3, true))?, Outcome::Conflict(_)));
    let learned = engine.add(alloc, &[plain(1, 1), plain(1, 2), plain(1, 3)], 2)?;
    assert_eq!(rt; engine.engine().level(), 1);
    assert_eq!(rt; engine.propagate(alloc)?, Outcome::Conflict(learned));
    assert_eq!(rt;
        engine.engine().trail(),
        [lit(1, true), lit(2, true)].as_slice()
    );
    Ok(())
}

/// A literal that became false counts as false before it is visited.
fn exact_at_a_visit<L: Ledger>(rt: &impl Abort, alloc: Global, blank: Blank) -> Result<(), Fail>
    requires name { blank.name ≡ L.name }
    requires parts { blank.parts ≡ L.parts }
    requires one { blank.parts ≡ 1 }
{
    let mut engine = Compared::<L>::new(alloc, blank, 2)?;
    engine.add(alloc, &[negated(2, 1), negated(1, 2)], 3)?;
    let other = engine.add(alloc, &[plain(2, 1), plain(2, 2)], 1)?;
    // what is due last is visited first: the second row, the first one, and then a literal
    assert_eq!(rt; engine.visit(), Some(Visit::Done));
    assert_eq!(rt; engine.engine().free_count(), 2);
    assert_eq!(rt; engine.visit(), Some(Visit::Done));
    assert_eq!(rt; engine.engine().free_count(), 0);
    assert_eq!(rt; engine.visit(), Some(Visit::Falsified(other)));
    Ok(())
}

/// A conflict after a decision may show that there is no solution: the sum of both rows has no terms left.
fn nothing_left<L: Ledger>(rt: &impl Abort, alloc: Global, blank: Blank) -> Result<(), Fail>
    requires name { blank.name ≡ L.name }
    requires parts { blank.parts ≡ L.parts }
    requires one { blank.parts ≡ 1 }
{
    let first = [negated(1, 1), plain(1, 2), plain(1, 3)];
    let second = [plain(1, 1), negated(1, 2), negated(1, 3)];
    let rows = [(first.as_slice(), 2), (second.as_slice(), 2)];
    let mut engine = Compared::<L>::of(alloc, blank, 3, &rows)?;
    assert!(rt; matches!(engine.decide(alloc, lit(1, true))?, Outcome::Conflict(_)));
    assert_eq!(rt; engine.engine().level(), 1);
    let mut sum = Row::from_terms(alloc, &first, 2)?;
    sum.add(alloc, &Row::from_terms(alloc, &second, 2)?)?;
    let place = engine.add_row(alloc, &sum)?;
    assert_eq!(rt; engine.engine().level(), 0);
    assert_eq!(rt; engine.propagate(alloc)?, Outcome::Conflict(place));
    Ok(())
}

#[test]
fn a_falsified_row_is_open(rt: HostRuntime) -> Result<(), Fail> {
    falsified_at_once::<Brand>(&rt, rt.alloc(), Blank::new(1))
}

#[test]
fn a_learned_row_may_be_falsified(rt: HostRuntime) -> Result<(), Fail> {
    falsified_where_it_leads::<Brand>(&rt, rt.alloc(), Blank::new(1))
}

#[test]
fn a_visit_counts_what_is_due(rt: HostRuntime) -> Result<(), Fail> {
    exact_at_a_visit::<Brand>(&rt, rt.alloc(), Blank::new(1))
}

#[test]
fn a_conflict_after_a_decision_may_end_all(rt: HostRuntime) -> Result<(), Fail> {
    nothing_left::<Brand>(&rt, rt.alloc(), Blank::new(1))
}
