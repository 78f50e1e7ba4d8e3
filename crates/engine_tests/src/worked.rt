// The engine of a worked instance. Resident a names x, y and z, resident b names x and y, resident c names x, each hospital has one
// place; the pairs are 1 to 6 in this order.
ghost use Rattle.std.specs.Prelude.{◌≡◌};

use crate::Compared;
use crate::rows::{lit, negated, plain};
use conflict_cuts::Outcome;
use hrt_base::Value;
use row_arena::Place;
use std::alloc::Global;
use std::marker::Brand;
use std::process::Abort;
use std::sync::ledger::{Blank, Ledger};
use std::test::Fail;

/// The rows of residents and hospitals, and the one that asks for three pairs.
fn worked_engine<L: Ledger>(alloc: Global, blank: Blank) -> Result<Compared<L>, Fail>
    requires name { blank.name ≡ L.name }
    requires parts { blank.parts ≡ L.parts }
    requires one { blank.parts ≡ 1 }
{
    let terms = [
        plain(1, 1),
        plain(1, 2),
        plain(1, 3),
        plain(1, 4),
        plain(1, 5),
        plain(1, 6),
    ];
    let a = [plain(-1, 1), plain(-1, 2), plain(-1, 3)];
    let b = [plain(-1, 4), plain(-1, 5)];
    let c = [plain(-1, 6)];
    let x = [plain(-1, 1), plain(-1, 4), plain(-1, 6)];
    let y = [plain(-1, 2), plain(-1, 5)];
    let z = [plain(-1, 3)];
    let rows = [
        (terms.as_slice(), 3),
        (a.as_slice(), -1),
        (b.as_slice(), -1),
        (c.as_slice(), -1),
        (x.as_slice(), -1),
        (y.as_slice(), -1),
        (z.as_slice(), -1),
    ];
    Compared::<L>::of(alloc, blank, 6, &rows)
}

/// After x1 four literals follow, and the row that asks for three pairs is falsified.
fn improvement<L: Ledger>(rt: &impl Abort, alloc: Global, blank: Blank) -> Result<(), Fail>
    requires name { blank.name ≡ L.name }
    requires parts { blank.parts ≡ L.parts }
    requires one { blank.parts ≡ 1 }
{
    let mut engine = worked_engine::<L>(alloc, blank)?;
    let outcome = engine.decide(alloc, lit(1, false))?;
    // the rows' places are in the order in which they were added
    assert_eq!(rt; outcome, Outcome::Conflict(Place(0)));
    let literals = [
        lit(1, false),
        lit(2, true),
        lit(3, true),
        lit(4, true),
        lit(6, true),
    ];
    assert_eq!(rt; engine.engine().trail(), literals.as_slice());
    assert_eq!(rt; engine.engine().reason(1), None);
    Ok(())
}

/// What the conflict teaches is open without decisions, and leaves one candidate, which the row of a blocking pair excludes.
fn learned<L: Ledger>(rt: &impl Abort, alloc: Global, blank: Blank) -> Result<(), Fail>
    requires name { blank.name ≡ L.name }
    requires parts { blank.parts ≡ L.parts }
    requires one { blank.parts ≡ 1 }
{
    let mut engine = worked_engine::<L>(alloc, blank)?;
    engine.decide(alloc, lit(1, false))?;
    engine.add(alloc, &[negated(1, 1), plain(1, 5)], 2)?;
    assert_eq!(rt; engine.engine().level(), 0);
    assert_eq!(rt; engine.propagate(alloc)?, Outcome::Quiet);
    assert_eq!(rt; engine.engine().free_count(), 0);
    assert_eq!(rt; engine.engine().value(3), Value::True);
    assert_eq!(rt; engine.engine().value(6), Value::True);
    let blocking = engine.add(alloc, &[plain(2, 1), plain(1, 2), plain(1, 4)], 1)?;
    assert_eq!(rt; engine.propagate(alloc)?, Outcome::Conflict(blocking));
    Ok(())
}

#[test]
fn three_pairs_with_the_first(rt: HostRuntime) -> Result<(), Fail> {
    improvement::<Brand>(&rt, rt.alloc(), Blank::new(1))
}

#[test]
fn three_pairs_without_the_first(rt: HostRuntime) -> Result<(), Fail> {
    learned::<Brand>(&rt, rt.alloc(), Blank::new(1))
}
