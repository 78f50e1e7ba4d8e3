// Rows that were worked out by hand.
ghost use Rattle.std.specs.Prelude.{◌≡◌};

use crate::Row;
use hrt_base::{Lit, Term, Value};
use std::test::Fail;

fn term(coef: i128, var: u32, neg: bool) -> Term
    ensures { result.lit.var ≡ var }
{
    Term {
        coef,
        lit: Lit { var, neg },
    }
}

#[test]
fn from_terms_joins(rt: HostRuntime) -> Result<(), Fail> {
    let written = [
        term(3, 5, false),
        term(-2, 2, false),
        term(4, 2, true),
        term(7, 5, true),
        term(0, 1, false),
        term(-6, 9, true),
        term(2, 5, false),
    ];
    let row = Row::from_terms(rt.alloc(), &written, 6)?;
    assert_eq!(rt;
        row.terms(),
        [term(6, 2, true), term(2, 5, true), term(6, 9, false)].as_slice()
    );
    assert_eq!(rt; row.degree(), 9);
    Ok(())
}

#[test]
fn a_row_that_fits(rt: HostRuntime) -> Result<(), Fail> {
    let lit = Lit { var: 3, neg: false };
    let row = Row::from_terms_that_fit(rt.alloc(), &[Term { coef: -2, lit }], -1)?;
    assert_eq!(rt; row.terms(), [term(2, 3, true)].as_slice());
    assert_eq!(rt; row.degree(), 1);
    Ok(())
}

#[test]
fn the_worked_operations(rt: HostRuntime) -> Result<(), Fail> {
    let alloc = rt.alloc();
    let mut divided = Row::from_terms(
        alloc,
        &[term(3, 1, false), term(2, 2, false), term(1, 3, true)],
        4,
    )?;
    divided.divide(2);
    assert_eq!(rt;
        divided.terms(),
        [term(2, 1, false), term(1, 2, false), term(1, 3, true)].as_slice()
    );
    assert_eq!(rt; divided.degree(), 2);
    let mut saturated = Row::from_terms(alloc, &[term(5, 1, false), term(1, 2, false)], 3)?;
    saturated.saturate();
    assert_eq!(rt;
        saturated.terms(),
        [term(3, 1, false), term(1, 2, false)].as_slice()
    );
    let mut weakened = Row::from_terms(alloc, &[term(3, 1, false), term(2, 2, false)], 4)?;
    weakened.weaken(2);
    assert_eq!(rt; weakened.terms(), [term(3, 1, false)].as_slice());
    assert_eq!(rt; weakened.degree(), 2);
    let mut sum = Row::from_terms(alloc, &[term(2, 1, false), term(1, 2, false)], 2)?;
    sum.add(
        alloc,
        &Row::from_terms(alloc, &[term(3, 1, true), term(1, 3, false)], 2)?,
    )?;
    assert_eq!(rt;
        sum.terms(),
        [term(1, 1, true), term(1, 2, false), term(1, 3, false)].as_slice()
    );
    assert_eq!(rt; sum.degree(), 2);
    Ok(())
}

#[test]
fn holds_and_slack(rt: HostRuntime) -> Result<(), Fail> {
    let alloc = rt.alloc();
    let row = Row::from_terms(alloc, &[term(2, 1, false), term(1, 3, true)], 2)?;
    assert!(rt; row.holds(&[true, false, true]));
    assert_eq!(rt; row.slack(&[Value::False, Value::Free, Value::Free]), -1);
    Ok(())
}

#[test]
fn numbers_end_at_the_most(rt: HostRuntime) -> Result<(), Fail> {
    let alloc = rt.alloc();
    assert!(rt; Row::from_terms(alloc, &[term(i128::MIN, 1, false)], 0).is_err());
    assert!(rt; Row::from_terms(alloc, &[term(1 << 119, 1, false)], -(1 << 119) - 1).is_err());
    let mut half = Row::from_terms(alloc, &[term(1 << 119, 1, false)], 1 << 119)?;
    let mut whole = half.copy(alloc)?;
    whole.add(alloc, &half)?;
    assert_eq!(rt; whole.terms(), [term(1 << 120, 1, false)].as_slice());
    assert_eq!(rt; whole.degree(), 1 << 120);
    assert!(rt; whole.add(alloc, &half).is_err());
    assert!(rt; half.times(3).is_err());
    half.times(2)?;
    assert_eq!(rt; half.degree(), 1 << 120);
    Ok(())
}
