// What guides pick and when they want a restart. The instance is drawn: the pairs of resident 1 are 1 to 3, of resident 2 4 to 6,
// and so on, and those of equal rank are 2 and 3, 11 and 12, and 13 to 15.
ghost use Rattle.std.specs.Prelude.{◌≡◌};

use hrt_base::{Lit, NoMemory, Steps, Term};
use instance_gen::{Recipe, generate};
use pb_propagate::{Due, Engine};
use pb_rows::Row;
use rank_tables::Instance;
use search_guides::{ByActivity, ByRank, Guide, InOrder, decision};
use std::alloc::Global;
use std::marker::Brand;
use std::process::Abort;
use std::sync::ledger::{Blank, Ledger};
use std::test::Fail;

const RECIPE: Recipe = Recipe {
    residents: 5,
    hospitals: 5,
    choices: 3,
    seats: 20,
    resident_ties: 30,
    hospital_ties: 30,
    number: 123_456_789_012_345,
};

fn instance(alloc: Global) -> Result<Instance, Fail> {
    let draft = generate(alloc, &RECIPE)?;
    Ok(Instance::build(alloc, draft)?)
}

// A row that asks for one of these variables.
fn clause(alloc: Global, vars: &[u32]) -> Result<Row, Fail> {
    let mut terms = Vec::new(alloc);
    for var in vars {
        terms.push(Term {
            coef: 1,
            lit: Lit {
                var: *var,
                neg: false,
            },
        })?;
    }
    Ok(Row::from_terms(alloc, &terms, 1)?)
}

// Tells a guide a row so many times.
fn tell(guide: &mut Box<dyn Guide>, row: &Row, times: u32) {
    for _i in 0..times {
        if guide.told_count() < 1_000_000 {
            guide.told(row);
        }
    }
}

// The variables that are decided, one after another, as a guide picks.
fn decided<L: Ledger>(
    alloc: Global,
    vars: u32,
    guide: &mut Box<dyn Guide>,
    blank: Blank,
) -> Result<Vec<u32>, NoMemory>
    requires name { blank.name ≡ L.name }
    requires parts { blank.parts ≡ L.parts }
    requires one { blank.parts ≡ 1 }
{
    let mut steps = Steps::<L>::open(blank);
    let mut engine = Engine::new(alloc, vars)?;
    let mut picks = Vec::new(alloc);
    for _i in 0..vars {
        if let Some(Due::Literal(lit)) = engine.due() {
            let _ = engine.visit_literal(lit, &mut steps);
        }
        let pick = guide.pick(&engine);
        if let Some(var) = decide(&mut engine, pick) {
            picks.push(var)?;
        }
    }
    Ok(picks)
}

// Decides a pick, where nothing is due, and tells its variable.
fn decide(engine: &mut Engine, pick: Option<Lit>) -> Option<u32> {
    if engine.due().is_some() {
        return None;
    }
    let lit = decision(engine, pick)?;
    engine.decide(lit);
    Some(lit.var)
}

// What is decided of as many variables as there are pairs, and of one more.
fn decides(
    rt: &impl Abort,
    alloc: Global,
    guide: &mut Box<dyn Guide>,
    known: &[u32],
) -> Result<(), Fail> {
    let picks = decided::<Brand>(alloc, 16, guide, Blank::new(1))?;
    assert_eq!(rt; picks.as_slice(), known);
    Ok(())
}

#[test]
fn picks_by_number(rt: HostRuntime) -> Result<(), Fail> {
    let alloc = rt.alloc();
    let mut guide: Box<dyn Guide> = Box::new(alloc, InOrder::new())?;
    guide.prepare(alloc, &instance(alloc)?)?;
    let known = [1, 2, 3, 4, 5, 6, 7, 8, 9, 10, 11, 12, 13, 14, 15, 16];
    decides(&rt, alloc, &mut guide, &known)
}

#[test]
fn picks_by_rank(rt: HostRuntime) -> Result<(), Fail> {
    let alloc = rt.alloc();
    let mut guide: Box<dyn Guide> = Box::new(alloc, ByRank::new(alloc))?;
    guide.prepare(alloc, &instance(alloc)?)?;
    let known = [1, 4, 7, 10, 13, 14, 15, 2, 3, 5, 8, 11, 12, 6, 9, 16];
    decides(&rt, alloc, &mut guide, &known)
}

#[test]
fn picks_what_was_told_most(rt: HostRuntime) -> Result<(), Fail> {
    let alloc = rt.alloc();
    let mut guide: Box<dyn Guide> = Box::new(alloc, ByActivity::new(alloc))?;
    guide.prepare(alloc, &instance(alloc)?)?;
    guide.told(&clause(alloc, &[9, 5, 3])?);
    guide.told(&clause(alloc, &[9, 12, 3])?);
    guide.told(&clause(alloc, &[16, 12, 9])?);
    let known = [9, 3, 12, 5, 1, 2, 4, 6, 7, 8, 10, 11, 13, 14, 15, 16];
    decides(&rt, alloc, &mut guide, &known)
}

#[test]
fn wants_restarts_by_the_sequence(rt: HostRuntime) -> Result<(), Fail> {
    let alloc = rt.alloc();
    let mut guide: Box<dyn Guide> = Box::new(alloc, ByActivity::new(alloc))?;
    guide.prepare(alloc, &instance(alloc)?)?;
    let row = clause(alloc, &[1])?;
    // how many rows are told before each question, and the answer
    let told = [
        (99, false),
        (1, true),
        (0, false),
        (100, true),
        (199, false),
        (1, true),
        (150, true),
        (100, true),
        (199, false),
    ];
    for (times, wants) in told {
        tell(&mut guide, &row, times);
        assert_eq!(rt; guide.wants_restart(), wants);
    }
    assert_eq!(rt; guide.told_count(), 849);
    guide.prepare(alloc, &instance(alloc)?)?;
    assert_eq!(rt; guide.told_count(), 0);
    Ok(())
}
