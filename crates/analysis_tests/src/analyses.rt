//! What is learned from conflicts.
ghost use Rattle.std.specs.Prelude.{◌≡◌, ◌<◌, IfOk, IsTrue, None, length};
ghost use Rattle.pb_rows.specs.Closure.{Falsified};
ghost use Rattle.rank_tables.specs.Instance.{pair_count};
ghost use Rattle.row_arena.specs.Held.{is_held, row_at};
ghost use Rattle.pb_propagate.specs.Entries.{level_of, set_of};
ghost use Rattle.analysis_tests.specs.Systems.{IsSystem};

use crate::instances::{claim_of, instance_in, text_of};
use crate::searches::{decide, is_free, refute};
use crate::systems::{hold_at, hold_pairs, log, start};
use conflict_cuts::{Learned, Outcome, analyze, propagate};
use derivation::Derivation;
use hrt_base::{Lit, NoMemory, RowNo, Steps, Term};
use pb_propagate::Engine;
use proof_lines::Claim;
use rank_tables::Instance;
use row_arena::Place;
use stability_model::Model;
use std::alloc::Global;
use std::marker::Brand;
use std::process::Abort;
use std::sync::ledger::{Blank, Ledger};
use std::test::Fail;

// A derivation, and an engine that holds all rows of the model.
fn all_rows<'a>(alloc: Global, model: &Model<'a>) -> Result<(Engine, Derivation<'a>), NoMemory>
    requires { 0 < pair_count model.now }
    ensures { IfOk result (λ both. IsSystem model.now both.0 both.1) }
{
    let (mut engine, mut deriv) = start(alloc, model)?;
    hold_pairs(alloc, model, &mut engine, &mut deriv)?;
    Ok((engine, deriv))
}

// Ends a derivation with no claim. Answers its lines.
fn ended(alloc: Global, model: &Model, deriv: &mut Derivation) -> Result<Vec<u8>, NoMemory>
    requires same { model.now ≡ deriv.old.lists }
    requires open { deriv.old.claim ≡ None }
{
    deriv.conclude(alloc, model, Claim::Nothing)?;
    let mut lines = Vec::new(alloc);
    lines.extend_from_slice(deriv.pending())?;
    Ok(lines)
}

// Searches for larger and larger weakly stable matchings until there is none. Answers the written lines, and how many clauses were
// learned.
fn refuted<L: Ledger>(
    rt: &impl Abort,
    alloc: Global,
    inst: &Instance,
    blank: Blank,
    number: u32,
) -> Result<(Vec<u8>, u32), Fail>
    requires name { blank.name ≡ L.name }
    requires parts { blank.parts ≡ L.parts }
    requires one { blank.parts ≡ 1 }
{
    if inst.pairs() == 0 {
        return Ok((Vec::new(alloc), 0));
    }
    let mut steps = Steps::<L>::open(blank);
    let model = Model::of(alloc, inst)?;
    let (mut engine, mut deriv) = all_rows(alloc, &model)?;
    let learned = refute(
        rt,
        alloc,
        &model,
        &mut engine,
        &mut deriv,
        &mut steps,
        number,
    )?;
    let lines = ended(alloc, &model, &mut deriv)?;
    Ok((lines, learned))
}

// Pairs are 1 a x, 2 a y, 3 a z, 4 b x, 5 b y, 6 c x.
const THREE: &[u8] =
    b"hrt 1\nresident a: (x y) z\nresident b: (x y)\nresident c: x\nhospital x 1: (a b) c\nhospital y 1: (a b)\nhospital z 1: a\nend\n";

// The clause of row 13 is resolved with the reasons of ~x6, ~x4, ~x3 and ~x2, newest first: the engine looks at rows in the order of their
// places, and at a row's literals by rising variable.
const LINES: &[u8] =
    b"pol 13 x1 w x5 w s 1 d\npol 14 4 x4 w s 1 d + s\npol 15 4 x6 w s 1 d + s\npol 16 1 x2 w s 1 d + s\npol 17 1 x3 w s 1 d + s\ndel id 14 15 16 17\n";

// The rows of residents and hospitals, and the row that asks for more than the pairs 1 and 5.
fn wanting_three<'a>(alloc: Global, model: &Model<'a>) -> Result<(Engine, Derivation<'a>), Fail>
    requires { pair_count model.now ≡ 6 }
    ensures system { IfOk result (λ both. IsSystem model.now both.0 both.1) }
    ensures start { IfOk result (λ both. level_of both.0.trail ≡ 0) }
{
    let (mut engine, mut deriv) = start(alloc, model)?;
    let point = [true, false, false, false, true, false];
    if !hold_at(alloc, model, &point)? {
        return Err(Fail::from("the matching is weakly stable"));
    }
    log(alloc, model, &mut engine, &mut deriv, &point)?;
    Ok((engine, deriv))
}

// After x1 is decided three pairs can't be taken any more.
fn conflict_after_one<L: Ledger>(engine: &mut Engine, steps: &mut Steps<L>) -> Result<Place, Fail>
    requires start { level_of engine.old.trail ≡ 0 }
    requires six { engine.old.vars ≡ 6 }
    ensures held { engine.new.held ≡ engine.old.held }
    ensures vars { engine.new.vars ≡ engine.old.vars }
    ensures conflict { IfOk result (λ place. IsTrue (is_held place.0 engine.new.held)) }
    ensures falsified { IfOk result (λ place. Falsified (set_of engine.new.trail) (row_at place.0 engine.new.held)) }
{
    let x1 = Lit { var: 1, neg: false };
    if let Outcome::Conflict(_) = propagate(engine, steps) {
        return Err(Fail::from("nothing is decided"));
    }
    if !is_free(engine, x1) {
        return Err(Fail::from("nothing follows"));
    }
    decide(engine, x1);
    match propagate(engine, steps) {
        Outcome::Conflict(place) => Ok(place),
        Outcome::Quiet => Err(Fail::from("there is a conflict")),
    }
}

// What is learned, and by which lines.
fn worked<L: Ledger>(rt: &impl Abort, alloc: Global, blank: Blank) -> Result<(), Fail>
    requires name { blank.name ≡ L.name }
    requires parts { blank.parts ≡ L.parts }
    requires one { blank.parts ≡ 1 }
{
    let inst = instance_in(alloc, THREE)?;
    if inst.pairs() != 6 {
        return Err(Fail::from("there are six pairs"));
    }
    let mut steps = Steps::<L>::open(blank);
    let model = Model::of(alloc, &inst)?;
    let (mut engine, mut deriv) = wanting_three(alloc, &model)?;
    let conflict = conflict_after_one(&mut engine, &mut steps)?;
    assert_eq!(rt; engine.arena().tag(conflict), RowNo(13));
    assert_eq!(rt;
        engine.trail(),
        [Lit { var: 1, neg: false }, no(2), no(3), no(4), no(6)].as_slice()
    );
    let learned = analyze(alloc, &model, &engine, conflict, &mut deriv)?;
    check_learned(rt, &learned);
    assert!(rt; deriv.pending().ends_with(LINES));
    Ok(())
}

// It is the clause of ~x1 alone, which holds at level 0.
fn check_learned(rt: &impl Abort, learned: &Learned) {
    match learned {
        Learned::Root(_) => assert!(rt; false),
        Learned::Clause {
            id,
            row,
            level,
            asserts,
        } => {
            assert_eq!(rt; *id, RowNo(18));
            assert_eq!(rt;
                row.terms(),
                [Term {
                    coef: 1,
                    lit: no(1)
                }]
                .as_slice()
            );
            assert_eq!(rt; row.degree(), 1);
            assert_eq!(rt; *level, 0);
            assert_eq!(rt; *asserts, no(1));
        }
    }
}

fn no(var: u32) -> Lit {
    Lit { var, neg: true }
}

#[test]
fn the_worked_case(rt: HostRuntime) -> Result<(), Fail> {
    worked::<Brand>(&rt, rt.alloc(), Blank::new(1))
}

#[test]
fn small_instances_are_refuted(rt: HostRuntime) -> Result<(), Fail> {
    let alloc = rt.alloc();
    let mut learned = 0u32;
    for number in 0..300 {
        let text = text_of(alloc, number)?;
        let inst = instance_in(alloc, &text)?;
        if inst.pairs() == 0 {
            continue;
        }
        let (lines, clauses) = refuted::<Brand>(&rt, alloc, &inst, Blank::new(1), number)?;
        learned = learned.saturating_add(clauses);
        assert_eq!(rt;
            claim_of(alloc, &inst, &lines)?,
            Claim::Nothing,
            "of instance {number}"
        );
    }
    assert!(rt; learned >= 1000, "{learned} clauses");
    Ok(())
}
