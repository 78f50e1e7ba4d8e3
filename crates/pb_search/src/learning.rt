// What is done with a row that a conflict teaches.
ghost use Rattle.std.specs.Prelude.{◌≡◌, ◌<◌, ◌^◌, IfOk, IsFalse, OnOk, Some};
ghost use Rattle.pb_rows.specs.Rows.{IsWellFormedRow};
ghost use Rattle.pb_rows.specs.Formula.{row_of};
ghost use Rattle.proof_rules.specs.Held.{is_held};
ghost use Rattle.derivation.specs.Ready.{IsReady};
ghost use Rattle.pb_propagate.specs.Engines.{decisions_at};
ghost use Rattle.agreement.specs.Agreement.{Agree};
ghost use Rattle.conflict_cuts.specs.Learned.{Asserts};
ghost use Rattle.search_measure.specs.Trails.{IsExactBelow};
ghost use Rattle.pb_search.specs.Moves.{LearnsRow};

use derivation::Derivation;
use hrt_base::{Lit, NoMemory, RowNo};
use pb_propagate::Engine;
use pb_rows::Row;
use proof_lines::{Lits, Note};
use stability_model::Model;
use std::alloc::Global;

/// The greatest number that a row has in a note.
const MOST: u64 = 999_999_999_999_999_999;

/// A row that a conflict teaches, with the level to go back to and the literal that it makes true there.
#[derive(Drop)]
pub(crate) struct NewRow {
    pub id: RowNo,
    pub row: Row,
    pub level: u32,
    pub asserts: Lit,
}

/// The first decisions of an engine, as many as there are up to a level.
fn first_decisions(alloc: Global, engine: &Engine, level: u32) -> Result<Lits, NoMemory>
    ensures { IfOk result (λ decisions. decisions ≡ decisions_at level engine.now) }
{
    let mut decisions = Lits::new(alloc);
    let mut left = level;
    let trail = engine.trail();
    for k in 0..trail.len() {
        let lit = trail[k];
        if engine.reason(lit.var).is_some() {
            continue;
        }
        if left == 0 {
            return Ok(decisions);
        }
        decisions.push(lit)?;
        left -= 1;
    }
    Ok(decisions)
}

/// The note that a row was learned: the decisions up to its level make the literal true.
fn learn_note(alloc: Global, engine: &Engine, new: &NewRow) -> Result<Note, NoMemory>
    ensures is { IfOk result (λ note. note ≡ Note.Learn new.now.id (decisions_at new.now.level engine.now) new.now.asserts) }
    ensures small { IfOk result (λ note. new.now.id.0 < 10 ^ 18) }
{
    if new.id.0 > MOST {
        return Err(NoMemory);
    }
    Ok(Note::Learn {
        row: new.id,
        decisions: first_decisions(alloc, engine, new.level)?,
        asserts: new.asserts,
    })
}

/// Notes a row as learned, gives it to the engine, and goes back to its level. Want of memory comes also where its number has 19 digits.
pub(crate) fn learn(
    alloc: Global,
    model: &Model,
    engine: &mut Engine,
    deriv: &mut Derivation,
    new: &NewRow,
) -> Result<(), NoMemory>
    requires same { model.now ≡ deriv.old.lists }
    requires ready { IsReady deriv.old }
    requires count { deriv.old.held.learn_notes < 10 ^ 18 }
    requires agree { Agree engine.old deriv.old }
    requires exact { IsExactBelow engine.old }
    requires live { row_of new.now.id.0 deriv.old.state.live ≡ Some new.now.row }
    requires formed { IsWellFormedRow new.now.row }
    requires free { IsFalse (is_held deriv.old.held new.now.id.0) }
    requires asserts { Asserts engine.old new.now.row new.now.level new.now.asserts }
    ensures { OnOk result (LearnsRow new.now.id new.now.row new.now.level new.now.asserts engine.old engine.new deriv.old deriv.new) }
{
    // For what their contracts say: the engine and the live rows are in order, and there are few pairs.
    let _level = engine.level();
    let _next = deriv.next();
    let _pairs = model.instance().pairs();
    let note = learn_note(alloc, engine, new)?;
    deriv.note(alloc, model, &note)?;
    engine.add_row(alloc, &new.row, new.id)?;
    engine.back_to(new.level);
    Ok(())
}
