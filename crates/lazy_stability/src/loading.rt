// The loading of rows of pairs.
ghost use Rattle.std.specs.Prelude.{◌≡◌, ◌<◌, length, IfOk, IsTrue, OnErr, OnOk};
ghost use Rattle.std.specs.List.{All};
ghost use Rattle.rank_tables.specs.Instance.{pair_count};
ghost use Rattle.rank_tables.specs.Stability.{is_matching};
ghost use Rattle.rank_tables.specs.Tables.{IsPairNo};
ghost use Rattle.pb_propagate.specs.Engines.{IsIdle};
ghost use Rattle.pb_propagate.specs.Entries.{set_of};
ghost use Rattle.derivation.specs.Derived.{StaysValid};
ghost use Rattle.derivation.specs.Pieces.{TakesNote};
ghost use Rattle.derivation.specs.Ready.{IsReady};
ghost use Rattle.agreement.specs.Agreement.{Agree};
ghost use Rattle.lazy_stability.specs.Candidates.{AreBlocking, IsFull, candidate};
ghost use Rattle.lazy_stability.specs.Loads.{AreFalsified, AreNotHeld, LoadsFront, LoadsRows, load_note, row_numbers_of};

use crate::table::is_taken;
use derivation::Derivation;
use hrt_base::{NoMemory, PairNo, RowNo};
use pb_propagate::Engine;
use proof_lines::{Ids, Note, Vars};
use rank_tables::Instance;
use row_arena::Place;
use stability_model::Model;
use std::alloc::Global;

/// The true variables, rising.
fn true_variables(alloc: Global, inst: &Instance, engine: &Engine) -> Result<Vars, NoMemory>
    ensures { IfOk result (λ trues. trues ≡ candidate inst.now engine.now) }
{
    let mut trues = Vars::new(alloc);
    for var in 1..inst.pairs() + 1 {
        if !is_taken(engine, PairNo(var)) {
            continue;
        }
        trues.push(var)?;
    }
    Ok(trues)
}

/// The numbers of the rows of pairs.
fn row_numbers(alloc: Global, model: &Model, pairs: &[PairNo]) -> Result<Ids, NoMemory>
    requires { All (λ p. IsPairNo model.now p.0) pairs.now }
    ensures { IfOk result (λ ids. ids ≡ row_numbers_of model.now pairs.now) }
{
    let mut ids = Ids::new(alloc);
    for p in pairs {
        ids.push(RowNo(u64::from(model.pair_row(*p))))?;
    }
    Ok(ids)
}

/// The note that at the candidate the rows of pairs don't hold, and are held from here on.
fn make_note(
    alloc: Global,
    model: &Model,
    engine: &Engine,
    pairs: &[PairNo],
) -> Result<Note, NoMemory>
    requires { All (λ p. IsPairNo model.now p.0) pairs.now }
    ensures { IfOk result (λ note. note ≡ load_note model.now (candidate model.now engine.now) pairs.now) }
{
    let trues = true_variables(alloc, model.instance(), engine)?;
    let rows = row_numbers(alloc, model, pairs)?;
    Ok(Note::Load { trues, rows })
}

/// Adds the rows of pairs to an engine.
fn add_rows(
    alloc: Global,
    model: &Model,
    engine: &mut Engine,
    pairs: &[PairNo],
) -> Result<Vec<Place>, NoMemory>
    requires vars { engine.old.vars ≡ pair_count model.now }
    requires pairs { All (λ p. IsPairNo model.now p.0) pairs.now }
    ensures ok { IfOk result (λ places. LoadsRows model.now pairs.now places.items engine.old engine.new) }
    ensures err { OnErr result (LoadsFront model.now pairs.now engine.old engine.new) }
{
    let _rows = model.row_count();
    let mut places = Vec::new(alloc);
    for p in pairs {
        let number = model.pair_row(*p);
        places.reserve(1)?;
        let row = model.row(alloc, number)?;
        let place = engine.add_row(alloc, &row, RowNo(u64::from(number)))?;
        places.push_reserved(place);
    }
    Ok(places)
}

/// Loads the rows of pairs that block the candidate of a full quiet engine, which is a matching: adds them to the engine, and one note to
/// the proof that names each true variable and each row once. Before it none of these rows was held, and each is falsified; after it engine
/// and derivation agree again. After want of memory the derivation is as it was, and the engine may hold the rows of the first of the pairs.
pub fn load(
    alloc: Global,
    model: &Model,
    engine: &mut Engine,
    deriv: &mut Derivation,
    pairs: &[PairNo],
) -> Result<Vec<Place>, NoMemory>
    requires same { model.now ≡ deriv.old.lists }
    requires ready { IsReady deriv.old }
    requires agree { Agree engine.old deriv.old }
    requires full { IsFull engine.old }
    requires quiet { IsIdle engine.old }
    requires matching { IsTrue (is_matching deriv.old.lists (candidate deriv.old.lists engine.old)) }
    requires some { 0 < length pairs.now }
    requires block { AreBlocking deriv.old.lists (candidate deriv.old.lists engine.old) pairs.now }
    ensures rows { IfOk result (λ places. LoadsRows deriv.old.lists pairs.now places.items engine.old engine.new) }
    ensures note { OnOk result (TakesNote (load_note deriv.old.lists (candidate deriv.old.lists engine.old) pairs.now) deriv.old deriv.new) }
    ensures agree { OnOk result (Agree engine.new deriv.new) }
    ensures ready { IsReady deriv.new }
    ensures valid { StaysValid deriv.old deriv.new }
    ensures some_rows { OnErr result (LoadsFront deriv.old.lists pairs.now engine.old engine.new) }
    ensures no_note { OnErr result (deriv.new ≡ deriv.old) }
    ensures new { OnOk result (AreNotHeld deriv.old.lists deriv.old.held pairs.now) }
    ensures falsified { OnOk result (AreFalsified deriv.old.lists (set_of engine.old.trail) pairs.now) }
{
    let _level = engine.level();
    let _next = deriv.next();
    let _rows = model.row_count();
    let load_note = make_note(alloc, model, engine, pairs)?;
    let places = add_rows(alloc, model, engine, pairs)?;
    deriv.note(alloc, model, &load_note)?;
    Ok(places)
}
