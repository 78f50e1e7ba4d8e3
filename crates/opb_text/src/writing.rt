// Writing a model in its canonical spelling.
ghost use Rattle.std.specs.Prelude.{◌≡◌, ◌<◌, ◌≤◌, length, OnOk, OnErr, IsErrOf};
ghost use Rattle.hrt_base.specs.Calls.{Rose, Sent, SentFront};
ghost use Rattle.rank_tables.specs.Instance.{pair_count};
ghost use Rattle.rank_tables.specs.Tables.{IsPairNo};
ghost use Rattle.rank_tables.specs.WellFormed.{IsWellFormed, most_pairs};
ghost use Rattle.stability_model.specs.Model.{formula, objective, rows};
ghost use Rattle.opb_text.specs.Refusal.{Spells};
ghost use Rattle.opb_text.specs.Sending.{hospital_line, hospital_lines, pair_line, pair_lines, resident_line, resident_lines};
ghost use Rattle.opb_text.specs.Spelling.{header_line, model_text, objective_line, row_line, written_with};

use crate::spelled::{header_line, objective_line, row_line};
use hrt_base::{Begun, Host, PairNo, Port, WriteEnd, write_all};
use pb_rows::Row;
use stability_model::Model;
use std::alloc::Global;

/// Writes the model on `Port::Model`, one row at a time. After `Failed` and after `NoMemory` a front of the text was
/// written. What is written reads as the model's formula (`read_back`).
pub fn write_model<H: Host>(alloc: Global, model: &Model, host: &mut H) -> Result<(), WriteEnd>
    requires { (H.world host.old).begun Port.Model ≡ Begun.Writing }
    ensures sent { OnOk result (Sent H.told Port.Model (model_text model.now) (H.world host.old) (H.world host.new)) }
    ensures part { OnErr result (SentFront H.told Port.Model (model_text model.now) (H.world host.old) (H.world host.new)) }
    ensures failed { IsErrOf result WriteEnd.Failed → Rose (H.world host.old).write_faults (H.world host.new).write_faults }
    ensures read_back { OnOk result (Spells (model_text model.now) (formula model.now)) }
{
    write_header(alloc, model, host)?;
    write_objective(alloc, model, host)?;
    write_resident_rows(alloc, model, host)?;
    write_hospital_rows(alloc, model, host)?;
    write_pair_rows(alloc, model, host)?;
    Ok(())
}

// Writes a text.
#[tactic(auto, using(hrt_base::proofs::Fronts::part_front))]
fn write_text<H: Host>(host: &mut H, text: &[u8]) -> Result<(), WriteEnd>
    requires { (H.world host.old).begun Port.Model ≡ Begun.Writing }
    ensures sent { OnOk result (Sent H.told Port.Model text.now (H.world host.old) (H.world host.new)) }
    ensures part { OnErr result (SentFront H.told Port.Model text.now (H.world host.old) (H.world host.new)) }
    ensures failed { IsErrOf result WriteEnd.Failed → Rose (H.world host.old).write_faults (H.world host.new).write_faults }
{
    write_all(host, Port::Model, text)?;
    Ok(())
}

#[tactic(auto, using(hrt_base::proofs::Fronts::none_front))]
fn write_header<H: Host>(alloc: Global, model: &Model, host: &mut H) -> Result<(), WriteEnd>
    requires { (H.world host.old).begun Port.Model ≡ Begun.Writing }
    ensures sent { OnOk result (Sent H.told Port.Model (header_line (pair_count model.now) (length (rows model.now))) (H.world host.old) (H.world host.new)) }
    ensures part { OnErr result (SentFront H.told Port.Model (header_line (pair_count model.now) (length (rows model.now))) (H.world host.old) (H.world host.new)) }
    ensures failed { IsErrOf result WriteEnd.Failed → Rose (H.world host.old).write_faults (H.world host.new).write_faults }
    ensures few { pair_count model.now ≤ most_pairs }
{
    let text = header_line(alloc, model.instance().pairs(), model.row_count())?;
    write_text(host, &text)
}

#[tactic(auto, using(hrt_base::proofs::Fronts::none_front))]
fn write_objective<H: Host>(alloc: Global, model: &Model, host: &mut H) -> Result<(), WriteEnd>
    requires { (H.world host.old).begun Port.Model ≡ Begun.Writing }
    ensures sent { OnOk result (Sent H.told Port.Model (objective_line (objective model.now)) (H.world host.old) (H.world host.new)) }
    ensures part { OnErr result (SentFront H.told Port.Model (objective_line (objective model.now)) (H.world host.old) (H.world host.new)) }
    ensures failed { IsErrOf result WriteEnd.Failed → Rose (H.world host.old).write_faults (H.world host.new).write_faults }
{
    let terms = model.objective_terms(alloc)?;
    let text = objective_line(alloc, &terms)?;
    write_text(host, &text)
}

// Writes a row with this right side.
fn write_row<H: Host>(
    alloc: Global,
    row: &Row,
    at_least: i128,
    host: &mut H,
) -> Result<(), WriteEnd>
    requires { (H.world host.old).begun Port.Model ≡ Begun.Writing }
    ensures sent { OnOk result (Sent H.told Port.Model (row_line (written_with at_least row.now)) (H.world host.old) (H.world host.new)) }
    ensures part { OnErr result (SentFront H.told Port.Model (row_line (written_with at_least row.now)) (H.world host.old) (H.world host.new)) }
    ensures failed { IsErrOf result WriteEnd.Failed → Rose (H.world host.old).write_faults (H.world host.new).write_faults }
{
    let text = row_line(alloc, row, at_least)?;
    write_text(host, &text)
}

// Writes the row of resident r, if there is one.
fn write_resident_row<H: Host>(
    alloc: Global,
    model: &Model,
    r: u32,
    host: &mut H,
) -> Result<(), WriteEnd>
    requires begun { (H.world host.old).begun Port.Model ≡ Begun.Writing }
    requires declared { r < length model.now.residents }
    ensures sent { OnOk result (Sent H.told Port.Model (resident_line model.now r) (H.world host.old) (H.world host.new)) }
    ensures part { OnErr result (SentFront H.told Port.Model (resident_line model.now r) (H.world host.old) (H.world host.new)) }
    ensures failed { IsErrOf result WriteEnd.Failed → Rose (H.world host.old).write_faults (H.world host.new).write_faults }
{
    let Some(k) = model.resident_row(r) else {
        return Ok(());
    };
    let row = model.row(alloc, k)?;
    write_row(alloc, &row, -1, host)
}

fn write_resident_rows<H: Host>(alloc: Global, model: &Model, host: &mut H) -> Result<(), WriteEnd>
    requires { (H.world host.old).begun Port.Model ≡ Begun.Writing }
    ensures sent { OnOk result (Sent H.told Port.Model (resident_lines model.now (length model.now.residents)) (H.world host.old) (H.world host.new)) }
    ensures part { OnErr result (SentFront H.told Port.Model (resident_lines model.now (length model.now.residents)) (H.world host.old) (H.world host.new)) }
    ensures failed { IsErrOf result WriteEnd.Failed → Rose (H.world host.old).write_faults (H.world host.new).write_faults }
    ensures well_formed { IsWellFormed model.now }
{
    for r in 0..model.instance().residents() {
        write_resident_row(alloc, model, r, host)?;
    }
    Ok(())
}

// Writes the row of hospital h, if there is one.
fn write_hospital_row<H: Host>(
    alloc: Global,
    model: &Model,
    h: u32,
    host: &mut H,
) -> Result<(), WriteEnd>
    requires begun { (H.world host.old).begun Port.Model ≡ Begun.Writing }
    requires declared { h < length model.now.hospitals }
    ensures sent { OnOk result (Sent H.told Port.Model (hospital_line model.now h) (H.world host.old) (H.world host.new)) }
    ensures part { OnErr result (SentFront H.told Port.Model (hospital_line model.now h) (H.world host.old) (H.world host.new)) }
    ensures failed { IsErrOf result WriteEnd.Failed → Rose (H.world host.old).write_faults (H.world host.new).write_faults }
{
    let Some(k) = model.hospital_row(h) else {
        return Ok(());
    };
    let row = model.row(alloc, k)?;
    write_row(alloc, &row, -i128::from(model.instance().capacity(h)), host)
}

fn write_hospital_rows<H: Host>(alloc: Global, model: &Model, host: &mut H) -> Result<(), WriteEnd>
    requires { (H.world host.old).begun Port.Model ≡ Begun.Writing }
    ensures sent { OnOk result (Sent H.told Port.Model (hospital_lines model.now (length model.now.hospitals)) (H.world host.old) (H.world host.new)) }
    ensures part { OnErr result (SentFront H.told Port.Model (hospital_lines model.now (length model.now.hospitals)) (H.world host.old) (H.world host.new)) }
    ensures failed { IsErrOf result WriteEnd.Failed → Rose (H.world host.old).write_faults (H.world host.new).write_faults }
{
    for h in 0..model.instance().hospitals() {
        write_hospital_row(alloc, model, h, host)?;
    }
    Ok(())
}

// Writes the row of pair p.
fn write_pair_row<H: Host>(
    alloc: Global,
    model: &Model,
    p: PairNo,
    host: &mut H,
) -> Result<(), WriteEnd>
    requires begun { (H.world host.old).begun Port.Model ≡ Begun.Writing }
    requires number { IsPairNo model.now p.0 }
    ensures sent { OnOk result (Sent H.told Port.Model (pair_line model.now p.0) (H.world host.old) (H.world host.new)) }
    ensures part { OnErr result (SentFront H.told Port.Model (pair_line model.now p.0) (H.world host.old) (H.world host.new)) }
    ensures failed { IsErrOf result WriteEnd.Failed → Rose (H.world host.old).write_faults (H.world host.new).write_faults }
{
    let inst = model.instance();
    let row = model.row(alloc, model.pair_row(p))?;
    let capacity = inst.capacity(inst.hospital_of(p));
    write_row(alloc, &row, i128::from(capacity), host)
}

fn write_pair_rows<H: Host>(alloc: Global, model: &Model, host: &mut H) -> Result<(), WriteEnd>
    requires { (H.world host.old).begun Port.Model ≡ Begun.Writing }
    ensures sent { OnOk result (Sent H.told Port.Model (pair_lines model.now (pair_count model.now)) (H.world host.old) (H.world host.new)) }
    ensures part { OnErr result (SentFront H.told Port.Model (pair_lines model.now (pair_count model.now)) (H.world host.old) (H.world host.new)) }
    ensures failed { IsErrOf result WriteEnd.Failed → Rose (H.world host.old).write_faults (H.world host.new).write_faults }
{
    for k in 0..model.instance().pairs() {
        write_pair_row(alloc, model, PairNo(k + 1), host)?;
    }
    Ok(())
}
