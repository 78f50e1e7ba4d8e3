// The kernel of the proof writer.
ghost use Rattle.std.specs.Prelude.{◌≡◌, ◌<◌, ◌≤◌, ◌+◌, ◌^◌, [], length, IfOk, IfErr, IsOk, IsTrue, Ok, OnOk, OnErr, None, Some};
ghost use Rattle.std.specs.List.{All};
ghost use Rattle.hrt_base.specs.Calls.{Sent, SentPart};
ghost use Rattle.pb_rows.specs.Terms.{coef_sum};
ghost use Rattle.pb_rows.specs.Points.{IsCovered, point_of};
ghost use Rattle.pb_rows.specs.Closure.{Implies};
ghost use Rattle.pb_rows.specs.Formula.{is_numbered, row_of};
ghost use Rattle.rank_tables.specs.Instance.{pair_count};
ghost use Rattle.stability_model.specs.Model.{all_rows_hold, formula};
ghost use Rattle.proof_lines.specs.Spelling.{most_bytes};
ghost use Rattle.proof_lines.specs.Texts.{is_spellable_note, note_text};
ghost use Rattle.proof_rules.specs.Pol.{pol_row};
ghost use Rattle.proof_rules.specs.States.{IsInOrder, deleted, live_rows};
ghost use Rattle.proof_rules.specs.Claims.{Shows};
ghost use Rattle.proof_rules.specs.Held.{row_numbers};
ghost use Rattle.proof_rules.specs.Notes.{IsTrueNote};
ghost use Rattle.derivation.specs.Derived.{IsConcludedValid, StandsFor, StaysSent, StaysValid};
ghost use Rattle.derivation.specs.Pieces.{StandsTraced, opened};
ghost use Rattle.derivation.specs.Ready.{IsReady, IsSpare};
ghost use Rattle.derivation.specs.Steps.{CanLearn, IsRowOrTooBig, IsTooBig, IsWritable, Tries, TriesEnd, TriesNote, emptied, first_derived, literals_at, with_all_kept, with_kept, with_learned, with_new_row, with_noted, with_solution, without_learned, written_of};

use crate::PolRefusal;
use crate::held::{leave_out_number, push_numbers};
use crate::lines::{del_line, end_text, note_text, pol_line, rup_line, soli_line, text_of};
use crate::rows::Rows;
use crate::start::{first_kept, first_lines, model_rows};
use crate::steps::steps_row;
use hrt_base::{Begun, Failed, Host, NoMemory, Port, RowNo, write_all};
use pb_rows::Row;
use proof_lines::{Claim, Line, Note, PolStep};
use proof_steps::{improvement_row, objective_value, smaller};
use rank_tables::Instance;
use stability_model::Model;
use std::alloc::Global;

/// A proof of an instance's model in the making.
#[derive(Drop)]
pub struct Derivation<'a> {
    inst: &'a Instance,
    /// Copies of the live rows, the model's too.
    rows: Rows,
    /// The number of the next row.
    next: u64,
    /// The least value logged.
    least: Option<i128>,
    /// The numbers of the rows that stay held.
    kept: Vec<u64>,
    /// The numbers of the learned rows that are held.
    learned: Vec<u64>,
    /// How many rows were learned.
    learn_notes: u64,
    /// What it was concluded with.
    claim: Option<Claim>,
    /// The bytes that weren't sent yet.
    pending: Vec<u8>,
}

impl<'a> std::marker::Model for Derivation<'a> {
    ghost use Rattle.proof_rules.specs.States.{IsInOrder};
    ghost use Rattle.derivation.specs.Derived.{Derived};

    ghost Value = { Derived };

    ghost view = { λ d. record { lists = d.inst.now; state = record { live = d.rows; next = d.next; least = d.least }; held = record { kept = d.kept.items; learned = d.learned.items; learn_notes = d.learn_notes }; claim = d.claim; pending = d.pending.items } };

    ghost invariant = { λ d. IsInOrder (record { live = d.rows; next = d.next; least = d.least }) };
}

impl<'a> Derivation<'a> {
    /// Starts a proof: the header and the count of the model's rows are pending. They keep the law of written lines.
    pub fn new(alloc: Global, model: &Model<'a>) -> Result<Derivation<'a>, NoMemory>
        ensures is { IfOk result (λ d. d ≡ first_derived model.now) }
        ensures valid { IfOk result (StandsFor []) }
        ensures ready { IfOk result IsReady }
        ensures traced { IfOk result (λ d. StandsTraced [] d (opened model.now)) }
    {
        let rows = model_rows(alloc, model)?;
        let kept = first_kept(alloc, model)?;
        let pending = first_lines(alloc, model)?;
        Ok(Derivation {
            inst: model.instance(),
            rows,
            next: u64::from(model.row_count()) + 1,
            least: None,
            kept,
            learned: Vec::new(alloc),
            learn_notes: 0,
            claim: None,
            pending,
        })
    }

    /// A copy of a live row.
    pub fn row(&self, alloc: Global, model: &Model, id: RowNo) -> Result<Row, NoMemory>
        requires same { model.now ≡ self.now.lists }
        requires live { IsTrue (is_numbered id.0 self.now.state.live) }
        ensures { IfOk result (λ row. row_of id.0 self.now.state.live ≡ Some row) }
    {
        self.rows.get(id).copy(alloc)
    }

    /// Makes a row live, with some text.
    fn add(&mut self, row: Row, text: &[u8]) -> Result<RowNo, NoMemory>
        requires { self.old.state.next < 10 ^ 18 }
        ensures id { IfOk result (λ id. id.0 ≡ self.old.state.next) }
        ensures ok { OnOk result (self.new ≡ with_new_row row text.now self.old) }
        ensures err { OnErr result (self.new ≡ self.old) }
    {
        let length = self.pending.len();
        self.pending.extend_from_slice(text)?;
        let number = self.next;
        if self.rows.push(number, row).is_err() {
            self.pending.truncate(length);
            return Err(NoMemory);
        }
        self.next = number + 1;
        Ok(RowNo(number))
    }

    /// Holds a row, with some text.
    fn keep(&mut self, id: RowNo, text: &[u8]) -> Result<(), NoMemory>
        ensures ok { OnOk result (self.new ≡ with_kept id.0 text.now self.old) }
        ensures err { OnErr result (self.new ≡ self.old) }
    {
        let length = self.pending.len();
        self.pending.extend_from_slice(text)?;
        if self.kept.push(id.0).is_err() {
            self.pending.truncate(length);
            return Err(NoMemory);
        }
        Ok(())
    }

    /// Holds several rows, with some text.
    fn keep_all(&mut self, ids: &[RowNo], text: &[u8]) -> Result<(), NoMemory>
        ensures ok { OnOk result (self.new ≡ with_all_kept (row_numbers ids.now) text.now self.old) }
        ensures err { OnErr result (self.new ≡ self.old) }
    {
        let length = self.pending.len();
        self.pending.extend_from_slice(text)?;
        if push_numbers(&mut self.kept, ids).is_err() {
            self.pending.truncate(length);
            return Err(NoMemory);
        }
        Ok(())
    }

    /// Holds a row as a learned one, with some text.
    fn learn(&mut self, id: RowNo, text: &[u8]) -> Result<(), NoMemory>
        requires { self.old.held.learn_notes < 10 ^ 18 }
        ensures ok { OnOk result (self.new ≡ with_learned id.0 text.now self.old) }
        ensures err { OnErr result (self.new ≡ self.old) }
    {
        let length = self.pending.len();
        self.pending.extend_from_slice(text)?;
        if self.learned.push(id.0).is_err() {
            self.pending.truncate(length);
            return Err(NoMemory);
        }
        self.learn_notes += 1;
        Ok(())
    }

    /// Holds a learned row no more, with some text.
    fn unlearn(&mut self, id: RowNo, text: &[u8]) -> Result<(), NoMemory>
        ensures ok { OnOk result (self.new ≡ without_learned id.0 text.now self.old) }
        ensures err { OnErr result (self.new ≡ self.old) }
    {
        self.pending.extend_from_slice(text)?;
        leave_out_number(&mut self.learned, id.0);
        Ok(())
    }

    /// Holds what a note says is held after it, with some text.
    fn hold(&mut self, note: &Note, text: &[u8]) -> Result<(), NoMemory>
        requires { CanLearn note.now self.old.held }
        ensures ok { OnOk result (self.new ≡ with_noted note.now text.now self.old) }
        ensures err { OnErr result (self.new ≡ self.old) }
    {
        match note {
            Note::Unit(id) => self.keep(*id, text),
            Note::Bound(id) => self.keep(*id, text),
            Note::Load { rows, .. } => self.keep_all(rows.as_slice(), text),
            Note::Learn { row, .. } => self.learn(*row, text),
            Note::Drop(id) => self.unlearn(*id, text),
        }
    }

    /// Logs the value of a solution: its row is live and held.
    fn log(&mut self, value: i128, row: Row, text: &[u8]) -> Result<RowNo, NoMemory>
        requires { self.old.state.next < 10 ^ 18 }
        ensures id { IfOk result (λ id. id.0 ≡ self.old.state.next) }
        ensures ok { OnOk result (self.new ≡ with_solution value row text.now self.old) }
        ensures err { OnErr result (self.new ≡ self.old) }
    {
        let length = self.pending.len();
        self.pending.extend_from_slice(text)?;
        let number = self.next;
        if self.kept.push(number).is_err() {
            self.pending.truncate(length);
            return Err(NoMemory);
        }
        if self.rows.push(number, row).is_err() {
            self.kept.pop();
            self.pending.truncate(length);
            return Err(NoMemory);
        }
        self.next = number + 1;
        self.least = Some(smaller(self.least, value));
        Ok(RowNo(number))
    }

    /// Makes the row that the steps leave.
    pub fn pol(
        &mut self,
        alloc: Global,
        model: &Model,
        steps: &[PolStep],
    ) -> Result<RowNo, PolRefusal>
        requires same { model.now ≡ self.old.lists }
        requires open { self.old.claim ≡ None }
        requires next { self.old.state.next < 10 ^ 18 }
        requires writable { IsWritable (Line.Pol steps.now) }
        requires shape { IsRowOrTooBig (pol_row (pair_count self.old.lists) self.old.state.live steps.now) }
        ensures id { IfOk result (λ id. id.0 ≡ self.old.state.next) }
        ensures step { Tries result (Line.Pol steps.now) self.old self.new }
        ensures valid { StaysValid self.old self.new }
        ensures refused { IfErr result (IsTooBig (pol_row (pair_count self.old.lists) self.old.state.live steps.now)) }
    {
        let row = steps_row(alloc, model.instance().pairs(), &self.rows, steps)?;
        let line = pol_line(alloc, steps)?;
        let text = text_of(alloc, &line)?;
        let id = self.add(row, &text)?;
        Ok(id)
    }

    /// Makes the row that the steps leave, where none of them makes one that is too big.
    pub fn pol_that_fits(
        &mut self,
        alloc: Global,
        model: &Model,
        steps: &[PolStep],
    ) -> Result<RowNo, NoMemory>
        requires same { model.now ≡ self.old.lists }
        requires open { self.old.claim ≡ None }
        requires next { self.old.state.next < 10 ^ 18 }
        requires writable { IsWritable (Line.Pol steps.now) }
        requires made { IsOk (pol_row (pair_count self.old.lists) self.old.state.live steps.now) }
        ensures id { IfOk result (λ id. id.0 ≡ self.old.state.next) }
        ensures step { Tries result (Line.Pol steps.now) self.old self.new }
        ensures valid { StaysValid self.old self.new }
    {
        match self.pol(alloc, model, steps) {
            Ok(id) => Ok(id),
            Err(PolRefusal::TooBig) => unreachable!(),
            Err(PolRefusal::NoMemory) => Err(NoMemory),
        }
    }

    /// Makes a row that the caller has made already: that the steps leave exactly this row is asked and not tried again.
    pub fn pol_made(
        &mut self,
        alloc: Global,
        model: &Model,
        steps: &[PolStep],
        row: Row,
    ) -> Result<RowNo, NoMemory>
        requires same { model.now ≡ self.old.lists }
        requires open { self.old.claim ≡ None }
        requires next { self.old.state.next < 10 ^ 18 }
        requires writable { IsWritable (Line.Pol steps.now) }
        requires made { pol_row (pair_count self.old.lists) self.old.state.live steps.now ≡ Ok row }
        ensures id { IfOk result (λ id. id.0 ≡ self.old.state.next) }
        ensures step { Tries result (Line.Pol steps.now) self.old self.new }
        ensures valid { StaysValid self.old self.new }
    {
        let line = pol_line(alloc, steps)?;
        let text = text_of(alloc, &line)?;
        let id = self.add(row, &text)?;
        Ok(id)
    }

    /// Makes a row that the live rows imply by propagation. That they do is asked of the caller and not checked.
    pub fn rup(&mut self, alloc: Global, model: &Model, row: Row) -> Result<RowNo, NoMemory>
        requires same { model.now ≡ self.old.lists }
        requires open { self.old.claim ≡ None }
        requires next { self.old.state.next < 10 ^ 18 }
        requires writable { IsWritable (Line.Rup (written_of row)) }
        requires known { All (λ t. t.lit.var ≤ pair_count self.old.lists) row.terms }
        requires sizes { coef_sum row.terms + row.degree ≤ 2 ^ 120 }
        requires implied { Implies (live_rows self.old.state) row }
        ensures id { IfOk result (λ id. id.0 ≡ self.old.state.next) }
        ensures step { Tries result (Line.Rup (written_of row)) self.old self.new }
        ensures valid { StaysValid self.old self.new }
    {
        let line = rup_line(alloc, &row)?;
        let text = text_of(alloc, &line)?;
        let id = self.add(row, &text)?;
        Ok(id)
    }

    /// Logs a solution of the model, which has variable v at place v - 1, and makes the row that asks for a better one.
    pub fn solution(
        &mut self,
        alloc: Global,
        model: &Model,
        point: &[bool],
    ) -> Result<RowNo, NoMemory>
        requires same { model.now ≡ self.old.lists }
        requires open { self.old.claim ≡ None }
        requires next { self.old.state.next < 10 ^ 18 }
        requires writable { IsWritable (Line.Soli (literals_at (length point.now) (point_of point.now))) }
        requires full { length point.now ≡ pair_count self.old.lists }
        requires solves { IsTrue (all_rows_hold self.old.lists (point_of point.now)) }
        ensures id { IfOk result (λ id. id.0 ≡ self.old.state.next) }
        ensures step { Tries result (Line.Soli (literals_at (length point.now) (point_of point.now))) self.old self.new }
        ensures valid { StaysValid self.old self.new }
    {
        let objective = model.objective_terms(alloc)?;
        let value = objective_value(&objective, point);
        let row = improvement_row(alloc, &objective, value)?;
        let line = soli_line(alloc, point)?;
        let text = text_of(alloc, &line)?;
        let id = self.log(value, row, &text)?;
        Ok(id)
    }

    /// Adds a note that is true: a unit or a bound note of a live row, an honest load, a learned row that is fresh and live, or
    /// the drop of a learned row that is held. Fewer than 10^18 rows were learned before one more is.
    pub fn note(&mut self, alloc: Global, model: &Model, note: &Note) -> Result<(), NoMemory>
        requires same { model.now ≡ self.old.lists }
        requires open { self.old.claim ≡ None }
        requires so { IsTrueNote self.old.lists self.old.state.live self.old.held note.now }
        requires count { CanLearn note.now self.old.held }
        requires made { IsTrue (is_spellable_note note.now) }
        requires short { length (note_text note.now) ≤ most_bytes }
        ensures note { TriesNote result note.now self.old self.new }
        ensures valid { StaysValid self.old self.new }
        ensures ready { IsReady self.old → IsReady self.new }
    {
        let text = note_text(alloc, note)?;
        self.hold(note, &text)?;
        Ok(())
    }

    /// Deletes rows: they are live no more. No row of the model and no held row is among them.
    pub fn forget(&mut self, alloc: Global, ids: &[RowNo]) -> Result<(), NoMemory>
        requires open { self.old.claim ≡ None }
        requires writable { IsWritable (Line.Del ids.now) }
        requires live { IsOk (deleted ids.now self.old.state.live) }
        requires spare { All (IsSpare self.old) ids.now }
        ensures step { Tries result (Line.Del ids.now) self.old self.new }
        ensures valid { StaysValid self.old self.new }
        ensures ready { IsReady self.old → IsReady self.new }
    {
        let line = del_line(alloc, ids)?;
        let text = text_of(alloc, &line)?;
        let length = self.pending.len();
        self.pending.extend_from_slice(&text)?;
        if self.rows.remove_all(alloc, ids).is_err() {
            self.pending.truncate(length);
            return Err(NoMemory);
        }
        Ok(())
    }

    /// Ends the proof with a claim. After it no call adds a line.
    pub fn conclude(&mut self, alloc: Global, model: &Model, claim: Claim) -> Result<(), NoMemory>
        requires same { model.now ≡ self.old.lists }
        requires open { self.old.claim ≡ None }
        requires writable { IsWritable (Line.Conclusion claim) }
        requires shown { Shows (formula self.old.lists) self.old.state claim }
        ensures end { TriesEnd result claim self.old self.new }
        ensures valid { StaysValid self.old self.new }
        ensures proof { OnOk result (IsConcludedValid self.old self.new claim) }
    {
        let text = end_text(alloc, claim)?;
        self.pending.extend_from_slice(&text)?;
        self.claim = Some(claim);
        Ok(())
    }

    /// The number that the next row gets. The live rows have numbers from 1 on that rise, all below it (`in_order`).
    pub fn next(&self) -> u64
        ensures number { result ≡ self.now.state.next }
        ensures in_order { IsInOrder self.now.state }
    {
        self.next
    }

    /// How many rows were learned.
    pub fn learned(&self) -> u64
        ensures { result ≡ self.now.held.learn_notes }
    {
        self.learn_notes
    }

    /// The bytes that weren't sent yet.
    pub fn pending(&self) -> &[u8]
        ensures { result.now ≡ self.now.pending }
    {
        self.pending.as_slice()
    }

    /// Writes the pending bytes. After `Failed` they are all still pending, though some of them may have been written.
    pub fn send<H: Host>(&mut self, host: &mut H) -> Result<(), Failed>
        requires { (H.world host.old).begun Port.Proof ≡ Begun.Writing }
        ensures sent { OnOk result (Sent H.told Port.Proof self.old.pending (H.world host.old) (H.world host.new)) }
        ensures is { OnOk result (self.new ≡ emptied self.old) }
        ensures valid { OnOk result (StaysSent self.old self.new) }
        ensures failed { OnErr result (SentPart H.told Port.Proof self.old.pending (H.world host.old) (H.world host.new)) }
        ensures err { OnErr result (self.new ≡ self.old) }
    {
        write_all(host, Port::Proof, &self.pending)?;
        self.pending.clear();
        Ok(())
    }
}
