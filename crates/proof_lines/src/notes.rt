// Notes as text, and read again.

ghost use Rattle.std.specs.Prelude.{◌≡◌, ◌≤◌, ℕ, List, length, true, Some, ◌++◌, ◌∷◌, [], OnOk, OnErr, map, codes};
ghost use Rattle.proof_lines.specs.Notes.{note_of};
ghost use Rattle.proof_lines.specs.Spelling.{most_bytes};
ghost use Rattle.proof_lines.specs.Texts.{id_text, note_spelling, note_text, variable_text};
ghost use Rattle.row_text.specs.Readings.{StaysInFront};
ghost use Rattle.row_text.specs.Rows.{literal_text};
ghost use Rattle.row_text.specs.Tokens.{spaced};

use crate::Note;
use crate::writing::{push_decimal, push_ids, push_literals, push_spaced_literal, push_variable};
use hrt_base::{Lit, NoMemory, RowNo};

#[tactic(auto, using(row_text::proofs::Appended::stays_longer))]
fn push_variables(vars: &[u32], out: &mut Vec<u8>) -> Result<(), NoMemory>
    ensures ok { OnOk result (out.new.items ≡ out.old.items ++ spaced (map variable_text vars.now)) }
    ensures err { OnErr result (StaysInFront out.old.items out.new.items) }
{
    for var in vars {
        push_variable(*var, out)?;
    }
    Ok(())
}

// Appends a word of a note and the number of a row.
#[tactic(auto, using(row_text::proofs::Appended::stays_longer))]
fn push_word_and_id(word: &[u8], id: RowNo, out: &mut Vec<u8>) -> Result<(), NoMemory>
    ensures ok { OnOk result (out.new.items ≡ out.old.items ++ (word.now ++ spaced (id_text id ∷ []))) }
    ensures err { OnErr result (StaysInFront out.old.items out.new.items) }
{
    out.extend_from_slice(word)?;
    push_decimal(id.0, out)
}

// Appends variables, a colon and row numbers.
#[tactic(auto, using(row_text::proofs::Appended::stays_longer))]
fn push_load(trues: &[u32], rows: &[RowNo], out: &mut Vec<u8>) -> Result<(), NoMemory>
    ensures ok { OnOk result (out.new.items ≡ out.old.items ++ spaced (map variable_text trues.now ++ codes ":" ∷ map id_text rows.now)) }
    ensures err { OnErr result (StaysInFront out.old.items out.new.items) }
{
    push_variables(trues, out)?;
    out.extend_from_slice(b" :")?;
    push_ids(rows, out)?;
    Ok(())
}

// Appends literals, a colon and a literal.
#[tactic(auto, using(row_text::proofs::Appended::stays_longer))]
fn push_learn(decisions: &[Lit], asserts: Lit, out: &mut Vec<u8>) -> Result<(), NoMemory>
    ensures ok { OnOk result (out.new.items ≡ out.old.items ++ spaced (map literal_text decisions.now ++ codes ":" ∷ literal_text asserts ∷ [])) }
    ensures err { OnErr result (StaysInFront out.old.items out.new.items) }
{
    push_literals(decisions, out)?;
    out.extend_from_slice(b" :")?;
    push_spaced_literal(asserts, out)?;
    Ok(())
}

// Appends a note without its line feed.
#[tactic(auto, using(row_text::proofs::Appended::stays_longer))]
fn push_spelling(note: &Note, out: &mut Vec<u8>) -> Result<(), NoMemory>
    ensures ok { OnOk result (out.new.items ≡ out.old.items ++ note_spelling note.now) }
    ensures err { OnErr result (StaysInFront out.old.items out.new.items) }
{
    match note {
        Note::Unit(id) => push_word_and_id(b"* note unit", *id, out),
        Note::Bound(id) => push_word_and_id(b"* note bound", *id, out),
        Note::Load { trues, rows } => {
            out.extend_from_slice(b"* note load")?;
            push_load(trues.as_slice(), rows.as_slice(), out)
        }
        Note::Learn {
            row,
            decisions,
            asserts,
        } => {
            push_word_and_id(b"* note learn", *row, out)?;
            out.extend_from_slice(b" :")?;
            push_learn(decisions.as_slice(), *asserts, out)
        }
        Note::Drop(id) => push_word_and_id(b"* note drop", *id, out),
    }
}

/// Appends a note with its line feed, or a front of them.
#[tactic(auto, using(row_text::proofs::Appended::stays_longer))]
fn push_in_pieces(note: &Note, out: &mut Vec<u8>) -> Result<(), NoMemory>
    requires spelled { (text : List ℕ) × (note_of text ≡ Some note.now) }
    ensures ok { OnOk result (out.new.items ≡ out.old.items ++ note_text note.now) }
    ensures err { OnErr result (StaysInFront out.old.items out.new.items) }
{
    push_spelling(note, out)?;
    out.push(b'\n')?;
    Ok(())
}

/// Appends a note with its line feed. It has to be a note that a text spells. What is written reads as the note where it has
/// at most 16,777,216 bytes, its line feed among them.
#[tactic(auto, using(crate::proofs::CutBack::cut_back, crate::proofs::Spelled::spelled_note_back))]
pub fn push_note(note: &Note, out: &mut Vec<u8>) -> Result<(), NoMemory>
    requires spelled { (text : List ℕ) × (note_of text ≡ Some note.now) }
    ensures ok { OnOk result (out.new.items ≡ out.old.items ++ note_text note.now) }
    ensures err { OnErr result (out.new.items ≡ out.old.items) }
    ensures read_back { length (note_text note.now) ≤ most_bytes → note_of (note_text note.now) ≡ Some note.now }
{
    let length = out.len();
    if push_in_pieces(note, out).is_err() {
        out.truncate(length);
        return Err(NoMemory);
    }
    Ok(())
}
