//! Reading an instance's text.

ghost use Rattle.std.specs.Prelude.{◌≡◌, ◌<◌, ◌≤◌, ◌==◌, ◌^◌, None, Some, count_by, length, IfOk, IfErr};
ghost use Rattle.rank_tables.specs.Instance.{pair_count};
ghost use Rattle.rank_tables.specs.Terms.{model_terms};
ghost use Rattle.rank_tables.specs.WellFormed.{most_pairs, most_terms};
ghost use Rattle.hrt_reader.specs.Answer.{IsRefused};
ghost use Rattle.hrt_reader.specs.Refusal.{Refusal, lists_of_rows};
ghost use Rattle.hrt_text.specs.Text.{rows};
ghost use Rattle.hrt_reader.specs.Refusal.{declared_hospitals, refusal, refusal_but_6, declared_residents, ReadsAs};
ghost use Rattle.hrt_reader.specs.Accepted.{Spells};
ghost use Rattle.rank_tables.specs.WellFormed.{IsWellFormed};
ghost use Rattle.rank_tables.specs.Instance.{lists_of};
ghost use Rattle.hrt_reader.specs.Survey.{IsRefusedBy};
ghost use Rattle.hrt_text.specs.Views.{texts};

use crate::drafted::add_line;
use crate::first_pass::{Names, survey};
use crate::refusals::{LimitKind, ReadKind, ReadRefusal};
use hrt_text::next_line;
use rank_tables::{BuildRefusal, Draft, Instance};
use std::alloc::Global;

// The second pass: the lists, and the least line that names what is unknown.
fn resolve(alloc: Global, text: &[u8], names: &Names) -> Result<Draft, ReadRefusal>
    requires short { length (rows text.now) < 2 ^ 32 }
    requires accepted { refusal_but_6 (rows text.now) ≡ None }
    requires residents { texts names.now.residents.keys ≡ declared_residents (rows text.now) }
    requires hospitals { texts names.now.hospitals.keys ≡ declared_hospitals (rows text.now) }
    ensures reads { IfOk result (λ draft. ReadsAs text.now (lists_of draft)) }
    ensures well_formed { IfOk result (λ draft. IsWellFormed (lists_of draft)) }
    ensures refused { IfErr result (IsRefusedBy (refusal (rows text.now))) }
{
    let mut residents = Vec::new(alloc);
    let mut hospitals = Vec::new(alloc);
    let mut number: u32 = 0;
    let mut rest = text;
    while let Some((line, after)) = next_line(rest) {
        number += 1;
        let known = add_line(alloc, names, line, &mut residents, &mut hospitals)?;
        if !known {
            return Err(ReadRefusal::Bad {
                kind: ReadKind::UnknownName,
                line: number,
            });
        }
        rest = after;
    }
    Ok(Draft {
        residents,
        hospitals,
    })
}

// The lists that the text spells, or its refusal.
fn read_lists(alloc: Global, text: &[u8]) -> Result<Draft, ReadRefusal>
    requires { length (rows text.now) < 2 ^ 32 }
    ensures reads { IfOk result (λ draft. ReadsAs text.now (lists_of draft)) }
    ensures well_formed { IfOk result (λ draft. IsWellFormed (lists_of draft)) }
    ensures refused { IfErr result (IsRefusedBy (refusal (rows text.now))) }
{
    let names = survey(alloc, text)?;
    resolve(alloc, text, &names)
}

/// Reads an instance in any spelling. The text has few enough line feeds for each line's number to fit.
#[tactic(auto, using(crate::proofs::Declared::spells_from))]
pub fn read_instance(alloc: Global, bytes: &[u8]) -> Result<Instance, ReadRefusal>
    requires { count_by (λ b. b == 10) bytes.now ≤ 4294967294 }
    ensures spells { IfOk result (λ instance. Spells bytes.now instance) }
    ensures few { IfOk result (λ instance. pair_count instance ≤ most_pairs) }
    ensures few_terms { IfOk result (λ instance. model_terms instance ≤ most_terms) }
    ensures refused { IfErr result (IsRefused bytes.now) }
    ensures accepts { refusal (rows bytes.now) ≡ None → pair_count (lists_of_rows (rows bytes.now)) ≤ most_pairs
        → model_terms (lists_of_rows (rows bytes.now)) ≤ most_terms → IfErr result (λ e. e ≡ ReadRefusal.NoMemory) }
    ensures refuses { (r : Refusal) → refusal (rows bytes.now) ≡ Some r → IfOk result (λ instance. ⊥) }
{
    let draft = read_lists(alloc, bytes)?;
    match Instance::build(alloc, draft) {
        Ok(instance) => Ok(instance),
        Err(BuildRefusal::TooManyPairs) => Err(ReadRefusal::Limit(LimitKind::Pairs)),
        Err(BuildRefusal::TooManyTerms) => Err(ReadRefusal::Limit(LimitKind::Terms)),
        Err(BuildRefusal::NoMemory) => Err(ReadRefusal::NoMemory),
    }
}
