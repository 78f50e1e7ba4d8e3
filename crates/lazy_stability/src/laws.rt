// What a search uses beside the contracts of the calls.
ghost use Rattle.lazy_stability.specs.Laws.{CandidatesAreMatchings, FullWhereNoneIsFree, LawfulRowsAreLazy, LoadsAreLawful, NotesKeepFirst, StartsHoldFirst};

use derivation::held_rows_are_loaded;

/// An engine without free variables is full.
#[tactic(auto, using(crate::proofs::Filled::filled))]
pub fn full_where_none_is_free()
    ensures { FullWhereNoneIsFree }
{}

/// A proof begins with the rows of residents and of hospitals held.
pub fn starts_hold_first()
    ensures { StartsHoldFirst }
{}

/// The rows of residents and of hospitals stay held, whatever note is added.
#[tactic(auto, using(crate::proofs::Matched::first_kept))]
pub fn notes_keep_first()
    ensures { NotesKeepFirst }
{}

/// The candidate of a full quiet engine that agrees with a derivation, in which the rows of residents and hospitals are held, is a
/// matching.
#[tactic(auto, using(crate::proofs::Matched::matched))]
pub fn candidates_are_matchings()
    ensures { CandidatesAreMatchings }
{}

/// The note of a load keeps the law of a written proof behind the bound note.
#[tactic(auto, using(crate::proofs::Lazy::loads_lawful))]
pub fn loads_are_lawful()
    ensures { LoadsAreLawful }
{}

/// In a text that keeps the law and whose notes are true each load note is honest, and no row of a pair is held without one.
pub fn lawful_rows_are_lazy()
    ensures { LawfulRowsAreLazy }
{
    held_rows_are_loaded();
}
