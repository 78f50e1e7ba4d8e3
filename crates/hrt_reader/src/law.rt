//! What holds of accepted texts, and of the canonical spellings.

ghost use Rattle.std.specs.Prelude.{◌≡◌, All, IsTrue, List, ℕ};
ghost use Rattle.rank_tables.specs.Instance.{Lists};
ghost use Rattle.rank_tables.specs.Numbers.{is_distinct};
ghost use Rattle.rank_tables.specs.Tables.{IsPairNo};
ghost use Rattle.rank_tables.specs.WellFormed.{IsWellFormed};
ghost use Rattle.hrt_reader.specs.PairsText.{SpellsPairs, pairs_spelling};
ghost use Rattle.hrt_reader.specs.Accepted.{Spells};
ghost use Rattle.hrt_reader.specs.Refusal.{ReadsAs};
ghost use Rattle.hrt_reader.specs.Spelling.{spelling};

/// A text spells lists exactly where no kind of refusal stands in it and the lists are those that its lines declare.
pub fn accepted_where_unrefused()
    ensures unrefused { (bytes : List ℕ) (lists : Lists) → Spells bytes lists → ReadsAs bytes lists }
    ensures accepted { (bytes : List ℕ) (lists : Lists) → ReadsAs bytes lists → Spells bytes lists }
{}

/// The canonical spelling of well-formed lists spells them.
pub fn spelling_is_read_back()
    ensures { (lists : Lists) → IsWellFormed lists → Spells (spelling lists) lists }
{}

/// Well-formed lists with one canonical spelling are equal.
pub fn spelling_is_one_to_one()
    ensures { (lists other : Lists) → IsWellFormed lists → IsWellFormed other → spelling lists ≡ spelling other → lists ≡ other }
{}

/// The canonical spelling of distinct pairs has no refusal, and spells just these pairs.
pub fn pairs_spelling_is_read_back()
    ensures { (lists : Lists) (pairs : List ℕ) → IsWellFormed lists → All (IsPairNo lists) pairs → IsTrue (is_distinct pairs) → SpellsPairs lists (pairs_spelling lists pairs) pairs }
{}
