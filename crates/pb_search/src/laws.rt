// Where the moves of a search lead.
ghost use Rattle.pb_search.specs.Moves.{CalmAddsRows, CalmDecides, CalmRestarts, ConflictLearns, ConflictSpends, SearchComesToRest, SearchMeetsConflict, SearchStarts, SpentBudgetIsSmall};

/// A search starts where engine and derivation are joined.
pub fn search_starts()
    ensures { SearchStarts }
{}

/// Propagation meets a conflict.
pub fn search_meets_conflict()
    ensures { SearchMeetsConflict }
{}

/// Or it comes to where nothing is due.
pub fn search_comes_to_rest()
    ensures { SearchComesToRest }
{}

/// A literal is decided.
pub fn calm_decides()
    ensures { CalmDecides }
{}

/// Rows are added.
pub fn calm_adds_rows()
    ensures { CalmAddsRows }
{}

/// A restart after 100 learned rows or more.
pub fn calm_restarts()
    ensures { CalmRestarts }
{}

/// A row is learned from a conflict.
pub fn conflict_learns()
    ensures { ConflictLearns }
{}

/// The budget is spent at a conflict.
pub fn conflict_spends()
    ensures { ConflictSpends }
{}

/// A budget that is spent is no more than the bound on conflicts.
pub fn spent_budget_is_small()
    ensures { SpentBudgetIsSmall }
{}
