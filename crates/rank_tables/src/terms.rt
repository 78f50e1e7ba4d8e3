// How many terms the rows of the 0/1 model have, counted without making the rows. Each pair stands in the row of its
// resident, in that of its hospital and in its own. Its own row also has the other pairs of its hospital that are ranked at
// least as high and, where the hospital has a post, those of its resident.
ghost use Rattle.std.specs.Prelude.{◌≡◌, ◌+◌, ◌*◌, ◌<◌, ◌≤◌, ◌++◌, [], ◌∷◌, ℕ, List, length, sum_by, All, slice_index_or};
ghost use Rattle.rank_tables.specs.Numbers.{below};
ghost use Rattle.rank_tables.specs.Instance.{lists_of};
ghost use Rattle.rank_tables.specs.WellFormed.{most_residents, most_pairs};
ghost use Rattle.rank_tables.specs.Tables.{AreTables};
ghost use Rattle.rank_tables.specs.Terms.{model_terms};
ghost use Rattle.rank_tables.specs.Building.{row_at, rows_of};
ghost use Rattle.rank_tables.specs.Counting.{ranked_of, ranked_row, counting, as_high, IsRising, IsEntryNo, IsRun, IsSmall};

use crate::entry::PairEntry;
use crate::tables::Tables;
use crate::{Draft, DraftHospital};
use hrt_base::PairNo;

/// Who ranks the pairs of a row.
#[derive(Clone, Copy, Debug)]
pub enum Side {
    Resident,
    Hospital,
}

/// The rank of a pair in a row, and whether its own row has the other pairs that are ranked at least as high.
#[derive(Clone, Copy, Debug)]
pub struct Ranked {
    pub rank: u32,
    pub counts: bool,
}

/// The pairs of a row up to one of them, best first: how many they are, the rank of the last, how many of that rank count, and
/// summed over those that count: how many other pairs are ranked at least as high.
#[derive(Clone, Copy, Debug)]
pub struct Run {
    pub listed: u64,
    pub rank: u32,
    pub tied: u64,
    pub terms: u64,
}

// The terms of all rows of the model.
pub fn terms_of(draft: &Draft, tables: &Tables) -> u64
    requires { AreTables (lists_of draft.now) tables.now.entries.items (rows_of tables.now.by_resident.items) (rows_of tables.now.by_hospital.items) tables.now.unanswered }
    ensures { result ≡ model_terms (lists_of draft.now) }
{
    let of_residents = terms_of_rows(
        Side::Resident,
        &draft.hospitals,
        &tables.entries,
        &tables.by_resident,
    );
    let of_hospitals = terms_of_rows(
        Side::Hospital,
        &draft.hospitals,
        &tables.entries,
        &tables.by_hospital,
    );
    3 * tables.entries.len() as u64 + of_residents + of_hospitals
}

// Summed over the pairs that count, in all rows: how many other pairs of their row are ranked at least as high.
fn terms_of_rows(
    side: Side,
    hospitals: &[DraftHospital],
    entries: &[PairEntry],
    rows: &[Vec<PairNo>],
) -> u64
    requires few { length rows.now ≤ most_residents }
    requires declared { All (λ entry. entry.hospital < length hospitals.now) entries.now }
    requires numbers { (k : ℕ) → All (IsEntryNo entries.now) (row_at rows.now k) }
    requires rising { (k : ℕ) → IsRising 0 (ranked_row side hospitals.now entries.now (row_at rows.now k)) }
    requires short { (k : ℕ) → length (row_at rows.now k) ≤ most_pairs }
    ensures value { result + sum_by (λ k. counting (ranked_row side hospitals.now entries.now (row_at rows.now k))) (below (length rows.now))
        ≡ sum_by (λ k. as_high (ranked_row side hospitals.now entries.now (row_at rows.now k))) (below (length rows.now)) }
    ensures few { result ≤ most_residents * (most_pairs * most_pairs) }
{
    let mut terms = 0;
    for row in rows {
        terms += terms_of_row(side, hospitals, entries, row);
    }
    terms
}

// Summed over the pairs of a row that count: how many others are ranked at least as high. The row stands in the order of its
// list.
fn terms_of_row(
    side: Side,
    hospitals: &[DraftHospital],
    entries: &[PairEntry],
    row: &[PairNo],
) -> u64
    requires declared { All (λ entry. entry.hospital < length hospitals.now) entries.now }
    requires numbers { All (IsEntryNo entries.now) row.now }
    requires rising { IsRising 0 (ranked_row side hospitals.now entries.now row.now) }
    requires short { length row.now ≤ most_pairs }
    ensures value { result + counting (ranked_row side hospitals.now entries.now row.now) ≡ as_high (ranked_row side hospitals.now entries.now row.now) }
    ensures few { result ≤ most_pairs * most_pairs }
{
    let mut run = Run {
        listed: 0,
        rank: 0,
        tied: 0,
        terms: 0,
    };
    for p in row {
        run = extended(run, ranking(side, hospitals, &entries[p.0 as usize - 1]));
    }
    run.terms
}

// How a side ranks a pair. Where its hospital has no post, its own row has no other pair of its resident.
fn ranking(side: Side, hospitals: &[DraftHospital], entry: &PairEntry) -> Ranked
    requires { entry.now.hospital < length hospitals.now }
    ensures { result ≡ ranked_of side hospitals.now entry.now }
{
    match side {
        Side::Resident => Ranked {
            rank: entry.resident_rank,
            counts: hospitals[entry.hospital as usize].capacity > 0,
        },
        Side::Hospital => Ranked {
            rank: entry.hospital_rank,
            counts: true,
        },
    }
}

// A run with the next pair of its row, whose rank is no better.
fn extended(run: Run, next: Ranked) -> Run
    requires rising { run.rank ≤ next.rank }
    requires small { IsSmall run }
    requires short { run.listed < most_pairs }
    ensures listed { result.listed ≡ run.listed + 1 }
    ensures rank { result.rank ≡ next.rank }
    ensures small { IsSmall result }
    ensures run { (xs : List Ranked) → IsRun run xs → IsRun result (xs ++ next ∷ []) }
{
    let tied = if next.rank == run.rank { run.tied } else { 0 };
    let (before, counted) = if next.counts { (run.listed, 1) } else { (0, 0) };
    Run {
        listed: run.listed + 1,
        rank: next.rank,
        tied: tied + counted,
        terms: run.terms + tied + before,
    }
}
