// Rows that grow at their ends.
ghost use Rattle.std.specs.Prelude.{◌≡◌, ◌<◌, ◌++◌, [], ◌∷◌, ℕ, ◌==◌, if◌then◌else◌, length, IfOk, OnOk};
ghost use Rattle.rank_tables.specs.Building.{row_at};

use std::alloc::{AllocError, Global};

// So many empty rows.
pub fn empty_rows<T: Drop>(alloc: Global, count: usize) -> Result<Vec<Vec<T>>, AllocError>
    ensures count { IfOk result (λ rows. length rows.items ≡ count) }
    ensures empty { IfOk result (λ rows. (r : ℕ) → row_at rows.items r ≡ []) }
{
    let mut rows = Vec::new(alloc);
    for _i in 0..count {
        rows.push(Vec::new(alloc))?;
    }
    Ok(rows)
}

// Adds an item to the row at a place.
pub fn push_at<T: Drop>(rows: &mut Vec<Vec<T>>, place: usize, item: T) -> Result<(), AllocError>
    requires { place < length rows.old.items }
    ensures count { length rows.new.items ≡ length rows.old.items }
    ensures pushed { OnOk result ((r : ℕ) → row_at rows.new.items r ≡ (if r == place then row_at rows.old.items r ++ item ∷ [] else row_at rows.old.items r)) }
{
    rows[place].push(item)?;
    Ok(())
}
