//! What holds of the instances that are taken.

ghost use Rattle.std.specs.Prelude.{◌≡◌, List, Ok, ℕ};
ghost use Rattle.rank_tables.specs.Instance.{Lists};
ghost use Rattle.hrt_inputs.specs.Taken.{IsInstance, taken_lists};

/// The lists that are taken of bytes are those that the bytes spell, where they are within the limits.
pub fn taken_where_spelled()
    ensures spelled { (bytes : List ℕ) (lists : Lists) → taken_lists bytes ≡ Ok lists → IsInstance bytes lists }
    ensures taken { (bytes : List ℕ) (lists : Lists) → IsInstance bytes lists → taken_lists bytes ≡ Ok lists }
{}
