//! Lists of which the drafts of instances are made.
ghost use Rattle.std.specs.Prelude.{◌≡◌, [], ◌∷◌, true, false, IfOk, IsTrue};
ghost use Rattle.rank_tables.specs.Names.{is_name};

use hrt_base::NoMemory;
use rank_tables::{DraftHospital, DraftResident, Groups, Name};
use std::alloc::Global;

/// A resident of this name and list.
pub fn resident(alloc: Global, name: &[u8], groups: Groups) -> Result<DraftResident, NoMemory>
    requires { IsTrue (is_name name.now) }
    ensures { IfOk result (λ resident. resident ≡ record { name = name.now; groups = groups }) }
{
    Ok(DraftResident {
        name: Name::new(alloc, name)?,
        groups,
    })
}

/// A hospital of this name, so many posts and this list.
pub fn hospital(
    alloc: Global,
    name: &[u8],
    capacity: u32,
    groups: Groups,
) -> Result<DraftHospital, NoMemory>
    requires { IsTrue (is_name name.now) }
    ensures { IfOk result (λ hospital. hospital ≡ record { name = name.now; capacity = capacity; groups = groups }) }
{
    Ok(DraftHospital {
        name: Name::new(alloc, name)?,
        capacity,
        groups,
    })
}

/// A list of one number.
pub fn one(alloc: Global, number: u32) -> Result<Groups, NoMemory>
    ensures { IfOk result (λ list. list ≡ (number ∷ []) ∷ []) }
{
    let mut list = Groups::new(alloc);
    list.push(number, false)?;
    Ok(list)
}

/// A list of two numbers, in a tie or not.
pub fn two(alloc: Global, first: u32, second: u32, tied: bool) -> Result<Groups, NoMemory>
    ensures together { tied ≡ true → IfOk result (λ list. list ≡ (first ∷ second ∷ []) ∷ []) }
    ensures apart { tied ≡ false → IfOk result (λ list. list ≡ (first ∷ []) ∷ (second ∷ []) ∷ []) }
{
    let mut list = Groups::new(alloc);
    list.push(first, false)?;
    list.push(second, tied)?;
    Ok(list)
}

/// A tie of two numbers, and then 2, in the tie or not.
pub fn three(alloc: Global, first: u32, second: u32, tied: bool) -> Result<Groups, NoMemory>
    ensures together { tied ≡ true → IfOk result (λ list. list ≡ (first ∷ second ∷ 2 ∷ []) ∷ []) }
    ensures apart { tied ≡ false → IfOk result (λ list. list ≡ (first ∷ second ∷ []) ∷ (2 ∷ []) ∷ []) }
{
    let mut list = two(alloc, first, second, true)?;
    list.push(2, tied)?;
    Ok(list)
}
