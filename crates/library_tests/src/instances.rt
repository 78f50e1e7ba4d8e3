//! Small instances that were worked by hand.
ghost use Rattle.std.specs.Prelude.{◌≡◌, ◌≤◌, [], ◌∷◌, true, false, IfOk};
ghost use Rattle.rank_tables.specs.Instance.{pair_count};
ghost use Rattle.library_tests.specs.Worked.{tied};

use crate::drafts::{hospital, one, resident, three, two};
use hrt_base::NoMemory;
use rank_tables::{Draft, DraftHospital, DraftResident, Groups, Instance};
use std::alloc::Global;
use std::test::Fail;

// a: x y, b: x
fn two_residents(alloc: Global) -> Result<Vec<DraftResident>, NoMemory>
    ensures { IfOk result (λ residents. residents.items
        ≡ record { name = 97 ∷ []; groups = (0 ∷ []) ∷ (1 ∷ []) ∷ [] }
        ∷ record { name = 98 ∷ []; groups = (0 ∷ []) ∷ [] } ∷ []) }
{
    let a = resident(alloc, b"a".as_slice(), two(alloc, 0, 1, false)?)?;
    let b = resident(alloc, b"b".as_slice(), one(alloc, 0)?)?;
    Ok(vec![in alloc; a, b]?)
}

// x 1: (a b), y 1: a
fn tied_hospitals(alloc: Global) -> Result<Vec<DraftHospital>, NoMemory>
    ensures { IfOk result (λ hospitals. hospitals.items
        ≡ record { name = 120 ∷ []; capacity = 1; groups = (0 ∷ 1 ∷ []) ∷ [] }
        ∷ record { name = 121 ∷ []; capacity = 1; groups = (0 ∷ []) ∷ [] } ∷ []) }
{
    let x = hospital(alloc, b"x".as_slice(), 1, two(alloc, 0, 1, true)?)?;
    let y = hospital(alloc, b"y".as_slice(), 1, one(alloc, 0)?)?;
    Ok(vec![in alloc; x, y]?)
}

// x 1: a b, y 1: a
fn strict_hospitals(alloc: Global) -> Result<Vec<DraftHospital>, NoMemory>
    ensures { IfOk result (λ hospitals. hospitals.items
        ≡ record { name = 120 ∷ []; capacity = 1; groups = (0 ∷ []) ∷ (1 ∷ []) ∷ [] }
        ∷ record { name = 121 ∷ []; capacity = 1; groups = (0 ∷ []) ∷ [] } ∷ []) }
{
    let x = hospital(alloc, b"x".as_slice(), 1, two(alloc, 0, 1, false)?)?;
    let y = hospital(alloc, b"y".as_slice(), 1, one(alloc, 0)?)?;
    Ok(vec![in alloc; x, y]?)
}

/// a: x y, b: x; x 1: (a b), y 1: a
pub fn tied(alloc: Global) -> Result<Instance, Fail>
    ensures is { IfOk result (λ instance. instance ≡ tied) }
    ensures pairs { IfOk result (λ instance. pair_count instance ≡ 3) }
{
    let draft = Draft {
        residents: two_residents(alloc)?,
        hospitals: tied_hospitals(alloc)?,
    };
    let instance = Instance::build(alloc, draft)?;
    Ok(instance)
}

/// a: x y, b: x; x 1: a b, y 1: a
pub fn strict(alloc: Global) -> Result<Instance, Fail>
    ensures { IfOk result (λ instance. pair_count instance ≡ 3) }
{
    let draft = Draft {
        residents: two_residents(alloc)?,
        hospitals: strict_hospitals(alloc)?,
    };
    let instance = Instance::build(alloc, draft)?;
    Ok(instance)
}

// a: (x y) z, b: (x y), c: x
fn three_residents(alloc: Global) -> Result<Vec<DraftResident>, NoMemory>
    ensures { IfOk result (λ residents. residents.items
        ≡ record { name = 97 ∷ []; groups = (0 ∷ 1 ∷ []) ∷ (2 ∷ []) ∷ [] }
        ∷ record { name = 98 ∷ []; groups = (0 ∷ 1 ∷ []) ∷ [] }
        ∷ record { name = 99 ∷ []; groups = (0 ∷ []) ∷ [] } ∷ []) }
{
    let a = resident(alloc, b"a".as_slice(), three(alloc, 0, 1, false)?)?;
    let b = resident(alloc, b"b".as_slice(), two(alloc, 0, 1, true)?)?;
    let c = resident(alloc, b"c".as_slice(), one(alloc, 0)?)?;
    Ok(vec![in alloc; a, b, c]?)
}

// x 1: (a b) c, y 1: (a b), z 1: a
fn three_hospitals(alloc: Global) -> Result<Vec<DraftHospital>, NoMemory>
    ensures { IfOk result (λ hospitals. hospitals.items
        ≡ record { name = 120 ∷ []; capacity = 1; groups = (0 ∷ 1 ∷ []) ∷ (2 ∷ []) ∷ [] }
        ∷ record { name = 121 ∷ []; capacity = 1; groups = (0 ∷ 1 ∷ []) ∷ [] }
        ∷ record { name = 122 ∷ []; capacity = 1; groups = (0 ∷ []) ∷ [] } ∷ []) }
{
    let x = hospital(alloc, b"x".as_slice(), 1, three(alloc, 0, 1, false)?)?;
    let y = hospital(alloc, b"y".as_slice(), 1, two(alloc, 0, 1, true)?)?;
    let z = hospital(alloc, b"z".as_slice(), 1, one(alloc, 0)?)?;
    Ok(vec![in alloc; x, y, z]?)
}

/// a: (x y) z, b: (x y), c: x; x 1: (a b) c, y 1: (a b), z 1: a
pub fn three_by_three(alloc: Global) -> Result<Instance, Fail>
    ensures { IfOk result (λ instance. pair_count instance ≡ 6) }
{
    let draft = Draft {
        residents: three_residents(alloc)?,
        hospitals: three_hospitals(alloc)?,
    };
    let instance = Instance::build(alloc, draft)?;
    Ok(instance)
}

// a: x, b: x, c: x
fn one_list(alloc: Global) -> Result<Vec<DraftResident>, NoMemory>
    ensures { IfOk result (λ residents. residents.items
        ≡ record { name = 97 ∷ []; groups = (0 ∷ []) ∷ [] }
        ∷ record { name = 98 ∷ []; groups = (0 ∷ []) ∷ [] }
        ∷ record { name = 99 ∷ []; groups = (0 ∷ []) ∷ [] } ∷ []) }
{
    let a = resident(alloc, b"a".as_slice(), one(alloc, 0)?)?;
    let b = resident(alloc, b"b".as_slice(), one(alloc, 0)?)?;
    let c = resident(alloc, b"c".as_slice(), one(alloc, 0)?)?;
    Ok(vec![in alloc; a, b, c]?)
}

/// a: x, b: x, c: x; x with so many posts: (a b c)
pub fn one_hospital(alloc: Global, posts: u32) -> Result<Instance, Fail>
    requires { posts ≤ 3 }
{
    let x = hospital(alloc, b"x".as_slice(), posts, three(alloc, 0, 1, true)?)?;
    let draft = Draft {
        residents: one_list(alloc)?,
        hospitals: vec![in alloc; x]?,
    };
    let instance = Instance::build(alloc, draft)?;
    Ok(instance)
}

// a: x, b:
fn bare_residents(alloc: Global) -> Result<Vec<DraftResident>, NoMemory>
    ensures { IfOk result (λ residents. residents.items
        ≡ record { name = 97 ∷ []; groups = (1 ∷ []) ∷ [] } ∷ record { name = 98 ∷ []; groups = [] } ∷ []) }
{
    let a = resident(alloc, b"a".as_slice(), one(alloc, 1)?)?;
    let b = resident(alloc, b"b".as_slice(), Groups::new(alloc))?;
    Ok(vec![in alloc; a, b]?)
}

// y 3:, x 0: a
fn bare_hospitals(alloc: Global) -> Result<Vec<DraftHospital>, NoMemory>
    ensures { IfOk result (λ hospitals. hospitals.items
        ≡ record { name = 121 ∷ []; capacity = 3; groups = [] }
        ∷ record { name = 120 ∷ []; capacity = 0; groups = (0 ∷ []) ∷ [] } ∷ []) }
{
    let y = hospital(alloc, b"y".as_slice(), 3, Groups::new(alloc))?;
    let x = hospital(alloc, b"x".as_slice(), 0, one(alloc, 0)?)?;
    Ok(vec![in alloc; y, x]?)
}

/// a: x, b:; y 3:, x 0: a
pub fn bare(alloc: Global) -> Result<Instance, Fail> {
    let draft = Draft {
        residents: bare_residents(alloc)?,
        hospitals: bare_hospitals(alloc)?,
    };
    let instance = Instance::build(alloc, draft)?;
    Ok(instance)
}

/// No resident and no hospital.
pub fn empty(alloc: Global) -> Result<Instance, Fail>
    ensures { IfOk result (λ instance. pair_count instance ≡ 0) }
{
    let draft = Draft {
        residents: Vec::new(alloc),
        hospitals: Vec::new(alloc),
    };
    let instance = Instance::build(alloc, draft)?;
    Ok(instance)
}
