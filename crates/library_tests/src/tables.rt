//! Lists with ties, and the tables of an instance: each public call once, with ample memory.
ghost use Rattle.std.specs.Prelude.{◌≡◌, ◌≤◌, [], ◌∷◌, length, IfOk};
ghost use Rattle.rank_tables.specs.Instance.{pair_count};

use crate::drafts::{hospital, one, resident, three, two};
use hrt_base::{NoMemory, PairNo};
use rank_tables::{Draft, DraftHospital, DraftResident, Groups, Instance, Name};
use std::alloc::Global;
use std::test::Fail;

#[test]
fn a_name(rt: HostRuntime) -> Result<(), Fail> {
    let name = Name::new(rt.alloc(), b"anna".as_slice())?;
    assert_eq!(rt; name.bytes(), b"anna".as_slice());
    Ok(())
}

#[test]
fn groups(rt: HostRuntime) -> Result<(), Fail> {
    let mut list = Groups::new(rt.alloc());
    assert_eq!(rt; list.count(), 0);
    list.push(4, false)?;
    list.push(2, true)?;
    list.push(7, false)?;
    assert_eq!(rt; list.count(), 2);
    assert_eq!(rt; list.group(0), [4, 2].as_slice());
    assert_eq!(rt; list.group(1), [7].as_slice());
    Ok(())
}

// a: (x y) z, b: y x, c: x z
fn residents(alloc: Global) -> Result<Vec<DraftResident>, NoMemory>
    ensures { IfOk result (λ residents. residents.items
        ≡ record { name = 97 ∷ []; groups = (0 ∷ 1 ∷ []) ∷ (2 ∷ []) ∷ [] }
        ∷ record { name = 98 ∷ []; groups = (1 ∷ []) ∷ (0 ∷ []) ∷ [] }
        ∷ record { name = 99 ∷ []; groups = (0 ∷ []) ∷ (2 ∷ []) ∷ [] } ∷ []) }
{
    let a = resident(alloc, b"a".as_slice(), three(alloc, 0, 1, false)?)?;
    let b = resident(alloc, b"b".as_slice(), two(alloc, 1, 0, false)?)?;
    let c = resident(alloc, b"c".as_slice(), two(alloc, 0, 2, false)?)?;
    Ok(vec![in alloc; a, b, c]?)
}

// x 1: (b a) c, y 2: b a, z 1: a
fn hospitals(alloc: Global) -> Result<Vec<DraftHospital>, NoMemory>
    ensures { IfOk result (λ hospitals. hospitals.items
        ≡ record { name = 120 ∷ []; capacity = 1; groups = (1 ∷ 0 ∷ []) ∷ (2 ∷ []) ∷ [] }
        ∷ record { name = 121 ∷ []; capacity = 2; groups = (1 ∷ []) ∷ (0 ∷ []) ∷ [] }
        ∷ record { name = 122 ∷ []; capacity = 1; groups = (0 ∷ []) ∷ [] } ∷ []) }
{
    let x = hospital(alloc, b"x".as_slice(), 1, three(alloc, 1, 0, false)?)?;
    let y = hospital(alloc, b"y".as_slice(), 2, two(alloc, 1, 0, false)?)?;
    let z = hospital(alloc, b"z".as_slice(), 1, one(alloc, 0)?)?;
    Ok(vec![in alloc; x, y, z]?)
}

// The instance of these lists, of six pairs.
fn sample(alloc: Global) -> Result<Instance, Fail>
    ensures residents { IfOk result (λ instance. length instance.residents ≡ 3) }
    ensures hospitals { IfOk result (λ instance. length instance.hospitals ≡ 3) }
    ensures pairs { IfOk result (λ instance. pair_count instance ≡ 6) }
{
    let draft = Draft {
        residents: residents(alloc)?,
        hospitals: hospitals(alloc)?,
    };
    let instance = Instance::build(alloc, draft)?;
    Ok(instance)
}

#[test]
fn counts_and_lists(rt: HostRuntime) -> Result<(), Fail> {
    let instance = sample(rt.alloc())?;
    assert_eq!(rt; instance.residents(), 3);
    assert_eq!(rt; instance.hospitals(), 3);
    assert_eq!(rt; instance.pairs(), 6);
    assert_eq!(rt; instance.one_sided(), 1);
    assert_eq!(rt; instance.model_terms(), 28);
    assert_eq!(rt; instance.capacity(1), 2);
    assert_eq!(rt; instance.resident_name(2).bytes(), b"c".as_slice());
    assert_eq!(rt; instance.hospital_name(2).bytes(), b"z".as_slice());
    assert_eq!(rt; instance.resident_list(2).count(), 2);
    assert_eq!(rt; instance.hospital_list(0).count(), 2);
    Ok(())
}

#[test]
fn pairs(rt: HostRuntime) -> Result<(), Fail> {
    let instance = sample(rt.alloc())?;
    assert_eq!(rt; instance.pair_no(1, 0), Some(PairNo(5)));
    assert_eq!(rt; instance.pair_no(2, 2), None);
    assert_eq!(rt;
        instance.pairs_of_resident(1),
        [PairNo(4), PairNo(5)].as_slice()
    );
    assert_eq!(rt;
        instance.pairs_of_hospital(0),
        [PairNo(5), PairNo(1), PairNo(6)].as_slice()
    );
    assert_eq!(rt; instance.resident_of(PairNo(6)), 2);
    assert_eq!(rt; instance.hospital_of(PairNo(6)), 0);
    assert_eq!(rt; instance.rank_by_resident(PairNo(3)), 2);
    assert_eq!(rt; instance.rank_by_hospital(PairNo(6)), 2);
    Ok(())
}

#[test]
fn preferences(rt: HostRuntime) -> Result<(), Fail> {
    let instance = sample(rt.alloc())?;
    let resident = instance.resident_of(PairNo(1));
    assert_eq!(rt; instance.resident_of(PairNo(2)), resident);
    assert_eq!(rt; instance.resident_of(PairNo(3)), resident);
    assert!(rt; instance.resident_prefers(PairNo(1), PairNo(3)));
    assert!(rt;
        !instance.resident_prefers(PairNo(1), PairNo(2)),
        "x and y are tied"
    );
    let hospital = instance.hospital_of(PairNo(5));
    assert_eq!(rt; instance.hospital_of(PairNo(1)), hospital);
    assert_eq!(rt; instance.hospital_of(PairNo(6)), hospital);
    assert!(rt; instance.hospital_prefers(PairNo(5), PairNo(6)));
    assert!(rt;
        !instance.hospital_prefers(PairNo(5), PairNo(1)),
        "a and b are tied"
    );
    Ok(())
}

// a: y x, b: y x
fn two_residents(alloc: Global) -> Result<Vec<DraftResident>, NoMemory>
    ensures { IfOk result (λ residents. residents.items
        ≡ record { name = 97 ∷ []; groups = (1 ∷ []) ∷ (0 ∷ []) ∷ [] } ∷ record { name = 98 ∷ []; groups = (1 ∷ []) ∷ (0 ∷ []) ∷ [] } ∷ []) }
{
    let a = resident(alloc, b"a".as_slice(), two(alloc, 1, 0, false)?)?;
    let b = resident(alloc, b"b".as_slice(), two(alloc, 1, 0, false)?)?;
    Ok(vec![in alloc; a, b]?)
}

// x with so many posts: (a b), y 1: a b
fn two_hospitals(alloc: Global, capacity: u32) -> Result<Vec<DraftHospital>, NoMemory>
    ensures { IfOk result (λ hospitals. hospitals.items
        ≡ record { name = 120 ∷ []; capacity = capacity; groups = (0 ∷ 1 ∷ []) ∷ [] }
        ∷ record { name = 121 ∷ []; capacity = 1; groups = (0 ∷ []) ∷ (1 ∷ []) ∷ [] } ∷ []) }
{
    let x = hospital(alloc, b"x".as_slice(), capacity, two(alloc, 0, 1, true)?)?;
    let y = hospital(alloc, b"y".as_slice(), 1, two(alloc, 0, 1, false)?)?;
    Ok(vec![in alloc; x, y]?)
}

// The terms of that instance.
fn terms_with_posts(alloc: Global, capacity: u32) -> Result<u32, Fail>
    requires { capacity ≤ 20000 }
{
    let draft = Draft {
        residents: two_residents(alloc)?,
        hospitals: two_hospitals(alloc, capacity)?,
    };
    let instance = Instance::build(alloc, draft)?;
    Ok(instance.model_terms())
}

// Each row of a resident and of a hospital has 2 terms. The pairs are 1 (a y), 2 (a x), 3 (b y), 4 (b x): without a post at x
// their own rows have the pairs 1, 2 4, 1 3, 2 4, and with one or two the second has also 1 and the fourth 3.
#[test]
fn terms(rt: HostRuntime) -> Result<(), Fail> {
    assert_eq!(rt; terms_with_posts(rt.alloc(), 0)?, 15);
    assert_eq!(rt; terms_with_posts(rt.alloc(), 1)?, 17);
    assert_eq!(rt; terms_with_posts(rt.alloc(), 2)?, 17);
    Ok(())
}
