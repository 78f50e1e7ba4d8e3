// Drafts of recipes, against lists that another program drew from the same recipes.
ghost use Rattle.instance_gen.specs.Drafts.{IsRecipe};

use hrt_base::NoMemory;
use instance_gen::{Recipe, generate};
use rank_tables::Groups;
use std::alloc::Global;
use std::test::Fail;

// Adds the groups of a list, each in parentheses, by the digits of its numbers.
fn push_groups(text: &mut Vec<u8>, groups: &Groups) -> Result<(), NoMemory> {
    for k in 0..groups.count() {
        text.push(b'(')?;
        for number in groups.group(k) {
            text.push(b'0' + (*number % 10) as u8)?;
        }
        text.push(b')')?;
    }
    text.push(b' ')?;
    Ok(())
}

// The draft of a recipe as text.
fn text_of(alloc: Global, recipe: &Recipe) -> Result<Vec<u8>, NoMemory>
    requires { IsRecipe recipe.now }
{
    let draft = generate(alloc, recipe)?;
    let mut text = Vec::new(alloc);
    for resident in &draft.residents {
        text.extend_from_slice(resident.name.bytes())?;
        push_groups(&mut text, &resident.groups)?;
    }
    for hospital in &draft.hospitals {
        text.extend_from_slice(hospital.name.bytes())?;
        text.push(b'=')?;
        text.push(b'0' + (hospital.capacity % 10) as u8)?;
        push_groups(&mut text, &hospital.groups)?;
    }
    Ok(text)
}

#[test]
fn one_pair(rt: HostRuntime) -> Result<(), Fail> {
    let recipe = Recipe {
        residents: 1,
        hospitals: 1,
        choices: 1,
        seats: 1,
        resident_ties: 0,
        hospital_ties: 0,
        number: 9,
    };
    let text = text_of(rt.alloc(), &recipe)?;
    assert_eq!(rt; text.as_slice(), b"r1(0) h1=1(0) ".as_slice());
    Ok(())
}

#[test]
fn ties_on_both_sides(rt: HostRuntime) -> Result<(), Fail> {
    let recipe = Recipe {
        residents: 4,
        hospitals: 3,
        choices: 2,
        seats: 5,
        resident_ties: 40,
        hospital_ties: 60,
        number: 7,
    };
    let text = text_of(rt.alloc(), &recipe)?;
    let known = b"r1(1)(0) r2(20) r3(02) r4(20) h1=2(3012) h2=2(0) h3=1(3)(21) ";
    assert_eq!(rt; text.as_slice(), known.as_slice());
    Ok(())
}

#[test]
fn greatest_number(rt: HostRuntime) -> Result<(), Fail> {
    let recipe = Recipe {
        residents: 3,
        hospitals: 4,
        choices: 4,
        seats: 2,
        resident_ties: 100,
        hospital_ties: 0,
        number: u64::MAX,
    };
    let text = text_of(rt.alloc(), &recipe)?;
    let known =
        b"r1(2130) r2(0321) r3(0123) h1=1(1)(2)(0) h2=1(2)(0)(1) h3=0(0)(1)(2) h4=0(0)(1)(2) ";
    assert_eq!(rt; text.as_slice(), known.as_slice());
    Ok(())
}

#[test]
fn nobody(rt: HostRuntime) -> Result<(), Fail> {
    let recipe = Recipe {
        residents: 0,
        hospitals: 2,
        choices: 0,
        seats: 3,
        resident_ties: 0,
        hospital_ties: 0,
        number: 0,
    };
    let text = text_of(rt.alloc(), &recipe)?;
    assert_eq!(rt; text.as_slice(), b"h1=2 h2=1 ".as_slice());
    Ok(())
}

#[test]
fn more_hospitals_than_choices(rt: HostRuntime) -> Result<(), Fail> {
    let recipe = Recipe {
        residents: 5,
        hospitals: 5,
        choices: 3,
        seats: 20,
        resident_ties: 30,
        hospital_ties: 30,
        number: 123_456_789_012_345,
    };
    let text = text_of(rt.alloc(), &recipe)?;
    let known =
        b"r1(4)(02) r2(2)(1)(0) r3(0)(4)(1) r4(4)(13) r5(431) h1=4(2)(0)(1) h2=4(32)(41) h3=4(1)(0) h4=4(4)(3) h5=4(3)(0)(4)(2) ";
    assert_eq!(rt; text.as_slice(), known.as_slice());
    Ok(())
}
