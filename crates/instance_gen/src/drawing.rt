// The draft of a recipe.
ghost use Rattle.std.specs.Prelude.{◌≡◌, ◌<◌, ◌≤◌, IfOk, OnOk, length};
ghost use Rattle.rank_tables.specs.Instance.{lists_of};
ghost use Rattle.rank_tables.specs.Numbers.{below};
ghost use Rattle.rank_tables.specs.WellFormed.{IsWellFormed};
ghost use Rattle.instance_gen.specs.Drafts.{IsRecipe, draft_of, hospital_list, hospitals_drawn, posts, resident_list, residents_drawn};

use crate::Recipe;
use crate::choosers::choosers_of;
use crate::draws::{shuffle, start, swap_back};
use crate::lists::tie;
use crate::naming::name_of;
use hrt_base::NoMemory;
use rand_pcg::Lcg64Xsh32;
use rank_tables::{Draft, DraftHospital, DraftResident, Groups};
use std::alloc::Global;

/// Makes the draft of a recipe: lists that depend on nothing but the recipe, and that an instance may be built from.
pub fn generate(alloc: Global, recipe: &Recipe) -> Result<Draft, NoMemory>
    requires { IsRecipe recipe.now }
    ensures draft { IfOk result (λ draft. lists_of draft ≡ draft_of recipe.now) }
    ensures well_formed { IfOk result (λ draft. IsWellFormed (lists_of draft)) }
{
    let mut words = start(recipe.number);
    let residents = draw_residents(alloc, recipe, &mut words)?;
    let hospitals = draw_hospitals(alloc, recipe, &residents, &mut words)?;
    Ok(Draft {
        residents,
        hospitals,
    })
}

// The residents, one after another.
fn draw_residents(
    alloc: Global,
    recipe: &Recipe,
    words: &mut Lcg64Xsh32,
) -> Result<Vec<DraftResident>, NoMemory>
    requires { IsRecipe recipe.now }
    ensures drawn { IfOk result (λ residents. residents.items ≡ (residents_drawn recipe.now recipe.now.residents words.old).value) }
    ensures words { OnOk result (words.new ≡ (residents_drawn recipe.now recipe.now.residents words.old).rest) }
{
    let mut numbers = numbers_below(alloc, recipe.hospitals)?;
    let mut places = Vec::new(alloc);
    let mut residents = Vec::new(alloc);
    for before in 0..recipe.residents {
        let groups = draw_resident(alloc, recipe, &mut numbers, &mut places, words)?;
        residents.push(DraftResident {
            name: name_of(alloc, b'r', before + 1)?,
            groups,
        })?;
    }
    Ok(residents)
}

// The list of a resident. The numbers are put into a drawn order for it, and back.
fn draw_resident(
    alloc: Global,
    recipe: &Recipe,
    numbers: &mut [u32],
    places: &mut Vec<u32>,
    words: &mut Lcg64Xsh32,
) -> Result<Groups, NoMemory>
    requires recipe { IsRecipe recipe.now }
    requires numbers { numbers.old ≡ below recipe.now.hospitals }
    ensures drawn { IfOk result (λ groups. groups ≡ (resident_list recipe.now words.old).value) }
    ensures words { OnOk result (words.new ≡ (resident_list recipe.now words.old).rest) }
    ensures numbers { OnOk result (numbers.new ≡ numbers.old) }
{
    shuffle(numbers, recipe.choices, places, words)?;
    let groups = tie(
        alloc,
        &numbers[..recipe.choices as usize],
        recipe.resident_ties,
        words,
    )?;
    swap_back(numbers, places);
    Ok(groups)
}

// The hospitals, one after another.
fn draw_hospitals(
    alloc: Global,
    recipe: &Recipe,
    residents: &[DraftResident],
    words: &mut Lcg64Xsh32,
) -> Result<Vec<DraftHospital>, NoMemory>
    requires recipe { IsRecipe recipe.now }
    requires few { length residents.now ≤ 20000 }
    ensures drawn { IfOk result (λ hospitals. hospitals.items ≡ (hospitals_drawn recipe.now residents.now recipe.now.hospitals words.old).value) }
{
    let mut rows = choosers_of(alloc, recipe.hospitals, residents)?;
    let mut places = Vec::new(alloc);
    let mut hospitals = Vec::new(alloc);
    for before in 0..recipe.hospitals {
        let choosers = &mut rows[before as usize];
        let groups = draw_hospital(alloc, recipe, choosers, &mut places, words)?;
        hospitals.push(DraftHospital {
            name: name_of(alloc, b'h', before + 1)?,
            capacity: posts_of(recipe, before),
            groups,
        })?;
    }
    Ok(hospitals)
}

// The list of a hospital, of those that chose it. They are put into another order.
fn draw_hospital(
    alloc: Global,
    recipe: &Recipe,
    choosers: &mut Vec<u32>,
    places: &mut Vec<u32>,
    words: &mut Lcg64Xsh32,
) -> Result<Groups, NoMemory>
    requires { length choosers.old.items ≤ 20000 }
    ensures drawn { IfOk result (λ groups. groups ≡ (hospital_list recipe.now choosers.old.items words.old).value) }
    ensures words { OnOk result (words.new ≡ (hospital_list recipe.now choosers.old.items words.old).rest) }
{
    let steps = (choosers.len() as u32).saturating_sub(1);
    shuffle(choosers, steps, places, words)?;
    tie(alloc, choosers, recipe.hospital_ties, words)
}

// How many posts a hospital has, by its number from 0 on.
fn posts_of(recipe: &Recipe, before: u32) -> u32
    requires recipe { IsRecipe recipe.now }
    requires hospital { before < recipe.now.hospitals }
    ensures { result ≡ posts recipe.now before }
{
    let each = recipe.seats / recipe.hospitals;
    if before < recipe.seats % recipe.hospitals {
        each + 1
    } else {
        each
    }
}

// 0 up to, but without, the count.
fn numbers_below(alloc: Global, count: u32) -> Result<Vec<u32>, NoMemory>
    ensures { IfOk result (λ numbers. numbers.items ≡ below count) }
{
    let mut numbers = Vec::new(alloc);
    for number in 0..count {
        numbers.push(number)?;
    }
    Ok(numbers)
}
