// Numbers that are drawn.
ghost use Rattle.std.specs.Prelude.{◌≡◌, ◌<◌, ◌≤◌, ℕ, List, OnOk, length};
ghost use Rattle.std.specs.List.{All};
ghost use Rattle.instance_gen.specs.Draws.{after_draw, drawn, seeded, shuffled};
ghost use Rattle.instance_gen.specs.Swaps.{AreSwaps, swapped};

use hrt_base::NoMemory;
use rand_core::SeedableRng;
use rand_core::utils::NextWord;
use rand_pcg::Lcg64Xsh32;

/// The generator of a number.
pub fn start(number: u64) -> Lcg64Xsh32
    ensures { result ≡ seeded number }
{
    Lcg64Xsh32::seed_from_u64(number)
}

/// A number below `most`.
pub fn draw(words: &mut Lcg64Xsh32, most: u32) -> u32
    requires { 0 < most }
    ensures below { result < most }
    ensures value { result ≡ drawn most words.old }
    ensures rest { words.new ≡ after_draw words.old }
{
    let word = words.next_word();
    ((word as u64 * most as u64) >> 32) as u32
}

/// Puts a drawn one of the numbers at each of so many first places, and notes from which place it came.
pub fn shuffle(
    numbers: &mut [u32],
    steps: u32,
    places: &mut Vec<u32>,
    words: &mut Lcg64Xsh32,
) -> Result<(), NoMemory>
    requires few { length numbers.old ≤ 20000 }
    requires steps { steps ≤ length numbers.old }
    ensures numbers { OnOk result (numbers.new ≡ (shuffled steps 0 numbers.old words.old).value) }
    ensures words { OnOk result (words.new ≡ (shuffled steps 0 numbers.old words.old).rest) }
    ensures count { length numbers.new ≡ length numbers.old }
    ensures places { OnOk result (AreSwaps numbers.old places.new.items numbers.new) }
{
    let count = numbers.len() as u32;
    places.clear();
    for place in 0..steps {
        let other = place + draw(words, count - place);
        numbers.swap(place as usize, other as usize);
        places.push(other)?;
    }
    Ok(())
}

/// Takes the swaps of a shuffle back, by the places that it noted.
pub fn swap_back(numbers: &mut [u32], places: &[u32])
    requires { (before : List ℕ) × AreSwaps before places.now numbers.old }
    ensures { (before : List ℕ) → AreSwaps before places.now numbers.old → numbers.new ≡ before }
{
    let mut left = places.len();
    while left > 0 {
        left -= 1;
        numbers.swap(left, places[left] as usize);
    }
}
