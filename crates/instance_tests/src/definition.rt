//! Small instances by a fixed rule, and the definition of weak stability, written out plainly once more.
ghost use Rattle.std.specs.Prelude.{◌<◌, ◌≤◌, IfSome};

use hrt_base::NoMemory;
use std::alloc::Global;

const RESIDENTS: [&str; 3] = ["a", "b", "c"];

const HOSPITALS: [&str; 3] = ["x", "y", "z"];

/// Three residents and three hospitals. A rank of 0 says that the one doesn't name the other.
#[derive(Drop)]
pub struct Small {
    by_resident: [[u32; 3]; 3],
    by_hospital: [[u32; 3]; 3],
    posts: [u32; 3],
}

/// Which pairs of resident and hospital are chosen.
pub type Chosen = [[bool; 3]; 3];

// A linear congruential generator: a number less than `below`.
fn next(state: &mut u32, below: u32) -> u32 {
    *state = state.wrapping_mul(1_664_525).wrapping_add(1_013_904_223);
    (*state >> 16).checked_rem(below).unwrap_or(0)
}

/// The instance of a number: ranks from 0 to 3, posts from 0 to 3.
pub fn instance_of(number: u32) -> Small {
    let mut state = number;
    let mut small = Small {
        by_resident: [[0; 3]; 3],
        by_hospital: [[0; 3]; 3],
        posts: [0; 3],
    };
    for one in 0..3 {
        for other in 0..3 {
            small.by_resident[one][other] = next(&mut state, 4);
            small.by_hospital[one][other] = next(&mut state, 4);
        }
        small.posts[one] = next(&mut state, 4);
    }
    small
}

impl Small {
    /// The rank of hospital h with resident r, 0 where it is not named.
    pub fn rank_by_resident(&self, r: usize, h: usize) -> u32
        requires r { r < 3 }
        requires h { h < 3 }
    {
        self.by_resident[r][h]
    }

    /// The rank of resident r with hospital h, 0 where it is not named.
    pub fn rank_by_hospital(&self, r: usize, h: usize) -> u32
        requires r { r < 3 }
        requires h { h < 3 }
    {
        self.by_hospital[h][r]
    }

    /// Whether each names the other.
    pub fn is_acceptable(&self, r: usize, h: usize) -> bool
        requires r { r < 3 }
        requires h { h < 3 }
    {
        self.by_resident[r][h] > 0 && self.by_hospital[h][r] > 0
    }

    /// The text of the instance.
    pub fn text(&self, alloc: Global) -> Result<Vec<u8>, NoMemory> {
        let mut text = Vec::new(alloc);
        text.extend_from_slice(b"hrt 1\n")?;
        for r in 0..3 {
            text.extend_from_slice(b"resident ")?;
            text.extend_from_slice(RESIDENTS[r].as_bytes())?;
            text.extend_from_slice(b":")?;
            push_groups(&mut text, &self.by_resident[r], &HOSPITALS)?;
        }
        for h in 0..3 {
            text.extend_from_slice(b"hospital ")?;
            text.extend_from_slice(HOSPITALS[h].as_bytes())?;
            text.extend_from_slice(match self.posts[h] {
                0 => b" 0:",
                1 => b" 1:",
                2 => b" 2:",
                _ => b" 3:",
            })?;
            push_groups(&mut text, &self.by_hospital[h], &RESIDENTS)?;
        }
        text.extend_from_slice(b"end\n")?;
        Ok(text)
    }

    /// How many posts hospital h has.
    pub fn posts_of(&self, h: usize) -> u32
        requires { h < 3 }
    {
        self.posts[h].min(3)
    }

    fn blocks(&self, chosen: &Chosen, r: usize, h: usize) -> bool
        requires r { r < 3 }
        requires h { h < 3 }
    {
        if !self.is_acceptable(r, h) || chosen[r][h] {
            return false;
        }
        let resident_wants = (0..3).all(|other: usize| {
            other >= 3 || !chosen[r][other] || self.by_resident[r][h] < self.by_resident[r][other]
        });
        let is_free = residents_at(chosen, h) < self.posts_of(h);
        let hospital_wants = is_free
            || (0..3).any(|other: usize| {
                other < 3 && chosen[other][h] && self.by_hospital[h][r] < self.by_hospital[h][other]
            });
        resident_wants && hospital_wants
    }

    // The first hospital above its capacity.
    fn first_over(&self, chosen: &Chosen) -> Option<usize>
        ensures { IfSome result (λ h. h < 3) }
    {
        for h in 0..3 {
            if residents_at(chosen, h) > self.posts_of(h) {
                return Some(h);
            }
        }
        None
    }

    // The first hospital of a resident's list with which it blocks.
    fn first_blocking_with(&self, chosen: &Chosen, r: usize) -> Option<usize>
        requires { r < 3 }
        ensures { IfSome result (λ h. h < 3) }
    {
        for rank in 1..4u32 {
            for h in 0..3 {
                if self.by_resident[r][h] == rank && self.blocks(chosen, r, h) {
                    return Some(h);
                }
            }
        }
        None
    }

    // The report that a pair blocks, of the first resident that does so.
    fn blocked(&self, alloc: Global, chosen: &Chosen) -> Result<Option<Vec<u8>>, NoMemory> {
        for r in 0..3 {
            if let Some(h) = self.first_blocking_with(chosen, r) {
                let report = line(alloc, &["blocked ", RESIDENTS[r], " ", HOSPITALS[h]])?;
                return Ok(Some(report));
            }
        }
        Ok(None)
    }

    /// The report of an audit, from the definition.
    pub fn report(&self, alloc: Global, chosen: &Chosen) -> Result<Vec<u8>, NoMemory> {
        if let Some(r) = first_twice(chosen) {
            return line(alloc, &["resident-twice ", RESIDENTS[r]]);
        }
        if let Some(h) = self.first_over(chosen) {
            return line(alloc, &["over-capacity ", HOSPITALS[h]]);
        }
        if let Some(report) = self.blocked(alloc, chosen)? {
            return Ok(report);
        }
        let size = hospitals_of(chosen, 0) + hospitals_of(chosen, 1) + hospitals_of(chosen, 2);
        line(
            alloc,
            &[
                "stable\nsize ",
                ["0", "1", "2", "3"][(size as usize).min(3)],
            ],
        )
    }
}

// The first resident in two pairs.
fn first_twice(chosen: &Chosen) -> Option<usize>
    ensures { IfSome result (λ r. r < 3) }
{
    for r in 0..3 {
        if hospitals_of(chosen, r) >= 2 {
            return Some(r);
        }
    }
    None
}

fn hospitals_of(chosen: &Chosen, r: usize) -> u32
    requires { r < 3 }
    ensures { result ≤ 3 }
{
    chosen[r][0] as u32 + chosen[r][1] as u32 + chosen[r][2] as u32
}

fn residents_at(chosen: &Chosen, h: usize) -> u32
    requires { h < 3 }
    ensures { result ≤ 3 }
{
    chosen[0][h] as u32 + chosen[1][h] as u32 + chosen[2][h] as u32
}

fn line(alloc: Global, parts: &[&str]) -> Result<Vec<u8>, NoMemory> {
    let mut line = Vec::new(alloc);
    for part in parts {
        line.extend_from_slice(part.as_bytes())?;
    }
    line.push(b'\n')?;
    Ok(line)
}

// The names by rank, those of one rank in parentheses, to the end of the line.
fn push_groups(text: &mut Vec<u8>, ranks: &[u32; 3], names: &[&str; 3]) -> Result<(), NoMemory> {
    for rank in 1..4u32 {
        text.extend_from_slice(b" (")?;
        let before = text.len();
        for other in 0..3 {
            if ranks[other] == rank {
                text.extend_from_slice(names[other].as_bytes())?;
                text.push(b' ')?;
            }
        }
        if text.len() == before {
            text.pop();
            text.pop();
        } else {
            text.push(b')')?;
        }
    }
    text.push(b'\n')?;
    Ok(())
}

// The chosen cells of a number's bits, or None where one of them is no acceptable pair.
pub fn chosen_of(small: &Small, bits: u32) -> Option<Chosen> {
    let mut chosen = [[false; 3]; 3];
    for r in 0..3 {
        for h in 0..3 {
            if bits >> (3 * r as u32 + h as u32).min(8) & 1 == 1 {
                if !small.is_acceptable(r, h) {
                    return None;
                }
                chosen[r][h] = true;
            }
        }
    }
    Some(chosen)
}

/// The text of the chosen pairs.
pub fn pairs_text(alloc: Global, chosen: &Chosen) -> Result<Vec<u8>, NoMemory> {
    let mut text = Vec::new(alloc);
    for r in 0..3 {
        for h in 0..3 {
            if chosen[r][h] {
                text.extend_from_slice(b"pair ")?;
                text.extend_from_slice(RESIDENTS[r].as_bytes())?;
                text.push(b' ')?;
                text.extend_from_slice(HOSPITALS[h].as_bytes())?;
                text.push(b'\n')?;
            }
        }
    }
    Ok(text)
}
