// Values kept under numbers: ranks under the numbers of a list, and a table of such values that is cleared again.
ghost use Rattle.std.specs.Prelude.{◌≡◌, ◌<◌, ◌^◌, ◌++◌, ℕ, length, map, fold, All, IsTrue, IfOk, OnOk, slice_index};
ghost use Rattle.std.specs.List.{concat};
ghost use Rattle.rank_tables.specs.Numbers.{is_distinct};
ghost use Rattle.rank_tables.specs.Building.{mark_of, with_ranks, marked, cleared};

use crate::Groups;
use std::alloc::{AllocError, Global};

/// A value, and the number under which it is kept.
#[derive(Clone, Copy, Debug)]
pub struct Mark {
    pub number: u32,
    pub value: u32,
}

// The numbers of a list in its order, each with its rank.
pub fn ranked(alloc: Global, groups: &Groups) -> Result<Vec<Mark>, AllocError>
    requires few { length groups.now < 2 ^ 32 }
    requires distinct { IsTrue (is_distinct (concat groups.now)) }
    ensures { IfOk result (λ list. list.items ≡ with_ranks groups.now) }
{
    let mut list = Vec::new(alloc);
    for k in 0..groups.count() {
        add_group(&mut list, groups.group(k), k as u32 + 1)?;
    }
    Ok(list)
}

// Adds the numbers of one group, which share a rank.
fn add_group(list: &mut Vec<Mark>, group: &[u32], rank: u32) -> Result<(), AllocError>
    ensures { OnOk result (list.new.items ≡ list.old.items ++ map (λ x. mark_of x rank) group.now) }
{
    for x in group {
        list.push(Mark {
            number: *x,
            value: rank,
        })?;
    }
    Ok(())
}

// Writes each value at its number.
pub fn stamp(table: &mut [u32], marks: &[Mark])
    requires { All (λ m. m.number < length table.old) marks.now }
    ensures { (i : ℕ) → slice_index table.new i ≡ marked i marks.now (slice_index table.old i) }
{
    for m in marks {
        table[m.number as usize] = m.value;
    }
}

// Writes 0 at each number.
pub fn clear(table: &mut [u32], marks: &[Mark])
    requires { All (λ m. m.number < length table.old) marks.now }
    ensures { (i : ℕ) → slice_index table.new i ≡ cleared i marks.now (slice_index table.old i) }
{
    for m in marks {
        table[m.number as usize] = 0;
    }
}
