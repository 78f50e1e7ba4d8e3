// Sets of pairs, each known by a number: bit p - 1 of it says whether pair p is in the set.
ghost use Rattle.std.specs.Prelude.{◌≡◌, ◌≤◌, OnOk};
ghost use Rattle.rank_tables.specs.Tables.{numbers_of};
ghost use Rattle.plain_enumeration.specs.Sets.{members, most_pairs_tried};

use hrt_base::{NoMemory, PairNo};

// Makes `list` the pairs from 1 to the count that are in the set, rising.
pub fn list_members(set: u32, count: u32, list: &mut Vec<PairNo>) -> Result<(), NoMemory>
    requires { count ≤ most_pairs_tried }
    ensures { OnOk result (numbers_of list.new.items ≡ members set count) }
{
    list.clear();
    for bit in 0..count {
        if set >> bit & 1 == 1 {
            list.push(PairNo(bit + 1))?;
        }
    }
    Ok(())
}
