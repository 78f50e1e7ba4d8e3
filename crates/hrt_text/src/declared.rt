//! Names in the order of their declarations.

ghost use Rattle.std.specs.Prelude.{◌≡◌, ◌++◌, ◌∷◌, [], false, true, not, position, bytes_eq, IfOk, OnErr};
ghost use Rattle.rank_tables.specs.Names.{is_among};
ghost use Rattle.hrt_text.specs.Views.{texts};

use indexmap::IndexSet;
use std::alloc::AllocError;

/// Adds a name behind the others, and tells whether it is none of them. After want of memory the names are as before.
pub fn declare<'a>(names: &mut IndexSet<&'a [u8]>, name: &'a [u8]) -> Result<bool, AllocError>
    ensures fresh { IfOk result (λ fresh. fresh ≡ not (is_among name.entry.now (texts names.old.keys))) }
    ensures added { IfOk result (λ fresh. fresh ≡ true → texts names.new.keys ≡ texts names.old.keys ++ name.entry.now ∷ []) }
    ensures kept { IfOk result (λ fresh. fresh ≡ false → texts names.new.keys ≡ texts names.old.keys) }
    ensures unchanged { OnErr result (texts names.new.keys ≡ texts names.old.keys) }
{
    let (_, fresh) = names.insert_full(name)?;
    Ok(fresh)
}

/// The number of a name.
pub fn number_of(names: &IndexSet<&[u8]>, name: &[u8]) -> Option<usize>
    ensures { result ≡ position (bytes_eq name.now) (texts names.now.keys) }
{
    names.get_index_of(&name)
}
