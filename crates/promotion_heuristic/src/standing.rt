// How far a resident has come.

/// Where a resident stands in its list of pairs. It is promoted while it goes through the list a second time.
#[derive(Clone, Copy, Debug)]
pub struct Standing {
    /// The last pair that it proposed to in this pass, 0 at the top of its list.
    pub last: u32,
    pub promoted: bool,
    /// Whether the hospital of that pair has taken it.
    pub assigned: bool,
}
