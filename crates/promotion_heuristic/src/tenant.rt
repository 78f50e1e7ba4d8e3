// What a hospital keeps of a resident that it took.

/// A resident that a hospital has taken. Of two, the worse one is the greater: it is ranked lower, or unpromoted, or has the
/// greater number.
#[derive(Clone, Copy, Debug, PartialEq, Eq, PartialOrd, Ord)]
pub struct Tenant {
    pub rank: u32,
    pub unpromoted: bool,
    pub resident: u32,
}
