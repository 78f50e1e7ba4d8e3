// Variables, literals and terms of pseudo-Boolean rows.

/// A variable, numbered from 1, or its opposite where `neg` is true.
#[derive(Clone, Copy, Debug, PartialEq, Eq)]
pub struct Lit {
    pub var: u32,
    pub neg: bool,
}

/// A literal with its coefficient.
#[derive(Clone, Copy, Debug, PartialEq, Eq)]
pub struct Term {
    pub coef: i128,
    pub lit: Lit,
}

/// What a variable is known to be.
#[derive(Clone, Copy, Debug, PartialEq, Eq)]
pub enum Value {
    Free,
    True,
    False,
}
