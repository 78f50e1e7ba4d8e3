// Literals and terms in short.
use hrt_base::{Lit, Term};

/// A literal: the variable, or its negation.
pub fn lit(var: u32, neg: bool) -> Lit {
    Lit { var, neg }
}

/// A term of a variable.
pub fn plain(coef: i128, var: u32) -> Term {
    Term {
        coef,
        lit: lit(var, false),
    }
}

/// A term of a variable's negation.
pub fn negated(coef: i128, var: u32) -> Term {
    Term {
        coef,
        lit: lit(var, true),
    }
}
