// Rows as they are written.
use hrt_base::Term;
use std::marker::Model;

/// A row as it is written: the terms sum to at least the number. Coefficients may be negative or 0, variables may recur.
#[derive(Debug, Drop)]
pub struct Written {
    pub terms: Vec<Term>,
    pub at_least: i128,
}

impl Model for Written {
    ghost use Rattle.pb_rows.specs.Terms.{Written};

    ghost Value = { Written };

    ghost view = { λ w. record { terms = w.terms.items; at_least = w.at_least } };
}
