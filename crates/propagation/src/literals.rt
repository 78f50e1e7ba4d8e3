// Literals and the values of their variables.
ghost use Rattle.std.specs.Prelude.{◌≡◌};
ghost use Rattle.pb_rows.specs.Terms.{opposite_lit};
ghost use Rattle.pb_rows.specs.Closure.{makes_true};
ghost use Rattle.propagation.specs.Tables.{value_for};

use hrt_base::{Lit, Value};

/// The opposite literal.
pub fn opposite(lit: Lit) -> Lit
    ensures { result ≡ opposite_lit lit }
{
    Lit {
        var: lit.var,
        neg: !lit.neg,
    }
}

/// Tells whether a variable's value makes true its literal with this sign.
pub fn makes_true(value: Value, neg: bool) -> bool
    ensures { result ≡ makes_true value neg }
{
    match value {
        Value::Free => false,
        Value::True => !neg,
        Value::False => neg,
    }
}

/// The value that makes true the literal with this sign.
pub fn value_for(neg: bool) -> Value
    ensures { result ≡ value_for neg }
{
    if neg { Value::False } else { Value::True }
}
