// What the numbers of a line are kept within.
ghost use Rattle.std.specs.Prelude.{◌≡◌, ◌≤◌, ◌^◌, ◌↔◌, IsTrue};
ghost use Rattle.std.specs.Int.RustNames.{unsigned_abs};
ghost use Rattle.pb_rows.specs.Normal.{sizes};
ghost use Rattle.opb_text.specs.Statements.{greatest_variable};

use hrt_base::Term;

/// The greatest number of a variable.
pub const MOST_VARIABLES: u32 = 100_000;

/// The most rows of a formula.
pub const MOST_ROWS: usize = 1_000_000;

// The most to which the sizes of the objective's numbers may sum.
const MOST_SIZES: u128 = 1 << 119;

/// The greatest variable of the terms, 0 where there is none.
pub fn greatest_variable(terms: &[Term]) -> u32
    ensures { result ≡ greatest_variable terms.now }
{
    let mut greatest = 0;
    for term in terms {
        greatest = term.lit.var.max(greatest);
    }
    greatest
}

// The size of the term's number.
fn size_of(term: Term) -> u128
    ensures value { result ≡ unsigned_abs term.coef }
    ensures bound { result ≤ 2 ^ 127 }
{
    term.coef.unsigned_abs()
}

/// Whether the terms are small enough for an objective: the sizes of their numbers sum to at most 2^119.
pub fn are_small(terms: &[Term]) -> bool
    ensures { IsTrue result ↔ (sizes terms.now ≤ 2 ^ 119) }
{
    let mut sum: u128 = 0;
    for term in terms {
        if sum > MOST_SIZES {
            return false;
        }
        sum += size_of(*term);
    }
    sum <= MOST_SIZES
}
