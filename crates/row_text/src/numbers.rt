// Numbers and literals.

ghost use Rattle.std.specs.Prelude.{◌≡◌, ◌≤◌, ◌^◌, min, true, false, if◌then◌else◌, Some, None, option_map};
ghost use Rattle.row_text.specs.Numbers.{is_small, read_id, read_literal, read_number, read_positive, read_variable};
ghost use Rattle.row_text.specs.Readings.{reading};

use crate::Reading;
use hrt_base::{Lit, NumberText, capped_value};

const MOST_ID_DIGITS: usize = 18;

// More than each row number.
const PAST_IDS: u64 = 1_000_000_000_000_000_000;

// What variables above it are read as.
const MOST_VARIABLE: u64 = 4_294_967_295;

// Digits without a leading zero.
fn read_positive(token: &[u8], most: u64) -> Option<u64>
    requires { most ≤ 10 ^ 18 }
    ensures { result ≡ option_map (λ n. min n most) (read_positive token.now) }
{
    match token {
        [] | [b'0', ..] => None,
        digits => {
            let value = capped_value(digits, u128::from(most))?;
            Some(value as u64)
        }
    }
}

/// The number of a row: 1 to 18 digits without a leading zero.
pub fn read_id(token: &[u8]) -> Option<u64>
    ensures { result ≡ read_id token.now }
{
    if token.len() > MOST_ID_DIGITS {
        return None;
    }
    read_positive(token, PAST_IDS)
}

/// The variable that is spelled. One above 4,294,967,295 is read as that.
pub fn read_variable(token: &[u8]) -> Option<u32>
    ensures { result ≡ read_variable token.now }
{
    match token {
        [b'x', digits @ ..] => {
            let var = read_positive(digits, MOST_VARIABLE)?;
            Some(var as u32)
        }
        _ => None,
    }
}

/// The literal that is spelled: a variable, or its opposite behind `~`.
pub fn read_literal(token: &[u8]) -> Option<Lit>
    ensures { result ≡ read_literal token.now }
{
    match token {
        [b'~', variable @ ..] => {
            let var = read_variable(variable)?;
            Some(Lit { var, neg: true })
        }
        variable => {
            let var = read_variable(variable)?;
            Some(Lit { var, neg: false })
        }
    }
}

/// The number that is spelled, with a sign or without. It is too big where its size passes 2^120.
pub fn read_number(token: &[u8]) -> Reading<i128>
    ensures { result ≡ reading is_small (read_number token.now) }
{
    match hrt_base::read_number(token) {
        NumberText::Number(n) => Reading::Value(n),
        NumberText::TooBig => Reading::TooBig,
        NumberText::NotNumber => Reading::Unspelled,
    }
}
