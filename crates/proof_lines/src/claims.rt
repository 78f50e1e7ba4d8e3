// The claims of conclusions, and lines that are fixed words.

ghost use Rattle.std.specs.Prelude.{◌≡◌, codes, option_map, Some, None};
ghost use Rattle.proof_lines.specs.Claims.{joined};
ghost use Rattle.proof_lines.specs.Spelling.{is_small_bound, is_small_claim, read_bound, read_bounds, read_claim};
ghost use Rattle.row_text.specs.Readings.{reading};
ghost use Rattle.row_text.specs.Tokens.{are, tokens};

use crate::Claim;
use row_text::{Reading, next_token, read_number};

/// Whether the line has the tokens of the other one.
pub fn has_words(line: &[u8], words: &[u8]) -> bool
    ensures { result ≡ are (tokens line.now) (tokens words.now) }
{
    let mut rest = line;
    let mut left = words;
    while let Some((token, after)) = next_token(rest) {
        match next_token(left) {
            Some((word, behind)) => {
                if token != word {
                    return false;
                }
                rest = after;
                left = behind;
            }
            None => return false,
        }
    }
    next_token(left).is_none()
}

// A bound, or the word that stands for none.
fn read_bound(word: &[u8], token: &[u8]) -> Reading<Option<i128>>
    ensures { result ≡ reading is_small_bound (read_bound word.now token.now) }
{
    if token == word {
        return Reading::Value(None);
    }
    match read_number(token) {
        Reading::Value(bound) => Reading::Value(Some(bound)),
        Reading::TooBig => Reading::TooBig,
        Reading::Unspelled => Reading::Unspelled,
    }
}

// A lower and an upper bound that are read, together.
fn joined(lower: Reading<Option<i128>>, upper: Reading<Option<i128>>) -> Reading<Claim>
    ensures { result ≡ joined lower upper }
{
    match (lower, upper) {
        (Reading::Unspelled, _) | (_, Reading::Unspelled) => Reading::Unspelled,
        (Reading::TooBig, _) | (_, Reading::TooBig) => Reading::TooBig,
        (Reading::Value(lower), Reading::Value(upper)) => {
            Reading::Value(Claim::Bounds { lower, upper })
        }
    }
}

fn read_bounds(line: &[u8]) -> Reading<Claim>
    ensures { result ≡ reading is_small_claim (read_bounds (tokens line.now)) }
{
    let Some((lower, rest)) = next_token(line) else {
        return Reading::Unspelled;
    };
    let Some((upper, rest)) = next_token(rest) else {
        return Reading::Unspelled;
    };
    match next_token(rest) {
        Some(_) => Reading::Unspelled,
        None => joined(read_bound(b"-INF", lower), read_bound(b"INF", upper)),
    }
}

/// The claim that the line spells.
pub fn read_claim(line: &[u8]) -> Reading<Claim>
    ensures { result ≡ reading is_small_claim (read_claim (tokens line.now)) }
{
    let Some((first, rest)) = next_token(line) else {
        return Reading::Unspelled;
    };
    if first == b"BOUNDS".as_slice() {
        return read_bounds(rest);
    }
    if has_words(line, b"UNSAT") {
        return Reading::Value(Claim::Unsat);
    }
    if has_words(line, b"NONE") {
        return Reading::Value(Claim::Nothing);
    }
    Reading::Unspelled
}
