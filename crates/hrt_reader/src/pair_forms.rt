//! The form of a line of a text of pairs.

ghost use Rattle.std.specs.Prelude.{◌≡◌};
ghost use Rattle.hrt_text.specs.Text.{tokens};
ghost use Rattle.hrt_reader.specs.PairsText.{names_form, pair_form};
ghost use Rattle.hrt_reader.specs.PairsAnswer.{view_pair_form};

use hrt_text::{Token, next_token};

/// The parts of a line.
#[derive(Clone, Copy, Debug)]
pub enum PairForm<'a> {
    Blank,
    Pair {
        resident: &'a [u8],
        hospital: &'a [u8],
    },
    Other,
}

// What follows `pair`.
fn names_form(line: &[u8]) -> PairForm<'_>
    ensures { view_pair_form result ≡ names_form (tokens line.now) }
{
    match next_token(line) {
        Some((Token::Word(resident), rest)) => match next_token(rest) {
            Some((Token::Word(hospital), rest)) => match next_token(rest) {
                None => PairForm::Pair { resident, hospital },
                Some(_) => PairForm::Other,
            },
            _ => PairForm::Other,
        },
        _ => PairForm::Other,
    }
}

/// The form of a line.
pub fn pair_form(line: &[u8]) -> PairForm<'_>
    ensures { view_pair_form result ≡ pair_form (tokens line.now) }
{
    match next_token(line) {
        None => PairForm::Blank,
        Some((Token::Word(first), rest)) => {
            if first == b"pair".as_slice() {
                names_form(rest)
            } else {
                PairForm::Other
            }
        }
        Some(_) => PairForm::Other,
    }
}
