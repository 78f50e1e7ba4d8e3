// Blank lines.

ghost use Rattle.std.specs.Prelude.{◌≡◌};
ghost use Rattle.proof_lines.specs.FirstLine.{is_blank_text};

use crate::first::MOST_BYTES;
use hrt_text::without_return;
use row_text::next_token;

/// Whether the bytes are a blank line without its line feed.
#[tactic(auto, using(crate::proofs::BlankLine::blank_text))]
pub fn is_blank_text(bytes: &[u8]) -> bool
    ensures { result ≡ is_blank_text bytes.now }
{
    bytes.len() < MOST_BYTES && next_token(without_return(bytes)).is_none()
}
