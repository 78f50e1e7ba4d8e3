// The first line of some bytes.

ghost use Rattle.std.specs.Prelude.{◌≡◌, ◌==◌, ◌<◌, position, length, IfSome};
ghost use Rattle.hrt_text.specs.Text.{without_return};
ghost use Rattle.proof_lines.specs.FirstLine.{Answers, first_line, is_end_text, judged};
ghost use Rattle.proof_lines.specs.Spelling.{read_line};

use crate::claims::has_words;
use crate::reading::read_tokens;
use crate::{Line, LineRefusal};
use hrt_text::without_return;
use std::alloc::Global;

/// The longest line, with its line feed.
pub const MOST_BYTES: usize = 16_777_216;

// What the bytes before a line feed say.
fn read_line(alloc: Global, text: &[u8]) -> Result<Line, LineRefusal>
    ensures { Answers result (judged (read_line text.now)) }
{
    if text.len() >= MOST_BYTES {
        return Err(LineRefusal::Syntax);
    }
    read_tokens(alloc, without_return(text))
}

// The place of the first line feed.
fn first_feed(bytes: &[u8]) -> Option<usize>
    ensures place { result ≡ position (λ b. b == 10) bytes.now }
    ensures within { IfSome result (λ i. i < length bytes.now) }
{
    bytes.iter().position(|byte| *byte == b'\n')
}

/// The first line of the bytes and its length with its line feed; `None` where they have no line feed.
pub fn first_line(alloc: Global, bytes: &[u8]) -> Result<Option<(Line, usize)>, LineRefusal>
    ensures { Answers result (first_line bytes.now) }
{
    let Some(len) = first_feed(bytes) else {
        return Ok(None);
    };
    let line = read_line(alloc, &bytes[..len])?;
    Ok(Some((line, len + 1)))
}

/// Whether the bytes are the end line without its line feed.
#[tactic(auto, using(crate::proofs::EndLine::end_text))]
pub fn is_end_text(bytes: &[u8]) -> bool
    ensures { result ≡ is_end_text bytes.now }
{
    bytes.len() < MOST_BYTES && has_words(without_return(bytes), b"end pseudo-Boolean proof")
}
