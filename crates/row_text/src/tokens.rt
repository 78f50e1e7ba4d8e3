// The tokens of a line, one after the other, as parts of the text.

ghost use Rattle.std.specs.Prelude.{◌≡◌, ◌<◌, ◌≤◌, ◌||◌, ◌==◌, [], ◌∷◌, length, slice_index, take, drop, true, false, IfSome, IfNone};
ghost use Rattle.row_text.specs.Tokens.{is_blank, onward_from, tokens};

fn is_blank(byte: u8) -> bool
    ensures { result ≡ is_blank byte }
{
    byte == b' ' || byte == b'\t'
}

// Whether a word ends before the byte.
fn is_apart(byte: u8) -> bool
    ensures { result ≡ (is_blank byte || byte == 59) }
{
    is_blank(byte) || byte == b';'
}

// The length of the word that goes on at the front of the line; 0 where none does.
fn word_len(line: &[u8]) -> usize
    ensures within { result ≤ length line.now }
    ensures run { onward_from line.now ≡ record { run = take result line.now; after = tokens (drop result line.now) } }
{
    for (i, byte) in line.iter().enumerate() {
        if is_apart(*byte) {
            return i;
        }
    }
    line.len()
}

/// The first token of the line, and what follows it.
pub fn next_token(line: &[u8]) -> Option<(&[u8], &[u8])>
    ensures none { IfNone result (tokens line.now ≡ []) }
    ensures some { IfSome result (λ found. tokens line.now ≡ found.0.now ∷ tokens found.1.now) }
    ensures shorter { IfSome result (λ found. length found.1.now < length line.now) }
{
    for (i, byte) in line.iter().enumerate() {
        if *byte == b';' {
            return Some((&line[i..i + 1], &line[i + 1..]));
        }
        if !is_blank(*byte) {
            return Some(word_at(&line[i..]));
        }
    }
    None
}

// The word at the front of the line, and what follows it.
fn word_at(line: &[u8]) -> (&[u8], &[u8])
    requires some { 0 < length line.now }
    requires starts { (is_blank (slice_index line.now 0) || slice_index line.now 0 == 59) ≡ false }
    ensures token { tokens line.now ≡ result.0.now ∷ tokens result.1.now }
    ensures shorter { length result.1.now < length line.now }
{
    line.split_at(word_len(line))
}
