//! Names and capacities.

ghost use Rattle.std.specs.Prelude.{◌≡◌, false, true, IfSome, IfNone};
ghost use Rattle.std.specs.List.{list_all};
ghost use Rattle.std.specs.Str.Parse.{digits_value};
ghost use Rattle.hrt_text.specs.Grammar.{is_capacity};
ghost use Rattle.rank_tables.specs.Names.{is_name, is_name_byte};

use hrt_base::capped_value;

const MOST_NAME: usize = 64;

const MOST_DIGITS: usize = 5;

const MOST_CAPACITY: u128 = 20_000;

fn is_name_byte(byte: u8) -> bool
    ensures { result ≡ is_name_byte byte }
{
    match byte {
        b'#' | b':' | b'(' | b')' => false,
        0x21..=0x7E | 0x80..=0xFF => true,
        _ => false,
    }
}

fn are_name_bytes(word: &[u8]) -> bool
    ensures { result ≡ list_all is_name_byte word.now }
{
    word.iter().all(|byte| is_name_byte(*byte))
}

/// Whether the word is a name: 1 to 64 bytes, none below 0x21, and none of 0x7F, `#`, `:`, `(` and `)`.
pub fn is_name(word: &[u8]) -> bool
    ensures { result ≡ is_name word.now }
{
    if word.is_empty() || word.len() > MOST_NAME {
        return false;
    }
    are_name_bytes(word)
}

/// The capacity that the word spells: 1 to 5 digits, at most 20,000.
pub fn capacity_of(word: &[u8]) -> Option<u32>
    ensures some { IfSome result (λ posts. is_capacity word.now ≡ true) }
    ensures value { IfSome result (λ posts. posts ≡ digits_value 10 word.now) }
    ensures none { IfNone result (is_capacity word.now ≡ false) }
{
    if word.is_empty() || word.len() > MOST_DIGITS {
        return None;
    }
    let value = capped_value(word, MOST_CAPACITY + 1)?;
    if value > MOST_CAPACITY {
        return None;
    }
    Some(value as u32)
}
