//! The items of a declaration, checked.

ghost use Rattle.std.specs.Prelude.{◌≡◌, ◌∷◌, None, not, is_none, IfOk, IfSome, IfNone, List};
ghost use Rattle.std.specs.List.{list_all};
ghost use Rattle.hrt_text.specs.Text.{Token as GrammarToken, tokens};
ghost use Rattle.hrt_text.specs.Grammar.{groups_from, groups_of, words};
ghost use Rattle.rank_tables.specs.Names.{are_apart, is_name};
ghost use Rattle.hrt_text.specs.Views.{state_of, view_token};

use crate::declared::declare;
use crate::names::is_name;
use crate::tokens::{Token, next_token};
use indexmap::IndexSet;
use std::alloc::{AllocError, Global};

/// Whether each word of the items is a name.
pub fn are_names(items: &[u8]) -> bool
    ensures { result ≡ list_all is_name (words (tokens items.now)) }
{
    let mut rest = items;
    while let Some((token, after)) = next_token(rest) {
        if let Token::Word(word) = token {
            if !is_name(word) {
                return false;
            }
        }
        rest = after;
    }
    true
}

/// Where a token of a list stands: outside a tie, right behind its `(`, or behind a name in it.
#[derive(Clone, Copy, Debug)]
pub enum Place {
    Outside,
    Opened,
    Inside,
}

// The place after the token, if the token may stand there.
fn place_after(place: Place, token: Token) -> Option<Place>
    ensures some { IfSome result (λ next. (items : List GrammarToken) → is_none (groups_from (state_of place) (view_token token.entry ∷ items)) ≡ is_none (groups_from (state_of next) items)) }
    ensures none { IfNone result ((items : List GrammarToken) → groups_from (state_of place) (view_token token.entry ∷ items) ≡ None) }
{
    match (place, token) {
        (Place::Outside, Token::Word(_)) => Some(Place::Outside),
        (Place::Outside, Token::Opening) => Some(Place::Opened),
        (Place::Opened, Token::Word(_)) => Some(Place::Inside),
        (Place::Inside, Token::Word(_)) => Some(Place::Inside),
        (Place::Inside, Token::Closing) => Some(Place::Outside),
        _ => None,
    }
}

/// Whether the items are names and ties: a tie has a name or more, is closed, and holds no other.
pub fn are_groups(items: &[u8]) -> bool
    ensures { result ≡ not (is_none (groups_of (tokens items.now))) }
{
    let mut rest = items;
    let mut place = Place::Outside;
    while let Some((token, after)) = next_token(rest) {
        match place_after(place, token) {
            Some(next) => place = next,
            None => return false,
        }
        rest = after;
    }
    matches!(place, Place::Outside)
}

/// Whether no word of the items stands twice.
pub fn are_distinct(alloc: Global, items: &[u8]) -> Result<bool, AllocError>
    ensures { IfOk result (λ distinct. distinct ≡ are_apart (words (tokens items.now))) }
{
    let mut seen: IndexSet<&[u8]> = IndexSet::new(alloc);
    let mut rest = items;
    while let Some((token, after)) = next_token(rest) {
        if let Token::Word(word) = token {
            let fresh = declare(&mut seen, word)?;
            if !fresh {
                return Ok(false);
            }
        }
        rest = after;
    }
    Ok(true)
}
