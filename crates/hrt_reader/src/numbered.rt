//! The items of a declaration as groups of numbers.

ghost use Rattle.std.specs.Prelude.{◌≡◌, ◌<◌, ◌^◌, false, true, is_none, length, IfNone, IfOk, IfSome, OnOk};
ghost use Rattle.std.specs.List.{list_all};
ghost use Rattle.hrt_text.specs.Text.{tokens};
ghost use Rattle.hrt_text.specs.Grammar.{groups_of, words};
ghost use Rattle.rank_tables.specs.Names.{is_among};
ghost use Rattle.hrt_reader.specs.Refusal.{groups_in};
ghost use Rattle.hrt_reader.specs.Numbered.{after_token, is_known, next_place, with_number};
ghost use Rattle.hrt_text.specs.Views.{texts, view_token};

use hrt_base::NoMemory;
use hrt_text::{Place, Token, next_token, number_of};
use indexmap::IndexSet;
use rank_tables::Groups;
use std::alloc::Global;

// Where groups stand after a token, in items that are groups.
fn next_place(place: Place, token: Token) -> Place
    ensures { result ≡ next_place place (view_token token.entry) }
{
    match token {
        Token::Colon => place,
        Token::Opening => Place::Opened,
        Token::Closing => Place::Outside,
        Token::Word(_) => match place {
            Place::Outside => Place::Outside,
            Place::Opened | Place::Inside => Place::Inside,
        },
    }
}

fn add_number(groups: &mut Groups, place: Place, number: u32) -> Result<(), NoMemory>
    requires { place ≡ Place.Inside → 0 < length groups.old }
    ensures { OnOk result (groups.new ≡ with_number groups.old place number) }
{
    match place {
        Place::Inside => groups.push(number, true),
        Place::Outside | Place::Opened => groups.push(number, false),
    }
}

// Takes one token of items that are groups, and tells whether it is a known name or no name.
fn take_token(
    names: &IndexSet<&[u8]>,
    groups: &mut Groups,
    place: Place,
    token: Token,
) -> Result<bool, NoMemory>
    requires few { length names.now.keys < 2 ^ 32 }
    requires some { place ≡ Place.Inside → 0 < length groups.old }
    ensures known { IfOk result (λ known. known ≡ is_known (texts names.now.keys) (view_token token.entry)) }
    ensures taken { IfOk result (λ known. known ≡ true → groups.new ≡ after_token (texts names.now.keys) groups.old place (view_token token.entry)) }
{
    match token {
        Token::Word(word) => match number_of(names, word) {
            None => Ok(false),
            Some(number) => {
                add_number(groups, place, number as u32)?;
                Ok(true)
            }
        },
        _ => Ok(true),
    }
}

/// The groups of the items by the numbers of their names; `None` where a name is none of them.
pub fn numbered_groups(
    alloc: Global,
    names: &IndexSet<&[u8]>,
    items: &[u8],
) -> Result<Option<Groups>, NoMemory>
    requires few { length names.now.keys < 2 ^ 32 }
    requires fit { is_none (groups_of (tokens items.now)) ≡ false }
    ensures unknown { IfOk result (λ r. IfNone r (list_all (λ w. is_among w (texts names.now.keys)) (words (tokens items.now)) ≡ false)) }
    ensures known { IfOk result (λ r. IfSome r (λ groups. list_all (λ w. is_among w (texts names.now.keys)) (words (tokens items.now)) ≡ true)) }
    ensures groups { IfOk result (λ r. IfSome r (λ groups. groups ≡ groups_in (texts names.now.keys) (tokens items.now))) }
{
    let mut groups = Groups::new(alloc);
    let mut place = Place::Outside;
    let mut rest = items;
    while let Some((token, after)) = next_token(rest) {
        let known = take_token(names, &mut groups, place, token)?;
        if !known {
            return Ok(None);
        }
        place = next_place(place, token);
        rest = after;
    }
    Ok(Some(groups))
}
