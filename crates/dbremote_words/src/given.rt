//! What the words give for one argument.

ghost use Rattle.std.specs.Prelude.{◌≡◌, IfOk, option_map};
ghost use Rattle.clap.specs.Words.{first_of};
ghost use Rattle.dbremote_words.specs.Given.{given_count, given_length, given_place, given_seed, given_user, is_place, is_set};
ghost use Rattle.dbremote_words.specs.Inner.Words.{rows_in};

use crate::numbers::number_within;
use clap::ArgMatches;
use sr_base::{BadName, Name, NoMemory, Text, name_of};
use std::alloc::{AllocError, Global};

/// The longest message file where no word gives one, in bytes.
const USUAL_LENGTH: u32 = 50000;

/// The text that is given for an argument.
fn given<'a>(matches: &ArgMatches<'a>, id: &str) -> Option<&'a str>
    ensures given { option_map (λ text. text.now) result ≡ first_of id.now (rows_in matches.now) }
{
    matches.get_str(id)
}

/// Whether a flag is given.
pub(crate) fn is_set(matches: &ArgMatches<'_>, id: &str) -> bool
    ensures { result ≡ is_set id.now (rows_in matches.now) }
{
    match given(matches, id) {
        Some(text) => text == "true",
        None => false,
    }
}

/// Whether a text can name a database's files, or a folder: 1 to 255 bytes.
fn is_place(name: &str) -> bool
    ensures { result ≡ is_place name.now }
{
    let length = name.len();
    length >= 1 && length <= 255
}

/// The name of a database's files, or of a folder, that is given.
pub(crate) fn given_place(
    alloc: Global,
    matches: &ArgMatches<'_>,
    id: &str,
) -> Result<Option<Text>, NoMemory>
    ensures place { IfOk result (λ place. place ≡ given_place id.now (rows_in matches.now)) }
{
    match given(matches, id) {
        Some(name) if is_place(name) => Ok(Some(Text::from_str(alloc, name)?)),
        _ => Ok(None),
    }
}

/// The user that is given.
pub(crate) fn given_user(alloc: Global, matches: &ArgMatches<'_>) -> Result<Option<Name>, NoMemory>
    ensures user { IfOk result (λ user. user ≡ given_user (rows_in matches.now)) }
{
    let Some(user) = given(matches, "USER") else {
        return Ok(None);
    };
    match name_of(alloc, user.as_bytes()) {
        Ok(user) => Ok(Some(user)),
        Err(BadName::NotAName) => Ok(None),
        Err(BadName::Memory) => Err(AllocError),
    }
}

/// How many bytes a message file may have: what is given, or 50,000.
pub(crate) fn given_length(matches: &ArgMatches<'_>) -> Option<u32>
    ensures length { result ≡ given_length (rows_in matches.now) }
{
    match given(matches, "N") {
        Some(number) => match number_within(10000, 1048576, number.as_bytes()) {
            Some(length) => Some(length as u32),
            None => None,
        },
        None => Some(USUAL_LENGTH),
    }
}

/// The seed that is given.
pub(crate) fn given_seed(matches: &ArgMatches<'_>) -> Option<u64>
    ensures seed { result ≡ given_seed (rows_in matches.now) }
{
    match given(matches, "SEED") {
        Some(number) => number_within(0, u64::MAX, number.as_bytes()),
        None => None,
    }
}

/// How many statements are given: 0 to 100,000.
pub(crate) fn given_count(matches: &ArgMatches<'_>) -> Option<u32>
    ensures count { result ≡ given_count (rows_in matches.now) }
{
    match given(matches, "COUNT") {
        Some(number) => match number_within(0, 100000, number.as_bytes()) {
            Some(count) => Some(count as u32),
            None => None,
        },
        None => None,
    }
}
