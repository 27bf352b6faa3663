//! The words of a run as a clap command reads them.

ghost use Rattle.std.specs.Prelude.{◌≡◌, IfOk, map, option_map, true};
ghost use Rattle.clap.specs.Words.{app_of};
ghost use Rattle.dbremote_words.specs.Words.{found};
ghost use Rattle.dbremote_words.specs.Inner.Words.{is_for_memory, is_known, rows_in};

use clap::error::ErrorKind;
use clap::{ArgMatches, Command};
use sr_base::{NoMemory, Text};
use std::alloc::{AllocError, Global};

/// The words as clap takes them.
pub(crate) fn texts_of<'a>(alloc: Global, words: &'a [Text]) -> Result<Vec<&'a str>, NoMemory>
    ensures texts { IfOk result (λ texts. map (λ text. text.now) texts.items ≡ words.now) }
{
    let mut texts = Vec::new(alloc);
    'words: for word in words {
        texts.push(word.as_str())?;
    }
    Ok(texts)
}

/// Whether a parse failed for want of memory.
fn is_for_memory(kind: ErrorKind) -> bool
    ensures { result ≡ is_for_memory kind }
{
    match kind {
        ErrorKind::OutOfMemory => true,
        _ => false,
    }
}

/// What a command finds in the words, of which the first is its name; `None` where it refuses them.
pub(crate) fn read<'a>(
    command: Command<'a>,
    words: &'a [&'a str],
) -> Result<Option<ArgMatches<'a>>, NoMemory>
    requires known { is_known (app_of command) ≡ true }
    ensures found { IfOk result (λ matches. option_map rows_in matches ≡ found (app_of command.entry) (map (λ word. word.now) words.now)) }
{
    match command.try_get_matches_from(words) {
        Ok(matches) => Ok(Some(matches)),
        Err(error) => {
            if is_for_memory(error.kind()) {
                return Err(AllocError);
            }
            Ok(None)
        }
    }
}
