//! What is asked for by the arguments that a command found.

ghost use Rattle.std.specs.Prelude.{◌≡◌, IfOk};
ghost use Rattle.dbremote_words.specs.Orders.{agent_from, demo_from, init_from, options_from, show_from, sql_from};
ghost use Rattle.dbremote_words.specs.Inner.Words.{rows_in};

use crate::asked::Asked;
use crate::given::{given_count, given_length, given_place, given_seed, given_user, is_set};
use clap::ArgMatches;
use dbremote_command::Order;
use sr_agent::Options;
use sr_base::NoMemory;
use std::alloc::Global;

/// What `init NAME USER` asks for.
pub(crate) fn init_from(alloc: Global, matches: &ArgMatches<'_>) -> Result<Option<Order>, NoMemory>
    ensures order { IfOk result (λ order. order ≡ init_from (rows_in matches.now)) }
{
    let Some(name) = given_place(alloc, matches, "NAME")? else {
        return Ok(None);
    };
    let Some(user) = given_user(alloc, matches)? else {
        return Ok(None);
    };
    Ok(Some(Order::Init { name, user }))
}

/// What `sql NAME` asks for.
pub(crate) fn sql_from(alloc: Global, matches: &ArgMatches<'_>) -> Result<Option<Order>, NoMemory>
    ensures order { IfOk result (λ order. order ≡ sql_from (rows_in matches.now)) }
{
    let Some(name) = given_place(alloc, matches, "NAME")? else {
        return Ok(None);
    };
    Ok(Some(Order::Sql { name }))
}

/// What `show NAME` asks for.
pub(crate) fn show_from(alloc: Global, matches: &ArgMatches<'_>) -> Result<Option<Order>, NoMemory>
    ensures order { IfOk result (λ order. order ≡ show_from (rows_in matches.now)) }
{
    let Some(name) = given_place(alloc, matches, "NAME")? else {
        return Ok(None);
    };
    Ok(Some(Order::Show { name }))
}

/// The passes that the flags ask for, whether the log is begun anew before them, and the length of a message file. A pass is made where its flag is given, and where the other's is not.
fn options_from(matches: &ArgMatches<'_>) -> Option<Options>
    ensures options { result ≡ options_from (rows_in matches.now) }
{
    let receive = is_set(matches, "r");
    let send = is_set(matches, "s");
    let keep = is_set(matches, "p");
    let restart = is_set(matches, "x");
    let length = given_length(matches)?;
    Some(Options {
        receive: receive || !send,
        send: send || !receive,
        purge: !keep,
        restart,
        length,
    })
}

/// What `agent NAME --mail FOLDER` with its options asks for.
pub(crate) fn agent_from(alloc: Global, matches: &ArgMatches<'_>) -> Result<Option<Order>, NoMemory>
    ensures order { IfOk result (λ order. order ≡ agent_from (rows_in matches.now)) }
{
    let Some(name) = given_place(alloc, matches, "NAME")? else {
        return Ok(None);
    };
    let Some(mail) = given_place(alloc, matches, "FOLDER")? else {
        return Ok(None);
    };
    let Some(options) = options_from(matches) else {
        return Ok(None);
    };
    Ok(Some(Order::Agent {
        name,
        mail,
        options,
    }))
}

/// What `demo SEED COUNT` asks for.
pub(crate) fn demo_from(matches: &ArgMatches<'_>) -> Option<Asked>
    ensures asked { result ≡ demo_from (rows_in matches.now) }
{
    let seed = given_seed(matches)?;
    let count = given_count(matches)?;
    Some(Asked::Demo { seed, count })
}
