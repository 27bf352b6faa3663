ghost use Rattle.std.specs.Prelude.{◌≡◌, IfOk, IfSome, map, option_and_then};
ghost use Rattle.dbremote_words.specs.Commands.{agent_command, demo_command, init_command, show_command, sql_command};
ghost use Rattle.dbremote_words.specs.Orders.{agent_from, asked_by, asked_of, demo_from, init_from, order_by, ordered, show_from, sql_from};
ghost use Rattle.dbremote_words.specs.Inner.Orders.{MayAsk};
ghost use Rattle.dbremote_words.specs.Words.{found};

use crate::asked::Asked;
use crate::commands::{agent_command, demo_command, init_command, show_command, sql_command};
use crate::orders::{agent_from, demo_from, init_from, show_from, sql_from};
use crate::reading::{read, texts_of};
use dbremote_command::Order;
use sr_base::{NoMemory, Text};
use std::alloc::Global;

/// What words ask for that begin with `init`.
#[tactic(auto, using(crate::proofs::Known::init_known))]
fn read_init(alloc: Global, words: &[&str]) -> Result<Option<Order>, NoMemory>
    ensures order { IfOk result (λ order. order ≡ ordered init_from init_command (map (λ word. word.now) words.now)) }
{
    let command = init_command(alloc)?;
    match read(command, words)? {
        Some(matches) => init_from(alloc, &matches),
        None => Ok(None),
    }
}

/// What words ask for that begin with `sql`.
#[tactic(auto, using(crate::proofs::Known::sql_known))]
fn read_sql(alloc: Global, words: &[&str]) -> Result<Option<Order>, NoMemory>
    ensures order { IfOk result (λ order. order ≡ ordered sql_from sql_command (map (λ word. word.now) words.now)) }
{
    let command = sql_command(alloc)?;
    match read(command, words)? {
        Some(matches) => sql_from(alloc, &matches),
        None => Ok(None),
    }
}

/// What words ask for that begin with `show`.
#[tactic(auto, using(crate::proofs::Known::show_known))]
fn read_show(alloc: Global, words: &[&str]) -> Result<Option<Order>, NoMemory>
    ensures order { IfOk result (λ order. order ≡ ordered show_from show_command (map (λ word. word.now) words.now)) }
{
    let command = show_command(alloc)?;
    match read(command, words)? {
        Some(matches) => show_from(alloc, &matches),
        None => Ok(None),
    }
}

/// What words ask for that begin with `agent`.
#[tactic(auto, using(crate::proofs::Known::agent_known))]
fn read_agent(alloc: Global, words: &[&str]) -> Result<Option<Order>, NoMemory>
    ensures order { IfOk result (λ order. order ≡ ordered agent_from agent_command (map (λ word. word.now) words.now)) }
{
    let command = agent_command(alloc)?;
    match read(command, words)? {
        Some(matches) => agent_from(alloc, &matches),
        None => Ok(None),
    }
}

/// The order that the words ask for, by the command that the first of them names.
fn order_by(alloc: Global, first: &Text, words: &[&str]) -> Result<Option<Order>, NoMemory>
    ensures order { IfOk result (λ order. order ≡ order_by first.now (map (λ word. word.now) words.now)) }
{
    if first.bytes() == b"init".as_slice() {
        return read_init(alloc, words);
    }
    if first.bytes() == b"sql".as_slice() {
        return read_sql(alloc, words);
    }
    if first.bytes() == b"agent".as_slice() {
        return read_agent(alloc, words);
    }
    if first.bytes() == b"show".as_slice() {
        return read_show(alloc, words);
    }
    Ok(None)
}

/// What words ask for that begin with `demo`.
#[tactic(auto, using(crate::proofs::Known::demo_known))]
fn read_demo(alloc: Global, words: &[&str]) -> Result<Option<Asked>, NoMemory>
    ensures asked { IfOk result (λ asked. asked ≡ option_and_then demo_from (found demo_command (map (λ word. word.now) words.now))) }
{
    let command = demo_command(alloc)?;
    match read(command, words)? {
        Some(matches) => Ok(demo_from(&matches)),
        None => Ok(None),
    }
}

/// What the words ask for, by the command that the first of them names.
fn asked_by(alloc: Global, first: &Text, words: &[&str]) -> Result<Option<Asked>, NoMemory>
    ensures asked { IfOk result (λ asked. asked ≡ asked_by first.now (map (λ word. word.now) words.now)) }
{
    if first.bytes() == b"demo".as_slice() {
        return read_demo(alloc, words);
    }
    match order_by(alloc, first, words)? {
        Some(order) => Ok(Some(Asked::Order(order))),
        None => Ok(None),
    }
}

/// What the words ask for; `None` where they are refused: where the first names no order, where the order's command refuses the rest, where a
/// NAME or FOLDER is empty or longer than 255 bytes, where USER is no name, and where N is no number of 10,000 to 1,048,576, SEED none of 64 bits
/// or COUNT none of 0 to 100,000, in decimal digits without a sign or a leading zero.
///
/// `init NAME USER`, `sql NAME`, `agent NAME --mail FOLDER [-r] [-s] [-p] [-x] [-l N]`, `show NAME`, `demo SEED COUNT`. Options stand anywhere behind the
/// first word, and as clap reads them: `--mail=FOLDER`, `-l10000`, `-l=10000`, `-rs`, `--` before what is no option. One that is given twice is
/// refused.
pub fn asked_of(alloc: Global, words: &[Text]) -> Result<Option<Asked>, NoMemory>
    ensures asked { IfOk result (λ asked. asked ≡ asked_of words.now) }
    ensures may { IfOk result (λ asked. IfSome asked MayAsk) }
{
    let Some((first, _)) = words.split_first() else {
        return Ok(None);
    };
    let texts = texts_of(alloc, words)?;
    let asked = asked_by(alloc, first, texts.as_slice())?;
    Ok(asked)
}
