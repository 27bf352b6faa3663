//! Scripts: their tokens, and the kinds of statements.

use sr_ast::{Stmt, is_carried, is_ddl};
use sr_ast_print::print;
use sr_base::{NoMemory, NotUtf8, Text, text_of};
use sr_lex::{LexFault, Token, TokenKind, lex};
use sr_parse::{ParseFault, parse};
use std::alloc::{AllocError, Global};
use test_rows::{say, say_bytes, say_number};

/// Of the bytes of a script.
pub fn say_lexed(alloc: Global, bytes: &[u8], out: &mut Vec<u8>) -> Result<(), NoMemory> {
    match text_of(alloc, bytes) {
        Ok(script) => {
            let said = say_of(alloc, &script, out);
            drop(script);
            said
        }
        Err(NotUtf8::Byte { .. }) => say(out, "no text"),
        Err(NotUtf8::Memory) => Err(AllocError),
    }
}

/// The tokens in words: `w` a word, `n` a number, `top` the number past all, `t` a text, `s` a sign, each with its span, numbers and texts with
/// their value; or the place where no token begins.
pub fn say_tokens(alloc: Global, text: &str, out: &mut Vec<u8>) -> Result<(), NoMemory> {
    let script = Text::from_str(alloc, text)?;
    let said = say_of(alloc, &script, out);
    drop(script);
    said
}

fn say_of(alloc: Global, script: &Text, out: &mut Vec<u8>) -> Result<(), NoMemory> {
    match lex(alloc, script) {
        Ok(tokens) => {
            let said = say_each(tokens.as_slice(), out);
            drop(tokens);
            said
        }
        Err(LexFault::NoToken { at }) => say_number(out, "none at ", at as u64),
        Err(LexFault::Memory) => Err(AllocError),
    }
}

fn say_each(tokens: &[Token], out: &mut Vec<u8>) -> Result<(), NoMemory> {
    for token in tokens {
        if !out.is_empty() {
            say(out, " ")?;
        }
        say_number(out, word_of(&token.kind), token.start as u64)?;
        say_number(out, "-", token.end as u64)?;
        match &token.kind {
            TokenKind::Number(number) => say_number(out, ":", number.unsigned_abs())?,
            TokenKind::Str(text) => say_bytes(out, ":", text.bytes())?,
            _ => (),
        }
    }
    Ok(())
}

fn word_of(kind: &TokenKind) -> &'static str {
    match kind {
        TokenKind::Word => "w",
        TokenKind::Number(_) => "n",
        TokenKind::TopNumber => "top",
        TokenKind::Str(_) => "t",
        TokenKind::Sign => "s",
    }
}

/// Says the kinds of the one statement of a script.
pub fn say_kinds(alloc: Global, text: &str, out: &mut Vec<u8>) -> Result<(), NoMemory> {
    let script = Text::from_str(alloc, text)?;
    let said = say_kinds_of(alloc, &script, out);
    drop(script);
    said
}

fn say_kinds_of(alloc: Global, script: &Text, out: &mut Vec<u8>) -> Result<(), NoMemory> {
    match parse(alloc, script) {
        Ok(statements) => {
            let said = match statements.as_slice() {
                [statement] => say_printed(alloc, statement, script, out),
                _ => say(out, "not one"),
            };
            drop(statements);
            said
        }
        Err(ParseFault::Refused { at }) => say_number(out, "refused at ", at as u64),
        Err(ParseFault::Memory) => Err(AllocError),
    }
}

/// Says the kinds of a statement, if it prints as its script.
fn say_printed(
    alloc: Global,
    statement: &Stmt,
    script: &Text,
    out: &mut Vec<u8>,
) -> Result<(), NoMemory> {
    let printed = print(alloc, statement)?;
    let is_same = printed.as_str() == script.as_str();
    drop(printed);
    if !is_same {
        return say(out, "printed otherwise");
    }
    say(
        out,
        if is_ddl(statement) {
            "changes the catalog"
        } else {
            "leaves it"
        },
    )?;
    say(
        out,
        if is_carried(statement) {
            ", carried"
        } else {
            ", not carried"
        },
    )
}
