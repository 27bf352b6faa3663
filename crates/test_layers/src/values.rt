//! Values in order, compared, in columns and as literals.

use sr_base::{Key, Kind, NoMemory, Seq, Text, Value, compare, order};
use sr_base_dates::{day_of, fit, write_literal};
use std::alloc::Global;
use std::cmp::Ordering;
use test_rows::say;

/// A value by the text that it is written as.
fn value(alloc: Global, text: &str) -> Result<Value, NoMemory> {
    if let Some(bytes) = text.strip_prefix("'") {
        return Ok(Value::Str(Text::from_str(alloc, bytes)?));
    }
    Ok(short_value(text))
}

/// A value that takes no memory; NULL for any other text.
fn short_value(text: &str) -> Value {
    if let Some(date) = text.strip_prefix("@") {
        return day_of(date.as_bytes()).map_or(Value::Null, |day| Value::Date(day));
    }
    match text.strip_suffix("L") {
        Some(number) => number
            .parse::<i64>()
            .map_or(Value::Null, |big| Value::Big(big)),
        None => text
            .parse::<i32>()
            .map_or(Value::Null, |small| Value::Int(small)),
    }
}

fn key(alloc: Global, words: &str) -> Result<Key, NoMemory> {
    let mut values = Vec::new(alloc);
    for word in words.split_whitespace() {
        values.push(value(alloc, word)?)?;
    }
    Key::new(alloc, Seq::from_vec(values))
}

fn word_of(order: Ordering) -> &'static str {
    match order {
        Ordering::Less => "less",
        Ordering::Equal => "equal",
        Ordering::Greater => "greater",
    }
}

/// How two keys, with ` | ` between them, stand to one another.
pub fn say_order(alloc: Global, given: &str, out: &mut Vec<u8>) -> Result<(), NoMemory> {
    let (low, high) = given.split_once(" | ").unwrap_or((given, ""));
    let low = key(alloc, low)?;
    let found = order_beside(alloc, &low, high);
    drop(low);
    say(out, word_of(found?))
}

fn order_beside(alloc: Global, low: &Key, high: &str) -> Result<Ordering, NoMemory> {
    let high = key(alloc, high)?;
    let found = order(low, &high);
    drop(high);
    Ok(found)
}

/// How two values compare.
pub fn say_compared(alloc: Global, given: &str, out: &mut Vec<u8>) -> Result<(), NoMemory> {
    let (left, right) = given.split_once(" ").unwrap_or((given, ""));
    let left = value(alloc, left)?;
    let found = compared_to(alloc, &left, right);
    drop(left);
    match found? {
        Some(order) => say(out, word_of(order)),
        None => say(out, "none"),
    }
}

fn compared_to(alloc: Global, left: &Value, right: &str) -> Result<Option<Ordering>, NoMemory> {
    let right = value(alloc, right)?;
    let found = compare(left, &right);
    drop(right);
    Ok(found)
}

/// A value as a column holds it: its literal, with the word for its type where it is a number; or `no`.
pub fn say_fitted(alloc: Global, given: &str, out: &mut Vec<u8>) -> Result<(), NoMemory> {
    let (text, kind) = given.split_once(" ").unwrap_or((given, ""));
    match fit(value(alloc, text)?, kind_of(kind)) {
        Ok(held) => {
            let said = say_held(alloc, &held, out);
            drop(held);
            said
        }
        Err(back) => {
            drop(back);
            say(out, "no")
        }
    }
}

fn say_held(alloc: Global, held: &Value, out: &mut Vec<u8>) -> Result<(), NoMemory> {
    let word = match held {
        Value::Int(_) => "integer ",
        Value::Big(_) => "bigint ",
        Value::Str(_) => "varchar ",
        Value::Date(_) => "date ",
        Value::Null => "",
    };
    say(out, word)?;
    write_literal(alloc, held, out)
}

fn kind_of(word: &str) -> Kind {
    match word {
        "integer" => Kind::Int,
        "bigint" => Kind::Big,
        "date" => Kind::Date,
        _ => Kind::Varchar(word.parse::<u16>().unwrap_or(1)),
    }
}

/// How a value prints.
pub fn say_literal(alloc: Global, given: &str, out: &mut Vec<u8>) -> Result<(), NoMemory> {
    let value = value(alloc, given)?;
    let said = write_literal(alloc, &value, out);
    drop(value);
    said
}
