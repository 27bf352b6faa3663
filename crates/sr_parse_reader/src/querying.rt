ghost use Rattle.std.specs.Prelude.{◌<◌, ◌≤◌, length, OnOk, Ok, IsTrue, IsFalse};
ghost use Rattle.sr_parse_reader.specs.Inner.Reading.{Reading, Anywhere, Both, BeforeWord};
ghost use Rattle.sr_parse_reader.specs.Inner.Productions.{Counted, Joining, FewJoins};
ghost use Rattle.sr_parse_grammar.specs.Symbols.{IsName};
ghost use Rattle.sr_parse_grammar.specs.Inner.Going.{Begins, Stop, Ends, condition_goes, expression_goes, is_comma, is_as, is_join, is_direction};
ghost use Rattle.sr_parse_grammar.specs.Listing.{Listed};
ghost use Rattle.sr_parse_grammar.specs.Expressions.{IsExpr};
ghost use Rattle.sr_parse_grammar.specs.Writing.{
  IsCondition,
  IsLed,
  IsRow,
  IsInsert,
  IsUpdate,
  IsDelete,
  IsSet,
  IsSelect,
  IsItems,
  IsItem,
  IsAggregated,
  IsSource,
  IsJoin,
  IsOrdering,
  IsOrder,
  IsDirection,
};
ghost use Rattle.sr_parse_grammar.specs.Scripts.{IsOnly, IsPassthrough};
ghost use Rattle.sr_ast.specs.declared.keyword.Keyword.TheVariants as key;

use crate::exprs::expr;
use crate::reader::{Broken, Reader, sealed};
use sr_ast::{
    Delete, Expr, Insert, Item, Items, Join, Keyword, OrderBy, Passthrough, Select, Source, Update,
};
use sr_base::{Name, Seq};
use sr_parse_grammar::Sign;

/// How many tables a FROM may have.
const SOURCES: usize = 8;

/// Behind INSERT.
pub fn insert(reader: &mut Reader) -> Result<Insert, Broken>
    ensures reads { Reading IsInsert Ends reader.old reader.new result }
    ensures shorter { length reader.new ≤ length reader.old }
{
    reader.keyword(Keyword::Into)?;
    let table = reader.name()?;
    let columns = reader.optional_names()?;
    reader.keyword(Keyword::Values)?;
    let rows = rows(reader)?;
    Ok(Insert {
        table,
        columns,
        rows,
    })
}

/// Rows with commas between them.
fn rows(reader: &mut Reader) -> Result<Seq<Seq<Expr>>, Broken>
    ensures reads { Reading (Listed IsRow) (Stop is_comma) reader.old reader.new result }
    ensures shorter { length reader.new ≤ length reader.old }
{
    let mut items = Vec::new(reader.alloc());
    let first = row(reader)?;
    items.push(first)?;
    'more: while reader.takes_sign(Sign::Comma) {
        let item = row(reader)?;
        items.push(item)?;
    }
    Ok(sealed(items))
}

/// One expression or more, in parentheses.
pub fn row(reader: &mut Reader) -> Result<Seq<Expr>, Broken>
    ensures reads { Reading IsRow Anywhere reader.old reader.new result }
    ensures shorter { length reader.new ≤ length reader.old }
    ensures progress { OnOk result (length reader.new < length reader.old) }
{
    reader.sign(Sign::Open)?;
    let values = values(reader)?;
    reader.sign(Sign::Close)?;
    Ok(values)
}

/// Expressions with commas between them.
fn values(reader: &mut Reader) -> Result<Seq<Expr>, Broken>
    ensures reads { Reading (Listed IsExpr) (Both (Stop expression_goes) (Stop is_comma)) reader.old reader.new result }
    ensures shorter { length reader.new ≤ length reader.old }
{
    let mut items = Vec::new(reader.alloc());
    let first = expr(reader)?;
    items.push(first)?;
    'more: while reader.takes_sign(Sign::Comma) {
        let item = expr(reader)?;
        items.push(item)?;
    }
    Ok(sealed(items))
}

/// Behind UPDATE.
pub fn update(reader: &mut Reader) -> Result<Update, Broken>
    ensures reads { Reading IsUpdate Ends reader.old reader.new result }
    ensures shorter { length reader.new ≤ length reader.old }
{
    let table = reader.name()?;
    reader.keyword(Keyword::Set)?;
    let sets = sets(reader)?;
    let condition = condition(reader)?;
    Ok(Update {
        table,
        sets,
        condition,
    })
}

/// `name = value` with commas between them.
fn sets(reader: &mut Reader) -> Result<Seq<(Name, Expr)>, Broken>
    ensures reads { Reading (Listed IsSet) (Both (Stop expression_goes) (Stop is_comma)) reader.old reader.new result }
    ensures shorter { length reader.new ≤ length reader.old }
{
    let mut items = Vec::new(reader.alloc());
    let first = set(reader)?;
    items.push(first)?;
    'more: while reader.takes_sign(Sign::Comma) {
        let item = set(reader)?;
        items.push(item)?;
    }
    Ok(sealed(items))
}

fn set(reader: &mut Reader) -> Result<(Name, Expr), Broken>
    ensures reads { Reading IsSet (Stop expression_goes) reader.old reader.new result }
    ensures shorter { length reader.new ≤ length reader.old }
    ensures progress { OnOk result (length reader.new < length reader.old) }
{
    let name = reader.name()?;
    reader.sign(Sign::Equal)?;
    let value = expr(reader)?;
    Ok((name, value))
}

/// Behind DELETE.
pub fn delete(reader: &mut Reader) -> Result<Delete, Broken>
    ensures reads { Reading IsDelete Ends reader.old reader.new result }
    ensures shorter { length reader.new ≤ length reader.old }
{
    reader.keyword(Keyword::From)?;
    let table = reader.name()?;
    let condition = condition(reader)?;
    Ok(Delete { table, condition })
}

/// Behind SELECT.
pub fn select(reader: &mut Reader) -> Result<Select, Broken>
    ensures reads { Reading IsSelect Ends reader.old reader.new result }
    ensures shorter { length reader.new ≤ length reader.old }
{
    let items = items(reader)?;
    reader.keyword(Keyword::From)?;
    let source = source(reader)?;
    let joins = joins(reader)?;
    let condition = condition(reader)?;
    let order = order(reader)?;
    Ok(Select {
        items,
        source,
        joins,
        condition,
        order,
    })
}

fn items(reader: &mut Reader) -> Result<Items, Broken>
    ensures reads { Reading IsItems (Both (Stop expression_goes) (Stop is_comma)) reader.old reader.new result }
    ensures shorter { length reader.new ≤ length reader.old }
{
    if reader.takes_sign(Sign::Times) {
        return Ok(Items::All);
    }
    let items = item_list(reader)?;
    Ok(Items::Each(items))
}

/// Items with commas between them.
fn item_list(reader: &mut Reader) -> Result<Seq<Item>, Broken>
    ensures reads { Reading (Listed IsItem) (Both (Stop expression_goes) (Stop is_comma)) reader.old reader.new result }
    ensures shorter { length reader.new ≤ length reader.old }
{
    let mut items = Vec::new(reader.alloc());
    let first = item(reader)?;
    items.push(first)?;
    'more: while reader.takes_sign(Sign::Comma) {
        let item = item(reader)?;
        items.push(item)?;
    }
    Ok(Seq::from_vec(items))
}

fn item(reader: &mut Reader) -> Result<Item, Broken>
    ensures reads { Reading IsItem (Stop expression_goes) reader.old reader.new result }
    ensures shorter { length reader.new ≤ length reader.old }
    ensures progress { OnOk result (length reader.new < length reader.old) }
{
    if reader.takes(Keyword::Count) {
        counted(reader)?;
        return Ok(Item::Count);
    }
    if reader.takes(Keyword::Sum) {
        let of = aggregated(reader)?;
        return Ok(Item::Sum(of));
    }
    if reader.takes(Keyword::Min) {
        let of = aggregated(reader)?;
        return Ok(Item::Min(of));
    }
    if reader.takes(Keyword::Max) {
        let of = aggregated(reader)?;
        return Ok(Item::Max(of));
    }
    let value = expr(reader)?;
    Ok(Item::Value(value))
}

/// `( * )`
fn counted(reader: &mut Reader) -> Result<(), Broken>
    ensures reads { Reading Counted Anywhere reader.old reader.new result }
    ensures shorter { length reader.new ≤ length reader.old }
{
    reader.sign(Sign::Open)?;
    reader.sign(Sign::Times)?;
    reader.sign(Sign::Close)?;
    Ok(())
}

/// `( expr )`
fn aggregated(reader: &mut Reader) -> Result<Expr, Broken>
    ensures reads { Reading IsAggregated Anywhere reader.old reader.new result }
    ensures shorter { length reader.new ≤ length reader.old }
{
    reader.sign(Sign::Open)?;
    let of = expr(reader)?;
    reader.sign(Sign::Close)?;
    Ok(of)
}

fn source(reader: &mut Reader) -> Result<Source, Broken>
    ensures reads { Reading IsSource (Stop is_as) reader.old reader.new result }
    ensures shorter { length reader.new ≤ length reader.old }
    ensures progress { OnOk result (length reader.new < length reader.old) }
{
    let table = reader.name()?;
    let alias = alias(reader)?;
    Ok(Source { table, alias })
}

/// `[AS n]`
fn alias(reader: &mut Reader) -> Result<Option<Name>, Broken>
    ensures reads { Reading (IsLed key.As IsName) (Stop is_as) reader.old reader.new result }
    ensures shorter { length reader.new ≤ length reader.old }
{
    if reader.takes(Keyword::As) {
        let name = reader.name()?;
        return Ok(Some(name));
    }
    Ok(None)
}

fn joins(reader: &mut Reader) -> Result<Seq<Join>, Broken>
    ensures reads { Reading FewJoins (Both (Stop expression_goes) (Stop is_join)) reader.old reader.new result }
    ensures shorter { length reader.new ≤ length reader.old }
{
    let mut joins = Vec::new(reader.alloc());
    'more: while begins_join(reader) {
        if joins.len() + 1 == SOURCES {
            return Err(Broken::Refused);
        }
        let item = join(reader)?;
        joins.push(item)?;
    }
    Ok(Seq::from_vec(joins))
}

fn join(reader: &mut Reader) -> Result<Join, Broken>
    ensures reads { Reading IsJoin (Stop expression_goes) reader.old reader.new result }
    ensures shorter { length reader.new ≤ length reader.old }
    ensures progress { OnOk result (length reader.new < length reader.old) }
{
    join_word(reader)?;
    let source = source(reader)?;
    reader.keyword(Keyword::On)?;
    let condition = expr(reader)?;
    Ok(Join { source, condition })
}

/// Whether INNER or JOIN is next.
fn begins_join(reader: &Reader) -> bool
    ensures found { IsTrue result → Begins is_join reader.now }
    ensures absent { IsFalse result → Stop is_join reader.now }
{
    reader.is_keyword(Keyword::Inner) || reader.is_keyword(Keyword::Join)
}

/// `[INNER] JOIN`
fn join_word(reader: &mut Reader) -> Result<(), Broken>
    ensures reads { Reading Joining Anywhere reader.old reader.new result }
    ensures shorter { length reader.new ≤ length reader.old }
    ensures progress { OnOk result (length reader.new < length reader.old) }
{
    if reader.takes(Keyword::Inner) {
        return reader.keyword(Keyword::Join);
    }
    reader.keyword(Keyword::Join)
}

fn order(reader: &mut Reader) -> Result<Seq<OrderBy>, Broken>
    ensures reads { Reading IsOrdering Ends reader.old reader.new result }
    ensures shorter { length reader.new ≤ length reader.old }
{
    if !reader.takes(Keyword::Order) {
        return Ok(Seq::empty(reader.alloc()));
    }
    reader.keyword(Keyword::By)?;
    let order = order_list(reader)?;
    Ok(order)
}

/// Columns that order, with commas between them.
fn order_list(reader: &mut Reader) -> Result<Seq<OrderBy>, Broken>
    ensures reads { Reading (Listed IsOrder) (Both (Stop is_direction) (Stop is_comma)) reader.old reader.new result }
    ensures shorter { length reader.new ≤ length reader.old }
{
    let mut items = Vec::new(reader.alloc());
    let first = order_by(reader)?;
    items.push(first)?;
    'more: while reader.takes_sign(Sign::Comma) {
        let item = order_by(reader)?;
        items.push(item)?;
    }
    Ok(Seq::from_vec(items))
}

fn order_by(reader: &mut Reader) -> Result<OrderBy, Broken>
    ensures reads { Reading IsOrder (Stop is_direction) reader.old reader.new result }
    ensures shorter { length reader.new ≤ length reader.old }
    ensures progress { OnOk result (length reader.new < length reader.old) }
{
    let first = reader.name()?;
    if reader.takes_sign(Sign::Dot) {
        let column = reader.name()?;
        let descending = is_descending(reader);
        return Ok(OrderBy {
            table: Some(first),
            column,
            descending,
        });
    }
    let descending = is_descending(reader);
    Ok(OrderBy {
        table: None,
        column: first,
        descending,
    })
}

fn is_descending(reader: &mut Reader) -> bool
    ensures reads { Reading IsDirection (Stop is_direction) reader.old reader.new (Ok result) }
    ensures shorter { length reader.new ≤ length reader.old }
{
    if reader.takes(Keyword::Asc) {
        return false;
    }
    reader.takes(Keyword::Desc)
}

/// Behind PASSTHROUGH: `[ONLY] FOR n {, n}`
pub fn passthrough(reader: &mut Reader) -> Result<Passthrough, Broken>
    ensures reads { Reading IsPassthrough Ends reader.old reader.new result }
    ensures shorter { length reader.new ≤ length reader.old }
{
    let only = only(reader);
    reader.keyword(Keyword::For)?;
    let users = reader.names()?;
    Ok(Passthrough { only, users })
}

/// `[ONLY]`
fn only(reader: &mut Reader) -> bool
    ensures reads { Reading IsOnly (BeforeWord key.For) reader.old reader.new (Ok result) }
    ensures shorter { length reader.new ≤ length reader.old }
{
    reader.takes(Keyword::Only)
}

/// A WHERE, or nothing.
pub fn condition(reader: &mut Reader) -> Result<Option<Expr>, Broken>
    ensures reads { Reading IsCondition (Stop condition_goes) reader.old reader.new result }
    ensures shorter { length reader.new ≤ length reader.old }
{
    if reader.takes(Keyword::Where) {
        let condition = expr(reader)?;
        return Ok(Some(condition));
    }
    Ok(None)
}
