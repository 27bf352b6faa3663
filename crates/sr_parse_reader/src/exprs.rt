ghost use Rattle.std.specs.Prelude.{◌≡◌, ◌+◌, ◌<◌, ◌≤◌, length, max, OnOk, IfOk, IfErr, IsTrue};
ghost use Rattle.std.specs.Option.{option_copied, option_and_then};
ghost use Rattle.sr_ast.specs.Terms.Term.{unary, binary};
ghost use Rattle.sr_ast.specs.Exprs.{term_of};
ghost use Rattle.sr_ast.specs.Terms.{depth, deepest};
ghost use Rattle.sr_parse_reader.specs.Inner.Reading.{Reading, Anywhere, mapped};
ghost use Rattle.sr_parse_reader.specs.Inner.Productions.{Named, ReadsLevel};
ghost use Rattle.sr_parse_reader.specs.Inner.Alone.{IsAlone, is_operand, is_loose};
ghost use Rattle.sr_parse_reader.specs.declared.reader.Broken.TheVariants.{Memory};
ghost use Rattle.sr_parse_grammar.specs.Inner.Levels.{tightness};
ghost use Rattle.sr_parse_grammar.specs.Inner.Going.{Stop, expression_goes, goes_on, is_dot};
ghost use Rattle.sr_parse_grammar.specs.Literals.{IsLiteral, IsDateText, number_value, negated, negative_meant};
ghost use Rattle.sr_parse_grammar.specs.Expressions.{IsExpr, IsNullTest, tighter, joins, compares};
ghost use Rattle.sr_parse_grammar.specs.Inner.Expressions.{IsDeep};
ghost use Rattle.sr_parse_grammar.specs.Expressions.Tightness.{negation, comparison, signed, operand};

use crate::reader::{Broken, Reader};
use sr_ast::{Binary, DEEPEST, Expr, Keyword, Operand, Unary};
use sr_base::Value;
use sr_base_dates::day_of;
use sr_parse_grammar::{Level, Sign, Symbol};

/// How deep an expression may be, and how many parentheses it may open.
#[derive(Clone, Copy)]
pub struct Room {
    pub depth: usize,
    pub parentheses: usize,
}

/// The room of an expression that stands in no other.
pub const WHOLE: Room = Room {
    depth: DEEPEST,
    parentheses: DEEPEST,
};

/// An expression and its depth.
#[derive(Drop)]
struct Sized {
    expr: Expr,
    depth: usize,
}

pub fn expr(reader: &mut Reader) -> Result<Expr, Broken>
    ensures reads { Reading IsExpr (Stop expression_goes) reader.old reader.new result }
    ensures shorter { length reader.new ≤ length reader.old }
    ensures progress { OnOk result (length reader.new < length reader.old) }
{
    let sized = chain(reader, Level::Or, WHOLE)?;
    Ok(sized.expr)
}

/// The room of an operand.
fn inside(room: Room) -> Room
    requires { 0 < room.depth }
    ensures depth { result.depth + 1 ≡ room.depth }
    ensures parentheses { result.parentheses ≡ room.parentheses }
{
    Room {
        depth: room.depth - 1,
        parentheses: room.parentheses,
    }
}

/// Whether an operand of one symbol is next, behind which no expression of a level goes on. Most expressions are such: what goes over
/// the levels down to it reads no more than the operand.
fn is_alone(reader: &Reader, level: Level) -> bool
    ensures alone { IsTrue result → IsAlone (tightness level) reader.now }
{
    let Some(first) = reader.peek() else {
        return false;
    };
    if !is_operand(first) {
        return false;
    }
    match reader.second() {
        None => true,
        Some(second) => !goes_on(level, second),
    }
}

/// Whether a symbol is an operand by itself.
fn is_operand(symbol: &Symbol) -> bool
    ensures { result ≡ is_operand symbol.now }
{
    match symbol {
        Symbol::Number(_) => true,
        Symbol::Text(_) => true,
        Symbol::Name(_) => true,
        _ => false,
    }
}

/// Whether an expression of a level goes on with a symbol.
fn goes_on(level: Level, symbol: &Symbol) -> bool
    ensures { result ≡ goes_on (tightness level) symbol.now }
{
    match symbol {
        Symbol::Sign(Sign::Dot | Sign::Times) => true,
        Symbol::Sign(Sign::Plus | Sign::Minus) => match level {
            Level::Product => false,
            _ => true,
        },
        Symbol::Sign(
            Sign::Equal | Sign::Unequal | Sign::Less | Sign::AtMost | Sign::Greater | Sign::AtLeast,
        ) => is_loose(level),
        Symbol::Keyword(Keyword::Is | Keyword::And) => is_loose(level),
        Symbol::Keyword(Keyword::Or) => match level {
            Level::Or => true,
            _ => false,
        },
        _ => false,
    }
}

/// Whether comparisons stand between the operators of a level.
fn is_loose(level: Level) -> bool
    ensures { result ≡ is_loose level }
{
    match level {
        Level::Or => true,
        Level::And => true,
        Level::Sum => false,
        Level::Product => false,
    }
}

fn operator_at(level: Level, symbol: Option<&Symbol>) -> Option<Binary>
    ensures { result ≡ option_and_then (joins (tightness level)) (option_copied symbol.entry) }
{
    match symbol {
        Some(Symbol::Keyword(Keyword::Or)) => match level {
            Level::Or => Some(Binary::Or),
            _ => None,
        },
        Some(Symbol::Keyword(Keyword::And)) => match level {
            Level::And => Some(Binary::And),
            _ => None,
        },
        Some(Symbol::Sign(Sign::Plus)) => match level {
            Level::Sum => Some(Binary::Add),
            _ => None,
        },
        Some(Symbol::Sign(Sign::Minus)) => match level {
            Level::Sum => Some(Binary::Subtract),
            _ => None,
        },
        Some(Symbol::Sign(Sign::Times)) => match level {
            Level::Product => Some(Binary::Multiply),
            _ => None,
        },
        _ => None,
    }
}

fn joined(reader: &Reader, operator: Binary, left: Sized, right: Sized) -> Result<Sized, Broken>
    requires small { (left.depth ≤ deepest) × (right.depth ≤ deepest) }
    ensures term { IfOk result (λ sized. term_of sized.expr ≡ binary operator (term_of left.expr) (term_of right.expr)) }
    ensures depth { IfOk result (λ sized. sized.depth ≡ max left.depth right.depth + 1) }
    ensures memory { IfErr result (λ e. e ≡ Memory) }
{
    let depth = left.depth.max(right.depth) + 1;
    let left = Operand::new(reader.alloc(), left.expr)?;
    let right = Operand::new(reader.alloc(), right.expr)?;
    Ok(Sized {
        expr: Expr::Binary(operator, left, right),
        depth,
    })
}

fn over(reader: &Reader, operator: Unary, operand: Sized) -> Result<Sized, Broken>
    requires small { operand.depth ≤ deepest }
    ensures term { IfOk result (λ sized. term_of sized.expr ≡ unary operator (term_of operand.expr)) }
    ensures depth { IfOk result (λ sized. sized.depth ≡ operand.depth + 1) }
    ensures memory { IfErr result (λ e. e ≡ Memory) }
{
    let depth = operand.depth + 1;
    let operand = Operand::new(reader.alloc(), operand.expr)?;
    Ok(Sized {
        expr: Expr::Unary(operator, operand),
        depth,
    })
}

#[cycle(exprs)]
fn chain(reader: &mut Reader, level: Level, room: Room) -> Result<Sized, Broken>
    requires room { (0 < room.depth) × (room.depth ≤ deepest) }
    ensures deep { IfOk result (λ sized. IsDeep (term_of sized.expr) sized.depth room.depth) }
    ensures reads { ReadsLevel (tightness level) room reader.old reader.new result }
    ensures shorter { length reader.new ≤ length reader.old }
    ensures progress { OnOk result (length reader.new < length reader.old) }
{
    if is_alone(reader, level) {
        let operand = primary(reader, room)?;
        return Ok(operand);
    }
    let mut left = part(reader, level, room)?;
    'more: while let Some(operator) = operator_at(level, reader.peek()) {
        if left.depth >= room.depth {
            return Err(Broken::Refused);
        }
        reader.skip();
        let right = part(reader, level, inside(room))?;
        left = joined(reader, operator, left, right)?;
    }
    Ok(left)
}

#[cycle(exprs)]
fn part(reader: &mut Reader, level: Level, room: Room) -> Result<Sized, Broken>
    requires room { (0 < room.depth) × (room.depth ≤ deepest) }
    ensures deep { IfOk result (λ sized. IsDeep (term_of sized.expr) sized.depth room.depth) }
    ensures reads { ReadsLevel (tighter (tightness level)) room reader.old reader.new result }
    ensures shorter { length reader.new ≤ length reader.old }
    ensures progress { OnOk result (length reader.new < length reader.old) }
{
    match level {
        Level::Or => chain(reader, Level::And, room),
        Level::And => negation(reader, room),
        Level::Sum => chain(reader, Level::Product, room),
        Level::Product => signed(reader, room),
    }
}

#[cycle(exprs)]
fn negation(reader: &mut Reader, room: Room) -> Result<Sized, Broken>
    requires room { (0 < room.depth) × (room.depth ≤ deepest) }
    ensures deep { IfOk result (λ sized. IsDeep (term_of sized.expr) sized.depth room.depth) }
    ensures reads { ReadsLevel negation room reader.old reader.new result }
    ensures shorter { length reader.new ≤ length reader.old }
    ensures progress { OnOk result (length reader.new < length reader.old) }
{
    if !reader.is_keyword(Keyword::Not) {
        let compared = comparison(reader, room)?;
        return Ok(compared);
    }
    if room.depth < 2 {
        return Err(Broken::Refused);
    }
    reader.skip();
    let operand = negation(reader, inside(room))?;
    let whole = over(reader, Unary::Not, operand)?;
    Ok(whole)
}

fn comparison_at(symbol: Option<&Symbol>) -> Option<Binary>
    ensures { result ≡ option_and_then compares (option_copied symbol.entry) }
{
    match symbol {
        Some(Symbol::Sign(Sign::Equal)) => Some(Binary::Equal),
        Some(Symbol::Sign(Sign::Unequal)) => Some(Binary::Unequal),
        Some(Symbol::Sign(Sign::Less)) => Some(Binary::Less),
        Some(Symbol::Sign(Sign::AtMost)) => Some(Binary::AtMost),
        Some(Symbol::Sign(Sign::Greater)) => Some(Binary::Greater),
        Some(Symbol::Sign(Sign::AtLeast)) => Some(Binary::AtLeast),
        _ => None,
    }
}

#[cycle(exprs)]
fn comparison(reader: &mut Reader, room: Room) -> Result<Sized, Broken>
    requires room { (0 < room.depth) × (room.depth ≤ deepest) }
    ensures deep { IfOk result (λ sized. IsDeep (term_of sized.expr) sized.depth room.depth) }
    ensures reads { ReadsLevel comparison room reader.old reader.new result }
    ensures shorter { length reader.new ≤ length reader.old }
    ensures progress { OnOk result (length reader.new < length reader.old) }
{
    let left = chain(reader, Level::Sum, room)?;
    if let Some(operator) = comparison_at(reader.peek()) {
        if left.depth >= room.depth {
            return Err(Broken::Refused);
        }
        reader.skip();
        let right = chain(reader, Level::Sum, inside(room))?;
        let whole = joined(reader, operator, left, right)?;
        return Ok(whole);
    }
    if reader.is_keyword(Keyword::Is) {
        if left.depth >= room.depth {
            return Err(Broken::Refused);
        }
        reader.skip();
        let operator = null_test(reader)?;
        let whole = over(reader, operator, left)?;
        return Ok(whole);
    }
    Ok(left)
}

fn null_test(reader: &mut Reader) -> Result<Unary, Broken>
    ensures reads { Reading IsNullTest Anywhere reader.old reader.new result }
    ensures shorter { length reader.new ≤ length reader.old }
    ensures progress { OnOk result (length reader.new < length reader.old) }
{
    let operator = if reader.takes(Keyword::Not) {
        Unary::IsNotNull
    } else {
        Unary::IsNull
    };
    reader.keyword(Keyword::Null)?;
    Ok(operator)
}

#[cycle(exprs)]
fn signed(reader: &mut Reader, room: Room) -> Result<Sized, Broken>
    requires room { (0 < room.depth) × (room.depth ≤ deepest) }
    ensures deep { IfOk result (λ sized. IsDeep (term_of sized.expr) sized.depth room.depth) }
    ensures reads { ReadsLevel signed room reader.old reader.new result }
    ensures shorter { length reader.new ≤ length reader.old }
    ensures progress { OnOk result (length reader.new < length reader.old) }
{
    if !reader.takes_sign(Sign::Minus) {
        let operand = primary(reader, room)?;
        return Ok(operand);
    }
    if let Some(value) = negative(reader.peek()) {
        reader.skip();
        return Ok(leaf(Expr::Literal(value)));
    }
    if room.depth < 2 {
        return Err(Broken::Refused);
    }
    let operand = signed(reader, inside(room))?;
    let whole = over(reader, Unary::Negate, operand)?;
    Ok(whole)
}

fn leaf(expr: Expr) -> Sized
    ensures expr { result.expr ≡ expr }
    ensures depth { result.depth ≡ 1 }
{
    Sized { expr, depth: 1 }
}

/// The negative literal that a number behind a `-` makes.
pub fn negative(symbol: Option<&Symbol>) -> Option<Value>
    ensures { result ≡ option_and_then negative_meant (option_copied symbol.entry) }
{
    match symbol {
        Some(Symbol::Number(number)) => match negated(*number) {
            Some(less) => Some(value_of(less)),
            None => None,
        },
        Some(Symbol::TopNumber) => Some(Value::Big(i64::MIN)),
        _ => None,
    }
}

fn negated(number: i64) -> Option<i64>
    ensures { result ≡ negated number }
{
    number.checked_neg()
}

/// A number as a literal: within 32 bits an INTEGER, else a BIGINT.
pub fn value_of(number: i64) -> Value
    ensures { result ≡ number_value number }
{
    match i32::try_from(number) {
        Ok(small) => Value::Int(small),
        Err(_) => Value::Big(number),
    }
}

#[cycle(exprs)]
fn primary(reader: &mut Reader, room: Room) -> Result<Sized, Broken>
    requires room { (0 < room.depth) × (room.depth ≤ deepest) }
    ensures deep { IfOk result (λ sized. IsDeep (term_of sized.expr) sized.depth room.depth) }
    ensures reads { ReadsLevel operand room reader.old reader.new result }
    ensures shorter { length reader.new ≤ length reader.old }
    ensures progress { OnOk result (length reader.new < length reader.old) }
{
    if reader.is_sign(Sign::Open) {
        if room.parentheses == 0 {
            return Err(Broken::Refused);
        }
        reader.skip();
        let room = Room {
            depth: room.depth,
            parentheses: room.parentheses - 1,
        };
        let inner = chain(reader, Level::Or, room)?;
        reader.sign(Sign::Close)?;
        return Ok(inner);
    }
    if reader.is_name() {
        let column = column(reader)?;
        return Ok(column);
    }
    let value = literal(reader)?;
    Ok(leaf(Expr::Literal(value)))
}

fn column(reader: &mut Reader) -> Result<Sized, Broken>
    ensures deep { IfOk result (λ sized. IsDeep (term_of sized.expr) sized.depth 1) }
    ensures reads { Reading Named (Stop is_dot) reader.old reader.new (mapped (λ sized. term_of sized.expr) result) }
    ensures shorter { length reader.new ≤ length reader.old }
    ensures progress { OnOk result (length reader.new < length reader.old) }
{
    let (table, name) = reader.reference()?;
    Ok(leaf(Expr::Column(table, name)))
}

/// A number, a text, NULL, or DATE and the text of a date.
pub fn literal(reader: &mut Reader) -> Result<Value, Broken>
    ensures reads { Reading IsLiteral Anywhere reader.old reader.new result }
    ensures shorter { length reader.new ≤ length reader.old }
    ensures progress { OnOk result (length reader.new < length reader.old) }
{
    if let Some(Symbol::Number(number)) = reader.peek() {
        let value = value_of(*number);
        reader.skip();
        return Ok(value);
    }
    if reader.takes(Keyword::Null) {
        return Ok(Value::Null);
    }
    if reader.takes(Keyword::Date) {
        let day = date(reader)?;
        return Ok(day);
    }
    Ok(Value::Str(reader.text()?))
}

fn date(reader: &mut Reader) -> Result<Value, Broken>
    ensures reads { Reading IsDateText Anywhere reader.old reader.new result }
    ensures shorter { length reader.new ≤ length reader.old }
    ensures progress { OnOk result (length reader.new < length reader.old) }
{
    let day = match reader.peek() {
        Some(Symbol::Text(text)) => day_of(text.bytes()),
        _ => None,
    };
    match day {
        Some(day) => {
            reader.skip();
            Ok(Value::Date(day))
        }
        None => Err(Broken::Refused),
    }
}
