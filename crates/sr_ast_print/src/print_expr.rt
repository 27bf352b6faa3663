ghost use Rattle.std.specs.Prelude.{◌≡◌, ◌∷◌, ◌++◌, [], codes, List, ℕ, IfOk, string_bytes, OnOk, IsUtf8};
ghost use Rattle.std.specs.Fmt.{signed_decimal};
ghost use Rattle.sr_base_dates.specs.Calendar.{date_text};
ghost use Rattle.sr_ast.specs.Exprs.{term_of};
ghost use Rattle.sr_ast.specs.Pages.{put_all, word, call_parenthesis, close_parenthesis};
ghost use Rattle.sr_ast.specs.Printing.{
  name_pieces,
  value_pieces,
  kind_pieces,
  column_pieces,
  sign,
  is_operator,
  operand,
  unary_pieces,
  term_pieces,
  expr_pieces,
  quoted,
};

use crate::page::Page;
use crate::printing::Printed;
use sr_ast::{Binary, Expr, Operand, Unary};
use sr_base::{Day, Kind, Name, NoMemory, Text, Value};
use sr_base_dates::write_literal;
use std::alloc::Global;

impl Printed for Name {
    ghost pieces = { name_pieces };

    fn print(&self, page: &mut Page) -> Result<(), NoMemory> {
        page.name(self)
    }
}

impl Printed for Value {
    ghost pieces = { value_pieces };

    fn print(&self, page: &mut Page) -> Result<(), NoMemory> {
        match self {
            Value::Null => page.word("NULL"),
            Value::Int(number) => print_number(*number as i64, page),
            Value::Big(number) => print_number(*number, page),
            Value::Str(text) => print_text(text, page),
            Value::Date(day) => print_date(*day, page),
        }
    }
}

fn print_number(number: i64, page: &mut Page) -> Result<(), NoMemory>
    ensures ok { OnOk result (page.new ≡ put_all page.old (word (signed_decimal number) ∷ [])) }
{
    let digits = number.to_string(page.alloc())?;
    page.word(digits.as_str())
}

/// Prints a text in quotes.
pub fn print_text(text: &Text, page: &mut Page) -> Result<(), NoMemory>
    ensures ok { OnOk result (page.new ≡ put_all page.old (word (quoted text.now) ∷ [])) }
{
    let quoted = quoted_text(page.alloc(), text)?;
    page.word(quoted.as_str())
}

fn print_date(day: Day, page: &mut Page) -> Result<(), NoMemory>
    ensures ok { OnOk result (page.new ≡ put_all page.old (word (codes "DATE") ∷ word (39 ∷ (date_text day ++ 39 ∷ [])) ∷ [])) }
{
    let quoted = quoted_date(page.alloc(), day)?;
    page.word("DATE")?;
    page.word(quoted.as_str())?;
    Ok(())
}

impl Printed for Kind {
    ghost pieces = { kind_pieces };

    fn print(&self, page: &mut Page) -> Result<(), NoMemory> {
        match self {
            Kind::Int => page.word("INTEGER"),
            Kind::Big => page.word("BIGINT"),
            Kind::Varchar(length) => {
                let digits = length.to_string(page.alloc())?;
                print_called("VARCHAR", digits.as_str(), page)
            }
            Kind::Date => page.word("DATE"),
        }
    }
}

/// Prints a word, and another in parentheses right behind it.
pub fn print_called(called: &str, inside: &str, page: &mut Page) -> Result<(), NoMemory>
    ensures ok { OnOk result (page.new ≡ put_all page.old (word called.now ∷ call_parenthesis ∷ word inside.now ∷ close_parenthesis ∷ [])) }
{
    page.word(called)?;
    page.call()?;
    page.word(inside)?;
    page.close()?;
    Ok(())
}

/// Prints a column, with the name before its dot.
pub fn print_column(table: &Option<Name>, name: &Name, page: &mut Page) -> Result<(), NoMemory>
    ensures ok { OnOk result (page.new ≡ put_all page.old (column_pieces table.now name.now)) }
{
    match table {
        None => page.name(name),
        Some(table) => {
            page.name(table)?;
            page.dot()?;
            page.name(name)?;
            Ok(())
        }
    }
}

/// How an operator of two operands is written.
fn sign(operator: Binary) -> &'static str
    ensures { result.now ≡ sign operator }
{
    match operator {
        Binary::Or => "OR",
        Binary::And => "AND",
        Binary::Equal => "=",
        Binary::Unequal => "<>",
        Binary::Less => "<",
        Binary::AtMost => "<=",
        Binary::Greater => ">",
        Binary::AtLeast => ">=",
        Binary::Add => "+",
        Binary::Subtract => "-",
        Binary::Multiply => "*",
    }
}

/// Whether an expression stands in parentheses as an operand.
fn is_operator(expr: &Expr) -> bool
    ensures { result ≡ is_operator (term_of expr.now) }
{
    match expr {
        Expr::Literal(_) => false,
        Expr::Column(_, _) => false,
        Expr::Unary(_, _) => true,
        Expr::Binary(_, _, _) => true,
    }
}

impl Printed for Expr {
    ghost pieces = { expr_pieces };

    fn print(&self, page: &mut Page) -> Result<(), NoMemory> {
        print_expr(self, page)
    }
}

#[cycle(printing)]
#[tactic(auto, using(crate::proofs::Prints::steps))]
fn print_expr(expr: &Expr, page: &mut Page) -> Result<(), NoMemory>
    ensures ok { OnOk result (page.new ≡ put_all page.old (expr_pieces expr.now)) }
{
    match expr {
        Expr::Literal(value) => value.print(page),
        Expr::Column(table, name) => print_column(table, name, page),
        Expr::Unary(operator, operand) => print_unary(*operator, operand, page),
        Expr::Binary(operator, left, right) => {
            print_operand(left, page)?;
            page.word(sign(*operator))?;
            print_operand(right, page)?;
            Ok(())
        }
    }
}

#[cycle(printing)]
#[tactic(auto, using(crate::proofs::Prints::steps))]
fn print_unary(operator: Unary, operand: &Operand, page: &mut Page) -> Result<(), NoMemory>
    ensures ok { OnOk result (page.new ≡ put_all page.old (unary_pieces operator operand.now (term_pieces operand.now))) }
{
    match operator {
        Unary::Not => {
            page.word("NOT")?;
            print_operand(operand, page)?;
            Ok(())
        }
        Unary::IsNull => print_before(operand, "IS NULL", page),
        Unary::IsNotNull => print_before(operand, "IS NOT NULL", page),
        Unary::Negate => {
            page.dash()?;
            page.open()?;
            print_expr(operand.expr(), page)?;
            page.close()?;
            Ok(())
        }
    }
}

/// Prints an operand before these words.
#[cycle(printing)]
#[tactic(auto, using(crate::proofs::Prints::steps))]
fn print_before(term: &Operand, words: &str, page: &mut Page) -> Result<(), NoMemory>
    ensures ok { OnOk result (page.new ≡ put_all page.old (operand term.now (term_pieces term.now) ++ word words.now ∷ [])) }
{
    print_operand(term, page)?;
    page.word(words)?;
    Ok(())
}

#[cycle(printing)]
#[tactic(auto, using(crate::proofs::Prints::steps))]
fn print_operand(term: &Operand, page: &mut Page) -> Result<(), NoMemory>
    ensures ok { OnOk result (page.new ≡ put_all page.old (operand term.now (term_pieces term.now))) }
{
    let expr = term.expr();
    if is_operator(expr) {
        page.open()?;
        print_expr(expr, page)?;
        page.close()?;
        Ok(())
    } else {
        print_expr(expr, page)
    }
}

/// The bytes as a string.
fn utf8_string(bytes: Vec<u8>) -> String
    requires { IsUtf8 bytes.items }
    ensures { string_bytes result ≡ bytes.items }
{
    match String::from_utf8(bytes) {
        Ok(text) => text,
        Err(_) => unreachable!(),
    }
}

fn quoted_text(alloc: Global, text: &Text) -> Result<String, NoMemory>
    ensures quoted { IfOk result (λ q. string_bytes q ≡ quoted text.now) }
{
    Ok(utf8_string(quoted_bytes(alloc, text)?))
}

fn quoted_bytes(alloc: Global, text: &Text) -> Result<Vec<u8>, NoMemory>
    ensures quoted { IfOk result (λ q. q.items ≡ quoted text.now) }
    ensures utf8 { IfOk result (λ q. IsUtf8 q.items) }
{
    let mut bytes = Vec::new(alloc);
    bytes.push(b'\'')?;
    let mut rest = text.bytes();
    'bytes: while let Some((byte, after)) = rest.split_first() {
        if *byte == b'\'' {
            bytes.push(b'\'')?;
        }
        bytes.push(*byte)?;
        rest = after;
    }
    bytes.push(b'\'')?;
    Ok(bytes)
}

fn quoted_date(alloc: Global, day: Day) -> Result<String, NoMemory>
    ensures quoted { IfOk result (λ q. string_bytes q ≡ 39 ∷ (date_text day ++ 39 ∷ [])) }
{
    Ok(utf8_string(date_bytes(alloc, day)?))
}

#[tactic(auto, using(sr_ast::proofs::Utf8::date_quoted_utf8))]
fn date_bytes(alloc: Global, day: Day) -> Result<Vec<u8>, NoMemory>
    ensures quoted { IfOk result (λ q. q.items ≡ 39 ∷ (date_text day ++ 39 ∷ [])) }
    ensures utf8 { IfOk result (λ q. IsUtf8 q.items) }
{
    let mut bytes = Vec::new(alloc);
    bytes.push(b'\'')?;
    write_literal(alloc, &Value::Date(day), &mut bytes)?;
    bytes.push(b'\'')?;
    Ok(bytes)
}
