ghost use Rattle.std.specs.Prelude.{◌≡◌, ◌<◌, Option, List, ℕ, IfOk, IfSome, bytes_eq, length};
ghost use Rattle.sr_base.specs.declared.value.Kind.{Kind};
ghost use Rattle.sr_ast.specs.Exprs.{term_of};
ghost use Rattle.sr_ast.specs.Classes.{value_class, kind_class, unary_class, binary_class, is_truth, is_number, is_comparable, is_meant, kind_of, typed, column_typing, unary_typing, binary_typing, typing};
ghost use Rattle.sr_ast.specs.Inner.Classes.{place_of, IsTyped};

use crate::expr::{Expr, Operand};
use crate::operator::{Binary, Unary};
use sr_base::{Copied, Kind, Name, NoMemory, Seq, Value};
use std::alloc::{AllocError, Global};

/// The class of a value. `Any` is the class of NULL.
#[derive(Clone, Copy, PartialEq, Eq)]
pub enum Class {
    Number,
    Text,
    Date,
    Truth,
    Any,
}

/// The columns that an expression may name: alias, name and type. A variable has no alias. A name without an alias means the
/// first column of that name.
pub type Scope = Seq<(Option<Name>, Name, Kind)>;

/// The columns that an expression may name, in an order, however they are looked up.
pub trait Columns: Drop {
    ghost scope: { Self → List (Option (List ℕ) × List ℕ × Kind) };

    /// The type of the first column that a reference, with the name before its dot, means.
    fn kind_of(&self, table: &Option<Name>, name: &Name) -> Option<Kind>
        ensures kind { result ≡ kind_of (scope self.now) table.now name.now };
}

/// A look-up goes along the columns.
impl Columns for Scope {
    ghost scope = { λ columns. columns };

    fn kind_of(&self, table: &Option<Name>, name: &Name) -> Option<Kind> {
        first_kind(self.as_slice(), table, name)
    }
}

/// The places of the columns that an expression may name, from 0 on in their order, however they are looked up.
pub trait Places: Drop {
    ghost scope: { Self → List (Option (List ℕ) × List ℕ × Kind) };

    /// The place of the first column that a reference, with the name before its dot, means.
    fn place_of(&self, table: &Option<Name>, name: &Name) -> Option<usize>
        ensures place { result ≡ place_of (scope self.now) table.now name.now };
}

/// A look-up goes along the columns.
impl Places for Scope {
    ghost scope = { λ columns. columns };

    fn place_of(&self, table: &Option<Name>, name: &Name) -> Option<usize> {
        first_place(self.as_slice(), table, name)
    }
}

/// Why an expression has no class.
#[derive(Drop)]
pub enum NotTyped {
    /// The leftmost column that is not there, or `None` where only classes clash.
    Wrong { name: Option<Name> },
    /// There is no memory for the name.
    Memory,
}

impl From<AllocError> for NotTyped {
    ghost use Rattle.std.specs.Prelude.{◌≡◌};
    ghost use Rattle.sr_ast.specs.declared.classes.NotTyped.TheVariants.{Memory};

    ghost from_gives = { λ _ e. e ≡ Memory };

    fn from(_refused: AllocError) -> NotTyped {
        NotTyped::Memory
    }
}

impl Copied for Class {
    fn copy(&self, _alloc: Global) -> Result<Class, NoMemory> {
        Ok(*self)
    }
}

impl Copied for NotTyped {
    fn copy(&self, alloc: Global) -> Result<NotTyped, NoMemory> {
        match self {
            NotTyped::Wrong { name } => Ok(NotTyped::Wrong {
                name: name.copy(alloc)?,
            }),
            NotTyped::Memory => Ok(NotTyped::Memory),
        }
    }
}

/// What looking for a class gives.
#[derive(Drop)]
enum Typing {
    Known(Class),
    Unknown(Name),
    Clash,
}

/// The class of an expression over these columns.
///
/// AND, OR and NOT need truths and give one; a comparison needs two values of one class that is no truth, and IS NULL one that is
/// no truth; both give a truth. Arithmetic needs numbers and gives one. NULL goes with every class.
pub fn class_of(alloc: Global, expr: &Expr, columns: &Scope) -> Result<Class, NotTyped>
    ensures class { IsTyped result (typing columns.now (term_of expr.now)) }
{
    class_by(alloc, expr, columns)
}

/// The same over columns that may be looked up in another way.
pub(crate) fn class_by<C: Columns>(
    alloc: Global,
    expr: &Expr,
    columns: &C,
) -> Result<Class, NotTyped>
    ensures class { IsTyped result (typing (C.scope columns.now) (term_of expr.now)) }
{
    match expr_typing(alloc, expr, columns)? {
        Typing::Known(class) => Ok(class),
        Typing::Unknown(name) => Err(NotTyped::Wrong { name: Some(name) }),
        Typing::Clash => Err(NotTyped::Wrong { name: None }),
    }
}

#[cycle(classing)]
fn expr_typing<C: Columns>(alloc: Global, expr: &Expr, columns: &C) -> Result<Typing, NoMemory>
    ensures typing { IfOk result (λ found. found ≡ typing (C.scope columns.now) (term_of expr.now)) }
{
    match expr {
        Expr::Literal(value) => Ok(Typing::Known(value_class(value))),
        Expr::Column(table, name) => column_typing(alloc, name, columns.kind_of(table, name)),
        Expr::Unary(operator, operand) => {
            let found = operand_typing(alloc, operand, columns)?;
            Ok(unary_typing(*operator, found))
        }
        Expr::Binary(operator, left, right) => {
            let left = operand_typing(alloc, left, columns)?;
            let right = operand_typing(alloc, right, columns)?;
            Ok(binary_typing(*operator, left, right))
        }
    }
}

#[cycle(classing)]
fn operand_typing<C: Columns>(
    alloc: Global,
    operand: &Operand,
    columns: &C,
) -> Result<Typing, NoMemory>
    ensures typing { IfOk result (λ found. found ≡ typing (C.scope columns.now) operand.now) }
{
    expr_typing(alloc, operand.expr(), columns)
}

fn column_typing(alloc: Global, name: &Name, kind: Option<Kind>) -> Result<Typing, NoMemory>
    ensures typing { IfOk result (λ found. found ≡ column_typing name.now kind) }
{
    match kind {
        Some(kind) => Ok(Typing::Known(kind_class(kind))),
        None => Ok(Typing::Unknown(name.copy(alloc)?)),
    }
}

fn typed(class: Option<Class>) -> Typing
    ensures { result ≡ typed class }
{
    match class {
        Some(class) => Typing::Known(class),
        None => Typing::Clash,
    }
}

fn unary_typing(operator: Unary, operand: Typing) -> Typing
    ensures { result ≡ unary_typing operator operand }
{
    match operand {
        Typing::Known(class) => typed(unary_class(operator, class)),
        Typing::Unknown(name) => Typing::Unknown(name),
        Typing::Clash => Typing::Clash,
    }
}

fn binary_typing(operator: Binary, left: Typing, right: Typing) -> Typing
    ensures { result ≡ binary_typing operator left right }
{
    match left {
        Typing::Unknown(name) => Typing::Unknown(name),
        Typing::Known(left) => match right {
            Typing::Unknown(name) => Typing::Unknown(name),
            Typing::Known(right) => typed(binary_class(operator, left, right)),
            Typing::Clash => Typing::Clash,
        },
        Typing::Clash => match right {
            Typing::Unknown(name) => Typing::Unknown(name),
            Typing::Known(_) => Typing::Clash,
            Typing::Clash => Typing::Clash,
        },
    }
}

/// The class of a value; NULL has each.
pub fn value_class(value: &Value) -> Class
    ensures class { result ≡ value_class value.now }
{
    match value {
        Value::Null => Class::Any,
        Value::Int(_) => Class::Number,
        Value::Big(_) => Class::Number,
        Value::Str(_) => Class::Text,
        Value::Date(_) => Class::Date,
    }
}

/// The class of a column of this kind.
pub fn kind_class(kind: Kind) -> Class
    ensures class { result ≡ kind_class kind }
{
    match kind {
        Kind::Int => Class::Number,
        Kind::Big => Class::Number,
        Kind::Varchar(_) => Class::Text,
        Kind::Date => Class::Date,
    }
}

fn is_truth(class: Class) -> bool
    ensures { result ≡ is_truth class }
{
    match class {
        Class::Truth => true,
        Class::Any => true,
        _ => false,
    }
}

fn is_number(class: Class) -> bool
    ensures { result ≡ is_number class }
{
    match class {
        Class::Number => true,
        Class::Any => true,
        _ => false,
    }
}

fn unary_class(operator: Unary, class: Class) -> Option<Class>
    ensures { result ≡ unary_class operator class }
{
    match operator {
        Unary::Not => {
            if is_truth(class) {
                Some(Class::Truth)
            } else {
                None
            }
        }
        Unary::Negate => {
            if is_number(class) {
                Some(Class::Number)
            } else {
                None
            }
        }
        Unary::IsNull | Unary::IsNotNull => {
            if is_comparable(class, Class::Any) {
                Some(Class::Truth)
            } else {
                None
            }
        }
    }
}

/// Whether two classes may be compared: they are one class, and no truth.
pub fn is_comparable(left: Class, right: Class) -> bool
    ensures comparable { result ≡ is_comparable left right }
{
    match left {
        Class::Truth => false,
        Class::Any => match right {
            Class::Truth => false,
            _ => true,
        },
        Class::Number => is_number(right),
        Class::Text => match right {
            Class::Text => true,
            Class::Any => true,
            _ => false,
        },
        Class::Date => match right {
            Class::Date => true,
            Class::Any => true,
            _ => false,
        },
    }
}

fn binary_class(operator: Binary, left: Class, right: Class) -> Option<Class>
    ensures { result ≡ binary_class operator left right }
{
    match operator {
        Binary::Or | Binary::And => {
            if is_truth(left) && is_truth(right) {
                Some(Class::Truth)
            } else {
                None
            }
        }
        Binary::Add | Binary::Subtract | Binary::Multiply => {
            if is_number(left) && is_number(right) {
                Some(Class::Number)
            } else {
                None
            }
        }
        _ => {
            if is_comparable(left, right) {
                Some(Class::Truth)
            } else {
                None
            }
        }
    }
}

/// The type of the first column that a reference means.
fn first_kind(
    columns: &[(Option<Name>, Name, Kind)],
    table: &Option<Name>,
    name: &Name,
) -> Option<Kind>
    ensures { result ≡ kind_of columns.now table.now name.now }
{
    let mut rest = columns;
    'columns: while let Some((column, after)) = rest.split_first() {
        if is_meant(&column.0, &column.1, table, name) {
            return Some(column.2);
        }
        rest = after;
    }
    None
}

/// The place of the first column that a reference means. It looks at each up to it.
pub fn first_place(
    columns: &[(Option<Name>, Name, Kind)],
    table: &Option<Name>,
    name: &Name,
) -> Option<usize>
    ensures place { result ≡ place_of columns.now table.now name.now }
    ensures within { IfSome result (λ place. place < length columns.now) }
{
    columns
        .iter()
        .position(|column| is_meant(&column.0, &column.1, table, name))
}

/// Whether a reference, with the name before its dot, means a column and its alias.
pub fn is_meant(alias: &Option<Name>, column: &Name, table: &Option<Name>, name: &Name) -> bool
    ensures { result ≡ is_meant alias.now column.now table.now name.now }
{
    if !is_same(column, name) {
        return false;
    }
    match table {
        None => true,
        Some(table) => match alias {
            None => false,
            Some(alias) => is_same(alias, table),
        },
    }
}

fn is_same(left: &Name, right: &Name) -> bool
    ensures { result ≡ bytes_eq left.now right.now }
{
    left.bytes() == right.bytes()
}
