ghost use Rattle.std.specs.Prelude.{◌≡◌, ◌<◌, ◌≤◌, length, OnOk, IsTrue, IfSome, ◌∷◌, [], ℕ, List, All, Any, IsFalse, ◌≢◌};
ghost use Rattle.std.specs.Option.{option_copied};
ghost use Rattle.sr_ast.specs.declared.create.Image.{Image};
ghost use Rattle.sr_parse_reader.specs.Inner.Reading.{Reading, Anywhere, BeforeWord, BeforeSign, mapped, Gives};
ghost use Rattle.sr_parse_reader.specs.Inner.Productions.{TwoWords, Keyed, Ruled, Rules, EachRow};
ghost use Rattle.sr_parse_grammar.specs.Symbols.{Symbols, word, IsName};
ghost use Rattle.sr_parse_grammar.specs.Inner.Going.{Stop, Ends, Closes, is_open, condition_goes, is_image, is_declare, rule_starts};
ghost use Rattle.sr_parse_grammar.specs.Listing.{Listed, Row};
ghost use Rattle.sr_parse_grammar.specs.Writing.{IsCondition};
ghost use Rattle.sr_parse_grammar.specs.Catalog.{
  IsKind,
  IsLength,
  IsArticle,
  IsSubscribed,
  IsPublication,
  IsAddress,
  IsGrant,
  IsSigned,
  IsGiven,
  IsSubscription,
};
ghost use Rattle.sr_parse_grammar.specs.Tables.{IsTable, IsKeyWords};
ghost use Rattle.sr_parse_grammar.specs.Scripts.{IsBehind};
ghost use Rattle.sr_parse_grammar.specs.Triggers.{IsOf, AreAliases, IsVariable, IsTrigger, image_word};
ghost use Rattle.sr_ast.specs.declared.keyword.Keyword.TheVariants as key;
ghost use Rattle.sr_parse_grammar.specs.declared.symbol.Sign.TheVariants as mark;

use crate::acting::actions;
use crate::normal::normal;
use sr_ast::{
    ArticleRule, ColumnRule, CreatePublication, CreateTable, CreateTrigger, DEEPEST, Expr, Grant,
    Image, Keyword, SubscriptionRule,
};
use sr_base::{Kind, Name, Seq, Text, Value};
use sr_parse_grammar::{Sign, Symbol};
use sr_parse_reader::{Broken, Reader, condition, expr, literal, negative};
use std::alloc::Global;

/// Behind GRANT, where REMOTE is not next.
pub fn consolidated(reader: &mut Reader) -> Result<Grant, Broken>
    ensures reads { Reading (IsBehind key.Consolidate IsGrant) Ends reader.old reader.new result }
    ensures shorter { length reader.new ≤ length reader.old }
{
    reader.keyword(Keyword::Consolidate)?;
    let grant = granted(reader)?;
    Ok(grant)
}

/// Behind CONSOLIDATE, and behind REMOTE.
pub fn granted(reader: &mut Reader) -> Result<Grant, Broken>
    ensures reads { Reading IsGrant Ends reader.old reader.new result }
    ensures shorter { length reader.new ≤ length reader.old }
{
    reader.keyword(Keyword::To)?;
    let user = reader.name()?;
    let address = address(reader)?;
    Ok(Grant { user, address })
}

fn address(reader: &mut Reader) -> Result<Option<Text>, Broken>
    ensures reads { Reading IsAddress Ends reader.old reader.new result }
    ensures shorter { length reader.new ≤ length reader.old }
{
    if !reader.takes(Keyword::Type) {
        return Ok(None);
    }
    reader.keyword(Keyword::File)?;
    reader.keyword(Keyword::Address)?;
    let text = reader.text()?;
    Ok(Some(text))
}

/// From SUBSCRIPTION on.
pub fn subscription(reader: &mut Reader) -> Result<SubscriptionRule, Broken>
    ensures reads { Reading IsSubscription Anywhere reader.old reader.new result }
    ensures shorter { length reader.new ≤ length reader.old }
    ensures progress { OnOk result (length reader.new < length reader.old) }
{
    reader.keyword(Keyword::Subscription)?;
    reader.keyword(Keyword::To)?;
    let publication = reader.name()?;
    let value = given_value(reader)?;
    reader.keyword(Keyword::For)?;
    let user = reader.name()?;
    Ok(SubscriptionRule {
        publication,
        value,
        user,
    })
}

fn given_value(reader: &mut Reader) -> Result<Option<Value>, Broken>
    ensures reads { Reading IsGiven (Stop is_open) reader.old reader.new result }
    ensures shorter { length reader.new ≤ length reader.old }
{
    if !reader.takes_sign(Sign::Open) {
        return Ok(None);
    }
    let value = signed_literal(reader)?;
    reader.sign(Sign::Close)?;
    Ok(Some(value))
}

/// A literal, or a negative number.
pub fn signed_literal(reader: &mut Reader) -> Result<Value, Broken>
    ensures reads { Reading IsSigned Anywhere reader.old reader.new result }
    ensures shorter { length reader.new ≤ length reader.old }
{
    if !reader.takes_sign(Sign::Minus) {
        let value = literal(reader)?;
        return Ok(value);
    }
    match negative(reader.peek()) {
        Some(value) => {
            reader.skip();
            Ok(value)
        }
        None => Err(Broken::Refused),
    }
}

/// Behind CREATE TABLE.
pub fn create_table(reader: &mut Reader) -> Result<CreateTable, Broken>
    ensures reads { Reading IsTable Anywhere reader.old reader.new result }
    ensures shorter { length reader.new ≤ length reader.old }
{
    let name = reader.name()?;
    reader.sign(Sign::Open)?;
    let (written, key) = columns(reader)?;
    reader.sign(Sign::Close)?;
    let columns = normal(reader.alloc(), written, key.as_slice())?;
    Ok(CreateTable {
        name,
        columns: Seq::from_vec(columns),
        key: Seq::from_vec(key),
    })
}

/// The columns as they are written, and the key.
fn columns(reader: &mut Reader) -> Result<(Vec<ColumnRule>, Vec<Name>), Broken>
    ensures reads { Reading Keyed (BeforeSign mark.Close) reader.old reader.new (mapped (λ read. (read.0.items, read.1.items)) result) }
    ensures shorter { length reader.new ≤ length reader.old }
{
    let mut columns = Vec::new(reader.alloc());
    let (first, mut key) = column_rule(reader, Vec::new(reader.alloc()))?;
    columns.push(first)?;
    'more: while reader.takes_sign(Sign::Comma) {
        if reader.is_keyword(Keyword::Primary) {
            if !key.is_empty() {
                return Err(Broken::Refused);
            }
            let names = key_list(reader)?;
            return Ok((columns, names));
        }
        let (item, more) = column_rule(reader, key)?;
        columns.push(item)?;
        key = more;
    }
    Ok((columns, key))
}

/// `PRIMARY KEY ( n {, n} )`
fn key_list(reader: &mut Reader) -> Result<Vec<Name>, Broken>
    ensures reads { Reading IsKeyWords Anywhere reader.old reader.new (mapped (λ key. key.items) result) }
    ensures shorter { length reader.new ≤ length reader.old }
{
    reader.keyword(Keyword::Primary)?;
    reader.keyword(Keyword::Key)?;
    reader.sign(Sign::Open)?;
    let names = reader.name_items()?;
    reader.sign(Sign::Close)?;
    Ok(names)
}

/// A column, and the key with it.
fn column_rule(reader: &mut Reader, held: Vec<Name>) -> Result<(ColumnRule, Vec<Name>), Broken>
    ensures reads { Reading (Ruled held.items) (Stop rule_starts) reader.old reader.new (mapped (λ read. (read.0, read.1.items)) result) }
    ensures shorter { length reader.new ≤ length reader.old }
    ensures progress { OnOk result (length reader.new < length reader.old) }
{
    let name = reader.name()?;
    let kind = kind(reader)?;
    let rules = rules(reader, held.is_empty())?;
    let not_null = rules.not_null;
    if rules.primary {
        let key = alone(reader.alloc(), &name)?;
        let column = ColumnRule {
            name,
            kind,
            not_null,
        };
        return Ok((column, key));
    }
    let column = ColumnRule {
        name,
        kind,
        not_null,
    };
    Ok((column, held))
}

/// A list of this name.
fn alone(alloc: Global, name: &Name) -> Result<Vec<Name>, Broken>
    ensures items { Gives result (λ names. names.items ≡ name.now ∷ []) }
{
    let copy = sr_base::Copied::copy(name, alloc)?;
    let mut names = Vec::new(alloc);
    names.push(copy)?;
    Ok(names)
}

/// Which rules a column has.
#[derive(Drop)]
struct Written {
    not_null: bool,
    null: bool,
    primary: bool,
}

/// The rules of a column, each at most once; PRIMARY KEY only where there is no key yet.
fn rules(reader: &mut Reader, may_be_key: bool) -> Result<Written, Broken>
    ensures reads { Reading (Rules may_be_key) (Stop rule_starts) reader.old reader.new (mapped (λ rules. (rules.not_null, rules.null, rules.primary)) result) }
    ensures shorter { length reader.new ≤ length reader.old }
{
    let mut not_null = false;
    let mut null = false;
    let mut primary = false;
    'more: loop {
        if !not_null && reader.is_keyword(Keyword::Not) {
            reader.keyword(Keyword::Not)?;
            reader.keyword(Keyword::Null)?;
            not_null = true;
        } else if !null && reader.is_keyword(Keyword::Null) {
            reader.keyword(Keyword::Null)?;
            null = true;
        } else if may_be_key && !primary && reader.is_keyword(Keyword::Primary) {
            reader.keyword(Keyword::Primary)?;
            reader.keyword(Keyword::Key)?;
            primary = true;
        } else {
            return Ok(Written {
                not_null,
                null,
                primary,
            });
        }
    }
}

fn kind(reader: &mut Reader) -> Result<Kind, Broken>
    ensures reads { Reading IsKind Anywhere reader.old reader.new result }
    ensures shorter { length reader.new ≤ length reader.old }
    ensures progress { OnOk result (length reader.new < length reader.old) }
{
    if reader.takes(Keyword::Integer) {
        return Ok(Kind::Int);
    }
    if reader.takes(Keyword::Int) {
        return Ok(Kind::Int);
    }
    if reader.takes(Keyword::Bigint) {
        return Ok(Kind::Big);
    }
    if reader.takes(Keyword::Date) {
        return Ok(Kind::Date);
    }
    reader.keyword(Keyword::Varchar)?;
    reader.sign(Sign::Open)?;
    let length = length(reader)?;
    reader.sign(Sign::Close)?;
    Ok(Kind::Varchar(length))
}

fn length(reader: &mut Reader) -> Result<u16, Broken>
    ensures reads { Reading IsLength Anywhere reader.old reader.new result }
    ensures shorter { length reader.new ≤ length reader.old }
    ensures progress { OnOk result (length reader.new < length reader.old) }
{
    match reader.peek() {
        Some(Symbol::Number(number)) => {
            let number = *number;
            if number < 1 || number > 32767 {
                return Err(Broken::Refused);
            }
            reader.skip();
            Ok(number as u16)
        }
        _ => Err(Broken::Refused),
    }
}

/// Behind CREATE PUBLICATION.
pub fn create_publication(reader: &mut Reader) -> Result<CreatePublication, Broken>
    ensures reads { Reading IsPublication Anywhere reader.old reader.new result }
    ensures shorter { length reader.new ≤ length reader.old }
{
    let name = reader.name()?;
    reader.sign(Sign::Open)?;
    let articles = articles(reader)?;
    reader.sign(Sign::Close)?;
    Ok(CreatePublication { name, articles })
}

/// Articles with commas between them.
fn articles(reader: &mut Reader) -> Result<Seq<ArticleRule>, Broken>
    ensures reads { Reading (Listed IsArticle) (BeforeSign mark.Close) reader.old reader.new result }
    ensures shorter { length reader.new ≤ length reader.old }
{
    let mut items = Vec::new(reader.alloc());
    let first = article(reader)?;
    items.push(first)?;
    'more: while reader.takes_sign(Sign::Comma) {
        let item = article(reader)?;
        items.push(item)?;
    }
    Ok(Seq::from_vec(items))
}

fn article(reader: &mut Reader) -> Result<ArticleRule, Broken>
    ensures reads { Reading IsArticle Closes reader.old reader.new result }
    ensures shorter { length reader.new ≤ length reader.old }
    ensures progress { OnOk result (length reader.new < length reader.old) }
{
    reader.keyword(Keyword::Table)?;
    let table = reader.name()?;
    let columns = reader.optional_names()?;
    let condition = condition(reader)?;
    let by = subscribed_by(reader)?;
    Ok(ArticleRule {
        table,
        columns,
        condition,
        by,
    })
}

fn subscribed_by(reader: &mut Reader) -> Result<Option<Expr>, Broken>
    ensures reads { Reading IsSubscribed Closes reader.old reader.new result }
    ensures shorter { length reader.new ≤ length reader.old }
{
    if !reader.takes(Keyword::Subscribe) {
        return Ok(None);
    }
    reader.keyword(Keyword::By)?;
    let by = expr(reader)?;
    Ok(Some(by))
}

/// Behind CREATE TRIGGER.
pub fn create_trigger(reader: &mut Reader) -> Result<CreateTrigger, Broken>
    ensures reads { Reading IsTrigger Anywhere reader.old reader.new result }
    ensures shorter { length reader.new ≤ length reader.old }
{
    let name = reader.name()?;
    resolve_update(reader)?;
    let columns = of_columns(reader)?;
    reader.keyword(Keyword::On)?;
    let table = reader.name()?;
    reader.keyword(Keyword::Referencing)?;
    let aliases = aliases(reader)?;
    for_each_row(reader)?;
    let variables = variables(reader)?;
    let actions = actions(reader, DEEPEST)?;
    reader.keyword(Keyword::End)?;
    Ok(CreateTrigger {
        name,
        columns,
        table,
        aliases,
        variables,
        actions,
    })
}

/// `RESOLVE UPDATE`
fn resolve_update(reader: &mut Reader) -> Result<(), Broken>
    ensures reads { Reading (TwoWords key.Resolve key.Update) Anywhere reader.old reader.new result }
    ensures shorter { length reader.new ≤ length reader.old }
{
    reader.keyword(Keyword::Resolve)?;
    reader.keyword(Keyword::Update)?;
    Ok(())
}

/// `FOR EACH ROW BEGIN`
fn for_each_row(reader: &mut Reader) -> Result<(), Broken>
    ensures reads { Reading EachRow Anywhere reader.old reader.new result }
    ensures shorter { length reader.new ≤ length reader.old }
{
    reader.keyword(Keyword::For)?;
    reader.keyword(Keyword::Each)?;
    reader.keyword(Keyword::Row)?;
    reader.keyword(Keyword::Begin)?;
    Ok(())
}

fn of_columns(reader: &mut Reader) -> Result<Seq<Name>, Broken>
    ensures reads { Reading IsOf (BeforeWord key.On) reader.old reader.new result }
    ensures shorter { length reader.new ≤ length reader.old }
{
    if reader.takes(Keyword::Of) {
        let names = reader.names()?;
        return Ok(names);
    }
    Ok(Seq::empty(reader.alloc()))
}

fn image_at(symbol: Option<&Symbol>) -> Option<Image>
    ensures found { IfSome result (λ image. option_copied symbol.entry ≡ Some (word (image_word image))) }
    ensures absent { result ≡ None → (image : Image) → option_copied symbol.entry ≡ Some (word (image_word image)) → ⊥ }
{
    match symbol {
        Some(Symbol::Keyword(Keyword::Old)) => Some(Image::Old),
        Some(Symbol::Keyword(Keyword::New)) => Some(Image::New),
        Some(Symbol::Keyword(Keyword::Remote)) => Some(Image::Remote),
        _ => None,
    }
}

/// Aliases, each row and each name once.
fn aliases(reader: &mut Reader) -> Result<Seq<(Image, Name)>, Broken>
    ensures reads { Reading AreAliases (Stop is_image) reader.old reader.new result }
    ensures shorter { length reader.new ≤ length reader.old }
{
    let mut aliases: Vec<(Image, Name)> = Vec::new(reader.alloc());
    'more: while let Some(image) = image_at(reader.peek()) {
        if has_image(aliases.as_slice(), image) {
            return Err(Broken::Refused);
        }
        reader.skip();
        reader.keyword(Keyword::As)?;
        if is_taken(reader, aliases.as_slice()) {
            return Err(Broken::Refused);
        }
        let name = reader.name()?;
        aliases.push((image, name))?;
    }
    Ok(Seq::from_vec(aliases))
}

/// Whether the row has an alias already.
fn has_image(aliases: &[(Image, Name)], image: Image) -> bool
    ensures found { IsTrue result → Any (λ alias. alias.0 ≡ image) aliases.now }
    ensures absent { IsFalse result → All (λ alias. alias.0 ≢ image) aliases.now }
{
    aliases.iter().any(|alias| alias.0 == image)
}

/// Whether the next name is an alias already.
fn is_taken(reader: &Reader, aliases: &[(Image, Name)]) -> bool
    ensures found { IsTrue result → (name : List ℕ) (rest : Symbols) → IsName reader.now name rest → Any (λ alias. alias.1 ≡ name) aliases.now }
    ensures absent { IsFalse result → (name : List ℕ) (rest : Symbols) → IsName reader.now name rest → All (λ alias. alias.1 ≢ name) aliases.now }
{
    match reader.next_name() {
        Some(bytes) => has_name(aliases, bytes),
        None => false,
    }
}

/// Whether the name is an alias already.
fn has_name(aliases: &[(Image, Name)], name: &[u8]) -> bool
    ensures found { IsTrue result → Any (λ alias. alias.1 ≡ name.now) aliases.now }
    ensures absent { IsFalse result → All (λ alias. alias.1 ≢ name.now) aliases.now }
{
    aliases.iter().any(|alias| alias.1.bytes() == name)
}

fn variables(reader: &mut Reader) -> Result<Seq<(Name, Kind)>, Broken>
    ensures reads { Reading (Row IsVariable) (Stop is_declare) reader.old reader.new result }
    ensures shorter { length reader.new ≤ length reader.old }
{
    let mut variables = Vec::new(reader.alloc());
    'more: while reader.is_keyword(Keyword::Declare) {
        let item = variable(reader)?;
        variables.push(item)?;
    }
    Ok(Seq::from_vec(variables))
}

/// `DECLARE n type ;`
fn variable(reader: &mut Reader) -> Result<(Name, Kind), Broken>
    ensures reads { Reading IsVariable Anywhere reader.old reader.new result }
    ensures shorter { length reader.new ≤ length reader.old }
    ensures progress { OnOk result (length reader.new < length reader.old) }
{
    reader.keyword(Keyword::Declare)?;
    let name = reader.name()?;
    let kind = kind(reader)?;
    reader.sign(Sign::Semicolon)?;
    Ok((name, kind))
}
