ghost use Rattle.std.specs.Prelude.{◌≡◌, ◌∷◌, ◌++◌, [], List, ℕ, Option, Bool, OnOk, IfOk};
ghost use Rattle.sr_ast.specs.Pages.{put_all, word, led, listed, in_parentheses};
ghost use Rattle.sr_ast.specs.Layout.{
  words_if,
  column_rule_pieces,
  key_pieces,
  create_table_pieces,
  article_pieces,
  create_publication_pieces,
  text_pieces,
  grant_pieces,
  given_value_pieces,
  subscription_pieces,
  image_word,
  alias_pieces,
  variable_pieces,
  of_pieces,
  create_trigger_pieces,
  set_option_pieces,
  fired_pieces,
  on_pieces,
  body_pieces,
};

use crate::page::Page;
use crate::print_action::{print_actions, print_names, print_parenthesized};
use crate::print_expr::print_text;
use crate::printing::{Printed, print_behind, print_led, print_list, print_row};
use sr_ast::{
    ArticleRule, ColumnRule, CreatePublication, CreateTable, CreateTrigger, Grant, Image,
    OptionRule, SubscriptionRule,
};
use sr_base::{Kind, Name, NoMemory, Text, Value};

/// Prints words where they are wanted.
pub fn print_if(wanted: bool, words: &str, page: &mut Page) -> Result<(), NoMemory>
    ensures ok { OnOk result (page.new ≡ put_all page.old (words_if wanted words.now)) }
{
    if wanted { page.word(words) } else { Ok(()) }
}

impl Printed for Text {
    ghost pieces = { text_pieces };

    fn print(&self, page: &mut Page) -> Result<(), NoMemory> {
        print_text(self, page)
    }
}

impl Printed for ColumnRule {
    ghost pieces = { column_rule_pieces };

    #[tactic(auto, using(crate::proofs::Prints::steps), unfolding(sr_ast::specs::Layout::column_rule_pieces))]
    fn print(&self, page: &mut Page) -> Result<(), NoMemory> {
        page.name(&self.name)?;
        self.kind.print(page)?;
        print_if(self.not_null, "NOT NULL", page)?;
        Ok(())
    }
}

#[tactic(auto, using(crate::proofs::Prints::steps))]
fn print_key(key: &[Name], page: &mut Page) -> Result<(), NoMemory>
    ensures ok { OnOk result (page.new ≡ put_all page.old (key_pieces key.now)) }
{
    if key.is_empty() {
        return Ok(());
    }
    page.comma()?;
    page.word("PRIMARY KEY")?;
    print_names(key, page)?;
    Ok(())
}

/// Prints the columns and the key of a table in parentheses.
#[tactic(auto, using(crate::proofs::Prints::steps))]
fn print_columns(columns: &[ColumnRule], key: &[Name], page: &mut Page) -> Result<(), NoMemory>
    ensures ok { OnOk result (page.new ≡ put_all page.old (in_parentheses (listed column_rule_pieces columns.now ++ key_pieces key.now))) }
{
    page.open()?;
    print_list(columns, page)?;
    print_key(key, page)?;
    page.close()?;
    Ok(())
}

impl Printed for CreateTable {
    ghost pieces = { create_table_pieces };

    #[tactic(auto, using(crate::proofs::Prints::steps), unfolding(sr_ast::specs::Layout::create_table_pieces))]
    fn print(&self, page: &mut Page) -> Result<(), NoMemory> {
        print_behind("CREATE TABLE", &self.name, page)?;
        print_columns(self.columns.as_slice(), self.key.as_slice(), page)?;
        Ok(())
    }
}

impl Printed for ArticleRule {
    ghost pieces = { article_pieces };

    #[tactic(auto, using(crate::proofs::Prints::steps), unfolding(sr_ast::specs::Layout::article_pieces))]
    fn print(&self, page: &mut Page) -> Result<(), NoMemory> {
        print_behind("TABLE", &self.table, page)?;
        print_names(self.columns.as_slice(), page)?;
        print_led("WHERE", &self.condition, page)?;
        print_led("SUBSCRIBE BY", &self.by, page)?;
        Ok(())
    }
}

impl Printed for CreatePublication {
    ghost pieces = { create_publication_pieces };

    #[tactic(auto, using(crate::proofs::Prints::steps), unfolding(sr_ast::specs::Layout::create_publication_pieces))]
    fn print(&self, page: &mut Page) -> Result<(), NoMemory> {
        print_behind("CREATE PUBLICATION", &self.name, page)?;
        print_parenthesized(self.articles.as_slice(), page)?;
        Ok(())
    }
}

impl Printed for Grant {
    ghost pieces = { grant_pieces };

    #[tactic(auto, using(crate::proofs::Prints::steps), unfolding(sr_ast::specs::Layout::grant_pieces))]
    fn print(&self, page: &mut Page) -> Result<(), NoMemory> {
        page.name(&self.user)?;
        print_led("TYPE FILE ADDRESS", &self.address, page)?;
        Ok(())
    }
}

#[tactic(auto, using(crate::proofs::Prints::steps))]
fn print_given(value: &Option<Value>, page: &mut Page) -> Result<(), NoMemory>
    ensures ok { OnOk result (page.new ≡ put_all page.old (given_value_pieces value.now)) }
{
    match value {
        None => Ok(()),
        Some(value) => {
            page.open()?;
            value.print(page)?;
            page.close()?;
            Ok(())
        }
    }
}

impl Printed for SubscriptionRule {
    ghost pieces = { subscription_pieces };

    #[tactic(auto, using(crate::proofs::Prints::steps), unfolding(sr_ast::specs::Layout::subscription_pieces))]
    fn print(&self, page: &mut Page) -> Result<(), NoMemory> {
        page.name(&self.publication)?;
        print_given(&self.value, page)?;
        print_behind("FOR", &self.user, page)?;
        Ok(())
    }
}

fn image_word(image: Image) -> &'static str
    ensures { result.now ≡ image_word image }
{
    match image {
        Image::Old => "OLD",
        Image::New => "NEW",
        Image::Remote => "REMOTE",
    }
}

impl Printed for (Image, Name) {
    ghost pieces = { alias_pieces };

    #[tactic(auto, using(crate::proofs::Prints::steps), unfolding(sr_ast::specs::Layout::alias_pieces))]
    fn print(&self, page: &mut Page) -> Result<(), NoMemory> {
        page.word(image_word(self.0))?;
        print_behind("AS", &self.1, page)?;
        Ok(())
    }
}

impl Printed for (Name, Kind) {
    ghost pieces = { variable_pieces };

    #[tactic(auto, using(crate::proofs::Prints::steps), unfolding(sr_ast::specs::Layout::variable_pieces))]
    fn print(&self, page: &mut Page) -> Result<(), NoMemory> {
        print_behind("DECLARE", &self.0, page)?;
        self.1.print(page)?;
        page.semicolon()?;
        Ok(())
    }
}

#[tactic(auto, using(crate::proofs::Prints::steps))]
fn print_of(columns: &[Name], page: &mut Page) -> Result<(), NoMemory>
    ensures ok { OnOk result (page.new ≡ put_all page.old (of_pieces columns.now)) }
{
    if columns.is_empty() {
        return Ok(());
    }
    page.word("OF")?;
    print_list(columns, page)?;
    Ok(())
}

impl Printed for CreateTrigger {
    ghost pieces = { create_trigger_pieces };

    #[tactic(auto, using(crate::proofs::Prints::steps), unfolding(sr_ast::specs::Layout::create_trigger_pieces))]
    fn print(&self, page: &mut Page) -> Result<(), NoMemory> {
        print_behind("CREATE TRIGGER", &self.name, page)?;
        page.word("RESOLVE UPDATE")?;
        print_fired(self, page)?;
        Ok(())
    }
}

/// Prints a trigger from its columns on.
#[tactic(auto, using(crate::proofs::Prints::steps), unfolding(sr_ast::specs::Layout::fired_pieces))]
fn print_fired(trigger: &CreateTrigger, page: &mut Page) -> Result<(), NoMemory>
    ensures ok { OnOk result (page.new ≡ put_all page.old (fired_pieces trigger.now)) }
{
    print_of(trigger.columns.as_slice(), page)?;
    print_on(trigger, page)?;
    Ok(())
}

/// Prints a trigger from its table on.
#[tactic(auto, using(crate::proofs::Prints::steps), unfolding(sr_ast::specs::Layout::on_pieces))]
fn print_on(trigger: &CreateTrigger, page: &mut Page) -> Result<(), NoMemory>
    ensures ok { OnOk result (page.new ≡ put_all page.old (on_pieces trigger.now)) }
{
    print_behind("ON", &trigger.table, page)?;
    page.word("REFERENCING")?;
    print_row(trigger.aliases.as_slice(), page)?;
    print_body(trigger, page)?;
    Ok(())
}

/// Prints what a trigger does.
#[tactic(auto, using(crate::proofs::Prints::steps), unfolding(sr_ast::specs::Layout::body_pieces))]
fn print_body(trigger: &CreateTrigger, page: &mut Page) -> Result<(), NoMemory>
    ensures ok { OnOk result (page.new ≡ put_all page.old (body_pieces trigger.now)) }
{
    page.word("FOR EACH ROW BEGIN")?;
    print_row(trigger.variables.as_slice(), page)?;
    print_actions(&trigger.actions, page)?;
    page.word("END")?;
    Ok(())
}

impl Printed for OptionRule {
    ghost pieces = { set_option_pieces };

    #[tactic(auto, using(crate::proofs::Prints::steps), unfolding(sr_ast::specs::Layout::set_option_pieces))]
    fn print(&self, page: &mut Page) -> Result<(), NoMemory> {
        page.word("SET")?;
        print_behind("OPTION", &self.name, page)?;
        print_behind("=", &self.value, page)?;
        Ok(())
    }
}
