//! Which statement begins.
ghost use Rattle.std.specs.Prelude.{◌≡◌};
ghost use Rattle.std.specs.Option.{option_copied};
ghost use Rattle.sr_parse_grammar.specs.Inner.Forms.{word_in, created, dropped, granted, passed, form_behind, form_at};

use crate::reader::Reader;
use sr_ast::{Form, Keyword};
use sr_parse_grammar::Symbol;

/// The statement that the next symbols begin with. A first word tells it, with the word behind that.
pub fn form_at(reader: &Reader) -> Option<Form>
    ensures { result ≡ form_at reader.now }
{
    let word = word_in(reader.peek())?;
    form_behind(word, word_in(reader.second()))
}

/// The key word that a symbol is.
fn word_in(symbol: Option<&Symbol>) -> Option<Keyword>
    ensures { result ≡ word_in (option_copied symbol.entry) }
{
    match symbol {
        Some(Symbol::Keyword(word)) => Some(*word),
        _ => None,
    }
}

/// The statement that begins with a word, by the word behind it.
fn form_behind(word: Keyword, next: Option<Keyword>) -> Option<Form>
    ensures { result ≡ form_behind word next }
{
    match word {
        Keyword::Create => Some(created(next)),
        Keyword::Drop => Some(dropped(next)),
        Keyword::Grant => Some(granted(next)),
        Keyword::Start => Some(Form::StartSubscription),
        Keyword::Stop => Some(Form::StopSubscription),
        Keyword::Synchronize => Some(Form::Synchronize),
        Keyword::Set => Some(Form::SetOption),
        Keyword::Insert => Some(Form::Insert),
        Keyword::Update => Some(Form::Update),
        Keyword::Delete => Some(Form::Delete),
        Keyword::Select => Some(Form::Select),
        Keyword::Commit => Some(Form::Commit),
        Keyword::Rollback => Some(Form::Rollback),
        Keyword::Passthrough => Some(passed(next)),
        _ => None,
    }
}

/// Behind CREATE.
fn created(next: Option<Keyword>) -> Form
    ensures { result ≡ created next }
{
    match next {
        Some(Keyword::Table) => Form::CreateTable,
        Some(Keyword::Publication) => Form::CreatePublication,
        Some(Keyword::Trigger) => Form::CreateTrigger,
        _ => Form::CreateSubscription,
    }
}

/// Behind DROP.
fn dropped(next: Option<Keyword>) -> Form
    ensures { result ≡ dropped next }
{
    match next {
        Some(Keyword::Table) => Form::DropTable,
        Some(Keyword::Publication) => Form::DropPublication,
        Some(Keyword::Trigger) => Form::DropTrigger,
        _ => Form::DropSubscription,
    }
}

/// Behind GRANT.
fn granted(next: Option<Keyword>) -> Form
    ensures { result ≡ granted next }
{
    match next {
        Some(Keyword::Remote) => Form::GrantRemote,
        _ => Form::GrantConsolidate,
    }
}

/// Behind PASSTHROUGH.
fn passed(next: Option<Keyword>) -> Form
    ensures { result ≡ passed next }
{
    match next {
        Some(Keyword::Stop) => Form::PassthroughStop,
        _ => Form::Passthrough,
    }
}
