//! The lines.

ghost use Rattle.std.specs.Prelude.{◌≡◌, ◌++◌, OnOk};
ghost use Rattle.std.specs.Fmt.{decimal};
ghost use Rattle.sr_session_script.specs.Acts.{line};
ghost use Rattle.dbremote_command.specs.Shown.{column, kind_text, received_columns, sent_columns, user_line, user_text};

use itoa::Buffer;
use sr_base::NoMemory;
use sr_book::Book;
use sr_catalog::User;

/// Appends a line of a word and a name.
pub(crate) fn push_name(out: &mut Vec<u8>, word: &[u8], name: &[u8]) -> Result<(), NoMemory>
    ensures ok { OnOk result (out.new.items ≡ out.old.items ++ line (word.now ++ name.now)) }
{
    out.extend_from_slice(word)?;
    out.extend_from_slice(name)?;
    out.extend_from_slice(b"\n")?;
    Ok(())
}

/// Appends a line of a word and a number.
pub(crate) fn push_number(out: &mut Vec<u8>, word: &[u8], number: u64) -> Result<(), NoMemory>
    ensures ok { OnOk result (out.new.items ≡ out.old.items ++ line (word.now ++ decimal number)) }
{
    let mut buffer = Buffer::new();
    push_name(out, word, buffer.format(number).as_bytes())
}

/// Appends a number in its column.
fn push_column(out: &mut Vec<u8>, number: u64) -> Result<(), NoMemory>
    ensures ok { OnOk result (out.new.items ≡ out.old.items ++ column number) }
{
    let mut buffer = Buffer::new();
    out.extend_from_slice(b" ")?;
    out.extend_from_slice(buffer.format(number).as_bytes())?;
    Ok(())
}

/// Appends what was sent to a user.
#[tactic(auto, unfolding(crate::specs::Shown::sent_columns))]
fn push_sent(out: &mut Vec<u8>, book: &Book) -> Result<(), NoMemory>
    ensures ok { OnOk result (out.new.items ≡ out.old.items ++ sent_columns book.now) }
{
    push_column(out, book.log_sent)?;
    push_column(out, book.confirm_sent)?;
    push_column(out, book.send_count)?;
    push_column(out, book.resend_count)?;
    Ok(())
}

/// Appends what was received from a user.
#[tactic(auto, unfolding(crate::specs::Shown::received_columns))]
fn push_received(out: &mut Vec<u8>, book: &Book) -> Result<(), NoMemory>
    ensures ok { OnOk result (out.new.items ≡ out.old.items ++ received_columns book.now) }
{
    push_column(out, book.log_received)?;
    push_column(out, book.confirm_received)?;
    push_column(out, book.receive_count)?;
    push_column(out, book.rereceive_count)?;
    Ok(())
}

fn kind_text(above: bool) -> &'static [u8]
    ensures { result.now ≡ kind_text above }
{
    if above { b"consolidated" } else { b"remote" }
}

/// Appends a user's name, kind and address.
#[tactic(auto, unfolding(crate::specs::Shown::user_text))]
fn push_user_text(out: &mut Vec<u8>, user: &User) -> Result<(), NoMemory>
    ensures ok { OnOk result (out.new.items ≡ out.old.items ++ user_text user.now) }
{
    out.extend_from_slice(b"user ")?;
    out.extend_from_slice(user.name.bytes())?;
    out.extend_from_slice(b" ")?;
    out.extend_from_slice(kind_text(user.above))?;
    out.extend_from_slice(b" address ")?;
    out.extend_from_slice(user.address.bytes())?;
    Ok(())
}

/// Appends the line of a user.
#[tactic(auto, unfolding(crate::specs::Shown::user_line))]
pub(crate) fn push_user(out: &mut Vec<u8>, user: &User, book: &Book) -> Result<(), NoMemory>
    ensures ok { OnOk result (out.new.items ≡ out.old.items ++ user_line user.now book.now) }
{
    push_user_text(out, user)?;
    push_sent(out, book)?;
    push_received(out, book)?;
    out.extend_from_slice(b"\n")?;
    Ok(())
}
