ghost use Rattle.std.specs.Prelude.{◌≡◌, ◌++◌, true, IfOk, OnOk};
ghost use Rattle.dbremote_command.specs.Shown.{shown, user_lines};

use crate::shown_count::count_of;
use crate::shown_lines::{push_name, push_number, push_user};
use sr_base::NoMemory;
use sr_catalog::User;
use sr_database::Database;
use std::alloc::{AllocError, Global};

/// The lines of a database: `publisher NAME`, `base OFFSET`, `end OFFSET` (both in bytes), `rows N` (of all tables together), and for each
/// user, in order of grant, `user NAME KIND address ADDRESS` with the eight columns of his book. KIND is `remote` or `consolidated`.
///
/// It takes a step for each row and logarithmic time for each user.
pub(crate) fn shown(alloc: Global, db: &Database) -> Result<Vec<u8>, NoMemory>
    requires usable { db.now.log.usable ≡ true }
    ensures lines { IfOk result (λ lines. lines.items ≡ shown db.now) }
{
    let catalog = db.catalog();
    let count = count_of(db.rows(), catalog.tables())?;
    let mut out = Vec::new(alloc);
    push_name(&mut out, b"publisher ", catalog.publisher().bytes())?;
    push_number(&mut out, b"base ", db.base().0)?;
    push_number(&mut out, b"end ", db.end().0)?;
    push_number(&mut out, b"rows ", count)?;
    push_users(&mut out, db, catalog.users())?;
    Ok(out)
}

/// Appends the lines of users.
fn push_users(out: &mut Vec<u8>, db: &Database, users: &[User]) -> Result<(), NoMemory>
    requires usable { db.now.log.usable ≡ true }
    ensures ok { OnOk result (out.new.items ≡ out.old.items ++ user_lines db.now.books users.now) }
{
    let mut left = users;
    'users: while let Some((user, rest)) = left.split_first() {
        let Some(book) = db.book(&user.name) else {
            return Err(AllocError);
        };
        push_user(out, user, &book)?;
        left = rest;
    }
    Ok(())
}
