//! `test_layers`: asks the layers below the program what stands in rows `KIND GIVEN => ANSWER` on standard input, and says each row to which another
//! answer is given, and then how many are answered as they stand. The rows were made by hand or outside; none comes from this program.
//!
//! It is nothing but a test, so that the crates that it tries have none and are proved once. What scripts are answered stands in the stored run of
//! `test_scripts`. A line without ` => ` is a heading. Steps on devices, and how they end, have `; ` between them; a byte there that is no letter, digit
//! or sign is written as `\` and two digits.
//!
//! | Kind | Given | Answer |
//! |---|---|---|
//! | `text`, `name` | bytes | `ok` or `bad` and the place; the name as it is kept, or `no name` |
//! | `entry` | the bytes of an entry | what it is, with its counts; or `bad` and the first byte of the field that breaks |
//! | `cut`, `set`, `more` | damages of the last entry: numbers of first bytes that stay, places and their bytes, bytes behind it | the same for each, or `reads` |
//! | `op` | bytes that begin with an op | what it is, with its counts, and how many bytes it takes; or where it breaks |
//! | `file`, `bits` | a message file; one of which each bit is turned, one at a time | its fields, or `no message` |
//! | `note`, `took`, `need` | the bytes of a note's entry; an offset; whether an ask is to be made | the columns of a book behind it and those before; whether a message is due |
//! | `tokens`, `lexed` | a text; the bytes of one | its tokens with their spans, or where none begins |
//! | `kinds` | a statement as it prints | whether it changes the catalog, and whether passthrough carries it |
//! | `gives` | an expression | what it gives over `o.i` INTEGER 7, `n.i` BIGINT 8, `o.d` DATE NULL and the variable `v` INTEGER -9 |
//! | `date` | a text | its day from 1970-01-01, or `none` |
//! | `order`, `compare`, `fit`, `literal` | values: `NULL`, a number, one with `L` a BIGINT, `'` a text, `@` a date | how two keys or values compare; the value in a column; how it prints |
//! | `site` | steps on a new site in memory: `length FILE`, `write FILE AT BYTES`, `cut FILE TO`, `sync FILE`, `read FILE AT` (of eight bytes), `attach NAME FOLDER`, `put TO NAME BYTES`, `remove TO NAME`, `list TO`, `fetch TO NAME LIMIT`; and `fail CALL ..`, `stop CALLS`, `crash PICK` | how each ends |
//! | `mail` | steps on new folders in memory: `put`, `lay`, `fetch`, `remove` and `list` as above, `file TO NAME`, `lose TO NAME`, `hold TO NAME`, `repeat TO NAME AS`, `release`, `puts` | how each ends |
//! | `host` | steps on a new site over real files, those of a site but the last three; and `folder PATH`, made anew, `file PATH BYTES`, `gone PATH`, and `other NAME FOLDER`, which attaches a second site | how each ends |
//! | `streams` | nothing | what a read of no bytes from standard input gives, and a write of none to standard output |
//! | `log` | numbers of stops and of crashes | the first stop and the first crash behind which a log that two records are committed to is left otherwise than it is to be, or `none` |
#![tactic(auto)]

mod books;
mod damages;
mod entries;
mod expressions;
mod hosts;
mod letters;
mod logs;
mod mail;
mod messages;
mod saying;
mod sites;
mod table;
mod texts;
mod tokens;
mod values;

use std::process::ExitCode;
use table::Bench;

fn main(rt: HostRuntime) -> ExitCode {
    let mut bench = Bench::new(rt);
    let status = test_rows::run(rt, &mut bench);
    drop(bench);
    ExitCode::from(status)
}
