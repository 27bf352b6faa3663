ghost use Rattle.std.specs.Prelude.{IfOk, IfErr};
ghost use Rattle.sr_parse_grammar.specs.Meanings.{IsWritten};
ghost use Rattle.dbremote_command.specs.Running.{IsScript};
ghost use Rattle.dbremote_command.specs.Inner.Running.{BytesCause, ReadCause};

use crate::fault::Fault;
use crate::stream::{InputFault, read_all};
use sr_ast::Script;
use sr_base::{NotUtf8, text_of};
use sr_database::DatabaseFault;
use sr_parse::parse;
use sr_parse_grammar::ParseFault;
use sr_site::Source;
use std::alloc::Global;

/// Reads a script to its end, and parses it as a whole.
pub fn read_script<I: Source>(alloc: Global, input: &mut I) -> Result<Script, Fault>
    ensures script { IfOk result (λ script. IsScript (I.seen input.old) (I.seen input.new) script) }
    ensures cause { IfErr result (ReadCause (I.seen input.old) (I.seen input.new)) }
{
    let bytes = match read_all(alloc, input) {
        Ok(bytes) => bytes,
        Err(InputFault::Source) => return Err(Fault::Source),
        Err(InputFault::TooLong) => return Err(Fault::TooLong),
        Err(InputFault::Memory) => return Err(Fault::Database(DatabaseFault::Memory)),
    };
    script_of(alloc, bytes.as_slice())
}

/// The script that bytes spell.
fn script_of(alloc: Global, bytes: &[u8]) -> Result<Script, Fault>
    ensures script { IfOk result (λ script. IsWritten bytes.now script) }
    ensures cause { IfErr result (BytesCause bytes.now) }
{
    let text = match text_of(alloc, bytes) {
        Ok(text) => text,
        Err(NotUtf8::Byte { at }) => return Err(Fault::Script { at }),
        Err(NotUtf8::Memory) => return Err(Fault::Database(DatabaseFault::Memory)),
    };
    match parse(alloc, &text) {
        Ok(script) => Ok(script),
        Err(ParseFault::Refused { at }) => Err(Fault::Script { at }),
        Err(ParseFault::Memory) => Err(Fault::Database(DatabaseFault::Memory)),
    }
}
