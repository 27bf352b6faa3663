ghost use Rattle.std.specs.Prelude.{◌≤◌, length};
ghost use Rattle.sr_parse_reader.specs.Inner.Reading.{Reading, Anywhere};
ghost use Rattle.sr_parse_grammar.specs.Catalog.{IsKeptValue, IsOptionRule};

use crate::creating::signed_literal;
use sr_ast::{Keyword, OptionRule, settled};
use sr_base::Value;
use sr_parse_grammar::Sign;
use sr_parse_reader::{Broken, Reader};

/// Behind SET.
pub fn option_rule(reader: &mut Reader) -> Result<OptionRule, Broken>
    ensures reads { Reading IsOptionRule Anywhere reader.old reader.new result }
    ensures shorter { length reader.new ≤ length reader.old }
{
    reader.keyword(Keyword::Option)?;
    let name = reader.name()?;
    reader.sign(Sign::Equal)?;
    let value = kept_value(reader)?;
    Ok(OptionRule { name, value })
}

/// A literal or a negative number, as an option keeps it.
fn kept_value(reader: &mut Reader) -> Result<Value, Broken>
    ensures reads { Reading IsKeptValue Anywhere reader.old reader.new result }
    ensures shorter { length reader.new ≤ length reader.old }
{
    let written = signed_literal(reader)?;
    let value = settled(reader.alloc(), written)?;
    Ok(value)
}
