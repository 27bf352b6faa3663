ghost use Rattle.std.specs.Prelude.{◌≡◌, IfOk};
ghost use Rattle.sr_ast.specs.Options.{settled, settled_text};

use crate::copying::copy_two;
use sr_base::{Copied, Name, NoMemory, Text, Value};
use std::alloc::Global;

/// `OPTION name = value`. In the normal form the value is settled.
#[derive(Drop)]
pub struct OptionRule {
    pub name: Name,
    pub value: Value,
}

impl Copied for OptionRule {
    fn copy(&self, alloc: Global) -> Result<OptionRule, NoMemory> {
        let (name, value) = copy_two(&self.name, &self.value, alloc)?;
        Ok(OptionRule { name, value })
    }
}

/// The value as an option keeps it: the texts `On` and `Off` are spelled so, in whatever case their letters were written.
pub fn settled(alloc: Global, value: Value) -> Result<Value, NoMemory>
    ensures settled { IfOk result (λ kept. kept ≡ settled value) }
{
    match value {
        Value::Str(text) => Ok(Value::Str(settled_text(alloc, text)?)),
        other => Ok(other),
    }
}

fn settled_text(alloc: Global, text: Text) -> Result<Text, NoMemory>
    ensures settled { IfOk result (λ kept. kept ≡ settled_text text) }
{
    if text.as_str().eq_ignore_ascii_case("On") {
        return Text::from_str(alloc, "On");
    }
    if text.as_str().eq_ignore_ascii_case("Off") {
        return Text::from_str(alloc, "Off");
    }
    Ok(text)
}
