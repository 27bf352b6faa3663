//! What speaks against SET OPTION, and the options that it makes.

ghost use Rattle.std.specs.Prelude.{◌≡◌, bytes_eq, IfOk};
ghost use Rattle.sr_catalog_schema.specs.Causes.{first_fault};
ghost use Rattle.sr_catalog_ddl.specs.Options.{verify_all_columns, is_on, is_off, options_set, set_option_causes};

use sr_ast::OptionRule;
use sr_base::{Copied, Name, NoMemory, Value};
use sr_catalog_schema::{DdlFault, Options};
use std::alloc::Global;

/// The fault that refuses SET OPTION.
#[tactic(auto, unfolding(crate::specs::Options::set_option_causes, sr_catalog_schema::specs::Causes::first_fault))]
pub fn set_option_fault(alloc: Global, rule: &OptionRule) -> Result<Option<DdlFault>, NoMemory>
    ensures { IfOk result (λ fault. fault ≡ first_fault (set_option_causes rule.now)) }
{
    if !is_verify_all_columns(&rule.name) {
        let name = rule.name.copy(alloc)?;
        return Ok(Some(DdlFault::Missing { name }));
    }
    if !(is_on(&rule.value) || is_off(&rule.value)) {
        let name = rule.name.copy(alloc)?;
        return Ok(Some(DdlFault::BadType { name }));
    }
    Ok(None)
}

fn is_verify_all_columns(name: &Name) -> bool
    ensures { result ≡ bytes_eq name.now verify_all_columns }
{
    name.bytes() == b"verify_all_columns".as_slice()
}

/// The options behind SET OPTION. It takes no memory.
pub fn options_set(rule: &OptionRule, options: Options) -> Options
    ensures { result ≡ options_set rule.now options }
{
    let mut options = options;
    options.verifies = is_on(&rule.value);
    options
}

fn is_on(value: &Value) -> bool
    ensures { result ≡ is_on value.now }
{
    match value {
        Value::Str(text) => text.as_str().eq_ignore_ascii_case("On"),
        _ => false,
    }
}

fn is_off(value: &Value) -> bool
    ensures { result ≡ is_off value.now }
{
    match value {
        Value::Str(text) => text.as_str().eq_ignore_ascii_case("Off"),
        _ => false,
    }
}
