//! Texts and names of bytes that may be none.

ghost use Rattle.std.specs.Prelude.{◌≡◌, IfOk, IfErr, OnOk, IsTrue};
ghost use Rattle.std.specs.Str.{IsUtf8};
ghost use Rattle.sr_base.specs.Names.{is_name, lowered};
ghost use Rattle.sr_base.specs.Refusals.{IsNotUtf8};
ghost use Rattle.sr_base.specs.Inner.Refusals.{IsBadName};

use crate::copied::NoMemory;
use crate::name::Name;
use crate::name_bytes::{is_name, lowered};
use crate::refusals::{BadName, NotUtf8};
use crate::text::Text;
use std::alloc::Global;

/// The text of these bytes. `NotUtf8::Byte { at }` comes exactly where they are no UTF-8; `at` is where the first byte stands
/// that begins or goes on with no character (Unicode standard, table 3-7), or with which a character is cut off.
pub fn text_of(alloc: Global, bytes: &[u8]) -> Result<Text, NotUtf8>
    ensures text { IfOk result (λ text. text ≡ bytes.now) }
    ensures utf8 { OnOk result (IsUtf8 bytes.now) }
    ensures refused { IfErr result (IsNotUtf8 bytes.now) }
{
    match str::from_utf8(bytes) {
        Ok(text) => match Text::from_str(alloc, text) {
            Ok(text) => Ok(text),
            Err(_) => Err(NotUtf8::Memory),
        },
        Err(fault) => Err(NotUtf8::Byte {
            at: fault.valid_up_to(),
        }),
    }
}

/// The name of these bytes, its letters in lower case: 1 to 64 bytes, a letter or `_`, then letters, digits and `_`.
/// `BadName::NotAName` comes exactly where the bytes are none.
pub fn name_of(alloc: Global, bytes: &[u8]) -> Result<Name, BadName>
    ensures name { IfOk result (λ name. name ≡ lowered bytes.now) }
    ensures is_one { OnOk result (IsTrue (is_name bytes.now)) }
    ensures refused { IfErr result (IsBadName bytes.now) }
{
    if !is_name(bytes) {
        return Err(BadName::NotAName);
    }
    match name_in_lower(alloc, bytes) {
        Ok(name) => Ok(name),
        Err(_) => Err(BadName::Memory),
    }
}

/// The name of bytes that are one in any case.
#[tactic(auto, using(crate::proofs::NameCase::lower_names))]
fn name_in_lower(alloc: Global, bytes: &[u8]) -> Result<Name, NoMemory>
    requires { IsTrue (is_name bytes.now) }
    ensures { IfOk result (λ name. name ≡ lowered bytes.now) }
{
    Name::from_letters(alloc, lowered(bytes)?)
}
