ghost use Rattle.std.specs.Prelude.{◌≡◌, ◌≤◌, length, IfOk, OnOk};
ghost use Rattle.sr_msgform.specs.Messages.{IsMessage, KeepsRules, message_length, message_spelling};

use crate::fields::write_fields;
use crate::message::Message;
use sha2::{Digest, Sha256};
use sr_base::NoMemory;
use std::alloc::Global;

/// The one spelling of a message, as its file holds it.
#[tactic(auto, unfolding(crate::specs::Messages::sealed))]
pub fn write_message(alloc: Global, message: &Message) -> Result<Vec<u8>, NoMemory>
    requires rules { KeepsRules message.now }
    requires file { message_length message.now ≤ 2097152 }
    ensures spelling { IfOk result (λ bytes. bytes.items ≡ message_spelling message.now) }
    ensures kept { OnOk result (IsMessage message.now) }
{
    let mut out = Vec::new(alloc);
    out.extend_from_slice(b"SRMF\x01")?;
    write_fields(message, &mut out)?;
    let digest = Sha256::digest(out.as_slice());
    out.extend_from_slice(&digest)?;
    Ok(out)
}
