ghost use Rattle.std.specs.Prelude.{◌≡◌, IfOk, IfSome, Some};
ghost use Rattle.sr_msgform.specs.declared.message.Message.{Message as AMessage};
ghost use Rattle.sr_msgform.specs.Messages.{fields, IsInRange, KeepsRules, IsMessage, message_spelling};

use crate::fields::fields_of;
use crate::message::Message;
use crate::rules::keeps_rules;
use crate::seal::inside;
use sr_base::{Broken, NoMemory};
use std::alloc::{AllocError, Global};

/// The longest message file, in bytes.
const LONGEST_FILE: usize = 2_097_152;

/// The message whose fields are all of these bytes. `None` where no message has them.
fn message_in(alloc: Global, bytes: &[u8]) -> Result<Option<Message>, NoMemory>
    ensures found { IfOk result (λ found. IfSome found (λ m. IsInRange m × KeepsRules m × (bytes.now ≡ fields m))) }
    ensures only { (m : AMessage) → IsInRange m → KeepsRules m → bytes.now ≡ fields m → IfOk result (λ found. found ≡ Some m) }
{
    match fields_of(alloc, bytes) {
        Ok((message, rest)) => {
            if !rest.is_empty() {
                return Ok(None);
            }
            if !keeps_rules(&message) {
                return Ok(None);
            }
            Ok(Some(message))
        }
        Err(Broken::Left(_)) => Ok(None),
        Err(Broken::Memory) => Err(AllocError),
    }
}

/// The message that these bytes spell, all of the bytes. `None` exactly where they spell none.
///
/// A message file is `SRMF`, a version byte 1, the names of sender and receiver, the sender's resend count, the window's two
/// offsets, the length of its body, the fragment's place in it and its bytes, the confirmed offset, the ask's count and offset,
/// and the SHA-256 digest of all bytes before it. Numbers are big-endian. It has at most 2 MiB.
pub fn read_message(alloc: Global, bytes: &[u8]) -> Result<Option<Message>, NoMemory>
    // What is read is spelled so.
    ensures found { IfOk result (λ found. IfSome found (λ m. IsMessage m × (bytes.now ≡ message_spelling m))) }
    // What is spelled so is read, unless there is no memory.
    ensures only { (m : AMessage) → IsMessage m → bytes.now ≡ message_spelling m → IfOk result (λ found. found ≡ Some m) }
{
    if bytes.len() > LONGEST_FILE {
        return Ok(None);
    }
    match inside(bytes) {
        Some(rest) => message_in(alloc, rest),
        None => Ok(None),
    }
}
