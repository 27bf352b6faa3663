//! Two laws of the bytes of messages. Each is the contract of a function that does nothing.

ghost use Rattle.std.specs.Prelude.{◌≡◌, length};
ghost use Rattle.sr_msgform.specs.declared.message.Message.{Message as AMessage};
ghost use Rattle.sr_msgform.specs.Messages.{IsMessage, message_length, message_spelling};

/// Bytes spell one message at most.
pub fn no_bytes_spell_two_messages()
    ensures { (m other : AMessage) → IsMessage m → IsMessage other → message_spelling m ≡ message_spelling other → m ≡ other }
{}

/// A message file has 99 bytes and those of its names and of its fragment.
pub fn a_message_has_its_length()
    ensures { (m : AMessage) → length (message_spelling m) ≡ message_length m }
{}
