//! Text that is told. It is held until it is written in one piece; where there is no memory to hold more, what is held is written, and the rest at once.
//! So telling never fails for want of memory.

ghost use Rattle.std.specs.Prelude.{◌++◌, OnErr, OnOk};
ghost use Rattle.std.specs.Fmt.{decimal};
ghost use Rattle.sr_agent.specs.Inner.Steps.{Added, ToldInPart};

use itoa::Buffer;
use sr_base::Name;
use sr_session::say;
use sr_site::{Failed, Sink};

/// Adds bytes to what is held.
#[tactic(auto, using(crate::proofs::Additions::adding))]
pub(crate) fn add<O: Sink>(held: &mut Vec<u8>, sink: &mut O, bytes: &[u8]) -> Result<(), Failed>
    ensures added { OnOk result (Added bytes.now held.old.items held.new.items (O.seen sink.old) (O.seen sink.new)) }
    ensures failed { OnErr result (ToldInPart (held.old.items ++ bytes.now) (O.seen sink.old) (O.seen sink.new)) }
{
    if held.extend_from_slice(bytes).is_ok() {
        return Ok(());
    }
    say(sink, held.as_slice())?;
    held.clear();
    say(sink, bytes)?;
    Ok(())
}

/// Adds a number.
#[tactic(auto, using(crate::proofs::Additions::adding))]
pub(crate) fn add_number<O: Sink>(
    held: &mut Vec<u8>,
    sink: &mut O,
    number: u64,
) -> Result<(), Failed>
    ensures added { OnOk result (Added (decimal number) held.old.items held.new.items (O.seen sink.old) (O.seen sink.new)) }
    ensures failed { OnErr result (ToldInPart (held.old.items ++ decimal number) (O.seen sink.old) (O.seen sink.new)) }
{
    let mut buffer = Buffer::new();
    add(held, sink, buffer.format(number).as_bytes())?;
    Ok(())
}

/// Adds a partner's name.
#[tactic(auto, using(crate::proofs::Additions::adding))]
pub(crate) fn add_name<O: Sink>(held: &mut Vec<u8>, sink: &mut O, user: &Name) -> Result<(), Failed>
    ensures added { OnOk result (Added user.now held.old.items held.new.items (O.seen sink.old) (O.seen sink.new)) }
    ensures failed { OnErr result (ToldInPart (held.old.items ++ user.now) (O.seen sink.old) (O.seen sink.new)) }
{
    add(held, sink, user.bytes())?;
    Ok(())
}

/// Adds words, and what stands after them.
#[tactic(auto, using(crate::proofs::Additions::adding))]
pub(crate) fn add_both<O: Sink>(
    held: &mut Vec<u8>,
    sink: &mut O,
    words: &[u8],
    behind: &[u8],
) -> Result<(), Failed>
    ensures added { OnOk result (Added (words.now ++ behind.now) held.old.items held.new.items (O.seen sink.old) (O.seen sink.new)) }
    ensures failed { OnErr result (ToldInPart (held.old.items ++ (words.now ++ behind.now)) (O.seen sink.old) (O.seen sink.new)) }
{
    add(held, sink, words)?;
    add(held, sink, behind)?;
    Ok(())
}

/// Adds words, and a number after them.
#[tactic(auto, using(crate::proofs::Additions::adding))]
pub(crate) fn add_numbered<O: Sink>(
    held: &mut Vec<u8>,
    sink: &mut O,
    words: &[u8],
    number: u64,
) -> Result<(), Failed>
    ensures added { OnOk result (Added (words.now ++ decimal number) held.old.items held.new.items (O.seen sink.old) (O.seen sink.new)) }
    ensures failed { OnErr result (ToldInPart (held.old.items ++ (words.now ++ decimal number)) (O.seen sink.old) (O.seen sink.new)) }
{
    add(held, sink, words)?;
    add_number(held, sink, number)?;
    Ok(())
}
