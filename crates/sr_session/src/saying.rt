//! Lines, written to a sink.

ghost use Rattle.std.specs.Prelude.{◌≡◌, ◌≤◌, ◌++◌, IsTrue, OnOk, OnErr};
ghost use Rattle.sr_site.specs.Causes.{Rose};
ghost use Rattle.sr_site.specs.Streams.{OutputStays};
ghost use Rattle.sr_session.specs.Said.{WrotePrefix};

use sr_site::{Failed, Sink};

/// Writes all of `bytes`. After `Failed` the sink took a prefix of them.
#[tactic(auto, using(crate::proofs::Pieces::written))]
pub fn say<O: Sink>(sink: &mut O, bytes: &[u8]) -> Result<(), Failed>
    ensures said { IsTrue ((O.seen sink.old).observable) → OnOk result ((O.seen sink.new).taken ≡ (O.seen sink.old).taken ++ bytes.now) }
    ensures prefix { IsTrue ((O.seen sink.old).observable) → OnErr result (WrotePrefix bytes.now ((O.seen sink.old).taken) ((O.seen sink.new).taken)) }
    ensures stays { OutputStays (O.seen sink.old) (O.seen sink.new) }
    ensures steady { OnOk result ((O.seen sink.new).faults ≡ (O.seen sink.old).faults) }
    ensures cause { OnErr result (Rose ((O.seen sink.old).faults) ((O.seen sink.new).faults)) }
{
    let mut rest = bytes;
    'pieces: while !rest.is_empty() {
        let taken = sink.write(rest)?;
        let (_, following) = rest.split_at(taken);
        rest = following;
    }
    Ok(())
}
