//! All bytes of a cord to a sink.
ghost use Rattle.std.specs.Prelude.{◌≡◌, ◌≤◌, OnOk, OnErr};
ghost use Rattle.std.specs.Io.KnownBytes.{Appends};
ghost use Rattle.cord_port.specs.Causes.{Rose};
ghost use Rattle.cord_port.specs.Texts.{AppendsPart};

use crate::reading::next_chunk;
use cord_port::{Failed, Sink, write_all};
use cord_value::Cord;
use node_pool::Naming;

/// Hands the sink each chunk as it is, one after another. After `Failed` the sink has got a beginning of the bytes.
pub fn write_to<P: Naming, K: Sink>(cord: &Cord<P>, sink: &mut K) -> Result<(), Failed>
    ensures whole { OnOk result (Appends (K.held sink.old) (K.held sink.new) cord.now.bytes) }
    ensures kept { OnOk result (K.faults sink.new ≡ K.faults sink.old) }
    ensures part { AppendsPart (K.held sink.old) (K.held sink.new) cord.now.bytes }
    ensures cause { OnErr result (Rose (K.faults sink.old) (K.faults sink.new)) }
    ensures later { K.faults sink.old ≤ K.faults sink.new }
{
    let mut rest = cord.chunks();
    while let Some(chunk) = next_chunk(&mut rest) {
        if let Err(failed) = write_all(sink, chunk) {
            return Err(failed);
        }
    }
    Ok(())
}
