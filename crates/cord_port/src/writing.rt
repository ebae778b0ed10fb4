//! A whole text to a sink.
ghost use Rattle.std.specs.Prelude.{◌≡◌, ◌≤◌, OnOk, OnErr};
ghost use Rattle.std.specs.Io.KnownBytes.{Appends};
ghost use Rattle.cord_port.specs.Causes.{Rose};
ghost use Rattle.cord_port.specs.Texts.{AppendsPart};

use crate::{Failed, Sink};

/// Hands the text to the sink, and the rest of it again where only a part was taken. A sink that takes nothing has failed.
pub fn write_all<K: Sink>(sink: &mut K, text: &[u8]) -> Result<(), Failed>
    ensures whole { OnOk result (Appends (K.held sink.old) (K.held sink.new) text.now) }
    ensures kept { OnOk result (K.faults sink.new ≡ K.faults sink.old) }
    ensures part { AppendsPart (K.held sink.old) (K.held sink.new) text.now }
    ensures cause { OnErr result (Rose (K.faults sink.old) (K.faults sink.new)) }
    ensures later { K.faults sink.old ≤ K.faults sink.new }
{
    let mut at = 0;
    while at < text.len() {
        let count = sink.write(&text[at..])?;
        if count == 0 {
            return Err(Failed);
        }
        at += count;
    }
    Ok(())
}
