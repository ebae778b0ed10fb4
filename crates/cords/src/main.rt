//! The program `cords`: runs the script on standard input, and writes its answers to standard output.
#![tactic(auto)]

ghost use Rattle.std.specs.Prelude.{◌≡◌, IfOk};

use cord_port::{CountReleaser, Gate, Releaser, StdSink, StdSource};
use cord_sessions::{new_boxes, run_buffered};
use std::alloc::AllocError;
use std::env;
use std::io::{self, ErrorKind};
use std::process::ExitCode;
use std::sync::Wait;

// The exit status where memory runs out before the words are known, or for the boxes.
const OUT_OF_MEMORY: u8 = 5;

// Sixteen boxes of releasers for each of sixteen sessions.
const BOXES: usize = 256;

/// A gate that holds no session back.
struct OpenGate;

impl Gate for OpenGate {
    fn before<R: Wait>(&self, _rt: &R, _session: usize, _command: usize) {}
}

// The words after the program's name. Words that aren't UTF-8 are no command, so none are given in their place.
fn words(rt: &HostRuntime) -> io::Result<Vec<String>> {
    let mut words = Vec::new(rt.alloc());
    match env::args(rt) {
        Ok(args) => {
            for word in args.skip(1) {
                words.push(word)?;
            }
        }
        Err(error) => {
            if error.kind() == ErrorKind::OutOfMemory {
                return Err(error);
            }
        }
    }
    Ok(words)
}

fn main(rt: HostRuntime) -> ExitCode {
    let Ok(words) = words(&rt) else {
        return ExitCode::from(OUT_OF_MEMORY);
    };
    let alloc = rt.alloc();
    let releasers = new_boxes(
        alloc,
        BOXES,
        |_: usize| -> Result<Box<dyn Releaser + Send>, AllocError>
            ensures { IfOk result (λ b. calls_of b ≡ 0) }
        { Ok(Box::new(alloc, CountReleaser::new())?) },
    );
    let Ok(releasers) = releasers else {
        return ExitCode::from(OUT_OF_MEMORY);
    };
    let mut source = StdSource::new(rt.stdin());
    let sink = StdSink::new(rt.stdout());
    let served = run_buffered(&rt, alloc, &words, &mut source, sink, &OpenGate, releasers);
    ExitCode::from(served.finish.status)
}
