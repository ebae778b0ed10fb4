ghost use Rattle.std.specs.Prelude.{◌≡◌, ◌≤◌, IfOk};

use super::*;
use std::alloc::Global;
use std::io::{self, Cursor, ErrorKind, Read, Write};
use std::marker::Brand;
use std::test::Fail;

#[test]
fn memory_source_gives_what_fits_and_fails_where_listed(rt: HostRuntime) -> Result<(), Fail> {
    let bytes = vec![in rt.alloc(); 1u8, 2, 3, 4, 5]?;
    let fails = vec![in rt.alloc(); 2u32]?;
    let mut source = MemorySource::new(bytes, fails);
    let mut buf = [0u8; 3];
    let wanted = [
        (Some(3), [1u8, 2, 3]),
        (None, [1, 2, 3]),
        (Some(2), [4, 5, 3]),
        (Some(0), [4, 5, 3]),
    ];
    for (count, front) in wanted {
        assert_eq!(rt; source.read(&mut buf).ok(), count);
        assert_eq!(rt; buf, front);
    }
    Ok(())
}

#[test]
fn memory_sink_takes_most_bytes_a_call_until_its_room_is_full(rt: HostRuntime) -> Result<(), Fail> {
    let fails = vec![in rt.alloc(); 2u32]?;
    let mut sink = MemorySink::new(rt.alloc(), 5, 3, fails)?;
    let wanted = [(Some(3), 3), (None, 3), (Some(2), 5), (None, 5)];
    for (count, held) in wanted {
        assert_eq!(rt; sink.write(b"abcd").ok(), count);
        assert_eq!(rt; sink.bytes().len(), held);
    }
    assert_eq!(rt; sink.write(b"").ok(), Some(0));
    assert_eq!(rt; sink.bytes(), b"abcab".as_slice());
    Ok(())
}

#[test]
fn whole_text_is_read_up_to_the_limit_and_written_in_parts(rt: HostRuntime) -> Result<(), Fail> {
    for (limit, long) in [(6, false), (5, false), (4, true)] {
        let text = vec![in rt.alloc(); b'h', b'e', b'l', b'l', b'o']?;
        let mut source = MemorySource::new(text, Vec::new(rt.alloc()));
        match read_all(rt.alloc(), &mut source, limit) {
            Ok(bytes) => {
                assert_eq!(rt; bytes.as_slice(), b"hello".as_slice());
                let mut sink = MemorySink::new(rt.alloc(), 8, 2, Vec::new(rt.alloc()))?;
                assert!(rt; write_all(&mut sink, bytes.as_slice()).is_ok());
                assert_eq!(rt; sink.bytes(), b"hello".as_slice());
                assert!(rt; write_all(&mut sink, bytes.as_slice()).is_err());
                assert_eq!(rt; sink.bytes(), b"hellohel".as_slice());
            }
            Err(refused) => assert!(rt; long && matches!(refused, ReadRefused::TooLong)),
        }
    }
    Ok(())
}

#[test]
fn fault_while_reading_or_writing_is_told(rt: HostRuntime) -> Result<(), Fail> {
    let text = vec![in rt.alloc(); 7u8]?;
    let fails = vec![in rt.alloc(); 2u32]?;
    let mut source = MemorySource::new(text, fails);
    let read = read_all(rt.alloc(), &mut source, 9);
    assert!(rt; matches!(read, Err(ReadRefused::Fault)));
    let mut sink = MemorySink::new(rt.alloc(), 9, 0, Vec::new(rt.alloc()))?;
    assert!(rt; write_all(&mut sink, b"x").is_err());
    Ok(())
}

#[test]
fn std_reader_and_writer_serve(rt: HostRuntime) -> Result<(), Fail> {
    let mut source = StdSource::new(Cursor::new(b"in memory"));
    let bytes = read_all(rt.alloc(), &mut source, 9)?;
    assert_eq!(rt; bytes.as_slice(), b"in memory".as_slice());
    let mut sink = StdSink::new(Cursor::new([0u8; 4]));
    assert_eq!(rt; sink.write(b"abc").ok(), Some(3));
    assert_eq!(rt; sink.write(b"def").ok(), Some(1));
    assert!(rt; write_all(&mut sink, b"g").is_err());
    Ok(())
}

#[test]
fn releasers_count_and_keep_lengths(rt: HostRuntime) -> Result<(), Fail> {
    let mut log = LogReleaser::new(rt.alloc(), 2)?;
    let mut count = CountReleaser::new();
    log.release(5);
    log.release(6);
    log.release(7);
    count.release(5);
    count.release(7);
    assert_eq!(rt; log.lengths(), [5u64, 6].as_slice());
    assert_eq!(rt; (log.calls(), log.latest()), (3, Some(7)));
    assert_eq!(rt; (count.calls(), count.latest()), (2, Some(7)));
    Ok(())
}

// How often a releaser of any type was called.
fn calls_after_two<B: Releaser>(mut releaser: B) -> u64
    requires { B.calls_of releaser ≡ 0 }
{
    releaser.release(8);
    releaser.release(9);
    releaser.calls()
}

#[test]
fn boxed_releaser_serves_as_one(rt: HostRuntime) -> Result<(), Fail> {
    let boxed: Box<dyn Releaser + Send> = Box::new(rt.alloc(), CountReleaser::new())?;
    assert_eq!(rt; calls_after_two(boxed), 2);
    assert_eq!(rt; calls_after_two(CountReleaser::new()), 2);
    Ok(())
}

// A reader and writer that answers one byte, or an error where one is listed, call by call.
#[derive(Drop)]
struct Fitful {
    errors: Vec<Option<ErrorKind>>,
    calls: usize,
}

impl Fitful {
    fn answer(&mut self, room: usize) -> io::Result<usize>
        ensures { IfOk result (λ n. n ≤ room) }
    {
        let call = self.calls;
        self.calls = self.calls.saturating_add(1);
        match self.errors.get(call) {
            Some(Some(kind)) => Err(io::Error::from(*kind)),
            _ => Ok(room.min(1)),
        }
    }
}

impl Read for Fitful {
    fn read(&mut self, buf: &mut [u8]) -> io::Result<usize> {
        self.answer(buf.len())
    }
}

impl Write for Fitful {
    fn write(&mut self, bytes: &[u8]) -> io::Result<usize> {
        self.answer(bytes.len())
    }

    fn flush(&mut self) -> io::Result<()> {
        Ok(())
    }
}

#[test]
fn interrupted_calls_are_made_again_and_no_others(rt: HostRuntime) -> Result<(), Fail> {
    let stop = Some(ErrorKind::Interrupted);
    let broken = Some(ErrorKind::BrokenPipe);
    for (errors, wanted) in [
        ([stop, stop, None, None], [Some(1), Some(1)]),
        ([stop, broken, stop, None], [None, Some(1)]),
        ([broken, broken, stop, None], [None, None]),
        ([None, stop, stop, stop], [Some(1), Some(1)]),
    ] {
        let listed = Vec::from_slice(rt.alloc(), errors.as_slice())?;
        let mut source = StdSource::new(Fitful {
            errors: listed,
            calls: 0,
        });
        let listed = Vec::from_slice(rt.alloc(), errors.as_slice())?;
        let mut sink = StdSink::new(Fitful {
            errors: listed,
            calls: 0,
        });
        for count in wanted {
            let mut buf = [0u8; 4];
            assert_eq!(rt; source.read(&mut buf).ok(), count);
            assert_eq!(rt; sink.write(b"abcd").ok(), count);
        }
    }
    Ok(())
}

// What a sink holds that was given `onetwothree` through a buffer, and how often the buffer was emptied with success in these attempts.
fn held_below(
    alloc: Global,
    below: MemorySink,
    attempts: usize,
) -> Result<(usize, MemorySink), MemorySink> {
    let made: Result<BufferedSink<MemorySink, Brand>, MemorySink> = BufferedSink::new(alloc, below);
    let mut sink = made?;
    let mut emptied: usize = 0;
    for piece in [b"one".as_slice(), b"two".as_slice(), b"three".as_slice()] {
        if write_all(&mut sink, piece).is_err() {
            return Err(sink.into_below());
        }
    }
    for _ in 0..attempts {
        if sink.flush().is_ok() {
            emptied = emptied.saturating_add(1);
        }
    }
    Ok((emptied, sink.into_below()))
}

#[test]
fn buffer_loses_nothing_where_the_sink_takes_little_or_fails(rt: HostRuntime) -> Result<(), Fail> {
    let text = b"onetwothree".as_slice();
    for most in [1, 3, 11, 64] {
        let calls = text.len().div_ceil(most);
        for failing in 1..calls + 2 {
            for attempts in [1, 2] {
                let fails = vec![in rt.alloc(); failing as u32]?;
                let below = MemorySink::new(rt.alloc(), 11, most, fails)?;
                // Behind the failing call the bytes that are left are handed on.
                let (emptied, count) = if failing > calls {
                    (attempts, text.len())
                } else if attempts == 2 {
                    (1, text.len())
                } else {
                    (0, (failing - 1).saturating_mul(most).min(text.len()))
                };
                match held_below(rt.alloc(), below, attempts) {
                    Ok((times, below)) => {
                        assert_eq!(rt; times, emptied);
                        assert_eq!(rt; below.bytes(), &text[..count]);
                    }
                    Err(_back) => assert!(rt; false),
                }
            }
        }
    }
    for room in [0, 5] {
        let below = MemorySink::new(rt.alloc(), room, 64, Vec::new(rt.alloc()))?;
        match held_below(rt.alloc(), below, 2) {
            Ok((times, below)) => {
                assert_eq!(rt; times, 0);
                assert_eq!(rt; below.bytes(), &text[..room]);
            }
            Err(_back) => assert!(rt; false),
        }
    }
    Ok(())
}

// A sink that notes how long each piece was that it was handed.
#[derive(Drop)]
struct PieceSink {
    pieces: Vec<usize>,
}

impl Sink for PieceSink {
    ghost use Rattle.std.specs.Prelude.{None};

    ghost held = { λ _. None };

    ghost faults = { λ _. 0 };

    fn write(&mut self, bytes: &[u8]) -> Result<usize, Failed> {
        let _ = self.pieces.push(bytes.len());
        Ok(bytes.len())
    }
}

#[test]
fn buffer_hands_on_65536_bytes_in_one_write(rt: HostRuntime) -> Result<(), Fail> {
    for (lines, pieces) in [
        (1, [7usize].as_slice()),
        (16384, [65536usize, 49152].as_slice()),
        (28087, [65536usize, 65536, 65536, 1].as_slice()),
    ] {
        let below = PieceSink {
            pieces: Vec::new(rt.alloc()),
        };
        let made: Result<BufferedSink<PieceSink, Brand>, PieceSink> = BufferedSink::new(
            rt.alloc(),
            below,
        );
        match made {
            Ok(mut sink) => {
                for _ in 0..lines {
                    assert!(rt; write_all(&mut sink, b"a line\n").is_ok());
                }
                assert!(rt; sink.flush().is_ok());
                assert_eq!(rt; sink.into_below().pieces.as_slice(), pieces);
            }
            Err(_back) => assert!(rt; false),
        }
    }
    Ok(())
}
