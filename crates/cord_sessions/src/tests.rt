//! Scripts whose whole output is known from the rules of the language, and the ends of a call when the outside fails.
ghost use Rattle.std.specs.Prelude.{◌≡◌, IfOk};

use super::*;
use cord_port::{CountReleaser, Failed, Gate, MemorySink, MemorySource, Releaser, Sink};
use std::alloc::{AllocError, Global};
use std::process::Abort;
use std::sync::Wait;
use std::sync::atomic::{AtomicUsize, Ordering};
use std::test::Fail;
use std::thread::{Threads, yield_now};

// A gate that counts its calls, and those that came in the order of a session's commands.
#[derive(Drop)]
struct CountingGate {
    calls: AtomicUsize,
    in_order: AtomicUsize,
}

impl CountingGate {
    fn new() -> CountingGate {
        CountingGate {
            calls: AtomicUsize::new(0),
            in_order: AtomicUsize::new(0),
        }
    }
}

impl Gate for CountingGate {
    fn before<R: Wait>(&self, _rt: &R, session: usize, command: usize) {
        let call = self.calls.fetch_add(1, Ordering::Relaxed);
        if session == 0 && command == call {
            self.in_order.fetch_add(1, Ordering::Relaxed);
        }
    }
}

// What the program answers to one word.
fn status_of<R: Threads + Wait + Sync>(
    rt: &R,
    alloc: Global,
    word: &str,
    source: &mut MemorySource,
    sink: &mut MemorySink,
) -> Result<u8, AllocError> {
    let words = vec![in alloc; String::from_str(alloc, word)?]?;
    let gate = CountingGate::new();
    let finish = run_program(rt, alloc, &words, source, sink, &gate, Vec::new(alloc));
    Ok(finish.status)
}

// A source of these bytes that never fails.
fn source_of(alloc: Global, bytes: &str) -> Result<MemorySource, AllocError> {
    let bytes = Vec::from_slice(alloc, bytes.as_bytes())?;
    Ok(MemorySource::new(bytes, Vec::new(alloc)))
}

// The commands of a session, and the answers that are wanted.
#[derive(Drop)]
struct Dialogue {
    script: String,
    wanted: String,
}

impl Dialogue {
    fn new(alloc: Global) -> Result<Dialogue, AllocError> {
        let script = String::from_str(alloc, "cords 1\nsession a\n")?;
        let wanted = String::from_str(alloc, "session a\n")?;
        Ok(Dialogue { script, wanted })
    }

    fn add(&mut self, command: &str, answer: &str) -> Result<(), AllocError> {
        self.script.push_str(command)?;
        self.script.push_str("\n")?;
        self.wanted.push_str(answer)?;
        self.wanted.push_str("\n")?;
        Ok(())
    }

    // Adds a line for each command, with its answer behind `=>`.
    fn add_lines(&mut self, lines: &str) -> Result<(), AllocError> {
        for line in lines.lines() {
            if let Some((command, answer)) = line.split_once(" => ") {
                self.add(command, answer)?;
            }
        }
        Ok(())
    }

    // Runs the session, and holds its output against what is wanted, with this history.
    fn hold<R: Threads + Wait + Abort + Sync>(
        mut self,
        rt: &R,
        alloc: Global,
        history: &str,
    ) -> Result<(), Fail> {
        self.script.push_str("end")?;
        self.wanted.push_str(history)?;
        self.wanted.push_str("pool 0 of 65536\n")?;
        let mut source = source_of(alloc, self.script.as_str())?;
        let mut sink = MemorySink::new(alloc, 65536, 65536, Vec::new(alloc))?;
        let status = status_of(rt, alloc, "run", &mut source, &mut sink)?;
        assert_eq!(rt; sink.bytes(), self.wanted.as_str().as_bytes());
        assert_eq!(rt; status, 0);
        Ok(())
    }
}

const HELLO: &str = "cords 1\nsession a\nlet x \"ab\"\nappend x \"c\"\nsize x\nprint x\nend\n";

// What is written behind the answers where no command came to the board.
const NO_HISTORY: &str = "history 0\n";

const HELLO_TEXT: &str = "session a\nok\nok\n3\n\"abc\"\nhistory 0\npool 0 of 65536\n";

const HEADER: &str = "refused at line 1: header\n";

const TEXT: &str = "refused at line 3: text\n";

const UNENDED: &str = "refused at line 3: unended\n";

#[test]
fn script_is_run_and_checked(rt: HostRuntime) -> Result<(), Fail> {
    for (script, ran, checked, status) in [
        (HELLO, HELLO_TEXT, "ok 1 sessions 4 commands\n", 0),
        (
            "cords 1\n",
            "history 0\npool 0 of 65536\n",
            "ok 0 sessions 0 commands\n",
            0,
        ),
        (
            "cords 1\nsession a\nend\n",
            "session a\nhistory 0\npool 0 of 65536\n",
            "ok 1 sessions 0 commands\n",
            0,
        ),
        (
            "cords 1\npasses 7\npool 40\nsession a\nend\n",
            "session a\nhistory 0\npool 0 of 40\n",
            "ok 1 sessions 0 commands\n",
            0,
        ),
        ("", HEADER, HEADER, 1),
        ("cords 1\nsession a\nlet x \"ab\n", TEXT, TEXT, 1),
        ("cords 1\nsession a\nlet x \"\\q\"\n", TEXT, TEXT, 1),
        ("cords 1\nsession a\n", UNENDED, UNENDED, 1),
        (
            "cords 1\nsession a\nend\nsession a\n",
            "refused at line 4: duplicate\n",
            "refused at line 4: duplicate\n",
            1,
        ),
    ] {
        for (word, wanted) in [("run", ran), ("check", checked)] {
            let mut source = source_of(rt.alloc(), script)?;
            let mut sink = MemorySink::new(rt.alloc(), 64, 64, Vec::new(rt.alloc()))?;
            assert_eq!(rt;
                status_of(&rt, rt.alloc(), word, &mut source, &mut sink)?,
                status
            );
            assert_eq!(rt; sink.bytes(), wanted.as_bytes());
        }
    }
    Ok(())
}

#[test]
fn commands_answer_as_byte_strings(rt: HostRuntime) -> Result<(), Fail> {
    let mut dialogue = Dialogue::new(rt.alloc())?;
    dialogue.add_lines(
        r#"let x "0123456789abcdefghij" => ok
sub x 25 3 y => ok
size y => 0
sub x 18 100 z => ok
print z => "ij"
sub x 0 16 w => ok
print w => "0123456789abcdef"
cutfront x 21 => ! position 21 20
size x => 20
cutfront x 20 => ok
print x => ""
let x "a"*4083 => ok
append x "b" => ok
at x 4082 => 97
at x 4083 => 98
at x 4084 => ! position 4084 4084
append x "c" => ok
find x "" => 0
find x "ab" => 4082
find x "ca" => none
starts x "aa" => yes
ends x "abc" => yes
ends x "bb" => no
let p "\x7f" => ok
let q "\x80" => ok
compare p q => less
let p "ab" => ok
let q "abc" => ok
compare q p => greater
let p "a"*20 => ok
let q "a"*19 => ok
append q "a" => ok
setsum p 7 => ok
compare p q => equal"#,
    )?;
    dialogue.hold(&rt, rt.alloc(), NO_HISTORY)
}

#[test]
fn sums_are_carried_and_lost(rt: HostRuntime) -> Result<(), Fail> {
    let mut dialogue = Dialogue::new(rt.alloc())?;
    dialogue.add_lines(
        r#"let x "abc" => ok
setsum x 7 => ok
copy x y => ok
append x "" => ok
sum x => sum 7
append x "d" => ok
sum x => none
cutfront y 0 => ok
sum y => sum 7
sub y 0 3 z => ok
sum z => none
let e "" => ok
setsum e 1 => ! no bytes
join y e => ok
sum y => sum 7
cutback y 4 => ! position 4 3
sum y => sum 7
joinfront z y => ok
sum z => none
clear y => ok
sum y => none"#,
    )?;
    dialogue.hold(&rt, rt.alloc(), NO_HISTORY)
}

#[test]
fn commands_answer_at_lengths_of_0_1_15_and_16(rt: HostRuntime) -> Result<(), Fail> {
    let lines = r#"size x => 0 | 1 | 15 | 16
print x => "" | "a" | "abcdefghijklmno" | "abcdefghijklmnop"
at x 0 => ! position 0 0 | 97 | 97 | 97
at x 14 => ! position 14 0 | ! position 14 1 | 111 | 111
at x 15 => ! position 15 0 | ! position 15 1 | ! position 15 15 | 112
find x "" => 0 | 0 | 0 | 0
find x "a" => none | 0 | 0 | 0
find x "op" => none | none | none | 14
starts x "a" => no | yes | yes | yes
ends x "no" => no | no | yes | no
compare x x => equal | equal | equal | equal
setsum x 7 => ! no bytes | ok | ok | ok
sum x => none | sum 7 | sum 7 | sum 7
copy x y => ok | ok | ok | ok
sum y => none | sum 7 | sum 7 | sum 7
compare x y => equal | equal | equal | equal
append y "z" => ok | ok | ok | ok
sum y => none | none | none | none
compare x y => less | less | less | less
prepend y "z" => ok | ok | ok | ok
size y => 2 | 3 | 17 | 18
cutfront y 16 => ! position 16 2 | ! position 16 3 | ok | ok
cutback y 1 => ok | ok | ok | ok
print y => "z" | "za" | "" | "p"
sub x 1 14 y => ok | ok | ok | ok
print y => "" | "" | "bcdefghijklmno" | "bcdefghijklmno"
join y x => ok | ok | ok | ok
size y => 0 | 1 | 29 | 30
joinfront y x => ok | ok | ok | ok
size y => 0 | 2 | 44 | 46
clear y => ok | ok | ok | ok
size y => 0 | 0 | 0 | 0
sum x => none | sum 7 | sum 7 | sum 7"#;
    for (column, text) in ["", "a", "abcdefghijklmno", "abcdefghijklmnop"]
        .iter()
        .enumerate()
    {
        let mut dialogue = Dialogue::new(rt.alloc())?;
        let command = format!(in rt.alloc(); "let x \"{text}\"")?;
        dialogue.add(command.as_str(), "ok")?;
        for line in lines.lines() {
            if let Some((command, answers)) = line.split_once(" => ") {
                dialogue.add(command, answers.split(" | ").nth(column).unwrap_or(""))?;
            }
        }
        dialogue.hold(&rt, rt.alloc(), NO_HISTORY)?;
    }
    Ok(())
}

#[test]
fn names_stand_for_their_own_cords(rt: HostRuntime) -> Result<(), Fail> {
    let mut dialogue = Dialogue::new(rt.alloc())?;
    dialogue.add_lines(
        r#"compare x y => ! unset x
sub x 0 1 y => ! unset x
print y => ! unset y
let x "ab" => ok
setsum x 9 => ok
join x y => ! unset y
joinfront y x => ! unset y
cutback x 3 => ! position 3 2
print x => "ab"
sum x => sum 9
let x1 "one" => ok
let x12 "twelve" => ok
print x => "ab"
print x1 => "one"
print x12 => "twelve"
print x123 => ! unset x123
join x x => ok
print x => "abab"
joinfront x x => ok
print x => "abababab"
compare x x => equal
copy x x => ok
sub x 1 2 x => ok
print x => "ba"
cutback x 2 => ok
print x => ""
join x x => ok
size x => 0
cutfront x 1 => ! position 1 0
compare x x1 => less"#,
    )?;
    for i in 0..64 {
        let command = format!(in rt.alloc(); "let x{i} \"{i}\"")?;
        dialogue.add(command.as_str(), "ok")?;
    }
    for i in 0..64 {
        let command = format!(in rt.alloc(); "print x{i}")?;
        let answer = format!(in rt.alloc(); "\"{i}\"")?;
        dialogue.add(command.as_str(), answer.as_str())?;
    }
    dialogue.hold(&rt, rt.alloc(), NO_HISTORY)
}

#[test]
fn faults_of_source_and_sink_end_the_call(rt: HostRuntime) -> Result<(), Fail> {
    let first = vec![in rt.alloc(); 1u32]?;
    let third = vec![in rt.alloc(); 3u32]?;
    let mut source = source_of(rt.alloc(), HELLO)?;
    let mut sink = MemorySink::new(rt.alloc(), 64, 64, third)?;
    assert_eq!(rt;
        status_of(&rt, rt.alloc(), "run", &mut source, &mut sink)?,
        4
    );
    assert_eq!(rt; sink.bytes(), b"session a\nok\n".as_slice());

    let bytes = Vec::from_slice(rt.alloc(), HELLO.as_bytes())?;
    let mut source = MemorySource::new(bytes, first);
    let mut sink = MemorySink::new(rt.alloc(), 64, 64, Vec::new(rt.alloc()))?;
    assert_eq!(rt;
        status_of(&rt, rt.alloc(), "run", &mut source, &mut sink)?,
        3
    );
    assert_eq!(rt; sink.bytes(), b"read fault\n".as_slice());

    assert_eq!(rt; check_script(rt.alloc(), &mut source, &mut sink), 0);
    assert_eq!(rt;
        sink.bytes(),
        b"read fault\nok 1 sessions 4 commands\n".as_slice()
    );
    Ok(())
}

// What `main` answers to one word, and the bytes that its sink then holds.
fn served<R: Threads + Wait + Sync>(
    rt: &R,
    alloc: Global,
    word: &str,
    script: &str,
    sink: MemorySink,
) -> Result<(u8, MemorySink), AllocError> {
    let words = vec![in alloc; String::from_str(alloc, word)?]?;
    let gate = CountingGate::new();
    let mut source = source_of(alloc, script)?;
    let Served { finish, sink } = run_buffered(
        rt,
        alloc,
        &words,
        &mut source,
        sink,
        &gate,
        Vec::new(alloc),
    );
    Ok((finish.status, sink))
}

// A script whose text has more than two pieces of 65,536 bytes, and the text.
fn long_script(alloc: Global) -> Result<(String, String), AllocError> {
    let mut script = String::from_str(alloc, "cords 1\nsession a\nlet x \"a\"*4096\n")?;
    let mut text = String::from_str(alloc, "session a\nok\n")?;
    for _ in 0..40 {
        script.push_str("print x\n")?;
        text.push_str("\"")?;
        for _ in 0..4096 {
            text.push_str("a")?;
        }
        text.push_str("\"\n")?;
    }
    script.push_str("end\n")?;
    text.push_str("history 0\npool 0 of 65536\n")?;
    Ok((script, text))
}

#[test]
fn buffered_text_is_whole_or_a_beginning(rt: HostRuntime) -> Result<(), Fail> {
    for most in [1, 7, 64] {
        let calls = HELLO_TEXT.len().div_ceil(most);
        for failing in 0..calls + 1 {
            let fails = vec![in rt.alloc(); failing as u32 + 1]?;
            let sink = MemorySink::new(rt.alloc(), 64, most, fails)?;
            let (status, sink) = served(&rt, rt.alloc(), "run", HELLO, sink)?;
            assert_eq!(rt; status, if failing < calls { 4 } else { 0 });
            let count = failing.saturating_mul(most).min(HELLO_TEXT.len());
            assert_eq!(rt; sink.bytes(), &HELLO_TEXT.as_bytes()[..count]);
        }
    }
    for (word, script, wanted, status) in [
        ("run", HELLO, HELLO_TEXT, 4),
        ("check", HELLO, "ok 1 sessions 4 commands\n", 4),
        ("run", "", HEADER, 1),
        (
            "walk",
            HELLO,
            "usage: cords run | cords check | cords load SEED SESSIONS COMMANDS\n",
            2,
        ),
    ] {
        for room in [0, 5] {
            let sink = MemorySink::new(rt.alloc(), room, 64, Vec::new(rt.alloc()))?;
            let (answer, sink) = served(&rt, rt.alloc(), word, script, sink)?;
            assert_eq!(rt; answer, status);
            assert_eq!(rt; sink.bytes(), &wanted.as_bytes()[..room]);
        }
    }
    Ok(())
}

// A sink that notes how long each piece was that it was handed.
#[derive(Drop)]
struct PieceSink {
    pieces: Vec<usize>,
}

impl Sink for PieceSink {
    ghost use Rattle.std.specs.Prelude.{None};

    ghost held = { λ _. None };

    ghost faults = { λ _. 0 };

    fn write(&mut self, bytes: &[u8]) -> Result<usize, Failed> {
        let _ = self.pieces.push(bytes.len());
        Ok(bytes.len())
    }
}

#[test]
fn text_comes_in_lines_and_through_the_buffer_in_large_pieces(rt: HostRuntime) -> Result<(), Fail> {
    let (script, text) = long_script(rt.alloc())?;
    let words = vec![in rt.alloc(); String::from_str(rt.alloc(), "run")?]?;
    let mut source = source_of(rt.alloc(), script.as_str())?;
    let mut sink = PieceSink {
        pieces: Vec::new(rt.alloc()),
    };
    let gate = CountingGate::new();
    run_program(
        &rt,
        rt.alloc(),
        &words,
        &mut source,
        &mut sink,
        &gate,
        Vec::new(rt.alloc()),
    );
    let lines = vec![in rt.alloc(); 4099usize; 44]?;
    assert!(rt; text.len() > 131_072);
    assert_eq!(rt; sink.pieces.len(), 44);
    assert_eq!(rt; &sink.pieces[2..42], &lines[2..42]);
    assert_eq!(rt; sink.pieces[43], b"pool 0 of 65536\n".len());

    let mut source = source_of(rt.alloc(), script.as_str())?;
    let sink = PieceSink {
        pieces: Vec::new(rt.alloc()),
    };
    let gate = CountingGate::new();
    let alone = run_buffered(
        &rt,
        rt.alloc(),
        &words,
        &mut source,
        sink,
        &gate,
        Vec::new(rt.alloc()),
    );
    assert_eq!(rt;
        alone.sink.pieces.as_slice(),
        [65536usize, 65536, text.len() - 131072].as_slice()
    );

    for (failing, count) in [(1, 0), (2, 65536), (3, 131072), (4, text.len())] {
        let sink = MemorySink::new(rt.alloc(), 262144, 65536, vec![in rt.alloc(); failing]?)?;
        let (status, sink) = served(&rt, rt.alloc(), "run", script.as_str(), sink)?;
        assert_eq!(rt; status, if failing < 4 { 4 } else { 0 });
        let count = count.min(text.len());
        assert_eq!(rt; sink.bytes(), &text.as_str().as_bytes()[..count]);
    }
    Ok(())
}

#[test]
fn one_byte_too_many_is_no_script(rt: HostRuntime) -> Result<(), Fail> {
    let bytes = vec![in rt.alloc(); b'#'; 16777217]?;
    let mut source = MemorySource::new(bytes, Vec::new(rt.alloc()));
    let mut sink = MemorySink::new(rt.alloc(), 64, 64, Vec::new(rt.alloc()))?;
    assert_eq!(rt;
        status_of(&rt, rt.alloc(), "run", &mut source, &mut sink)?,
        6
    );
    assert_eq!(rt; sink.bytes(), b"script too long\n".as_slice());
    Ok(())
}

#[test]
fn other_words_get_the_usage_line_and_releasers_come_back(rt: HostRuntime) -> Result<(), Fail> {
    let usage = "usage: cords run | cords check | cords load SEED SESSIONS COMMANDS\n";
    let none: [&str; 0] = [];
    for (words, wanted, status, calls) in [
        (["run"].as_slice(), HELLO_TEXT, 0, 5),
        (["check"].as_slice(), "ok 1 sessions 4 commands\n", 0, 0),
        (none.as_slice(), usage, 2, 0),
        (["run", "x"].as_slice(), usage, 2, 0),
        (["Run"].as_slice(), usage, 2, 0),
        (["--help"].as_slice(), usage, 2, 0),
        (["load", "01", "1", "1"].as_slice(), usage, 2, 0),
    ] {
        let mut given = Vec::new(rt.alloc());
        for word in words {
            given.push(String::from_str(rt.alloc(), word)?)?;
        }
        let alloc = rt.alloc();
        let boxes = new_boxes(
            alloc,
            2,
            |_: usize| -> Result<Box<dyn Releaser + Send>, AllocError>
                ensures { IfOk result (λ b. calls_of b ≡ 0) }
            { Ok(Box::new(alloc, CountReleaser::new())?) },
        )?;
        let gate = CountingGate::new();
        let mut source = source_of(rt.alloc(), HELLO)?;
        let mut sink = MemorySink::new(rt.alloc(), 128, 128, Vec::new(rt.alloc()))?;
        let finish = run_program(
            &rt,
            rt.alloc(),
            &given,
            &mut source,
            &mut sink,
            &gate,
            boxes,
        );
        assert_eq!(rt; (finish.status, finish.returned.len()), (status, 2));
        assert_eq!(rt; sink.bytes(), wanted.as_bytes());
        for releaser in &finish.returned {
            assert_eq!(rt; (releaser.calls(), releaser.latest()), (0, None));
        }
        assert_eq!(rt; gate.calls.load(Ordering::Relaxed), calls);
        assert_eq!(rt; gate.in_order.load(Ordering::Relaxed), calls);
    }
    Ok(())
}

#[test]
fn a_session_uses_the_board_alone(rt: HostRuntime) -> Result<(), Fail> {
    let mut dialogue = Dialogue::new(rt.alloc())?;
    dialogue.add_lines(
        r#"let x "p" => ok
put x 3 => ok
peek 3 y => ok
let z "qq" => ok
swap z 3 => ok
print z => "p"
size x => 0
swap z 4 => ! empty 4
swap n 3 => ! unset n
put n 3 => ! unset n
take 4 z => ! empty 4
print z => "p"
peek 63 z => ! empty 63
take 3 w => ok
print w => "qq"
print y => "p"
setsum y 7 => ok
put y 63 => ok
sum y => none
take 63 y => ok
sum y => sum 7"#,
    )?;
    dialogue.hold(
        &rt,
        rt.alloc(),
        "history 9\na 1 put 3 ok 1\na 2 peek 3 ok 1\na 3 swap 3 ok 2 1\na 4 swap 4 empty\na 5 take 4 empty\n\
        a 6 peek 63 empty\na 7 take 3 ok 2\na 8 put 63 ok 1\na 9 take 63 ok 1\n",
    )
}

#[test]
fn two_sessions_meet_at_a_cell(rt: HostRuntime) -> Result<(), Fail> {
    let script =
        "cords 1\nsession a\nlet x \"hello\"\nput x 0\nend\nsession b\ntake 0 y\nprint y\nend\n";
    let put_first =
        "session a\nok\nok\nsession b\nok\n\"hello\"\nhistory 2\na 1 put 0 ok 5\nb 1 take 0 ok 5\npool 0 of 65536\n";
    let take_first =
        "session a\nok\nok\nsession b\n! empty 0\n! unset y\nhistory 2\nb 1 take 0 empty\na 1 put 0 ok 5\npool 0 of 65536\n";
    for _ in 0..100 {
        let mut source = source_of(rt.alloc(), script)?;
        let mut sink = MemorySink::new(rt.alloc(), 256, 256, Vec::new(rt.alloc()))?;
        let status = status_of(&rt, rt.alloc(), "run", &mut source, &mut sink)?;
        assert_eq!(rt; status, 0);
        assert!(&rt;
            sink.bytes() == put_first.as_bytes() || sink.bytes() == take_first.as_bytes(),
            "one of the two"
        );
    }
    Ok(())
}

// A gate at which two sessions wait for each other before their second commands, at most so many turns.
#[derive(Drop)]
struct MeetingGate {
    came: [AtomicUsize; 2],
    met: [AtomicUsize; 2],
}

const TURNS: u32 = 50_000_000;

impl Gate for MeetingGate {
    fn before<R: Wait>(&self, _rt: &R, session: usize, command: usize) {
        if command != 1 || session > 1 {
            return;
        }
        self.came[session].fetch_add(1, Ordering::SeqCst);
        for _ in 0..TURNS {
            if self.came[1 - session].load(Ordering::SeqCst) == 1 {
                self.met[session].fetch_add(1, Ordering::SeqCst);
                return;
            }
            yield_now();
        }
    }
}

#[test]
fn sessions_run_side_by_side(rt: HostRuntime) -> Result<(), Fail> {
    let script =
        "cords 1\nsession a\nlet x \"a\"\nsize x\nend\nsession b\nlet x \"a\"\nsize x\nend\n";
    let gate = MeetingGate {
        came: [AtomicUsize::new(0), AtomicUsize::new(0)],
        met: [AtomicUsize::new(0), AtomicUsize::new(0)],
    };
    let words = vec![in rt.alloc(); String::from_str(rt.alloc(), "run")?]?;
    let mut source = source_of(rt.alloc(), script)?;
    let mut sink = MemorySink::new(rt.alloc(), 256, 256, Vec::new(rt.alloc()))?;
    let boxes = Vec::new(rt.alloc());
    let finish = run_program(
        &rt,
        rt.alloc(),
        &words,
        &mut source,
        &mut sink,
        &gate,
        boxes,
    );
    assert_eq!(rt; finish.status, 0);
    for session in 0..2 {
        assert_eq!(rt; gate.came[session].load(Ordering::SeqCst), 1);
        assert_eq!(rt; gate.met[session].load(Ordering::SeqCst), 1);
    }
    assert_eq!(rt;
        sink.bytes(),
        b"session a\nok\n1\nsession b\nok\n1\nhistory 0\npool 0 of 65536\n".as_slice()
    );
    Ok(())
}

// Runs a script with so many boxes, holds its output against what is wanted, and gives what each box tells of its releases.
fn releases<R: Threads + Wait + Abort + Sync>(
    rt: &R,
    alloc: Global,
    script: &str,
    count: u8,
    wanted: &str,
) -> Result<Vec<(u64, Option<u64>)>, Fail> {
    let boxes = new_boxes(
        alloc,
        usize::from(count),
        |_: usize| -> Result<Box<dyn Releaser + Send>, AllocError>
            ensures { IfOk result (λ b. calls_of b ≡ 0) }
        { Ok(Box::new(alloc, CountReleaser::new())?) },
    )?;
    let words = vec![in alloc; String::from_str(alloc, "run")?]?;
    let gate = CountingGate::new();
    let mut source = source_of(alloc, script)?;
    let mut sink = MemorySink::new(alloc, 1024, 1024, Vec::new(alloc))?;
    let finish = run_program(rt, alloc, &words, &mut source, &mut sink, &gate, boxes);
    assert_eq!(rt; sink.bytes(), wanted.as_bytes());
    assert_eq!(rt; finish.status, 0);
    let mut told = Vec::new(alloc);
    for releaser in &finish.returned {
        told.push((releaser.calls(), releaser.latest()))?;
    }
    Ok(told)
}

#[test]
fn externals_call_the_boxes_of_their_session_in_order(rt: HostRuntime) -> Result<(), Fail> {
    let script = r#"cords 1
session a
ext x "a"*16
ext y "b"*20
ext x "c"*100
print y
end
session b
ext z "sixteen letters."
ext z "d"*5000
copy z y
ext z "e"*33
size y
end
"#;
    let wanted = r#"session a
ok
ok
ok
"bbbbbbbbbbbbbbbbbbbb"
session b
ok
ok
ok
ok
5000
history 0
pool 0 of 65536
"#;
    let told = releases(&rt, rt.alloc(), script, 40, wanted)?;
    assert_eq!(rt; told.len(), 40);
    let lengths = [16, 20, 100, 16, 5000, 33];
    for (i, releases) in told.iter().enumerate() {
        let release = match i {
            0..=2 => Some(lengths[i]),
            16..=18 => Some(lengths[i - 13]),
            _ => None,
        };
        assert_eq!(rt; *releases, (u64::from(release.is_some()), release));
    }
    Ok(())
}

#[test]
fn an_external_is_released_once_with_its_own_length(rt: HostRuntime) -> Result<(), Fail> {
    let script = r#"cords 1
session a
ext e "x"*100
sub e 10 50 p
clear e
clear p
end
"#;
    let wanted = "session a\nok\nok\nok\nok\nhistory 0\npool 0 of 65536\n";
    let told = releases(&rt, rt.alloc(), script, 2, wanted)?;
    assert_eq!(rt; told.as_slice(), [(1, Some(100)), (0, None)].as_slice());
    Ok(())
}

#[test]
fn the_seventeenth_external_finds_no_box(rt: HostRuntime) -> Result<(), Fail> {
    let mut script = String::from_str(rt.alloc(), "cords 1\nsession a\n")?;
    let mut wanted = String::from_str(rt.alloc(), "session a\n")?;
    for _ in 0..16 {
        script.push_str("ext x \"a\"*20\n")?;
        wanted.push_str("ok\n")?;
    }
    script.push_str("ext x \"b\"*30\nprint x\nend\n")?;
    wanted.push_str("! releasers\n\"aaaaaaaaaaaaaaaaaaaa\"\nhistory 0\npool 0 of 65536\n")?;
    let told = releases(&rt, rt.alloc(), script.as_str(), 17, wanted.as_str())?;
    assert_eq!(rt; told.len(), 17);
    for (i, releases) in told.iter().enumerate() {
        let wanted = if i < 16 { (1, Some(20)) } else { (0, None) };
        assert_eq!(rt; *releases, wanted);
    }
    let script = "cords 1\nsession a\next x \"a\"*20\next x \"b\"*30\nend\n";
    let wanted = "session a\nok\n! releasers\nhistory 0\npool 0 of 65536\n";
    let told = releases(&rt, rt.alloc(), script, 1, wanted)?;
    assert_eq!(rt; told.as_slice(), [(1, Some(20))].as_slice());
    Ok(())
}

// Runs a session behind options, whose commands stand before their answers, and holds its output against them.
fn hold_behind<R: Threads + Wait + Abort + Sync>(
    rt: &R,
    alloc: Global,
    options: &str,
    lines: &str,
    pool: &str,
) -> Result<(), Fail> {
    let mut script = format!(in alloc; "cords 1\n{options}session a\n")?;
    let mut wanted = String::from_str(alloc, "session a\n")?;
    for line in lines.lines() {
        if let Some((command, answer)) = line.split_once(" => ") {
            script.push_str(command)?;
            script.push_str("\n")?;
            wanted.push_str(answer)?;
            wanted.push_str("\n")?;
        }
    }
    script.push_str("end\n")?;
    wanted.push_str("history 0\n")?;
    wanted.push_str(pool)?;
    releases(rt, alloc, script.as_str(), 1, wanted.as_str())?;
    Ok(())
}

#[test]
fn want_of_a_number_or_a_pass_is_refused_and_leaves_the_name(rt: HostRuntime) -> Result<(), Fail> {
    let eight = r#"let a "a"*16 => ok
let b "b"*16 => ok
let c "c"*16 => ok
let d "d"*16 => ok
let e "e"*16 => ok
let f "f"*16 => ok
let g "g"*16 => ok
let h "h"*16 => ok
let i "i" => ok
let i "i"*16 => ! pool 8
print i => "i"
append h "h"*5000 => ! pool 8
print h => "hhhhhhhhhhhhhhhh"
clear a => ok
let i "i"*16 => ok
print i => "iiiiiiiiiiiiiiii""#;
    hold_behind(&rt, rt.alloc(), "pool 8\n", eight, "pool 0 of 8\n")?;
    let two = r#"let a "a"*16 => ok
let b "b"*16 => ok
let c "c"*16 => ! cords 2
print c => ! unset c
copy a d => ! cords 2
ext d "d"*16 => ! cords 2
let c "c" => ok
append c "c"*15 => ! cords 2
print c => "c"
clear a => ok
append c "c"*15 => ok"#;
    hold_behind(&rt, rt.alloc(), "passes 2\n", two, "pool 0 of 65536\n")
}
