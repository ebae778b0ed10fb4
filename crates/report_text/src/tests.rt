//! Texts that are known from the rules of the format.
ghost use Rattle.std.specs.Prelude.{◌≡◌, ◌≤◌, length, IfOk, OnOk};
ghost use Rattle.std.specs.List.{All};
ghost use Rattle.report_text.specs.Replies.{IsShortReply};
ghost use Rattle.report_text.specs.Outputs.{IsProperEntry};

use super::*;
use cord_port::MemorySink;
use plain_cord::{Act, Book, Entry, Items, NewMark, Reply, Report, Script, Session, Statistics};
use std::alloc::{AllocError, Global};
use std::test::Fail;

/// Adds an answer that is short enough to be written.
fn add(answers: &mut Items<Reply>, reply: Reply) -> Result<(), AllocError>
    requires short { IsShortReply reply }
    requires before { All IsShortReply answers.old }
    ensures { OnOk result (All IsShortReply answers.new) }
{
    answers.push(reply)
}

fn add_shown(
    alloc: Global,
    answers: &mut Items<Reply>,
    bytes: &[u8],
    more: u64,
) -> Result<(), AllocError>
    requires short { length bytes.now ≤ 4096 }
    requires before { All IsShortReply answers.old }
    ensures { OnOk result (All IsShortReply answers.new) }
{
    let text = Items::from_slice(alloc, bytes)?;
    add(answers, Reply::Shown { text, more })
}

fn session_of(alloc: Global, name: &[u8]) -> Result<Session, AllocError>
    ensures { IfOk result (λ session. session.name ≡ name.now) }
{
    let name = Items::from_slice(alloc, name)?;
    Ok(Session {
        name,
        commands: Items::new(alloc),
    })
}

/// Adds an action of one of two sessions.
fn note(history: &mut Items<Entry>, entry: Entry) -> Result<(), AllocError>
    requires proper { IsProperEntry 2 entry }
    requires before { All (IsProperEntry 2) history.old }
    ensures { OnOk result (All (IsProperEntry 2) history.new) }
{
    history.push(entry)
}

/// The sink after a run of the sessions `a` and `b1`, and whether all was written.
fn sink_after(
    alloc: Global,
    first: Items<Reply>,
    second: Items<Reply>,
    history: &[Entry],
    most: usize,
    fails: Vec<u32>,
) -> Result<(MemorySink, bool), Fail>
    requires first { All IsShortReply first }
    requires second { All IsShortReply second }
    requires history { All (IsProperEntry 2) history.now }
{
    let a = session_of(alloc, b"a")?;
    let b = session_of(alloc, b"b1")?;
    let mut sessions = Items::new(alloc);
    sessions.push(a)?;
    sessions.push(b)?;
    let script = Script {
        pool: 1,
        passes: 1,
        stride: 0,
        sessions,
    };
    let books = [Book { replies: first }, Book { replies: second }];
    let mut sink = MemorySink::new(alloc, 4096, most, fails)?;
    let written = write_run(&script, books.as_slice(), history, 0, &mut sink).is_ok();
    Ok((sink, written))
}

/// `ok` with each mark, numbers and sums.
fn marks_and_numbers(alloc: Global) -> Result<Items<Reply>, AllocError>
    ensures { IfOk result (λ answers. All IsShortReply answers) }
{
    let new = NewMark::Noted {
        stamp: 2,
        update: 0,
        length: 20,
    };
    let gone = Some(18446744073709551615);
    let mut answers = Items::new(alloc);
    add(
        &mut answers,
        Reply::Done {
            new: NewMark::Plain,
            gone: None,
        },
    )?;
    add(&mut answers, Reply::Done { new, gone: None })?;
    add(&mut answers, Reply::Done { new, gone: Some(1) })?;
    add(
        &mut answers,
        Reply::Done {
            new: NewMark::Full,
            gone: None,
        },
    )?;
    add(
        &mut answers,
        Reply::Done {
            new: NewMark::Full,
            gone,
        },
    )?;
    add(
        &mut answers,
        Reply::Done {
            new: NewMark::Plain,
            gone: Some(1),
        },
    )?;
    add(&mut answers, Reply::Number { value: 0 })?;
    add(
        &mut answers,
        Reply::Number {
            value: 18446744073709551615,
        },
    )?;
    add(&mut answers, Reply::Sum { value: 4294967295 })?;
    add(&mut answers, Reply::None)?;
    Ok(answers)
}

fn words_and_refusals(alloc: Global) -> Result<Items<Reply>, AllocError>
    ensures { IfOk result (λ answers. All IsShortReply answers) }
{
    let mut answers = Items::new(alloc);
    add(&mut answers, Reply::Less)?;
    add(&mut answers, Reply::Equal)?;
    add(&mut answers, Reply::Greater)?;
    add(&mut answers, Reply::Yes)?;
    add(&mut answers, Reply::No)?;
    let name = Items::from_slice(alloc, b"x")?;
    add(&mut answers, Reply::Unset { name })?;
    add(&mut answers, Reply::NoBytes)?;
    add(
        &mut answers,
        Reply::Position {
            asked: 21,
            size: 20,
        },
    )?;
    add(&mut answers, Reply::Length { asked: 2147483648 })?;
    add(&mut answers, Reply::Empty { cell: 63 })?;
    add(&mut answers, Reply::Releasers)?;
    add(&mut answers, Reply::Height)?;
    add(
        &mut answers,
        Reply::Cords {
            found: 18446744073709551615,
        },
    )?;
    add(&mut answers, Reply::Pool { size: 4294967295 })?;
    Ok(answers)
}

#[test]
fn answers_have_their_texts(rt: HostRuntime) -> Result<(), Fail> {
    let first = marks_and_numbers(rt.alloc())?;
    let second = words_and_refusals(rt.alloc())?;
    let (sink, written) = sink_after(rt.alloc(), first, second, &[], 4096, Vec::new(rt.alloc()))?;
    assert!(rt; written);
    let wanted =
        b"session a\nok\nok ~2.0 20\nok ~2.0 20 ~1 gone\nok ~full\nok ~full ~18446744073709551615 gone\nok ~1 gone\n\
        0\n18446744073709551615\nsum 4294967295\nnone\nsession b1\nless\nequal\ngreater\nyes\nno\n! unset x\n! no bytes\n\
        ! position 21 20\n! length 2147483648\n! empty 63\n\
        ! releasers\n! height 12\n! cords 18446744073709551615\n! pool 4294967295\nhistory 0\npool 0 of 1\n";
    assert_eq!(rt; sink.bytes(), wanted.as_slice());
    Ok(())
}

/// What a snapshot's commands answer: a walk of two records and one of none, the end of a snapshot, and the refusals.
fn snapshot_answers(alloc: Global) -> Result<Items<Reply>, AllocError>
    ensures { IfOk result (λ answers. All IsShortReply answers) }
{
    let newer = Report {
        stamp: 7,
        update: 18446744073709551615,
        statistics: Statistics {
            size: 4084,
            nodes: 3,
            flat: 2,
            external: 0,
            part: 0,
            sum: 0,
            branch: 1,
            buckets: [1, 0, 0, 0, 0],
            memory: 4192,
        },
    };
    let older = Report {
        stamp: 2,
        update: 0,
        statistics: Statistics {
            size: 10,
            nodes: 11,
            flat: 12,
            external: 13,
            part: 14,
            sum: 15,
            branch: 16,
            buckets: [21, 22, 23, 24, 25],
            memory: 30,
        },
    };
    let mut answers = Items::new(alloc);
    add(&mut answers, Reply::NoSnapshot)?;
    add(&mut answers, Reply::HasSnapshot)?;
    let reports = Items::from_slice(alloc, &[newer, older])?;
    add(&mut answers, Reply::Walked { reports })?;
    let reports = Items::new(alloc);
    add(&mut answers, Reply::Walked { reports })?;
    add(&mut answers, Reply::Ended { deleted: 0 })?;
    add(
        &mut answers,
        Reply::Ended {
            deleted: 18446744073709551615,
        },
    )?;
    Ok(answers)
}

#[test]
fn walks_have_a_line_for_each_record(rt: HostRuntime) -> Result<(), Fail> {
    let first = snapshot_answers(rt.alloc())?;
    let second = Items::new(rt.alloc());
    let (sink, written) = sink_after(rt.alloc(), first, second, &[], 4096, Vec::new(rt.alloc()))?;
    assert!(rt; written);
    let wanted = b"session a\n! no snapshot\n! snapshot\n\
        record 7.18446744073709551615 size 4084 nodes 3 flat 2 external 0 part 0 sum 0 branch 1 buckets 1 0 0 0 0 memory 4192\n\
        record 2.0 size 10 nodes 11 flat 12 external 13 part 14 sum 15 branch 16 buckets 21 22 23 24 25 memory 30\n\
        walked 2\nwalked 0\nok 0\nok 18446744073709551615\nsession b1\nhistory 0\npool 0 of 1\n";
    assert_eq!(rt; sink.bytes(), wanted.as_slice());
    Ok(())
}

#[test]
fn shown_bytes_are_quoted_also_byte_by_byte(rt: HostRuntime) -> Result<(), Fail> {
    let mut first = Items::new(rt.alloc());
    add_shown(rt.alloc(), &mut first, b"", 0)?;
    add_shown(rt.alloc(), &mut first, b"a\"\\\n", 1)?;
    add_shown(
        rt.alloc(),
        &mut first,
        b"\x00\x1f \x7e\x7f\xff",
        18446744073709551615,
    )?;
    let second = Items::new(rt.alloc());
    let (sink, written) = sink_after(rt.alloc(), first, second, &[], 1, Vec::new(rt.alloc()))?;
    assert!(rt; written);
    let wanted =
        b"session a\n\"\"\n\"a\\\"\\\\\\n\" +1\n\"\\x00\\x1f ~\\x7f\\xff\" +18446744073709551615\nsession b1\nhistory 0\npool 0 of 1\n";
    assert_eq!(rt; sink.bytes(), wanted.as_slice());
    Ok(())
}

#[test]
fn failing_sink_holds_the_lines_before(rt: HostRuntime) -> Result<(), Fail> {
    let mut first = Items::new(rt.alloc());
    add(&mut first, Reply::Yes)?;
    add(&mut first, Reply::No)?;
    let second = Items::new(rt.alloc());
    let fails = vec![in rt.alloc(); 3u32]?;
    let (sink, written) = sink_after(rt.alloc(), first, second, &[], 4096, fails)?;
    assert!(rt; !written);
    assert_eq!(rt; sink.bytes(), b"session a\nyes\n".as_slice());
    Ok(())
}

/// What the first session did on the cells 3 and 4.
fn first_actions(alloc: Global) -> Result<Items<Entry>, AllocError>
    ensures { IfOk result (λ history. All (IsProperEntry 2) history) }
{
    let mut history = Items::new(alloc);
    note(
        &mut history,
        Entry {
            session: 0,
            place: 1,
            act: Act::Put,
            cell: 3,
            came: Some(1),
            was: None,
        },
    )?;
    note(
        &mut history,
        Entry {
            session: 0,
            place: 2,
            act: Act::Peek,
            cell: 3,
            came: None,
            was: Some(1),
        },
    )?;
    note(
        &mut history,
        Entry {
            session: 0,
            place: 3,
            act: Act::Swap,
            cell: 3,
            came: Some(2),
            was: Some(1),
        },
    )?;
    note(
        &mut history,
        Entry {
            session: 0,
            place: 4,
            act: Act::Swap,
            cell: 4,
            came: None,
            was: None,
        },
    )?;
    Ok(history)
}

/// What the second session did on the cells 63, 0 and 7.
fn second_actions(alloc: Global) -> Result<Items<Entry>, AllocError>
    ensures { IfOk result (λ history. All (IsProperEntry 2) history) }
{
    let mut history = Items::new(alloc);
    note(
        &mut history,
        Entry {
            session: 1,
            place: 1,
            act: Act::Take,
            cell: 63,
            came: None,
            was: Some(18446744073709551615),
        },
    )?;
    note(
        &mut history,
        Entry {
            session: 1,
            place: 4294967295,
            act: Act::Take,
            cell: 0,
            came: None,
            was: None,
        },
    )?;
    note(
        &mut history,
        Entry {
            session: 1,
            place: 10,
            act: Act::Peek,
            cell: 7,
            came: None,
            was: None,
        },
    )?;
    Ok(history)
}

#[test]
fn actions_have_their_lines(rt: HostRuntime) -> Result<(), Fail> {
    let history = first_actions(rt.alloc())?;
    let first = Items::new(rt.alloc());
    let second = Items::new(rt.alloc());
    let none = Vec::new(rt.alloc());
    let (sink, written) = sink_after(rt.alloc(), first, second, history.as_slice(), 4096, none)?;
    assert!(rt; written);
    let wanted =
        b"session a\nsession b1\nhistory 4\na 1 put 3 ok 1\na 2 peek 3 ok 1\na 3 swap 3 ok 2 1\na 4 swap 4 empty\npool 0 of 1\n";
    assert_eq!(rt; sink.bytes(), wanted.as_slice());
    Ok(())
}

#[test]
fn actions_of_other_sessions_have_their_names(rt: HostRuntime) -> Result<(), Fail> {
    let history = second_actions(rt.alloc())?;
    let first = Items::new(rt.alloc());
    let second = Items::new(rt.alloc());
    let none = Vec::new(rt.alloc());
    let (sink, written) = sink_after(rt.alloc(), first, second, history.as_slice(), 1, none)?;
    assert!(rt; written);
    let wanted =
        b"session a\nsession b1\nhistory 3\nb1 1 take 63 ok 18446744073709551615\nb1 4294967295 take 0 empty\nb1 10 peek 7 empty\npool 0 of 1\n";
    assert_eq!(rt; sink.bytes(), wanted.as_slice());
    Ok(())
}

#[test]
fn script_of_no_sessions_has_an_empty_history(rt: HostRuntime) -> Result<(), Fail> {
    let script = Script {
        pool: 65536,
        passes: 16384,
        stride: 0,
        sessions: Items::new(rt.alloc()),
    };
    let mut sink = MemorySink::new(rt.alloc(), 99, 99, Vec::new(rt.alloc()))?;
    assert!(rt; write_run(&script, &[], &[], 0, &mut sink).is_ok());
    assert_eq!(rt; sink.bytes(), b"history 0\npool 0 of 65536\n".as_slice());
    Ok(())
}

#[test]
fn refusal_names_its_line(rt: HostRuntime) -> Result<(), Fail> {
    let mut sink = MemorySink::new(rt.alloc(), 99, 7, Vec::new(rt.alloc()))?;
    assert!(rt; write_refusal(4294967295, b"command", &mut sink).is_ok());
    assert_eq!(rt;
        sink.bytes(),
        b"refused at line 4294967295: command\n".as_slice()
    );
    Ok(())
}
