//! Each public call once, on small cords, and commands at the edges of their numbers.
ghost use Rattle.std.specs.Prelude.{◌*◌, ◌≤◌, length, IfOk};
ghost use Rattle.script_words.specs.Forms.{IsWithin};

use super::*;
use plain_cord::{Act, Command, Items, Reply, Text};
use std::alloc::{AllocError, Global};
use std::test::Fail;

fn is_done(reply: &Reply) -> bool {
    matches!(reply, Reply::Done { .. })
}

#[test]
fn cord_is_changed_and_copied(rt: HostRuntime) -> Result<(), Fail> {
    let alloc = rt.alloc();
    let mut cord = PlainCord::of_piece(alloc, b"ab", 2)?;
    assert!(rt; is_done(&cord.change(Edit::SetSum(7))?));
    assert_eq!(rt; cord.again(alloc)?.sum(), Some(7));
    assert!(rt; is_done(&cord.change(Edit::Append(b"c", 3))?));
    assert!(rt; is_done(&cord.change(Edit::Prepend(b"xy", 2))?));
    assert_eq!(rt; cord.bytes(), b"xyxyababccc".as_slice());
    assert_eq!(rt; cord.sum(), None);
    assert_eq!(rt; cord.sub(alloc, 3, 4)?.bytes(), b"yaba".as_slice());
    assert!(rt; is_done(&cord.change(Edit::CutFront(3))?));
    assert!(rt; is_done(&cord.change(Edit::CutBack(6))?));
    assert!(rt; is_done(&cord.change(Edit::Double)?));
    assert_eq!(rt; cord.bytes(), b"yaya".as_slice());
    assert!(rt; is_done(&cord.change(Edit::Clear)?));
    assert_eq!(rt; cord.bytes().len(), PlainCord::empty(alloc).bytes().len());
    Ok(())
}

#[test]
fn names_keep_cords_apart(rt: HostRuntime) -> Result<(), Fail> {
    let alloc = rt.alloc();
    let mut names = Names::new(alloc);
    names.set(b"a", PlainCord::of_piece(alloc, b"one", 1)?)?;
    names.set(b"ab", PlainCord::of_piece(alloc, b"two", 1)?)?;
    assert!(rt; is_done(&names.change(b"a", Edit::CutBack(1))?));
    assert!(rt; is_done(&names.join(b"ab", b"a", true)?));
    assert!(rt; is_done(&names.join(b"a", b"ab", false)?));
    assert!(rt; names.exchange(b"abc", PlainCord::empty(alloc)).is_none());
    assert!(rt; names.exchange(b"ab", PlainCord::empty(alloc)).is_some());
    for (name, wanted) in [
        (b"a".as_slice(), Some(b"onontwo".as_slice())),
        (b"ab".as_slice(), Some(b"".as_slice())),
        (b"abc".as_slice(), None),
    ] {
        assert_eq!(rt; names.find(name).map(|cord| cord.bytes()), wanted);
    }
    Ok(())
}

fn set(alloc: Global, name: &[u8], piece: &[u8], times: u32) -> Result<Command, AllocError>
    requires { length piece.now * times ≤ 1048576 }
    ensures { IfOk result (λ command. IsWithin command) }
{
    let a = Items::from_slice(alloc, name)?;
    let piece = Items::from_slice(alloc, piece)?;
    let text = Text { piece, times };
    Ok(Command::Let { a, text })
}

#[test]
fn commands_are_run(rt: HostRuntime) -> Result<(), Fail> {
    let alloc = rt.alloc();
    let first = set(alloc, b"x", b"ab", 3)?;
    let second = set(alloc, b"x1", b"c", 1)?;
    let join = Command::Join {
        a: Items::from_slice(alloc, b"x")?,
        b: Items::from_slice(alloc, b"x1")?,
    };
    let size = Command::Size {
        a: Items::from_slice(alloc, b"x")?,
    };
    let take = Command::Take {
        cell: 63,
        a: Items::from_slice(alloc, b"x")?,
    };
    let mut names = Names::new(alloc);
    assert!(rt; matches!(names.run(&join)?, Ran::Answered(Reply::Unset { .. })));
    for command in [&first, &second, &join] {
        assert!(rt; matches!(names.run(command)?, Ran::Answered(Reply::Done { .. })));
    }
    assert!(rt; matches!(names.run(&size)?, Ran::Answered(Reply::Number { value: 7 })));
    assert!(rt;
        matches!(
            names.run(&take)?,
            Ran::OnCell {
                act: Act::Take,
                cell: 63,
                ..
            }
        )
    );
    Ok(())
}

#[derive(Clone, Copy)]
enum Kind {
    CutFront,
    CutBack,
    At,
    SetSum,
    Find,
    Starts,
    Ends,
}

// A command on `x`; a text is so many times `aa`.
fn command_of(alloc: Global, kind: Kind, n: u64) -> Result<Command, AllocError>
    ensures { IfOk result (λ command. IsWithin command) }
{
    let a = Items::from_slice(alloc, b"x")?;
    let piece = Items::from_slice(alloc, b"aa")?;
    let times = (n % 256) as u32;
    let text = Text { piece, times };
    Ok(match kind {
        Kind::CutFront => Command::CutFront { a, n },
        Kind::CutBack => Command::CutBack { a, n },
        Kind::At => Command::At { a, i: n },
        Kind::SetSum => {
            Command::SetSum {
                a,
                value: u32::try_from(n).unwrap_or(u32::MAX),
            }
        }
        Kind::Find => Command::Find { a, text },
        Kind::Starts => Command::Starts { a, text },
        Kind::Ends => Command::Ends { a, text },
    })
}

// The answer where `x` is so many letters `a`.
fn answer_at(alloc: Global, length: u16, command: &Command) -> Result<String, AllocError>
    requires { IsWithin command.now }
{
    let first = set(alloc, b"x", b"a", length as u32)?;
    let mut names = Names::new(alloc);
    names.run(&first)?;
    match names.run(command)? {
        Ran::Answered(reply) => format!(in alloc; "{reply:?}"),
        Ran::OnCell { .. } => String::from_str(alloc, "on a cell"),
    }
}

const DONE: &str = "Done { new: Plain, gone: None }";

#[test]
fn commands_answer_at_the_edges_of_their_numbers(rt: HostRuntime) -> Result<(), Fail> {
    for (kind, length, n, wanted) in [
        (Kind::CutFront, 0, 0, DONE),
        (Kind::CutFront, 0, 1, "Position { asked: 1, size: 0 }"),
        (Kind::CutFront, 16, 16, DONE),
        (Kind::CutBack, 16, 16, DONE),
        (
            Kind::CutBack,
            15,
            u64::MAX,
            "Position { asked: 18446744073709551615, size: 15 }",
        ),
        (Kind::At, 16, 15, "Number { value: 97 }"),
        (
            Kind::At,
            16,
            u64::MAX,
            "Position { asked: 18446744073709551615, size: 16 }",
        ),
        (Kind::SetSum, 0, 0, "NoBytes"),
        (Kind::SetSum, 1, 0, DONE),
        (Kind::SetSum, 1, 4294967295, DONE),
        (Kind::Find, 0, 0, "Number { value: 0 }"),
        (Kind::Find, 15, 7, "Number { value: 0 }"),
        (Kind::Find, 15, 8, "None"),
        (Kind::Starts, 0, 0, "Yes"),
        (Kind::Starts, 16, 8, "Yes"),
        (Kind::Starts, 16, 255, "No"),
        (Kind::Ends, 0, 0, "Yes"),
        (Kind::Ends, 1, 1, "No"),
    ] {
        let command = command_of(rt.alloc(), kind, n)?;
        assert_eq!(rt; answer_at(rt.alloc(), length, &command)?.as_str(), wanted);
    }
    Ok(())
}
