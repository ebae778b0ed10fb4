//! How commands are written.
ghost use Rattle.std.specs.Prelude.{◌≡◌, ◌+◌, ◌*◌, ◌<◌, ◌≤◌, ◌++◌, OnOk};
ghost use Rattle.std.specs.Fmt.{decimal};
ghost use Rattle.load_generator.specs.Lines.{name, number, repeated, add_word, cut_word, join_word, command_text, IsWritable};

use crate::command::{LoadCommand, Side};
use itoa::Buffer;
use std::alloc::AllocError;

pub(crate) fn push_decimal(text: &mut Vec<u8>, n: u32) -> Result<(), AllocError>
    ensures { OnOk result (text.new.items ≡ text.old.items ++ decimal n) }
{
    let mut buffer = Buffer::new();
    text.extend_from_slice(buffer.format(n).as_bytes())
}

// A space and a name.
fn push_name(text: &mut Vec<u8>, a: u32) -> Result<(), AllocError>
    ensures { OnOk result (text.new.items ≡ text.old.items ++ name a) }
{
    text.extend_from_slice(b" n")?;
    push_decimal(text, a)
}

// A space and a number.
fn push_number(text: &mut Vec<u8>, n: u32) -> Result<(), AllocError>
    ensures { OnOk result (text.new.items ≡ text.old.items ++ number n) }
{
    text.extend_from_slice(b" ")?;
    push_decimal(text, n)
}

// A space and a letter so many times.
fn push_repeated(text: &mut Vec<u8>, letter: u32, times: u32) -> Result<(), AllocError>
    requires { letter < 8 }
    ensures { OnOk result (text.new.items ≡ text.old.items ++ repeated letter times) }
{
    text.extend_from_slice(b" \"")?;
    text.push(b'a' + letter as u8)?;
    text.extend_from_slice(b"\"*")?;
    push_decimal(text, times)
}

fn add_word(side: Side) -> &'static [u8]
    ensures { result.now ≡ add_word side }
{
    match side {
        Side::Front => b"prepend",
        Side::Back => b"append",
    }
}

fn cut_word(side: Side) -> &'static [u8]
    ensures { result.now ≡ cut_word side }
{
    match side {
        Side::Front => b"cutfront",
        Side::Back => b"cutback",
    }
}

fn join_word(side: Side) -> &'static [u8]
    ensures { result.now ≡ join_word side }
{
    match side {
        Side::Front => b"joinfront",
        Side::Back => b"join",
    }
}

// A word and a name.
fn push_verb(text: &mut Vec<u8>, verb: &[u8], a: u32) -> Result<(), AllocError>
    ensures { OnOk result (text.new.items ≡ text.old.items ++ (verb.now ++ name a)) }
{
    text.extend_from_slice(verb)?;
    push_name(text, a)
}

/// A command of the session of this number, without its newline. Its error is want of memory.
pub(crate) fn push_command(
    text: &mut Vec<u8>,
    session: u32,
    command: LoadCommand,
) -> Result<(), AllocError>
    requires session { session < 16 }
    requires writable { IsWritable command }
    ensures { OnOk result (text.new.items ≡ text.old.items ++ command_text session command) }
{
    match command {
        LoadCommand::Let { a, letter, times } => {
            push_verb(text, b"let", a)?;
            push_repeated(text, letter, times)
        }
        LoadCommand::Add {
            side,
            a,
            letter,
            times,
        } => {
            push_verb(text, add_word(side), a)?;
            push_repeated(text, letter, times)
        }
        LoadCommand::Cut { side, a, n } => {
            push_verb(text, cut_word(side), a)?;
            push_number(text, n)
        }
        LoadCommand::Join { side, a, b } => {
            push_verb(text, join_word(side), a)?;
            push_name(text, b)
        }
        LoadCommand::Sub { a, pos, n, b } => {
            push_verb(text, b"sub", a)?;
            push_number(text, pos)?;
            push_number(text, n)?;
            push_name(text, b)
        }
        LoadCommand::Copy { a, b } => {
            push_verb(text, b"copy", a)?;
            push_name(text, b)
        }
        LoadCommand::Size { a } => push_verb(text, b"size", a),
        LoadCommand::Find { a } => {
            push_verb(text, b"find", a)?;
            text.extend_from_slice(b" \"hh\"")
        }
        LoadCommand::Compare { a, b } => {
            push_verb(text, b"compare", a)?;
            push_name(text, b)
        }
        LoadCommand::Put { a, cell } => {
            push_verb(text, b"put", a)?;
            push_number(text, 4 * session + cell)
        }
        LoadCommand::Take { cell, a } => {
            text.extend_from_slice(b"take")?;
            push_number(text, 4 * session + cell)?;
            push_name(text, a)
        }
        LoadCommand::Snap => text.extend_from_slice(b"snap"),
        LoadCommand::Walk => text.extend_from_slice(b"walk"),
        LoadCommand::Unsnap => text.extend_from_slice(b"unsnap"),
    }
}
