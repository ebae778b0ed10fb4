//! The text of a load.
ghost use Rattle.std.specs.Prelude.{◌≡◌, ◌+◌, ◌*◌, ◌<◌, ◌≤◌, ◌++◌, IfOk, OnOk};
ghost use Rattle.load_generator.specs.Lines.{command_text};
ghost use Rattle.load_generator.specs.Texts.{options_text, commands_text, session_text, sessions_text, load_text, line};
ghost use Rattle.load_generator.specs.Courses.{fresh};

use crate::course::Course;
use crate::lines::{push_command, push_decimal};
use std::alloc::{AllocError, Global};

/// The most bytes of a command's line, with some to spare: the longest is a `sub` of 20 bytes.
const LINE: usize = 24;

/// The most bytes of the options, and of a session's first and last lines.
const EDGES: usize = 64;

fn push_options(text: &mut Vec<u8>) -> Result<(), AllocError>
    ensures { OnOk result (text.new.items ≡ text.old.items ++ options_text) }
{
    text.extend_from_slice(b"cords 1\npool 262144\npasses 65536\nstride 10\n")
}

fn push_commands(
    text: &mut Vec<u8>,
    session: u32,
    course: &mut Course,
    commands: u32,
) -> Result<(), AllocError>
    requires { session < 16 }
    ensures { OnOk result (text.new.items ≡ text.old.items ++ commands_text session course.old commands) }
{
    for j in 0..commands {
        let command = course.step(j);
        push_command(text, session, command)?;
        text.push(b'\n')?;
    }
    Ok(())
}

fn push_session(
    text: &mut Vec<u8>,
    seed: u64,
    session: u32,
    commands: u32,
) -> Result<(), AllocError>
    requires { session < 16 }
    ensures { OnOk result (text.new.items ≡ text.old.items ++ session_text seed commands session) }
{
    text.extend_from_slice(b"session s")?;
    push_decimal(text, session)?;
    text.push(b'\n')?;
    let mut course = Course::new(seed, session as u64);
    push_commands(text, session, &mut course, commands)?;
    text.extend_from_slice(b"end\n")
}

/// The script of so many sessions with so many commands each, drawn from the seed: the same text for the same numbers. It is
/// written in one buffer that is reserved once. Its error is want of memory.
pub fn load_text(
    alloc: Global,
    seed: u64,
    sessions: u16,
    commands: u16,
) -> Result<Vec<u8>, AllocError>
    requires sessions { (1 ≤ sessions) × (sessions ≤ 16) }
    requires commands { (1 ≤ commands) × (commands ≤ 1024) }
    ensures { IfOk result (λ text. text.items ≡ load_text seed sessions commands) }
{
    let most = EDGES + sessions as usize * (EDGES + LINE * commands as usize);
    let mut text = Vec::with_capacity(alloc, most)?;
    push_options(&mut text)?;
    for session in 0..sessions as u32 {
        push_session(&mut text, seed, session, commands as u32)?;
    }
    Ok(text)
}
