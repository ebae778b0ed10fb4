//! The commands of a session, one after another.
ghost use Rattle.std.specs.Prelude.{IsSome, IsOk, IfOk, OnErr};
ghost use Rattle.plain_cord.specs.States.{SameNames};
ghost use Rattle.plain_cord.specs.Steps.{PlainStep};
ghost use Rattle.plain_cord.specs.declared.script.Command.TheVariants as commands;
ghost use Rattle.plain_session.specs.States.{environment_of};
ghost use Rattle.script_words.specs.Forms.{IsShort, IsWithin};
ghost use Rattle.plain_session.specs.Commands.{Does, IsFreeCommand, IsOnCell};

use crate::cord::PlainCord;
use crate::edit::Edit;
use crate::names::Names;
use crate::needle::Needle;
use crate::queries::{answer, byte_at, order_reply, place_reply, show, sum_reply};
use crate::replies::{done, unset};
use plain_cord::{Act, Command, Items, Reply, Text};
use std::alloc::AllocError;

/// What came of a command.
#[derive(Drop)]
pub enum Ran<'a> {
    Answered(Reply),
    /// The command is on a cell of the board: the act, the cell, and the name whose cord it moves.
    OnCell { act: Act, cell: u8, a: &'a [u8] },
}

impl<'a> Ran<'a> {
    fn on_cell(act: Act, cell: u8, a: &'a Items<u8>) -> Ran<'a>
        ensures { IsOnCell result act cell a.now }
    {
        Ran::OnCell {
            act,
            cell,
            a: a.as_slice(),
        }
    }
}

impl<'a> Names<'a> {
    /// Does a command, unless it is on a cell: then nothing has changed. After an error the names are as before.
    pub fn run(&mut self, command: &'a Command) -> Result<Ran<'a>, AllocError>
        requires { IsWithin command.now }
        ensures ok { IfOk result (λ ran. Does (environment_of self.old) command.now (environment_of self.new) ran) }
        ensures err { OnErr result (SameNames (environment_of self.new) (environment_of self.old)) }
        ensures free { IsFreeCommand (environment_of self.old) command.now → IsOk result }
    {
        match command {
            Command::Let { a, text } | Command::Ext { a, text } => {
                Ok(Ran::Answered(self.set_text(a.as_slice(), text)?))
            }
            Command::Clear { a } => Ok(Ran::Answered(self.change(a.as_slice(), Edit::Clear)?)),
            Command::Append { a, text } => {
                let edit = Edit::Append(text.piece.as_slice(), text.times);
                Ok(Ran::Answered(self.change(a.as_slice(), edit)?))
            }
            Command::Prepend { a, text } => {
                let edit = Edit::Prepend(text.piece.as_slice(), text.times);
                Ok(Ran::Answered(self.change(a.as_slice(), edit)?))
            }
            Command::CutFront { a, n } => {
                Ok(Ran::Answered(self.change(a.as_slice(), Edit::CutFront(*n))?))
            }
            Command::CutBack { a, n } => {
                Ok(Ran::Answered(self.change(a.as_slice(), Edit::CutBack(*n))?))
            }
            Command::SetSum { a, value } => {
                Ok(Ran::Answered(self.change(a.as_slice(), Edit::SetSum(*value))?))
            }
            Command::Sum { a } => Ok(Ran::Answered(self.sum(a.as_slice())?)),
            Command::Size { a } => Ok(Ran::Answered(self.size(a.as_slice())?)),
            Command::Print { a } => Ok(Ran::Answered(self.print(a.as_slice())?)),
            Command::At { a, i } => Ok(Ran::Answered(self.byte(a.as_slice(), *i)?)),
            Command::Copy { a, b } => Ok(Ran::Answered(self.copy(a.as_slice(), b.as_slice())?)),
            Command::Sub { a, pos, n, b } => {
                Ok(Ran::Answered(self.sub(a.as_slice(), *pos, *n, b.as_slice())?))
            }
            Command::Join { a, b } => Ok(Ran::Answered(self.join(
                a.as_slice(),
                b.as_slice(),
                false,
            )?)),
            Command::JoinFront { a, b } => {
                Ok(Ran::Answered(self.join(a.as_slice(), b.as_slice(), true)?))
            }
            Command::Find { a, text } => Ok(Ran::Answered(self.place(a.as_slice(), text)?)),
            Command::Compare { a, b } => Ok(Ran::Answered(self.order(a.as_slice(), b.as_slice())?)),
            Command::Starts { a, text } => Ok(Ran::Answered(self.starts(a.as_slice(), text)?)),
            Command::Ends { a, text } => Ok(Ran::Answered(self.ends(a.as_slice(), text)?)),
            Command::Put { a, cell } => Ok(Ran::on_cell(Act::Put, *cell, a)),
            Command::Take { cell, a } => Ok(Ran::on_cell(Act::Take, *cell, a)),
            Command::Peek { cell, a } => Ok(Ran::on_cell(Act::Peek, *cell, a)),
            Command::Swap { a, cell } => Ok(Ran::on_cell(Act::Swap, *cell, a)),
            Command::Snap | Command::Walk | Command::Unsnap => Ok(Ran::Answered(Reply::None)),
        }
    }

    fn set_text(&mut self, a: &'a [u8], text: &Text) -> Result<Reply, AllocError>
        requires { IsShort 0 text.now }
        ensures ok { IfOk result (λ reply. PlainStep (environment_of self.old) (commands.Let a.now text.now) (environment_of self.new) reply) }
        ensures err { OnErr result (SameNames (environment_of self.new) (environment_of self.old)) }
    {
        let cord = PlainCord::of_piece(self.alloc, text.piece.as_slice(), text.times)?;
        self.set(a, cord)?;
        Ok(done())
    }

    fn sum(&self, a: &[u8]) -> Result<Reply, AllocError>
        ensures step { IfOk result (λ reply. PlainStep (environment_of self.now) (commands.Sum a.now) (environment_of self.now) reply) }
        ensures free { IsSome (environment_of self.now a.now) → IsOk result }
    {
        match self.find(a) {
            None => unset(self.alloc, a),
            Some(cord) => Ok(sum_reply(cord.sum())),
        }
    }

    fn size(&self, a: &[u8]) -> Result<Reply, AllocError>
        ensures step { IfOk result (λ reply. PlainStep (environment_of self.now) (commands.Size a.now) (environment_of self.now) reply) }
        ensures free { IsSome (environment_of self.now a.now) → IsOk result }
    {
        match self.find(a) {
            None => unset(self.alloc, a),
            Some(cord) => Ok(Reply::Number {
                value: cord.bytes().len() as u64,
            }),
        }
    }

    fn print(&self, a: &[u8]) -> Result<Reply, AllocError>
        ensures { IfOk result (λ reply. PlainStep (environment_of self.now) (commands.Print a.now) (environment_of self.now) reply) }
    {
        match self.find(a) {
            None => unset(self.alloc, a),
            Some(cord) => show(self.alloc, cord.bytes()),
        }
    }

    fn byte(&self, a: &[u8], i: u64) -> Result<Reply, AllocError>
        ensures step { IfOk result (λ reply. PlainStep (environment_of self.now) (commands.At a.now i) (environment_of self.now) reply) }
        ensures free { IsSome (environment_of self.now a.now) → IsOk result }
    {
        match self.find(a) {
            None => unset(self.alloc, a),
            Some(cord) => Ok(byte_at(cord.bytes(), i)),
        }
    }

    fn copy(&mut self, a: &[u8], b: &'a [u8]) -> Result<Reply, AllocError>
        ensures ok { IfOk result (λ reply. PlainStep (environment_of self.old) (commands.Copy a.now b.now) (environment_of self.new) reply) }
        ensures err { OnErr result (SameNames (environment_of self.new) (environment_of self.old)) }
    {
        let Some(cord) = self.find(a) else {
            return unset(self.alloc, a);
        };
        let copy = cord.again(self.alloc)?;
        self.set(b, copy)?;
        Ok(done())
    }

    fn sub(&mut self, a: &[u8], pos: u64, n: u64, b: &'a [u8]) -> Result<Reply, AllocError>
        ensures ok { IfOk result (λ reply. PlainStep (environment_of self.old) (commands.Sub a.now pos n b.now) (environment_of self.new) reply) }
        ensures err { OnErr result (SameNames (environment_of self.new) (environment_of self.old)) }
    {
        let Some(cord) = self.find(a) else {
            return unset(self.alloc, a);
        };
        let part = cord.sub(self.alloc, pos, n)?;
        self.set(b, part)?;
        Ok(done())
    }

    fn place(&self, a: &[u8], text: &Text) -> Result<Reply, AllocError>
        requires { IsShort 0 text.now }
        ensures { IfOk result (λ reply. PlainStep (environment_of self.now) (commands.Find a.now text.now) (environment_of self.now) reply) }
    {
        let Some(cord) = self.find(a) else {
            return unset(self.alloc, a);
        };
        let needle = Needle::of_text(self.alloc, text)?;
        Ok(place_reply(cord.bytes(), needle.as_slice()))
    }

    fn order(&self, a: &[u8], b: &[u8]) -> Result<Reply, AllocError>
        ensures step { IfOk result (λ reply. PlainStep (environment_of self.now) (commands.Compare a.now b.now) (environment_of self.now) reply) }
        ensures free { IsSome (environment_of self.now a.now) → IsSome (environment_of self.now b.now) → IsOk result }
    {
        let Some(cord) = self.find(a) else {
            return unset(self.alloc, a);
        };
        let Some(other) = self.find(b) else {
            return unset(self.alloc, b);
        };
        Ok(order_reply(cord.bytes(), other.bytes()))
    }

    fn starts(&self, a: &[u8], text: &Text) -> Result<Reply, AllocError>
        requires { IsShort 0 text.now }
        ensures { IfOk result (λ reply. PlainStep (environment_of self.now) (commands.Starts a.now text.now) (environment_of self.now) reply) }
    {
        let Some(cord) = self.find(a) else {
            return unset(self.alloc, a);
        };
        let needle = Needle::of_text(self.alloc, text)?;
        Ok(answer(cord.bytes().starts_with(needle.as_slice())))
    }

    fn ends(&self, a: &[u8], text: &Text) -> Result<Reply, AllocError>
        requires { IsShort 0 text.now }
        ensures { IfOk result (λ reply. PlainStep (environment_of self.now) (commands.Ends a.now text.now) (environment_of self.now) reply) }
    {
        let Some(cord) = self.find(a) else {
            return unset(self.alloc, a);
        };
        let needle = Needle::of_text(self.alloc, text)?;
        Ok(answer(cord.bytes().ends_with(needle.as_slice())))
    }
}
