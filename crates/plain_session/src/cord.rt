//! A cord as a byte string.
ghost use Rattle.std.specs.Prelude.{◌≡◌, ◌+◌, ◌*◌, ◌-◌, ◌<◌, ◌≤◌, ◌++◌, length, take, drop, vec_len, Ok, IsOk, IfOk, OnErr};
ghost use Rattle.plain_cord.specs.declared.limits.TheConstants.{MOST_BYTES};
ghost use Rattle.plain_cord.specs.Texts.{repeated};
ghost use Rattle.plain_cord.specs.States.{plain, empty_cord};
ghost use Rattle.plain_cord.specs.Outcomes.{edited, grown, cut_front, cut_back, with_sum, edited_by};

use crate::edit::Edit;
use crate::pieces::{behind, front, push_repeated};
use crate::replies::done;
use plain_cord::{MOST_BYTES, Reply};
use std::alloc::{AllocError, Global};

/// The bytes of a cord, and the sum that is expected of them.
#[derive(Debug, Drop)]
pub struct PlainCord {
    bytes: Vec<u8>,
    sum: Option<u32>,
    ghost short: { vec_len bytes ≤ MOST_BYTES },
}

impl PlainCord {
    ghost use Rattle.plain_session.specs.States.{state_of};
    ghost use Rattle.plain_session.specs.Edits.{change_of, Fits, IsFree, Leaves};

    /// A cord of these bytes, of which no sum is expected.
    pub fn of_piece(alloc: Global, piece: &[u8], times: u32) -> Result<PlainCord, AllocError>
        requires { length piece.now * times ≤ MOST_BYTES }
        ensures { IfOk result (λ cord. state_of cord ≡ plain (repeated piece.now times)) }
    {
        let mut bytes = Vec::with_capacity(alloc, piece.len() * times as usize)?;
        push_repeated(&mut bytes, piece, times);
        Ok(PlainCord { bytes, sum: None })
    }

    /// No bytes.
    pub fn empty(alloc: Global) -> PlainCord
        ensures { state_of result ≡ empty_cord }
    {
        PlainCord {
            bytes: Vec::new(alloc),
            sum: None,
        }
    }

    /// A copy, sum included.
    pub fn again(&self, alloc: Global) -> Result<PlainCord, AllocError>
        ensures { IfOk result (λ cord. state_of cord ≡ state_of self.now) }
    {
        let bytes = Vec::from_slice(alloc, self.bytes.as_slice())?;
        Ok(PlainCord {
            bytes,
            sum: self.sum,
        })
    }

    /// At most `n` of the bytes behind the first `pos`, of which no sum is expected.
    pub fn sub(&self, alloc: Global, pos: u64, n: u64) -> Result<PlainCord, AllocError>
        ensures { IfOk result (λ cord. state_of cord ≡ plain (take n (drop pos (state_of self.now).bytes))) }
    {
        let rest = behind(self.bytes.as_slice(), pos);
        let bytes = Vec::from_slice(alloc, front(rest, n))?;
        Ok(PlainCord { bytes, sum: None })
    }

    /// The bytes, borrowed.
    pub fn bytes(&self) -> &[u8]
        ensures bytes { result.now ≡ (state_of self.now).bytes }
        ensures short { length result.now ≤ MOST_BYTES }
    {
        self.bytes.as_slice()
    }

    /// The expected sum, if there is one.
    pub fn sum(&self) -> Option<u32>
        ensures { result ≡ (state_of self.now).sum }
    {
        self.sum
    }

    // Adds a piece behind. Without bytes to add nothing changes.
    fn append(&mut self, piece: &[u8], times: u32) -> Result<Reply, AllocError>
        requires { length piece.now * times ≤ MOST_BYTES }
        ensures ok { IfOk result
            (λ reply. Leaves (grown (state_of self.old) ((state_of self.old).bytes ++ repeated piece.now times)) (state_of self.new) reply) }
        ensures err { OnErr result (state_of self.new ≡ state_of self.old) }
    {
        let added = piece.len() * times as usize;
        let asked = (self.bytes.len() + added) as u64;
        if asked > MOST_BYTES {
            return Ok(Reply::Length { asked });
        }
        if added == 0 {
            return Ok(done());
        }
        self.bytes.reserve(added)?;
        push_repeated(&mut self.bytes, piece, times);
        self.sum = None;
        Ok(done())
    }

    // Adds a piece in front. Without bytes to add nothing changes.
    fn prepend(&mut self, piece: &[u8], times: u32) -> Result<Reply, AllocError>
        requires { length piece.now * times ≤ MOST_BYTES }
        ensures ok { IfOk result
            (λ reply. Leaves (grown (state_of self.old) (repeated piece.now times ++ (state_of self.old).bytes)) (state_of self.new) reply) }
        ensures err { OnErr result (state_of self.new ≡ state_of self.old) }
    {
        let added = piece.len() * times as usize;
        let asked = (self.bytes.len() + added) as u64;
        if asked > MOST_BYTES {
            return Ok(Reply::Length { asked });
        }
        if added == 0 {
            return Ok(done());
        }
        self.bytes.reserve(added)?;
        push_repeated(&mut self.bytes, piece, times);
        self.bytes.rotate_right(added);
        self.sum = None;
        Ok(done())
    }

    // Adds the cord's own bytes behind them.
    fn double(&mut self) -> Result<Reply, AllocError>
        ensures ok { IfOk result
            (λ reply. Leaves (grown (state_of self.old) ((state_of self.old).bytes ++ (state_of self.old).bytes)) (state_of self.new) reply) }
        ensures err { OnErr result (state_of self.new ≡ state_of self.old) }
    {
        let size = self.bytes.len();
        let asked = size as u64 * 2;
        if asked > MOST_BYTES {
            return Ok(Reply::Length { asked });
        }
        if size == 0 {
            return Ok(done());
        }
        self.bytes.extend_from_within(0..size)?;
        self.sum = None;
        Ok(done())
    }

    fn cut_front(&mut self, n: u64) -> Reply
        ensures { Leaves (cut_front (state_of self.old) n) (state_of self.new) result }
    {
        let size = self.bytes.len() as u64;
        if n > size {
            return Reply::Position { asked: n, size };
        }
        if n > 0 {
            self.bytes.rotate_left(n as usize);
            self.bytes.truncate((size - n) as usize);
            self.sum = None;
        }
        done()
    }

    fn cut_back(&mut self, n: u64) -> Reply
        ensures { Leaves (cut_back (state_of self.old) n) (state_of self.new) result }
    {
        let size = self.bytes.len() as u64;
        if n > size {
            return Reply::Position { asked: n, size };
        }
        if n > 0 {
            self.bytes.truncate((size - n) as usize);
            self.sum = None;
        }
        done()
    }

    fn set_sum(&mut self, value: u32) -> Reply
        ensures { Leaves (with_sum (state_of self.old) value) (state_of self.new) result }
    {
        if self.bytes.is_empty() {
            return Reply::NoBytes;
        }
        self.sum = Some(value);
        done()
    }

    fn clear(&mut self) -> Reply
        ensures { Leaves (edited empty_cord) (state_of self.new) result }
    {
        self.bytes.clear();
        self.sum = None;
        done()
    }

    /// Does an edit. After an error the cord is as before.
    pub fn change(&mut self, edit: Edit<'_>) -> Result<Reply, AllocError>
        requires { Fits edit }
        ensures ok { IfOk result (λ reply. Leaves (edited_by (state_of self.old) (change_of edit.entry)) (state_of self.new) reply) }
        ensures err { OnErr result (state_of self.new ≡ state_of self.old) }
        ensures free { IsFree edit.entry → IsOk result }
    {
        match edit {
            Edit::Clear => Ok(self.clear()),
            Edit::Append(piece, times) => self.append(piece, times),
            Edit::Prepend(piece, times) => self.prepend(piece, times),
            Edit::Double => self.double(),
            Edit::CutFront(n) => Ok(self.cut_front(n)),
            Edit::CutBack(n) => Ok(self.cut_back(n)),
            Edit::SetSum(value) => Ok(self.set_sum(value)),
        }
    }
}
