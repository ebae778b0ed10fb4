//! Two cords that are joined.
ghost use Rattle.std.specs.Prelude.{◌≡◌, ◌≢◌, Some, IsSome, IfOk, OnErr};
ghost use Rattle.plain_cord.specs.States.{SameNames};
ghost use Rattle.plain_cord.specs.Steps.{IsOutcome};
ghost use Rattle.plain_session.specs.States.{state_of, environment_of};
ghost use Rattle.plain_session.specs.Edits.{Leaves, joined, join_outcome};

use crate::cord::PlainCord;
use crate::edit::Edit;
use crate::names::Names;
use crate::replies::unset;
use plain_cord::Reply;
use std::alloc::AllocError;

// Adds the bytes of another cord in front, or behind.
fn join_cords(cord: &mut PlainCord, other: &PlainCord, in_front: bool) -> Result<Reply, AllocError>
    ensures ok { IfOk result (λ reply. Leaves (joined (state_of cord.old) (state_of other.now) in_front) (state_of cord.new) reply) }
    ensures err { OnErr result (state_of cord.new ≡ state_of cord.old) }
{
    if in_front {
        cord.change(Edit::Prepend(other.bytes(), 1))
    } else {
        cord.change(Edit::Append(other.bytes(), 1))
    }
}

impl Names<'_> {
    /// Adds the bytes of the cord of `b` to the cord of `a`, in front or behind. After an error the names are as before.
    pub fn join(&mut self, a: &[u8], b: &[u8], in_front: bool) -> Result<Reply, AllocError>
        ensures ok { IfOk result (λ reply. IsOutcome (Some (join_outcome (environment_of self.old) a.now b.now in_front)) (environment_of self.new) reply) }
        ensures err { OnErr result (SameNames (environment_of self.new) (environment_of self.old)) }
    {
        if self.find(a).is_none() {
            return unset(self.alloc, a);
        }
        if self.find(b).is_none() {
            return unset(self.alloc, b);
        }
        if a == b {
            return self.change(a, Edit::Double);
        }
        self.join_other(a, b, in_front)
    }

    // The same for two names that were both set. While the bytes are copied `a` has no bytes.
    fn join_other(&mut self, a: &[u8], b: &[u8], in_front: bool) -> Result<Reply, AllocError>
        requires first { IsSome (environment_of self.old a.now) }
        requires second { IsSome (environment_of self.old b.now) }
        requires apart { a.now ≢ b.now }
        ensures ok { IfOk result (λ reply. IsOutcome (Some (join_outcome (environment_of self.old) a.now b.now in_front)) (environment_of self.new) reply) }
        ensures err { OnErr result (SameNames (environment_of self.new) (environment_of self.old)) }
    {
        let Some(mut cord) = self.exchange(a, PlainCord::empty(self.alloc)) else {
            unreachable!();
        };
        let Some(other) = self.find(b) else {
            unreachable!();
        };
        let reply = join_cords(&mut cord, other, in_front);
        let _ = self.exchange(a, cord);
        reply
    }
}
