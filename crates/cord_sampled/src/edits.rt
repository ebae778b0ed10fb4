//! Changes of a cord.
ghost use Rattle.std.specs.Prelude.{◌≡◌, ◌≤◌};
ghost use Rattle.cord_sampled.specs.Edits.{alters};
ghost use Rattle.cord_sampled.specs.Grown.{is_long, makes_tree};

use crate::alters::Alters;
use cord_port::Releaser;
use cord_value::{Cord, CordError};
use node_pool::{Naming, Pool, Worker};
use std::alloc::Global;

/// What a cord is changed by.
#[derive(Clone, Copy)]
pub enum Edit<'a> {
    AppendBytes(&'a [u8]),
    PrependBytes(&'a [u8]),
    /// The cord's own bytes once more.
    Double,
    CutFront(u64),
    CutBack(u64),
    SetSum(u32),
}

/// Whether the edit adds or takes away bytes, or sets the sum.
pub(crate) fn is_change<P: Naming>(edit: Edit<'_>, cord: &Cord<P>) -> bool
    ensures { result ≡ alters edit.entry cord.now }
{
    match edit {
        Edit::AppendBytes(bytes) => !bytes.is_empty(),
        Edit::PrependBytes(bytes) => !bytes.is_empty(),
        Edit::Double => cord.len() > 0,
        Edit::CutFront(n) => n > 0,
        Edit::CutBack(n) => n > 0,
        Edit::SetSum(_) => true,
    }
}

/// Whether an edit makes a tree of an inline cord of so many bytes.
fn makes_tree(edit: Edit<'_>, size: u64) -> bool
    requires { size ≤ 2147483647 }
    ensures { result ≡ makes_tree edit.entry size }
{
    match edit {
        Edit::AppendBytes(bytes) => is_long(size + bytes.len() as u64),
        Edit::PrependBytes(bytes) => is_long(size + bytes.len() as u64),
        Edit::Double => is_long(size + size),
        Edit::CutFront(_) => false,
        Edit::CutBack(_) => false,
        Edit::SetSum(_) => true,
    }
}

/// Whether a cord of so many bytes has a tree for its length, and is none too long.
pub(crate) fn is_long(size: u64) -> bool
    ensures { result ≡ is_long size }
{
    size > 15 && size < 2_147_483_648
}

impl<'a, P: Naming, B: Releaser> Alters<P, B, ()> for Edit<'a> {
    ghost use Rattle.cord_sampled.specs.Edits.{IsEdited, IsEditRefused};
    ghost use Rattle.cord_sampled.specs.Grown.{grows};
    ghost use Rattle.cord_sampled.specs.Within.{edit-within, edit-memory};

    ghost changes = { λ edit with c. alters edit c };

    ghost roots = { λ edit with c. grows edit c };

    ghost makes = { λ edit with old new. IsEdited edit old new };

    ghost refuses = { λ edit with old x v w. IsEditRefused P.size P.limit edit old x v w };

    fn grows(&self, cord: &Cord<P>, _with: &()) -> bool {
        !cord.is_tree() && makes_tree(*self, cord.len())
    }

    fn apply(
        &self,
        alloc: Global,
        pool: &Pool<P, B>,
        w: &mut Worker<P>,
        cord: &mut Cord<P>,
        _with: &mut (),
    ) -> Result<(), CordError> {
        match *self {
            Edit::AppendBytes(bytes) => cord.append_bytes(alloc, pool, w, bytes),
            Edit::PrependBytes(bytes) => cord.prepend_bytes(alloc, pool, w, bytes),
            Edit::Double => cord.double(alloc, pool, w),
            Edit::CutFront(n) => cord.cut_front(alloc, pool, w, n),
            Edit::CutBack(n) => cord.cut_back(alloc, pool, w, n),
            Edit::SetSum(value) => cord.set_sum(alloc, pool, w, value),
        }
    }

    ghost within = { λ edit with xs ys i j k l u v w z before after c x r.
        edit-within P.size P.limit xs ys i j k l u v w z before after edit c x r };

    ghost lacks = { λ edit with old new v w yes made. edit-memory P.size P.limit edit old new v w yes made };
}
