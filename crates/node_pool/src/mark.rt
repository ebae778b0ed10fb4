//! Edges that are changed in place along a lone path.
ghost use Rattle.std.specs.Prelude.{◌≡◌, ℕ, ◌+◌, ◌≤◌, List, [], ◌∷◌, ◌++◌, length, OnOk, OnErr, IfOk};
ghost use Rattle.node_forest.specs.Label.{Node, number};
ghost use Rattle.node_forest.specs.Paths.{Leads, NeverDeeper, numbers_on};
ghost use Rattle.node_forest.specs.Changes.{site};
ghost use Rattle.node_edges.specs.declared.change.Change.{Change};
ghost use Rattle.node_edges.specs.Changes.{FitEach};
ghost use Rattle.pool_rule.specs.Trades.{HasHolds, Trades};
ghost use Rattle.pool_rule.specs.Views.{with_holds};
ghost use Rattle.pool_rule.specs.Marks.{marking, IsLonePath};
ghost use Rattle.pool_rule.specs.EdgeMarks.{core_changes, HoldsNew, all_new, changed_root};
ghost use Rattle.node_pool.specs.Edits.{CanMark};

use crate::naming::Naming;
use crate::outlet::Outlet;
use crate::pool::Pool;
use crate::tokens::Worker;
use crate::view::{TokenSeat, TokenView};
use atomic_table::{Badge, Play};
use cord_port::Releaser;
use node_edges::{Change, Edge, Memory};
use std::alloc::Global;
use std::marker::{Brand, PhantomData};
use std::mem;

/// Which root a mark changes, and how. A word's step carries its number alone, so the call that makes it picks the rest.
pub trait Changed {
    ghost root: { Node };

    ghost path: { List ℕ };

    ghost changes: { List (ℕ × Change) };
}

impl Changed for Brand {
    ghost use Rattle.std.specs.Prelude.{[]};
    ghost use Rattle.node_forest.specs.Forest.{empty};
    ghost use Rattle.node_forest.specs.declared.kind.Kind.TheVariants.{Flat};

    ghost root = { (record { number = 0; kind = Flat; length = 0; bytes = []; more = 0 }, empty) };

    ghost path = { [] };

    ghost changes = { [] };
}

/// The play of a change in place: the root's word is loaded, and the editor's view changes.
pub struct Marks<T> {
    of: PhantomData<T>,
}

impl<S, T: Changed> Play<S, TokenView> for Marks<T> {
    ghost use Rattle.pool_rule.specs.EdgeMarks.{edge_changed};

    ghost then = { edge_changed T.root T.path T.changes };
}

impl<P: Naming, B: Releaser> Pool<P, B> {
    /// Does all changes of a list, each at its depth of the path, in their order, in place and as one step. The path begins at a
    /// direct hold, and the number of each node on it is lone. An edge that comes is a direct hold before, or one that an earlier
    /// change of the list removed. Edges that go are direct holds then, but for those that came again later; the answer lists
    /// all of them in the order of their removal. After want of memory nothing has changed.
    pub fn mark(
        &self,
        alloc: Global,
        w: &mut Worker<P>,
        root: &mut Edge,
        path: &[u8],
        changes: &[(u8, Change)],
    ) -> Result<Vec<Edge>, Memory>
        requires held { HasHolds w.old.holds (root.old ∷ []) }
        requires new { HoldsNew (root.old ∷ []) changes.now (site root.old path.now []) w.old.holds }
        requires lone { IsLonePath root.old path.now w.old }
        requires leads { Leads root.old path.now }
        requires few { length changes.now ≤ 26 }
        requires order { NeverDeeper (length path.now) changes.now }
        requires fit { FitEach changes.now (site root.old path.now []) }
        requires room { length w.old.holds + length (changed_root root.old path.now changes.now).out ≤ 256 + length (all_new changes.now) }
        ensures changed { OnOk result (root.new ≡ (changed_root root.old path.now changes.now).tree) }
        ensures removed { IfOk result (λ out. out.items ≡ (changed_root root.old path.now changes.now).out) }
        ensures traded { IfOk result (λ out. Trades w.old.holds (root.old ∷ all_new changes.now) (out.items ++ root.new ∷ []) w.new.holds) }
        ensures marked { OnOk result (w.new ≡ marking root.old path.now (core_changes changes.now (site root.old path.now [])) w.old) }
        ensures kept { OnOk result (w.new ≡ with_holds w.old w.new.holds) }
        ensures numbers { OnOk result (numbers_on root.new (changed_root root.old path.now changes.now).path ≡ numbers_on root.old path.now) }
        ensures lone { OnOk result (IsLonePath root.new (changed_root root.old path.now changes.now).path w.new) }
        ensures tree_if_err { OnErr result (root.new ≡ root.old) }
        ensures worker_if_err { OnErr result (w.new ≡ w.old) }
    {
        self.mark_root::<Brand>(alloc, w, root, path, changes)
    }

    /// The same for a root, a path and changes that are named.
    fn mark_root<T: Changed>(
        &self,
        alloc: Global,
        w: &mut Worker<P>,
        root: &mut Edge,
        path: &[u8],
        changes: &[(u8, Change)],
    ) -> Result<Vec<Edge>, Memory>
        requires root { root.old ≡ T.root }
        requires path { path.now ≡ T.path }
        requires changes { changes.now ≡ T.changes }
        requires few { length changes.now ≤ 26 }
        requires fits { CanMark T.root T.path T.changes w.old }
        requires lone { IsLonePath T.root T.path w.old }
        ensures changed { OnOk result (root.new ≡ (changed_root T.root T.path T.changes).tree) }
        ensures removed { IfOk result (λ out. out.items ≡ (changed_root T.root T.path T.changes).out) }
        ensures traded { OnOk result
            (Trades w.old.holds (T.root ∷ all_new T.changes)
            ((changed_root T.root T.path T.changes).out ++ (changed_root T.root T.path T.changes).tree ∷ []) w.new.holds) }
        ensures marked { OnOk result (w.new ≡ marking T.root T.path (core_changes T.changes (site T.root T.path [])) w.old) }
        ensures tree_if_err { OnErr result (root.new ≡ root.old) }
        ensures worker_if_err { OnErr result (w.new ≡ w.old) }
    {
        let removed = root.edit(alloc, path, changes)?;
        self.mark_word::<T>(w, root);
        Ok(removed)
    }

    /// One load of the root's word, with which the tree changes.
    fn mark_word<T: Changed>(&self, w: &mut Worker<P>, edge: &Edge)
        requires number { number edge.now ≡ number T.root }
        requires fits { CanMark T.root T.path T.changes w.old }
        requires lone { IsLonePath T.root T.path w.old }
        ensures marked { w.new ≡ marking T.root T.path (core_changes T.changes (site T.root T.path [])) w.old }
        ensures traded { Trades w.old.holds (T.root ∷ all_new T.changes)
            ((changed_root T.root T.path T.changes).out ++ (changed_root T.root T.path T.changes).tree ∷ []) w.new.holds }
    {
        let mut seat: TokenSeat<B> = mem::replace(&mut w.badge, Badge::blank()).into_seat();
        self.table
            .shared
            .load::<Marks<T>>(&mut seat, edge.number() as usize);
        w.badge = seat.into_badge();
    }
}
