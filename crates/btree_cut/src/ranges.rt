//! Ranges of trees.
ghost use Rattle.std.specs.Prelude.{◌≡◌, ◌+◌, ◌-◌, ◌<◌, ◌≤◌, [], ◌∷◌, length, take, drop, false, IfOk, IfErr};
ghost use Rattle.tree_shapes.specs.Keep.{kept, kept_in_front};
ghost use Rattle.tree_shapes.specs.Shape.{IsTree};
ghost use Rattle.node_edges.specs.Text.{text};
ghost use Rattle.node_edges.specs.Trees.{shape_of, IsFilled};
ghost use Rattle.pool_rule.specs.Trades.{HasHolds, Stands};
ghost use Rattle.btree_node.specs.Adding.{data_edges};
ghost use Rattle.btree_node.specs.Made.{IsMadeFrom, IsRefusedFrom};
ghost use Rattle.btree_cut.specs.Ranges.{ranges, ArePieces};
ghost use Rattle.btree_cut.specs.Cutting.{kept_within, HoldsWhole};

use crate::cutting::cut;
use crate::lowest::lowest;
use btree_node::level_of;
use cord_port::Releaser;
use node_pool::{Edge, Naming, NodeError, Pool, Worker};
use std::alloc::Global;

/// `n` bytes of the tree from a start on, both in bytes (`cord_rep_btree.cc`, `SubTree`). Each node that the range holds whole is shared,
/// and the nodes on the ways to its two ends are made anew; a root that would have one edge is dropped for it. All of the tree is the
/// tree itself. The root's holds stay, and one of the result is added. After a refusal the worker's holds are as before.
pub fn sub_tree<P: Naming, B: Releaser>(
    alloc: Global,
    pool: &Pool<P, B>,
    w: &mut Worker<P>,
    root: &Edge,
    start: u64,
    n: u64,
) -> Result<Edge, NodeError>
    requires stands { Stands w.old.holds root.now }
    requires tree { IsTree (shape_of root.now) }
    requires filled { IsFilled root.now }
    requires some { 0 < n }
    requires within { start + n ≤ root.now.0.length }
    requires short { n ≤ 2147483647 }
    requires room { length w.old.holds ≤ 128 }
    ensures shape { IfOk result (λ e. shape_of e ≡ kept (shape_of root.now) start n) }
    ensures tree { IfOk result (λ e. IsTree (shape_of e)) }
    ensures filled { IfOk result IsFilled }
    ensures length { IfOk result (λ e. e.0.length ≡ n) }
    ensures text { IfOk result (λ e. text e ≡ take n (drop start (text root.now))) }
    ensures shared { IfOk result (λ e. ArePieces (ranges (data_edges root.now) start n) (data_edges e)) }
    ensures whole { IfOk result (HoldsWhole root.now start n) }
    ensures made { IfOk result (IsMadeFrom [] (kept_within root.now start n) w.old w.new) }
    ensures few { IfOk result (λ _. length w.new.taken ≤ length w.old.taken + 25) }
    ensures refused { IfErr result (λ x. IsRefusedFrom P.size [] x w.old w.new) }
{
    let (node, level, from) = lowest(root, level_of(root), start, n);
    cut(alloc, pool, w, node, level, from, n)
}

/// The same, where the root's hold becomes one of the new root. After a refusal the root stays, too.
fn keep_range<P: Naming, B: Releaser>(
    alloc: Global,
    pool: &Pool<P, B>,
    w: &mut Worker<P>,
    root: &mut Edge,
    start: u64,
    n: u64,
) -> Result<(), NodeError>
    requires held { HasHolds w.old.holds (root.old ∷ []) }
    requires tree { IsTree (shape_of root.old) }
    requires filled { IsFilled root.old }
    requires some { 0 < n }
    requires within { start + n ≤ root.old.0.length }
    requires short { n ≤ 2147483647 }
    requires room { length w.old.holds ≤ 128 }
    ensures shape { IfOk result (λ _. shape_of root.new ≡ kept (shape_of root.old) start n) }
    ensures tree { IfOk result (λ _. IsTree (shape_of root.new)) }
    ensures filled { IfOk result (λ _. IsFilled root.new) }
    ensures length { IfOk result (λ _. root.new.0.length ≡ n) }
    ensures text { IfOk result (λ _. text root.new ≡ take n (drop start (text root.old))) }
    ensures shared { IfOk result (λ _. ArePieces (ranges (data_edges root.old) start n) (data_edges root.new)) }
    ensures whole { IfOk result (λ _. HoldsWhole root.old start n root.new) }
    ensures made { IfOk result (λ _. IsMadeFrom (root.old ∷ []) (kept_within root.old start n) w.old w.new root.new) }
    ensures few { IfOk result (λ _. length w.new.taken ≤ length w.old.taken + 25) }
    ensures refused { IfErr result (λ x. IsRefusedFrom P.size [] x w.old w.new) }
    ensures stays { IfErr result (λ _. root.new ≡ root.old) }
{
    match sub_tree(alloc, pool, w, root, start, n) {
        Ok(made) => {
            pool.finish(w, root);
            *root = made;
            Ok(())
        }
        Err(error) => Err(error),
    }
}

/// Takes `n` bytes off the tree's front; at least one is left. Nodes are shared and made anew as by `sub_tree`. The root's hold becomes one
/// of the new root. After a refusal the worker's holds and the root are as before.
pub fn cut_front<P: Naming, B: Releaser>(
    alloc: Global,
    pool: &Pool<P, B>,
    w: &mut Worker<P>,
    root: &mut Edge,
    n: u64,
) -> Result<(), NodeError>
    requires held { HasHolds w.old.holds (root.old ∷ []) }
    requires tree { IsTree (shape_of root.old) }
    requires filled { IsFilled root.old }
    requires less { n < root.old.0.length }
    requires short { root.old.0.length ≤ 2147483647 }
    requires room { length w.old.holds ≤ 128 }
    ensures shape { IfOk result (λ _. shape_of root.new ≡ kept (shape_of root.old) n (root.old.0.length - n)) }
    ensures tree { IfOk result (λ _. IsTree (shape_of root.new)) }
    ensures filled { IfOk result (λ _. IsFilled root.new) }
    ensures length { IfOk result (λ _. root.new.0.length ≡ root.old.0.length - n) }
    ensures text { IfOk result (λ _. text root.new ≡ drop n (text root.old)) }
    ensures shared { IfOk result (λ _. ArePieces (ranges (data_edges root.old) n (root.old.0.length - n)) (data_edges root.new)) }
    ensures whole { IfOk result (λ _. HoldsWhole root.old n (root.old.0.length - n) root.new) }
    ensures made { IfOk result (λ _. IsMadeFrom (root.old ∷ []) (kept_within root.old n (root.old.0.length - n)) w.old w.new root.new) }
    ensures few { IfOk result (λ _. length w.new.taken ≤ length w.old.taken + 25) }
    ensures refused { IfErr result (λ x. IsRefusedFrom P.size [] x w.old w.new) }
    ensures stays { IfErr result (λ _. root.new ≡ root.old) }
{
    let left = root.length() - n;
    keep_range(alloc, pool, w, root, n, left)
}

/// Takes `n` bytes off the tree's back; at least one is left. Nodes are shared and made anew as by `sub_tree`. The root's hold becomes one
/// of the new root. After a refusal the worker's holds and the root are as before.
pub fn cut_back<P: Naming, B: Releaser>(
    alloc: Global,
    pool: &Pool<P, B>,
    w: &mut Worker<P>,
    root: &mut Edge,
    n: u64,
) -> Result<(), NodeError>
    requires held { HasHolds w.old.holds (root.old ∷ []) }
    requires tree { IsTree (shape_of root.old) }
    requires filled { IsFilled root.old }
    requires less { n < root.old.0.length }
    requires short { root.old.0.length ≤ 2147483647 }
    requires room { length w.old.holds ≤ 128 }
    ensures shape { IfOk result (λ _. shape_of root.new ≡ kept_in_front false (shape_of root.old) (root.old.0.length - n)) }
    ensures tree { IfOk result (λ _. IsTree (shape_of root.new)) }
    ensures filled { IfOk result (λ _. IsFilled root.new) }
    ensures length { IfOk result (λ _. root.new.0.length ≡ root.old.0.length - n) }
    ensures text { IfOk result (λ _. text root.new ≡ take (root.old.0.length - n) (text root.old)) }
    ensures shared { IfOk result (λ _. ArePieces (ranges (data_edges root.old) 0 (root.old.0.length - n)) (data_edges root.new)) }
    ensures whole { IfOk result (λ _. HoldsWhole root.old 0 (root.old.0.length - n) root.new) }
    ensures made { IfOk result (λ _. IsMadeFrom (root.old ∷ []) (kept_within root.old 0 (root.old.0.length - n)) w.old w.new root.new) }
    ensures few { IfOk result (λ _. length w.new.taken ≤ length w.old.taken + 25) }
    ensures refused { IfErr result (λ x. IsRefusedFrom P.size [] x w.old w.new) }
    ensures stays { IfErr result (λ _. root.new ≡ root.old) }
{
    let left = root.length() - n;
    keep_range(alloc, pool, w, root, 0, left)
}
