//! The last flat of a tree, filled in place.
ghost use Rattle.std.specs.Prelude.{◌≡◌, ◌++◌, ◌+◌, ◌<◌, ◌≤◌, [], ◌∷◌, length, IfOk, IfErr, OnErr};
ghost use Rattle.node_edges.specs.Text.{text};
ghost use Rattle.node_edges.specs.Trees.{shape_of, IsFilled};
ghost use Rattle.pool_rule.specs.Marks.{IsLonePath};
ghost use Rattle.pool_rule.specs.Trades.{HasHolds, Trades};
ghost use Rattle.pool_rule.specs.Views.{with_holds};
ghost use Rattle.node_pool.specs.declared.refusals.NodeError.TheVariants.{Memory};
ghost use Rattle.tree_shapes.specs.Shape.{IsTree};
ghost use Rattle.flat_nodes.specs.Behind.{path_behind, room_behind, filled_behind, shape_behind};

use cord_port::Releaser;
use node_pool::{Change, Edge, Naming, NodeError, Pool, Worker};
use std::alloc::Global;

/// Adds bytes to the last flat of a tree, which has room for them, by one mark of the lone path to it: each node on the path keeps
/// its number, and the tree all its other edges. Want of memory alone is an answer beside Ok, and then nothing has changed.
pub fn grow_flat<P: Naming, B: Releaser>(
    alloc: Global,
    pool: &Pool<P, B>,
    w: &mut Worker<P>,
    root: &mut Edge,
    path: &[u8],
    bytes: &[u8],
) -> Result<(), NodeError>
    requires held { HasHolds w.old.holds (root.old ∷ []) }
    requires tree { IsTree (shape_of root.old) }
    requires filled { IsFilled root.old }
    requires path { path.now ≡ path_behind root.old }
    requires lone { IsLonePath root.old path.now w.old }
    requires some { 0 < length bytes.now }
    requires fits { length bytes.now ≤ room_behind root.old }
    requires short { root.old.0.length + length bytes.now ≤ 2147483647 }
    requires few { length w.old.holds ≤ 192 }
    ensures node { IfOk result (λ _. root.new ≡ filled_behind root.old bytes.now) }
    ensures shape { IfOk result (λ _. shape_of root.new ≡ shape_behind root.old (length bytes.now)) }
    ensures text { IfOk result (λ _. text root.new ≡ text root.old ++ bytes.now) }
    ensures tree { IfOk result (λ _. IsTree (shape_of root.new)) }
    ensures filled { IfOk result (λ _. IsFilled root.new) }
    ensures traded { IfOk result (λ _. Trades w.old.holds (root.old ∷ []) (root.new ∷ []) w.new.holds) }
    ensures worker { IfOk result (λ _. w.new ≡ with_holds w.old w.new.holds) }
    ensures lone { IfOk result (λ _. IsLonePath root.new path.now w.new) }
    ensures memory { IfErr result (λ x. x ≡ Memory) }
    ensures same { OnErr result (root.new ≡ root.old) }
    ensures worker_if_err { OnErr result (w.new ≡ w.old) }
{
    let Ok(bytes) = Vec::from_slice(alloc, bytes) else {
        return Err(NodeError::Memory);
    };
    let changes = [(path.len() as u8, Change::Fill { bytes })];
    match pool.mark(alloc, w, root, path, &changes) {
        Ok(_) => Ok(()),
        Err(_) => Err(NodeError::Memory),
    }
}
