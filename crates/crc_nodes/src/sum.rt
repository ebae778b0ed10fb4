//! Sums over trees, and what stands below them.
ghost use Rattle.std.specs.Prelude.{◌≡◌, ◌<◌, ◌≤◌, [], ◌∷◌, length, IfOk, IfErr, OnErr, IfSome, option_map, option_to_list};
ghost use Rattle.node_forest.specs.declared.kind.Kind.TheVariants.{Sum};
ghost use Rattle.tree_shapes.specs.Shape.{IsTree};
ghost use Rattle.tree_shapes.specs.Sums.{sum_over};
ghost use Rattle.node_edges.specs.Roots.{below_sum, text_of};
ghost use Rattle.node_edges.specs.Text.{text};
ghost use Rattle.node_edges.specs.Trees.{shape_of, IsFilled, IsWellFormed};
ghost use Rattle.pool_rule.specs.Gains.{no_gain, Gained};
ghost use Rattle.pool_rule.specs.Trades.{HasHolds, SameHolds, Stands, Trades};
ghost use Rattle.node_pool.specs.Answers.{IsTaken};
ghost use Rattle.node_pool.specs.Refusals.{IsCause, IsNoted, IsOfNoHeight};
ghost use Rattle.crc_nodes.specs.Sums.{seen, sum_node};

use cord_port::Releaser;
use node_pool::{Body, Edge, Memory, Naming, NodeError, Pool, Worker};
use std::alloc::Global;

/// A Sum over a tree, or over nothing (`cord_rep_crc.h`, `CordRepCrc::New`). It takes one number, and the tree's hold is used up.
pub fn with_sum<P: Naming, B: Releaser>(
    alloc: Global,
    pool: &Pool<P, B>,
    w: &mut Worker<P>,
    child: Option<&Edge>,
    value: u32,
) -> Result<Edge, NodeError>
    requires held { HasHolds w.old.holds (option_to_list (seen child)) }
    requires tree { IfSome (seen child) (λ c. IsTree (shape_of c) × IsFilled c) }
    requires room { length w.old.holds ≤ 192 }
    ensures node { IfOk result (λ e. e ≡ sum_node e.0.number value (seen child.entry)) }
    ensures text { IfOk result (λ e. text e ≡ text_of (seen child.entry)) }
    ensures formed { IfOk result (λ e. IsWellFormed e) }
    ensures shape { IfOk result (λ e. shape_of e ≡ sum_over value (option_map shape_of (seen child.entry))) }
    ensures taken { IfOk result (λ e. IsTaken P.size w.old w.new e) }
    ensures traded { IfOk result (λ e. Trades w.old.holds (option_to_list (seen child.entry)) (e ∷ []) w.new.holds) }
    ensures cause { IfErr result (λ x. IsCause P.size x w.old w.new) }
    ensures height { IfErr result (λ x. IsOfNoHeight x) }
    ensures noted { IfErr result (λ x. IsNoted x w.old w.new) }
    ensures same { IfErr result (λ _. SameHolds w.old.holds w.new.holds) }
{
    let tree = copy_of(child)?;
    let edge = pool.take(alloc, w, Body::Sum { value, child: tree })?;
    Ok(edge)
}

/// The same edge once more, if there is one.
fn copy_of(child: Option<&Edge>) -> Result<Option<Edge>, Memory>
    ensures { IfOk result (λ copy. copy ≡ seen child.entry) }
{
    match child {
        Some(child) => Ok(Some(child.again()?)),
        None => Ok(None),
    }
}

/// What stands below a Sum, with a direct hold of its own; nothing, if there is nothing. The Sum stays held.
pub fn open_sum<P: Naming, B: Releaser>(
    pool: &Pool<P, B>,
    w: &mut Worker<P>,
    sum: &Edge,
) -> Result<Option<Edge>, Memory>
    requires sum { sum.now.0.kind ≡ Sum }
    requires stands { Stands w.old.holds sum.now }
    requires room { length w.old.holds < 256 }
    ensures child { IfOk result (λ c. c ≡ below_sum sum.now) }
    ensures traded { IfOk result (λ c. Trades w.old.holds [] (option_to_list c) w.new.holds) }
    ensures gained { IfOk result (λ c. Gained (record no_gain { shares = length (option_to_list c) }) w.old w.new) }
    ensures same { OnErr result (w.new ≡ w.old) }
{
    match sum.body() {
        Body::Sum { child, .. } => match child {
            Some(child) => {
                let opened = child.again()?;
                pool.share(w, child);
                Ok(Some(opened))
            }
            None => Ok(None),
        },
        _ => unreachable!(),
    }
}
