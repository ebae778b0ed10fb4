//! Changes in place on a copy of a tree and of the direct holds beside it.
ghost use Rattle.std.specs.Prelude.{◌≡◌, ℕ, ◌+◌, ◌-◌, ◌^◌, ◌<◌, ◌≤◌, ◌↔◌, List, [], ◌∷◌, ◌++◌, length, slice_index, slice_set, IsTrue, IfOk, IfSome, OnOk};
ghost use Rattle.std.specs.Prelude.{OnErr, MatchOption};
ghost use Rattle.node_forest.specs.Limits.{length_limit};
ghost use Rattle.node_forest.specs.Label.{Node};
ghost use Rattle.node_forest.specs.Sides.{outgoing, remaining, joined, KeepsChild, path_after};
ghost use Rattle.node_forest.specs.Paths.{AreShort, NeverDeeper, child_of};
ghost use Rattle.node_forest.specs.Changes.{site, total, with_bytes, FitsFlat};
ghost use Rattle.count_core.specs.Marks.{exchange, IsChangedHere, IsChanged, AreChanged, LonePath};
ghost use Rattle.count_core.specs.Terms.{change_of, changes_of};

use crate::change::TreeChange;
use crate::memory::Memory;
use crate::tree::Tree;
use crate::view::View;
use node_forest::{Kind, MOST_EDGES, Side};
use std::alloc::Global;
use std::mem;

/// Lengths on a path that is edited stay below this, so that the sum of a few never passes a word of 64 bits.
const LENGTH_LIMIT: u64 = 1 << 63;

/// Whether no change lies deeper than the one before it, and the first no deeper than this.
pub(crate) fn never_deeper(changes: &[(u8, TreeChange)], deepest: usize) -> bool
    ensures { IsTrue result ↔ NeverDeeper deepest (changes_of changes.now) }
{
    let mut last = deepest;
    for change in changes {
        let depth = change.0 as usize;
        if depth > last {
            return false;
        }
        last = depth;
    }
    true
}

/// The places of a path.
pub(crate) fn places_of(alloc: Global, path: &[u8]) -> Result<Vec<usize>, Memory>
    ensures { IfOk result (λ places. places.items ≡ path.now) }
{
    let mut places = Vec::new(alloc);
    for place in path {
        places.push(*place as usize)?;
    }
    Ok(places)
}

/// Whether the places lead down from the tree, over branches alone but for the end, and the word of each node is 1.
pub(crate) fn is_lone(words: &[u64], tree: &Tree, path: &[u8]) -> bool
    ensures { IsTrue result ↔ LonePath (λ n. slice_index words.now n) tree.now path.now }
{
    if !is_one(words, tree.number) {
        return false;
    }
    let Some((place, rest)) = path.split_first() else {
        return true;
    };
    let place = *place as usize;
    if !is_branch(tree) || place >= tree.children.len() {
        return false;
    }
    is_lone(words, child_at(tree, place), rest)
}

/// Whether the tree is a branch.
fn is_branch(tree: &Tree) -> bool
    ensures { IsTrue result ↔ (tree.now.0.kind ≡ Kind.Branch) }
{
    matches!(tree.kind, Kind::Branch)
}

/// Whether the number's word is 1.
fn is_one(words: &[u64], number: u32) -> bool
    ensures { IsTrue result ↔ (slice_index words.now number ≡ 1) }
{
    (number as usize) < words.len() && words[number as usize] == 1
}

/// The lengths of the trees together, if they are below the limit.
fn total(trees: &[Tree]) -> Option<u64>
    ensures { MatchOption result (length_limit ≤ total trees.now) (λ sum. (sum ≡ total trees.now) × (sum < length_limit)) }
{
    let mut sum = 0u64;
    for tree in trees {
        sum = sum.saturating_add(tree.length);
        if sum >= LENGTH_LIMIT {
            return None;
        }
    }
    Some(sum)
}

/// Whether the nodes of the path below the tree have lengths below the limit.
fn are_short(tree: &Tree, path: &[usize]) -> bool
    ensures { IsTrue result ↔ AreShort tree.now path.now }
{
    let Some((place, rest)) = path.split_first() else {
        return true;
    };
    let child = child_at(tree, *place);
    child.length < LENGTH_LIMIT && are_short(child, rest)
}

/// The child at the place, or the tree itself.
fn child_at(tree: &Tree, place: usize) -> &Tree
    ensures { result.now ≡ child_of tree.now place }
{
    if place >= tree.children.len() {
        return tree;
    }
    &tree.children[place]
}

/// Whether the path's child isn't among the edges that go.
fn keeps_child(side: Side, count: usize, edges: usize, path: &[usize]) -> bool
    ensures { IsTrue result ↔ KeepsChild side count edges path.now }
{
    let Some((place, _)) = path.split_first() else {
        return true;
    };
    match side {
        Side::Front => count <= *place && *place < edges,
        Side::Back => *place < edges.saturating_sub(count),
    }
}

/// The edges of a branch after so many went at the side and these came there, and those that went.
fn exchanged(
    mut old: Vec<Tree>,
    mut new: Vec<Tree>,
    side: Side,
    count: usize,
) -> Result<(Vec<Tree>, Vec<Tree>), Memory>
    requires { count ≤ length old.items }
    ensures { IfOk result (λ lists. (lists.0.items ≡ joined side new.items (remaining side count old.items))
        × (lists.1.items ≡ outgoing side count old.items)) }
{
    match side {
        Side::Front => {
            let mut rest = old.split_off(count)?;
            new.append(&mut rest)?;
            Ok((new, old))
        }
        Side::Back => {
            let at = old.len() - count;
            let out = old.split_off(at)?;
            old.append(&mut new)?;
            Ok((old, out))
        }
    }
}

/// Edges at a side of a branch become direct holds, and direct holds become its edges there. Answers the new place of the
/// path's child, or none where this doesn't fit; the tree and the holds are then of no use.
fn exchange(
    alloc: Global,
    tree: &mut Tree,
    path: &[usize],
    holds: &mut View,
    side: Side,
    count: usize,
    numbers: &[u32],
) -> Result<Option<usize>, Memory>
    ensures { IfOk result (IsChangedHere (exchange side count numbers.now) (site tree.old path.now holds.old)
        (λ p. site tree.new (slice_set path.now 0 p) holds.new)) }
{
    let edges = tree.children.len();
    if !is_branch(tree) || count > edges || !keeps_child(side, count, edges, path) {
        return Ok(None);
    }
    let Some(new) = holds.pull(alloc, numbers)? else {
        return Ok(None);
    };
    let place = new_place(side, count, edges, new.len(), path);
    let old = mem::replace(&mut tree.children, Vec::new(alloc));
    let (kids, out) = exchanged(old, new, side, count)?;
    let Some(length) = total(&kids) else {
        return Ok(None);
    };
    let many = kids.len();
    if many < 1 || many > MOST_EDGES {
        return Ok(None);
    }
    holds.gain(out)?;
    tree.children = kids;
    tree.length = length;
    Ok(Some(place))
}

/// The place of the path's child after so many edges went at the side and so many came.
fn new_place(side: Side, count: usize, edges: usize, new: usize, path: &[usize]) -> usize
    requires keeps { KeepsChild side count edges path.now }
    requires few { edges + new < 2 ^ 64 }
    ensures { slice_set path.now 0 result ≡ path_after side count new path.now }
{
    let Some((place, _)) = path.split_first() else {
        return 0;
    };
    match side {
        Side::Front => *place - count + new,
        Side::Back => *place,
    }
}

/// One change at the node itself, as `exchange`.
fn edit_here(
    alloc: Global,
    tree: &mut Tree,
    path: &[usize],
    holds: &mut View,
    change: &TreeChange,
) -> Result<Option<usize>, Memory>
    ensures { IfOk result (IsChangedHere (change_of change.now) (site tree.old path.now holds.old)
        (λ p. site tree.new (slice_set path.now 0 p) holds.new)) }
{
    match change {
        TreeChange::Length { length } => Ok(resize(tree, path, *length)),
        TreeChange::Add { side, numbers } => exchange(alloc, tree, path, holds, *side, 0, numbers),
        TreeChange::Drop { side, count } => exchange(
            alloc,
            tree,
            path,
            holds,
            *side,
            *count as usize,
            &[],
        ),
        TreeChange::Swap { side, number } => exchange(
            alloc,
            tree,
            path,
            holds,
            *side,
            1,
            &[*number],
        ),
    }
}

/// A flat at the path's end gets a length, as `exchange`.
fn resize(tree: &mut Tree, path: &[usize], length: u64) -> Option<usize>
    ensures { MatchOption result (FitsFlat length tree.old path.now
        → ⊥) (λ place. FitsFlat length tree.old path.now × (tree.new ≡ with_bytes length [] 0 tree.old)) }
{
    if tree.kind != Kind::Flat || length == 0 || length >= LENGTH_LIMIT || !path.is_empty() {
        return None;
    }
    tree.length = length;
    Some(0)
}

/// One change at a depth of the path. Answers the new place of the path's child there, or none where the change doesn't
/// fit; the tree and the holds are then of no use.
fn edit(
    alloc: Global,
    tree: &mut Tree,
    path: &[usize],
    holds: &mut View,
    depth: u8,
    change: &TreeChange,
) -> Result<Option<usize>, Memory>
    ensures { IfOk result (IsChanged (change_of change.now) depth (site tree.old path.now holds.old)
        (λ p. site tree.new (slice_set path.now depth p) holds.new)) }
{
    if depth == 0 {
        if !are_short(tree, path) {
            return Ok(None);
        }
        return edit_here(alloc, tree, path, holds, change);
    }
    let Some((place, rest)) = path.split_first() else {
        return Ok(None);
    };
    if !is_branch(tree) || *place >= tree.children.len() {
        return Ok(None);
    }
    let child = &mut tree.children[*place];
    let Some(new_place) = edit(alloc, child, rest, holds, depth - 1, change)? else {
        return Ok(None);
    };
    let Some(sum) = total(&tree.children) else {
        return Ok(None);
    };
    tree.length = sum;
    Ok(Some(new_place))
}

/// The changes of a list, one after another. Answers the direct holds after them, the tree last, or none where one of
/// them doesn't fit.
pub(crate) fn edits(
    alloc: Global,
    mut tree: Tree,
    mut path: Vec<usize>,
    mut holds: View,
    changes: &[(u8, TreeChange)],
) -> Result<Option<View>, Memory>
    ensures { IfOk result (AreChanged (changes_of changes.now) (site tree path.items holds)) }
{
    for (depth, change) in changes {
        let Some(place) = edit(alloc, &mut tree, &path, &mut holds, *depth, change)? else {
            return Ok(None);
        };
        set_place(&mut path, *depth as usize, place);
    }
    holds.add(tree)?;
    Ok(Some(holds))
}

/// The path's child at a depth has a new place; at the path's end there is none.
fn set_place(path: &mut [usize], depth: usize, place: usize)
    ensures { path.new ≡ slice_set path.old depth place }
{
    if depth < path.len() {
        path[depth] = place;
    }
}
