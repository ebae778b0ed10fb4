//! A record's share of its cord's tree.
use node_pool::{Edge, Naming, Pass};
use record_rule::Holding;

/// A tree, and the pass that holds it.
#[derive(Drop)]
pub struct Share<P: Naming> {
    pub pass: Pass<P>,
    pub edge: Edge,
}

impl<P: Naming> Holding for Share<P> {
    ghost use Rattle.cordz_desk.specs.Shares.{tree_in, IsShare};

    ghost tree_of = { tree_in };

    ghost fits = { IsShare };
}
