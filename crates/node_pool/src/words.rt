//! Single steps of a worker on the word of a node's number.
ghost use Rattle.std.specs.Prelude.{◌≡◌, ◌≢◌, ◌⊎◌, ℕ, List, ◌+◌, ◌<◌, ◌≤◌, [], ◌∷◌, length};
ghost use Rattle.std.specs.Option.{option_map};
ghost use Rattle.node_forest.specs.Forest.{children};
ghost use Rattle.node_forest.specs.Label.{number, external_slot};
ghost use Rattle.node_forest.specs.Members.{Occurs};
ghost use Rattle.node_forest.specs.declared.kind.Kind.TheVariants.{External};
ghost use Rattle.count_core.specs.Holders.{Fitting};
ghost use Rattle.pool_rule.specs.Plays.{AreOneEach};
ghost use Rattle.pool_rule.specs.Rules.{IsSane};
ghost use Rattle.pool_rule.specs.Trades.{HasHolds, Stands};
ghost use Rattle.pool_rule.specs.Views.{tried, sharing, leaving, homing};
ghost use Rattle.node_pool.specs.Boxes.{box_of, IsCarried};

use crate::naming::{Chosen, Naming};
use crate::outlet::Outlet;
use crate::plays::{Homes, Leaves, Shares, Takes};
use crate::pool::Pool;
use crate::tokens::Worker;
use crate::view::TokenSeat;
use atomic_table::Badge;
use cord_port::Releaser;
use node_edges::{Body, Edge};
use std::mem;

impl<P: Naming, B: Releaser> Pool<P, B> {
    /// The word found. Where it is 0, the number is taken.
    pub(crate) fn take_word<T: Chosen>(&self, w: &mut Worker<P>, edge: &Edge) -> u64
        requires node { edge.now ≡ T.node }
        requires low { number T.node < P.size }
        requires held { HasHolds w.old.holds (children T.node) }
        requires few { length (children T.node) ≤ 6 }
        requires room { length w.old.holds < 256 + length (children T.node) }
        requires slot { T.node.0.kind ≡ External → (later : List ℕ) × (w.old.unused ≡ external_slot T.node.0 ∷ later) }
        ensures tried { w.new ≡ tried result T.node w.old }
        ensures one_each { AreOneEach w.old.holds }
    {
        let mut seat: TokenSeat<B> = mem::replace(&mut w.badge, Badge::blank()).into_seat();
        let found = self
            .table
            .shared
            .compare_exchange::<Takes<T>>(&mut seat, edge.number() as usize, 0, 1);
        w.badge = seat.into_badge();
        if found == 0 {
            w.slots.took(edge);
        }
        found
    }

    /// One direct hold more.
    pub(crate) fn share_word<T: Chosen>(&self, w: &mut Worker<P>, edge: &Edge)
        requires node { edge.now ≡ T.node }
        requires stands { Stands w.old.holds T.node }
        requires room { length w.old.holds < 256 }
        ensures shared { w.new ≡ sharing T.node w.old }
    {
        let mut seat: TokenSeat<B> = mem::replace(&mut w.badge, Badge::blank()).into_seat();
        self.table
            .shared
            .fetch_add::<Shares<T>>(&mut seat, edge.number() as usize, 1);
        w.badge = seat.into_badge();
    }

    /// The word found. Where it is 1, the edges of the node are direct holds.
    pub(crate) fn leave_word<T: Chosen>(&self, w: &mut Worker<P>, edge: &Edge) -> u64
        requires node { edge.now ≡ T.node }
        requires held { HasHolds w.old.holds (T.node ∷ []) }
        requires room { length w.old.holds + length (children T.node) ≤ 257 }
        ensures left { w.new ≡ leaving result T.node w.old }
        ensures gone { result ≡ 1 → Occurs T.node w.new.holds → ⊥ }
        ensures one_each { AreOneEach w.old.holds }
    {
        let mut seat: TokenSeat<B> = mem::replace(&mut w.badge, Badge::blank()).into_seat();
        let found = self
            .table
            .shared
            .fetch_sub::<Leaves<T, P>>(&mut seat, edge.number() as usize, 1);
        let seat = self.settle(seat, found, edge);
        w.badge = seat.into_badge();
        found
    }

    // Where the step was the last of an external, its box is called.
    fn settle(&self, seat: TokenSeat<B>, found: u64, edge: &Edge) -> TokenSeat<B>
        requires table { seat.table_id ≡ P.table }
        requires worker { (0 < P.size) × (0 < seat.me.0.spare) × IsSane seat.me.0.size seat.me.0 × Fitting seat.me.0.size seat.me.0.holds }
        requires plain { (found ≢ 1) ⊎ (edge.now.0.kind ≢ External) → (seat.me.0.away ≡ []) × (seat.me.1 ≡ []) }
        requires last { found ≡ 1 → edge.now.0.kind ≡ External → IsCarried P.boxes (option_map (λ o. box_of o.before o.latest o.length)) edge.now seat.me }
        ensures table { result.table_id ≡ P.table }
        ensures homed { result.me ≡ (homing seat.me.0, []) }
        ensures worker { IsSane result.me.0.size result.me.0 × Fitting result.me.0.size result.me.0.holds }
    {
        if found != 1 {
            return seat;
        }
        match edge.body() {
            Body::External { slot, .. } => self.call_out(seat, edge, *slot as usize),
            _ => seat,
        }
    }

    // Calls the box of an external's slot, which is out with the seat, and gives it back.
    fn call_out(&self, mut seat: TokenSeat<B>, edge: &Edge, slot: usize) -> TokenSeat<B>
        requires table { seat.table_id ≡ P.table }
        requires worker { (0 < P.size) × (0 < seat.me.0.spare) }
        requires slot { slot ≡ external_slot edge.now.0 }
        requires carried { IsCarried P.boxes (option_map (λ o. box_of o.before o.latest o.length)) edge.now seat.me }
        ensures table { result.table_id ≡ P.table }
        ensures homed { result.me ≡ (homing seat.me.0, []) }
        ensures worker { IsSane result.me.0.size result.me.0 × Fitting result.me.0.size result.me.0.holds }
    {
        let shared = &self.table.shared;
        let Some(mut outlet) = shared.exchange(&mut seat, slot, None) else {
            unreachable!()
        };
        outlet.release(edge.length());
        shared.exchange(&mut seat, slot, Some(outlet));
        shared.load::<Homes>(&mut seat, 0);
        seat
    }
}
