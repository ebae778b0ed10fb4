//! Sampled cords that are joined.
ghost use Rattle.std.specs.Prelude.{◌≡◌, ◌&&◌, ◌+◌, ◌-◌, ◌<◌, ◌≤◌, ◌^◌, true, false, length, Ok, IfOk, IfErr};
ghost use Rattle.pool_rule.specs.Trades.{SameHolds};
ghost use Rattle.record_rule.specs.Log.{made_of};
ghost use Rattle.cordz_desk.specs.Tokens.{token_of};
ghost use Rattle.cord_sampled.specs.declared.mark.Mark.TheVariants.{Plain};
ghost use Rattle.cord_sampled.specs.Changes.{IsMarked, IsNotDone};
ghost use Rattle.cord_sampled.specs.Grown.{is_due, count_of, IsChangeRefused};
ghost use Rattle.cord_sampled.specs.Joins.{has_bytes, joins_to_tree, IsJoined, IsJoinRefused};
ghost use Rattle.cord_sampled.specs.Showing.{IsSameRecord};

use crate::alters::Alters;
use crate::cord::SampledCord;
use crate::edits::is_long;
use crate::hand::Hand;
use crate::mark::Mark;
use cord_port::Releaser;
use cord_value::{Cord, CordError};
use cordz_desk::DeskNaming;
use node_pool::{Naming, Pool, Side, Worker};
use std::alloc::Global;
use std::sync::Wait;

/// At which side the bytes of another cord are added.
#[derive(Drop)]
pub(crate) struct Beside {
    side: Side,
}

impl<P: Naming, B: Releaser> Alters<P, B, Cord<P>> for Beside {
    ghost use Rattle.cord_sampled.specs.Within.{join-within, join-memory};

    ghost changes = { λ s other c. has_bytes other };

    ghost roots = { λ s other c. joins_to_tree other c };

    ghost makes = { λ s other old new. IsJoined s.side other old new };

    ghost refuses = { λ s other old x v w. IsJoinRefused P.size P.limit s.side other old x v w };

    fn grows(&self, cord: &Cord<P>, other: &Cord<P>) -> bool {
        !cord.is_tree() && is_long(cord.len() + other.len())
    }

    fn apply(
        &self,
        alloc: Global,
        pool: &Pool<P, B>,
        w: &mut Worker<P>,
        cord: &mut Cord<P>,
        other: &mut Cord<P>,
    ) -> Result<(), CordError> {
        match self.side {
            Side::Front => cord.prepend_cord(alloc, pool, w, other),
            Side::Back => cord.append_cord(alloc, pool, w, other),
        }
    }

    ghost within = { λ s other xs ys i j k l u v w z before after c x r.
        join-within P.size P.limit xs ys i j k l u v w z before after s.side other c x r };

    ghost lacks = { λ s other old new v w yes made. join-memory P.size P.limit s.side other old v w yes };
}

impl<P: Naming, D: DeskNaming> SampledCord<P, D> {
    ghost use Rattle.cord_sampled.specs.Sampled.{cord_in, ticket_in};

    /// Adds the other cord's bytes at a side of this cord's, by the rules of a change; the other cord stays.
    pub fn join<R: Wait, B: Releaser>(
        &mut self,
        alloc: Global,
        rt: &R,
        hand: &mut Hand<'_, P, D, B>,
        other: &mut SampledCord<P, D>,
        side: Side,
    ) -> Result<Mark, CordError>
        requires room { length hand.old.worker.holds ≤ 96 }
        requires few { made_of (token_of hand.old.pass).own + 3 ≤ 2 ^ 34 }
        requires count { hand.old.made < 2 ^ 64 - 1 }
        ensures kept { cord_in other.new ≡ cord_in other.old }
        ensures record { IsSameRecord (ticket_in other.old) (ticket_in other.new) }
        ensures none { has_bytes (cord_in other.old) ≡ false → (result ≡ Ok Plain) × (cord_in self.new ≡ cord_in self.old)
            × IsSameRecord (ticket_in self.old) (ticket_in self.new) × (hand.new ≡ hand.old) }
        ensures joined { has_bytes (cord_in other.old) ≡ true → IfOk result (λ _. IsJoined side (cord_in other.old) (cord_in self.old) (cord_in self.new)) }
        ensures changed { has_bytes (cord_in other.old) ≡ true → IfOk result (λ mark. IsMarked P.limit
            (is_due hand.old.stride hand.old.made (joins_to_tree (cord_in other.old) (cord_in self.old))) (ticket_in self.old) (ticket_in self.new) mark
            (cord_in self.old) (cord_in self.new) (token_of hand.old.pass) (token_of hand.new.pass) hand.old.worker hand.new.worker) }
        ensures refused { IfErr result (λ x. IsChangeRefused P.limit
            (is_due hand.old.stride hand.old.made (joins_to_tree (cord_in other.old) (cord_in self.old)))
            (IsJoinRefused P.size P.limit side (cord_in other.old) (cord_in self.old)) x hand.old.worker hand.new.worker) }
        ensures undone { IfErr result (λ x. IsNotDone P.limit
            (is_due hand.old.stride hand.old.made (joins_to_tree (cord_in other.old) (cord_in self.old))) (ticket_in self.old) (ticket_in self.new)
            (IsJoined side (cord_in other.old)) x (cord_in self.old) (cord_in self.new) hand.old.worker hand.new.worker) }
        ensures token { IfErr result (λ _. token_of hand.new.pass ≡ token_of hand.old.pass) }
        ensures made { IfOk result (λ _. hand.new.made
            ≡ hand.old.made + count_of (has_bytes (cord_in other.old) && joins_to_tree (cord_in other.old) (cord_in self.old))) }
        ensures unmade { IfErr result (λ _. hand.new.made ≡ hand.old.made) }
        ensures holds { SameHolds hand.old.worker.holds hand.new.worker.holds }
        ensures acted { made_of (token_of hand.new.pass).own ≤ made_of (token_of hand.old.pass).own + 3 }
        ensures stride { hand.new.stride ≡ hand.old.stride }
    {
        if other.cord.len() == 0 {
            return Ok(Mark::Plain);
        }
        let step = Beside { side };
        if self.ticket.is_some() {
            self.change_with_record(alloc, rt, hand, &step, &mut other.cord)
        } else {
            self.change_without_record(alloc, rt, hand, &step, &mut other.cord)
        }
    }
}
