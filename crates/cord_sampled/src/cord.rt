//! A cord with its record, if it has one.
ghost use Rattle.std.specs.Prelude.{◌≡◌, ◌+◌, ◌≤◌, ◌^◌, length, is_some, None, MatchOption};
ghost use Rattle.std.specs.Bool.{⊤};
ghost use Rattle.pool_rule.specs.Trades.{SameHolds};
ghost use Rattle.record_rule.specs.Log.{made_of};
ghost use Rattle.cordz_desk.specs.Tokens.{token_of};
ghost use Rattle.cord_value.specs.Views.{no_cord, passes_of};
ghost use Rattle.cord_sampled.specs.Records.{HasRecord};
ghost use Rattle.cord_sampled.specs.Props.{props};

use crate::hand::Hand;
use crate::leaving::give_up;
use crate::mark::Mark;
use cord_port::Releaser;
use cord_value::Cord;
use cordz_desk::{DeskNaming, Ticket};
use node_pool::Naming;
use std::sync::Wait;

/// A cord, and the ticket of its record where it is sampled. An inline cord has none. Contracts see both.
#[derive(Drop)]
pub struct SampledCord<P: Naming, D: DeskNaming> {
    pub(crate) cord: Cord<P>,
    pub(crate) ticket: Option<Ticket<P, D>>,
    ghost recorded: { MatchOption ticket ⊤ (HasRecord cord.tree) } by { Prim.hlevel props },
}

impl<P: Naming, D: DeskNaming> SampledCord<P, D> {
    ghost use Rattle.cord_sampled.specs.Sampled.{cord_in, ticket_in};
    ghost use Rattle.cord_sampled.specs.Leaving.{IsLeft, gone_mark};
    ghost use Rattle.cord_sampled.specs.Showing.{IsShown, IsSameRecord};

    /// The empty cord, which has no record.
    pub fn new() -> SampledCord<P, D>
        ensures cord { cord_in result ≡ no_cord }
        ensures none { ticket_in result ≡ None }
    {
        SampledCord {
            cord: Cord::new(),
            ticket: None,
        }
    }

    /// Whether it has a record.
    pub fn is_sampled(&self) -> bool
        ensures { result ≡ is_some (ticket_in self.now) }
    {
        self.ticket.is_some()
    }

    /// The cord without its record, which is one of the cord's tree.
    pub fn cord(&self) -> &Cord<P>
        ensures cord { result.now ≡ cord_in self.now }
        ensures record { MatchOption (ticket_in self.now) ⊤ (HasRecord (cord_in self.now).tree) }
    {
        &self.cord
    }

    /// The cord, which has no record.
    pub fn into_cord(self) -> Cord<P>
        requires none { ticket_in self ≡ None }
        ensures { result ≡ cord_in self }
    {
        let SampledCord { cord, ticket } = self;
        match ticket {
            None => cord,
            Some(_ticket) => unreachable!(),
        }
    }

    /// Gives up the record, if there is one, and releases the cord.
    pub fn release<R: Wait, B: Releaser>(self, rt: &R, hand: &mut Hand<'_, P, D, B>) -> Mark
        requires room { length hand.old.worker.holds ≤ 96 }
        requires few { made_of (token_of hand.old.pass).own + 3 ≤ 2 ^ 34 }
        ensures mark { result ≡ gone_mark (ticket_in self) }
        ensures left { IsLeft P.limit (ticket_in self) (passes_of (cord_in self).tree) (token_of hand.old.pass) (token_of hand.new.pass)
            hand.old.worker hand.new.worker }
        ensures holds { SameHolds hand.old.worker.holds hand.new.worker.holds }
        ensures acted { made_of (token_of hand.new.pass).own ≤ made_of (token_of hand.old.pass).own + 3 }
        ensures same { (hand.new.stride ≡ hand.old.stride) × (hand.new.made ≡ hand.old.made) }
    {
        let SampledCord { cord, ticket } = self;
        let mark = match ticket {
            Some(ticket) => give_up(rt, hand, ticket),
            None => Mark::Plain,
        };
        cord.release(hand.pool, &mut hand.worker);
        mark
    }

    /// Shows the session's pass the record's update, if there is a record: no note of it that the pass read before is newer, and none that it
    /// reads later is older.
    pub fn show<B: Releaser>(&mut self, hand: &mut Hand<'_, P, D, B>)
        ensures shown { IsShown (ticket_in self.old) (token_of hand.old.pass) (token_of hand.new.pass) }
        ensures cord { cord_in self.new ≡ cord_in self.old }
        ensures ticket { IsSameRecord (ticket_in self.old) (ticket_in self.new) }
        ensures worker { hand.new.worker ≡ hand.old.worker }
        ensures same { (hand.new.stride ≡ hand.old.stride) × (hand.new.made ≡ hand.old.made) }
    {
        if let Some(ticket) = &mut self.ticket {
            hand.cordz.show(&mut hand.pass, ticket);
        }
    }
}
