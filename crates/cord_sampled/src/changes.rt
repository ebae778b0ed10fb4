//! Changes of sampled cords.
ghost use Rattle.std.specs.Prelude.{◌≡◌, ◌&&◌, ◌+◌, ◌-◌, ◌<◌, ◌≤◌, ◌^◌, true, false, length, Ok, IsSome, IfOk, IfErr, MatchOption, IsSomeAnd};
ghost use Rattle.std.specs.Bool.{⊤};
ghost use Rattle.pool_rule.specs.Trades.{SameHolds};
ghost use Rattle.record_rule.specs.Log.{made_of};
ghost use Rattle.cordz_desk.specs.Tokens.{token_of};
ghost use Rattle.cord_sampled.specs.declared.mark.Mark.TheVariants.{Plain};
ghost use Rattle.cord_sampled.specs.Changes.{HasChanged, IsMarked, IsNotDone};
ghost use Rattle.cord_sampled.specs.Changing.{IsUndone};
ghost use Rattle.cord_sampled.specs.Edits.{alters, IsEdited, IsEditRefused};
ghost use Rattle.cord_sampled.specs.Grown.{is_due, grows, count_of, IsChangeRefused};
ghost use Rattle.cord_sampled.specs.Showing.{IsSameRecord};

use crate::alters::Alters;
use crate::changing::change_recorded;
use crate::cord::SampledCord;
use crate::edits::{Edit, is_change};
use crate::hand::Hand;
use crate::leaving::give_up;
use crate::mark::Mark;
use cord_port::Releaser;
use cord_value::CordError;
use cordz_desk::DeskNaming;
use node_pool::Naming;
use std::alloc::Global;
use std::sync::Wait;

impl<P: Naming, D: DeskNaming> SampledCord<P, D> {
    ghost use Rattle.cord_sampled.specs.Sampled.{cord_in, ticket_in};

    /// Does a change on a cord that has a record. The record of a cord that becomes inline is given up.
    pub(crate) fn change_with_record<R: Wait, B: Releaser, S: Alters<P, B, W>, W>(
        &mut self,
        alloc: Global,
        rt: &R,
        hand: &mut Hand<'_, P, D, B>,
        step: &S,
        with: &mut W,
    ) -> Result<Mark, CordError>
        requires room { length hand.old.worker.holds ≤ 96 }
        requires few { made_of (token_of hand.old.pass).own + 3 ≤ 2 ^ 34 }
        requires record { IsSome (ticket_in self.old) }
        requires changes { S.changes step.now with.old (cord_in self.old) ≡ true }
        ensures altered { IfOk result (λ _. S.makes step.now with.old (cord_in self.old) (cord_in self.new)) }
        ensures changed { IfOk result (λ mark. MatchOption (ticket_in self.old) ⊥ (λ t. HasChanged P.limit t (ticket_in self.new) mark
            (cord_in self.old) (cord_in self.new) (token_of hand.old.pass) (token_of hand.new.pass) hand.old.worker hand.new.worker)) }
        ensures refused { IfErr result (λ x. S.refuses step.now with.old (cord_in self.old) x hand.old.worker hand.new.worker) }
        ensures undone { IfErr result (λ x. MatchOption (ticket_in self.old) ⊥ (λ t. IsSomeAnd (ticket_in self.new)
            (λ u. IsUndone P.limit t u (S.makes step.now with.old) x (cord_in self.old) (cord_in self.new) hand.old.worker hand.new.worker))) }
        ensures stays { with.new ≡ with.old }
        ensures token { IfErr result (λ _. token_of hand.new.pass ≡ token_of hand.old.pass) }
        ensures holds { SameHolds hand.old.worker.holds hand.new.worker.holds }
        ensures acted { made_of (token_of hand.new.pass).own ≤ made_of (token_of hand.old.pass).own + 3 }
        ensures same { (hand.new.stride ≡ hand.old.stride) × (hand.new.made ≡ hand.old.made) }
    {
        let Some(ticket) = &mut self.ticket else {
            unreachable!()
        };
        match change_recorded(alloc, rt, hand, &mut self.cord, ticket, step, with) {
            Ok(mark) => {
                if self.cord.is_tree() {
                    return Ok(mark);
                }
                let Some(ticket) = self.ticket.take() else {
                    unreachable!()
                };
                Ok(give_up(rt, hand, ticket))
            }
            Err(error) => Err(error),
        }
    }

    /// Does a change, which a record tells then. What adds and takes away nothing is none. A cord that becomes inline loses its record; an
    /// inline cord that becomes a tree is counted, and sampled at its turn.
    pub fn change<R: Wait, B: Releaser>(
        &mut self,
        alloc: Global,
        rt: &R,
        hand: &mut Hand<'_, P, D, B>,
        edit: Edit<'_>,
    ) -> Result<Mark, CordError>
        requires room { length hand.old.worker.holds ≤ 96 }
        requires few { made_of (token_of hand.old.pass).own + 3 ≤ 2 ^ 34 }
        requires count { hand.old.made < 2 ^ 64 - 1 }
        ensures none { alters edit.entry (cord_in self.old) ≡ false → (result ≡ Ok Plain) × (cord_in self.new ≡ cord_in self.old)
            × IsSameRecord (ticket_in self.old) (ticket_in self.new) × (hand.new ≡ hand.old) }
        ensures edited { alters edit.entry (cord_in self.old) ≡ true → IfOk result (λ _. IsEdited edit.entry (cord_in self.old) (cord_in self.new)) }
        ensures changed { alters edit.entry (cord_in self.old) ≡ true → IfOk result (λ mark. IsMarked P.limit
            (is_due hand.old.stride hand.old.made (grows edit.entry (cord_in self.old))) (ticket_in self.old) (ticket_in self.new) mark
            (cord_in self.old) (cord_in self.new) (token_of hand.old.pass) (token_of hand.new.pass) hand.old.worker hand.new.worker) }
        ensures refused { IfErr result (λ x. IsChangeRefused P.limit (is_due hand.old.stride hand.old.made (grows edit.entry (cord_in self.old)))
            (IsEditRefused P.size P.limit edit.entry (cord_in self.old)) x hand.old.worker hand.new.worker) }
        ensures undone { IfErr result (λ x. IsNotDone P.limit (is_due hand.old.stride hand.old.made (grows edit.entry (cord_in self.old))) (ticket_in self.old)
            (ticket_in self.new) (IsEdited edit.entry) x (cord_in self.old) (cord_in self.new) hand.old.worker hand.new.worker) }
        ensures token { IfErr result (λ _. token_of hand.new.pass ≡ token_of hand.old.pass) }
        ensures made { IfOk result (λ _. hand.new.made
            ≡ hand.old.made + count_of (alters edit.entry (cord_in self.old) && grows edit.entry (cord_in self.old))) }
        ensures unmade { IfErr result (λ _. hand.new.made ≡ hand.old.made) }
        ensures holds { SameHolds hand.old.worker.holds hand.new.worker.holds }
        ensures acted { made_of (token_of hand.new.pass).own ≤ made_of (token_of hand.old.pass).own + 3 }
        ensures stride { hand.new.stride ≡ hand.old.stride }
    {
        if !is_change(edit, &self.cord) {
            return Ok(Mark::Plain);
        }
        if self.ticket.is_some() {
            self.change_with_record(alloc, rt, hand, &edit, &mut ())
        } else {
            self.change_without_record(alloc, rt, hand, &edit, &mut ())
        }
    }
}
