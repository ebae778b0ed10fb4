//! Changes of cords that have no record.
ghost use Rattle.std.specs.Prelude.{◌≡◌, ◌+◌, ◌-◌, ◌<◌, ◌≤◌, ◌^◌, ◌⊎◌, [], true, length, is_some, None, IsSome, IfOk, IfErr};
ghost use Rattle.pool_rule.specs.Trades.{SameHolds};
ghost use Rattle.record_rule.specs.Log.{made_of};
ghost use Rattle.cordz_desk.specs.Tokens.{token_of};
ghost use Rattle.cord_value.specs.Workers.{Keeps};
ghost use Rattle.cord_value.specs.declared.refusals.CordError.TheVariants.{Memory};
ghost use Rattle.cord_sampled.specs.Copies.{IsEmptyIf};
ghost use Rattle.cord_sampled.specs.Grown.{is_due, count_of, HasGrown, IsChangeRefused, IsUntouched, IsUnsampled};
ghost use Rattle.cord_sampled.specs.Making.{IsRecorded};
ghost use Rattle.cord_sampled.specs.Tracking.{ended_by};

use crate::alters::Alters;
use crate::cord::SampledCord;
use crate::hand::Hand;
use crate::mark::Mark;
use crate::passes::end_pass;
use crate::sampling::{is_turn, sample_pass};
use crate::sharing::share_tree;
use crate::tracking::track;
use cord_port::Releaser;
use cord_value::{CopyRefused, CordError};
use cordz_desk::DeskNaming;
use node_pool::{Naming, Pass};
use std::alloc::Global;
use std::mem;
use std::sync::Wait;

impl<P: Naming, D: DeskNaming> SampledCord<P, D> {
    ghost use Rattle.cord_sampled.specs.Sampled.{cord_in, ticket_in};

    /// Samples the cord, which has no record, where there is a pass for one.
    fn sample<R: Wait, B: Releaser>(
        &mut self,
        rt: &R,
        hand: &mut Hand<'_, P, D, B>,
        sample: Option<Pass<P>>,
    ) -> Result<Mark, CordError>
        requires room { length hand.old.worker.holds ≤ 96 }
        requires few { made_of (token_of hand.old.pass).own + 2 ≤ 2 ^ 34 }
        requires empty { IsEmptyIf sample }
        requires none { ticket_in self.old ≡ None }
        requires tree { is_some sample ≡ true → IsSome (cord_in self.old).tree }
        ensures kept { cord_in self.new ≡ cord_in self.old }
        ensures recorded { IfOk result (λ mark. IsRecorded (is_some sample) (cord_in self.old).tree (ticket_in self.new) mark
            (token_of hand.old.pass) (token_of hand.new.pass)) }
        ensures worker { IfOk result (λ mark. Keeps P.limit [] 0 (ended_by mark) hand.old.worker hand.new.worker) }
        ensures memory { IfErr result (λ x. (x ≡ Memory) × (is_some sample ≡ true)) }
        ensures undone { IfErr result (λ _. Keeps P.limit [] 0 1 hand.old.worker hand.new.worker) }
        ensures none { IfErr result (λ _. ticket_in self.new ≡ None) }
        ensures token { IfErr result (λ _. token_of hand.new.pass ≡ token_of hand.old.pass) }
        ensures same { (hand.new.stride ≡ hand.old.stride) × (hand.new.made ≡ hand.old.made) }
    {
        let Some(pass) = sample else {
            return Ok(Mark::Plain);
        };
        match share_tree(hand.pool, &mut hand.worker, &mut self.cord, pass) {
            Ok(share) => {
                let (ticket, mark) = track(rt, hand, share);
                match mem::replace(&mut self.ticket, ticket) {
                    None => Ok(mark),
                    Some(_before) => unreachable!(),
                }
            }
            Err(CopyRefused { pass }) => {
                hand.pool.end(&mut hand.worker, pass);
                Err(CordError::Memory)
            }
        }
    }

    /// Does a change on a cord that has no record. An inline cord that becomes a tree is counted, and sampled at its turn.
    pub(crate) fn change_without_record<R: Wait, B: Releaser, S: Alters<P, B, W>, W>(
        &mut self,
        alloc: Global,
        rt: &R,
        hand: &mut Hand<'_, P, D, B>,
        step: &S,
        with: &mut W,
    ) -> Result<Mark, CordError>
        requires room { length hand.old.worker.holds ≤ 96 }
        requires few { made_of (token_of hand.old.pass).own + 2 ≤ 2 ^ 34 }
        requires count { hand.old.made < 2 ^ 64 - 1 }
        requires none { ticket_in self.old ≡ None }
        requires changes { S.changes step.now with.old (cord_in self.old) ≡ true }
        ensures altered { IfOk result (λ _. S.makes step.now with.old (cord_in self.old) (cord_in self.new)) }
        ensures grown { IfOk result (λ mark. HasGrown P.limit (is_due hand.old.stride hand.old.made (S.roots step.now with.old (cord_in self.old)))
            (ticket_in self.new) mark (cord_in self.old) (cord_in self.new) (token_of hand.old.pass) (token_of hand.new.pass) hand.old.worker hand.new.worker) }
        ensures made { IfOk result (λ _. hand.new.made ≡ hand.old.made + count_of (S.roots step.now with.old (cord_in self.old))) }
        ensures refused { IfErr result (λ x. IsChangeRefused P.limit (is_due hand.old.stride hand.old.made (S.roots step.now with.old (cord_in self.old)))
            (S.refuses step.now with.old (cord_in self.old)) x hand.old.worker hand.new.worker) }
        ensures undone { IfErr result (λ x. IsUntouched P.limit x (cord_in self.old) (cord_in self.new) hand.old.worker hand.new.worker
            ⊎ IsUnsampled P.limit (is_due hand.old.stride hand.old.made (S.roots step.now with.old (cord_in self.old))) (S.makes step.now with.old) x
            (cord_in self.old) (cord_in self.new) hand.old.worker hand.new.worker) }
        ensures none { IfErr result (λ _. ticket_in self.new ≡ None) }
        ensures stays { with.new ≡ with.old }
        ensures token { IfErr result (λ _. token_of hand.new.pass ≡ token_of hand.old.pass) }
        ensures unmade { IfErr result (λ _. hand.new.made ≡ hand.old.made) }
        ensures holds { SameHolds hand.old.worker.holds hand.new.worker.holds }
        ensures acted { made_of (token_of hand.new.pass).own ≤ made_of (token_of hand.old.pass).own + 2 }
        ensures stride { hand.new.stride ≡ hand.old.stride }
    {
        let grows = step.grows(&self.cord, with);
        let wanted = grows && is_turn(hand.stride, hand.made);
        let sample = sample_pass(hand.pool, &mut hand.worker, wanted)?;
        match step.apply(alloc, hand.pool, &mut hand.worker, &mut self.cord, with) {
            Ok(()) => match self.sample(rt, hand, sample) {
                Ok(mark) => {
                    if grows {
                        hand.made += 1;
                    }
                    Ok(mark)
                }
                Err(error) => Err(error),
            },
            Err(error) => {
                end_pass(hand.pool, &mut hand.worker, sample);
                Err(error)
            }
        }
    }
}
