//! Snapshots, and what is deleted with them.
ghost use Rattle.std.specs.Prelude.{◌≡◌, ◌<◌, ◌≤◌, ◌+◌, ◌^◌, ℕ, [], true, false, length, IfOk, IfErr};
ghost use Rattle.cordz_core.specs.Queue.{has, Apart};
ghost use Rattle.record_rule.specs.Log.{made_of, is_walking};
ghost use Rattle.record_rule.specs.Views.{claim_at};
ghost use Rattle.record_rule.specs.declared.views.Deed.TheVariants.{Free};
ghost use Rattle.cord_value.specs.Workers.{Keeps};
ghost use Rattle.cordz_desk.specs.Tokens.{token_of, HasDeed, IsCleared, IsSameBut};
ghost use Rattle.cord_sampled.specs.Leaving.{shares_in};
ghost use Rattle.record_walks.specs.Ends.{AreFreed, IsEnded, HasEnded, HasLeft};
ghost use Rattle.record_walks.specs.Works.{IsBegun, KnowsAsBefore};

use cord_port::Releaser;
use cord_sampled::{Hand, end_share};
use cordz_desk::{DeskNaming, Share};
use node_pool::Naming;
use std::alloc::AllocError;
use std::sync::Wait;

/// Begins the session's snapshot.
pub fn begin<R: Wait, P: Naming, D: DeskNaming, B: Releaser>(rt: &R, hand: &mut Hand<'_, P, D, B>)
    requires few { made_of (token_of hand.old.pass).own < 2 ^ 34 }
    requires walker { (token_of hand.old.pass).number < 16 }
    requires none { is_walking (token_of hand.old.pass).own ≡ false }
    ensures begun { IsBegun (token_of hand.old.pass) (token_of hand.new.pass) }
    ensures worker { hand.new.worker ≡ hand.old.worker }
    ensures acted { made_of (token_of hand.new.pass).own ≡ made_of (token_of hand.old.pass).own + 1 }
    ensures counts { (hand.new.stride ≡ hand.old.stride) × (hand.new.made ≡ hand.old.made) }
{
    hand.cordz.snapshot(rt, &mut hand.pass);
}

// How many shares there are: one or none.
fn count<P: Naming>(share: &Option<Share<P>>) -> u64
    ensures is { result ≡ shares_in share.now }
    ensures one { result ≤ 1 }
{
    match share {
        Some(_) => 1,
        None => 0,
    }
}

// Frees the slot of a record that was deleted, and leaves its share. How many shares it had: one, or none where it was bare.
fn collect<R: Wait, P: Naming, D: DeskNaming, B: Releaser>(
    rt: &R,
    hand: &mut Hand<'_, P, D, B>,
    slot: u16,
) -> u64
    requires room { length hand.old.worker.holds ≤ 96 }
    requires few { made_of (token_of hand.old.pass).own < 2 ^ 34 }
    requires slot { slot < 256 }
    requires cleared { IsCleared (claim_at (token_of hand.old.pass).claims slot) }
    ensures did { HasDeed (token_of hand.old.pass) (token_of hand.new.pass).own (Free slot) }
    ensures same { IsSameBut slot (token_of hand.old.pass) (token_of hand.new.pass) }
    ensures untracked { (token_of hand.new.pass).untracked ≡ (token_of hand.old.pass).untracked }
    ensures worker { Keeps P.limit [] 0 result hand.old.worker hand.new.worker }
    ensures one { result ≤ 1 }
    ensures counts { (hand.new.stride ≡ hand.old.stride) × (hand.new.made ≡ hand.old.made) }
{
    let share = hand.cordz.collect(rt, &mut hand.pass, slot);
    let shares = count(&share);
    end_share(hand.pool, &mut hand.worker, share);
    shares
}

// Does so for each of these slots. How many shares they had together.
fn collect_all<R: Wait, P: Naming, D: DeskNaming, B: Releaser>(
    rt: &R,
    hand: &mut Hand<'_, P, D, B>,
    gone: &[u16],
) -> u64
    requires room { length hand.old.worker.holds ≤ 96 }
    requires few { made_of (token_of hand.old.pass).own + length gone.now ≤ 2 ^ 34 }
    requires small { (s : ℕ) → has s gone.now ≡ true → s < 256 }
    requires cleared { (s : ℕ) → has s gone.now ≡ true → IsCleared (claim_at (token_of hand.old.pass).claims s) }
    requires once { Apart gone.now }
    ensures freed { AreFreed (token_of hand.old.pass).number gone.now (token_of hand.old.pass).own (token_of hand.new.pass).own }
    ensures knows { KnowsAsBefore (token_of hand.old.pass) (token_of hand.new.pass) }
    ensures worker { Keeps P.limit [] 0 result hand.old.worker hand.new.worker }
    ensures most { result ≤ length gone.now }
    ensures counts { (hand.new.stride ≡ hand.old.stride) × (hand.new.made ≡ hand.old.made) }
{
    let mut shares: u64 = 0;
    for slot in gone {
        shares += collect(rt, hand, *slot);
    }
    shares
}

/// Ends the snapshot, and collects what is deleted with it: how many records that were. Want of memory stands for a record that a failed
/// change left without a share; the others are collected all the same.
pub fn end<R: Wait, P: Naming, D: DeskNaming, B: Releaser>(
    rt: &R,
    hand: &mut Hand<'_, P, D, B>,
) -> Result<u64, AllocError>
    requires room { length hand.old.worker.holds ≤ 96 }
    requires few { made_of (token_of hand.old.pass).own + 257 ≤ 2 ^ 34 }
    requires walking { is_walking (token_of hand.old.pass).own ≡ true }
    ensures ended { IfOk result (λ deleted. IsEnded deleted (token_of hand.old.pass) (token_of hand.new.pass)) }
    ensures worker { IfOk result (λ deleted. Keeps P.limit [] 0 deleted hand.old.worker hand.new.worker) }
    ensures bare_ended { IfErr result (λ _. HasEnded (token_of hand.old.pass) (token_of hand.new.pass)) }
    ensures bare_worker { IfErr result (λ _. HasLeft P.limit hand.old.worker hand.new.worker) }
    ensures acted { made_of (token_of hand.new.pass).own ≤ made_of (token_of hand.old.pass).own + 257 }
    ensures counts { (hand.new.stride ≡ hand.old.stride) × (hand.new.made ≡ hand.old.made) }
{
    let gone = hand.cordz.end_snapshot(rt, &mut hand.pass);
    let shares = collect_all(rt, hand, gone.as_slice());
    if shares < gone.len() as u64 {
        return Err(AllocError);
    }
    Ok(shares)
}
