//! What is done to a slot's record at its turn.
ghost use Rattle.std.specs.Prelude.{◌≡◌, Some, None};
ghost use Rattle.record_rule.specs.declared.values.DeskValue.TheVariants.{Record};
ghost use Rattle.record_rule.specs.World.{note_of};
ghost use Rattle.cordz_desk.specs.Reps.{rep_of, IsRep, holding, IsRaised};
ghost use Rattle.cordz_desk.specs.Shares.{tree_in};

use crate::share::Share;
use node_pool::Naming;
use record_rule::{DeskValue, Note, Rep};
use std::mem;

pub(crate) fn take_share<S>(value: &mut DeskValue<S>) -> Option<S>
    requires rep { IsRep value.old }
    ensures share { result ≡ (rep_of value.old).hold }
    ensures rest { value.new ≡ Record (holding None (rep_of value.old)) }
{
    let DeskValue::Record(rep) = value else {
        unreachable!()
    };
    take_from(rep)
}

fn take_from<S>(rep: &mut Rep<S>) -> Option<S>
    ensures share { result ≡ rep.old.hold }
    ensures rest { rep.new ≡ holding None rep.old }
{
    mem::replace(&mut rep.hold, None)
}

pub(crate) fn put_share<S: Drop>(value: &mut DeskValue<S>, share: Option<S>)
    requires rep { IsRep value.old }
    ensures { value.new ≡ Record (holding share (rep_of value.old)) }
{
    let DeskValue::Record(rep) = value else {
        unreachable!()
    };
    rep.hold = share;
}

pub(crate) fn note_in<S>(value: &DeskValue<S>) -> Note
    requires rep { IsRep value.now }
    ensures { result ≡ note_of (rep_of value.now) }
{
    let DeskValue::Record(rep) = value else {
        unreachable!()
    };
    Note {
        stamp: rep.stamp,
        update: rep.update,
        length: rep.length,
    }
}

pub(crate) fn write<S: Drop>(value: &mut DeskValue<S>, rep: Rep<S>)
    ensures { value.new ≡ Record rep }
{
    *value = DeskValue::Record(rep);
}

// The record of a changed cord.
pub(crate) fn publish_share<P: Naming>(
    value: &mut DeskValue<Share<P>>,
    share: Share<P>,
    method: u8,
) -> Note
    requires rep { IsRep value.old }
    ensures rep { IsRep value.new }
    ensures note { result ≡ note_of (rep_of value.new) }
    ensures stamp { result.stamp ≡ (rep_of value.old).stamp }
    ensures update { IsRaised (rep_of value.old).update result.update }
    ensures length { result.length ≡ share.edge.0.length }
    ensures share { (rep_of value.new).hold ≡ Some share }
{
    let DeskValue::Record(rep) = value else {
        unreachable!()
    };
    if rep.update < u64::MAX {
        rep.update += 1;
    }
    rep.length = share.edge.length();
    rep.method = method;
    rep.hold = Some(share);
    Note {
        stamp: rep.stamp,
        update: rep.update,
        length: rep.length,
    }
}
