//! The actions and reads that tokens ask of the registry.
ghost use Rattle.std.specs.Prelude.{◌≡◌, ◌<◌, ◌-◌, ◌^◌, MatchResult};
ghost use Rattle.record_rule.specs.Steps.{registry_of, IsList, Makes};
ghost use Rattle.cordz_desk.specs.Asking.{Can, IsAnswerTo, IsOnceOver, Performed};

use crate::list::{free, head, next, reserve, settle, snap, track, unlink, unsnap};
use record_rule::{Deed, DeskValue};

/// An action or a read that is asked for.
#[derive(Clone, Copy)]
pub(crate) enum Ask {
    Reserve,
    Free(u16),
    Track(u16),
    Unlink(u16),
    Settle(u16),
    Snap(u16),
    Unsnap(u16),
    Head,
    Next(u16),
}

// Does it, and says what was done.
pub(crate) fn perform<S>(value: &mut DeskValue<S>, ask: Ask) -> Deed
    requires list { IsList value.old }
    requires clock { (registry_of value.old).clock < 2 ^ 64 - 1 }
    requires can { Can ask (registry_of value.old) }
    ensures makes { Makes value.old value.new result }
    ensures performed { Performed ask result (registry_of value.old) (registry_of value.new) }
    ensures answer { IsAnswerTo ask result }
    ensures once { IsOnceOver result (registry_of value.old) }
{
    match ask {
        Ask::Reserve => reserving(value),
        Ask::Free(slot) => {
            free(value, slot);
            Deed::Free(slot)
        }
        Ask::Track(slot) => {
            track(value, slot);
            Deed::Track(slot)
        }
        Ask::Unlink(slot) => {
            unlink(value, slot);
            Deed::Unlink(slot)
        }
        Ask::Settle(slot) => Deed::Settle(slot, settle(value, slot)),
        Ask::Snap(walker) => {
            snap(value, walker);
            Deed::Snap(walker)
        }
        Ask::Unsnap(walker) => Deed::Unsnap(walker, unsnap(value, walker)),
        Ask::Head => Deed::Head(head(value)),
        Ask::Next(slot) => Deed::Next(slot, next(value, slot)),
    }
}

fn reserving<S>(value: &mut DeskValue<S>) -> Deed
    requires list { IsList value.old }
    requires clock { (registry_of value.old).clock < 2 ^ 64 - 1 }
    ensures makes { Makes value.old value.new result }
    ensures performed { Performed Ask.Reserve result (registry_of value.old) (registry_of value.new) }
    ensures answer { IsAnswerTo Ask.Reserve result }
    ensures once { IsOnceOver result (registry_of value.old) }
{
    match reserve(value) {
        Ok((slot, stamp)) => Deed::Reserve(slot, stamp),
        Err(_) => Deed::Full,
    }
}
