//! What is done to the registry, which is value 0 of the desk.
ghost use Rattle.std.specs.Prelude.{◌≡◌, ◌≢◌, ◌<◌, ◌-◌, ◌^◌, ◌⊎◌, ℕ, IsSome, MatchResult, None};
ghost use Rattle.cordz_core.specs.declared.slot.SlotState.TheVariants.{Free as IsFree, Reserved, Linked, Leaving, Clearing};
ghost use Rattle.cordz_core.specs.Contents.{state_of, birth_of};
ghost use Rattle.cordz_core.specs.History.{History};
ghost use Rattle.cordz_core.specs.Legal.{Replays};
ghost use Rattle.cordz_core.specs.Links.{Moves, Begins, Ends, moved_to};
ghost use Rattle.cordz_core.specs.Queue.{Apart};
ghost use Rattle.record_rule.specs.declared.views.Deed.TheVariants.{Reserve, Full, Free, Track, Unlink, Settle, Snap, Unsnap, Head, Next};
ghost use Rattle.record_rule.specs.Steps.{registry_of, IsList, Makes};
ghost use Rattle.cordz_desk.specs.Asking.{IsWalked};

use arrayvec::ArrayVec;
use cordz_core::{RecordsFull, Settled};
use record_rule::DeskValue;

pub(crate) fn reserve<S>(value: &mut DeskValue<S>) -> Result<(u16, u64), RecordsFull>
    requires list { IsList value.old }
    requires clock { (registry_of value.old).clock < 2 ^ 64 - 1 }
    ensures { MatchResult result
        (λ r. Makes value.old value.new (Reserve r.0 r.1) × (r.0 < 256) × (state_of (registry_of value.old) r.0 ≡ IsFree)
        × Moves (registry_of value.old) (registry_of value.new) r.0 Reserved)
        (λ e. Makes value.old value.new Full × (registry_of value.new ≡ registry_of value.old) × (e.in_use ≡ 256)) }
{
    let DeskValue::List(registry) = value else {
        unreachable!()
    };
    registry.reserve()
}

pub(crate) fn free<S>(value: &mut DeskValue<S>, slot: u16)
    requires list { IsList value.old }
    requires clock { (registry_of value.old).clock < 2 ^ 64 - 1 }
    requires slot { slot < 256 }
    requires unused { (state_of (registry_of value.old) slot ≡ Reserved) ⊎ (state_of (registry_of value.old) slot ≡ Clearing) }
    ensures makes { Makes value.old value.new (Free slot) }
    ensures moves { Moves (registry_of value.old) (registry_of value.new) slot IsFree }
{
    let DeskValue::List(registry) = value else {
        unreachable!()
    };
    registry.free(slot);
}

pub(crate) fn track<S>(value: &mut DeskValue<S>, slot: u16)
    requires list { IsList value.old }
    requires clock { (registry_of value.old).clock < 2 ^ 64 - 1 }
    requires slot { slot < 256 }
    requires reserved { state_of (registry_of value.old) slot ≡ Reserved }
    ensures makes { Makes value.old value.new (Track slot) }
    ensures moves { Moves (registry_of value.old) (registry_of value.new) slot Linked }
{
    let DeskValue::List(registry) = value else {
        unreachable!()
    };
    registry.track(slot);
}

pub(crate) fn unlink<S>(value: &mut DeskValue<S>, slot: u16)
    requires list { IsList value.old }
    requires clock { (registry_of value.old).clock < 2 ^ 64 - 1 }
    requires slot { slot < 256 }
    requires linked { state_of (registry_of value.old) slot ≡ Linked }
    ensures makes { Makes value.old value.new (Unlink slot) }
    ensures moves { Moves (registry_of value.old) (registry_of value.new) slot Leaving }
{
    let DeskValue::List(registry) = value else {
        unreachable!()
    };
    registry.unlink(slot);
}

pub(crate) fn settle<S>(value: &mut DeskValue<S>, slot: u16) -> Settled
    requires list { IsList value.old }
    requires clock { (registry_of value.old).clock < 2 ^ 64 - 1 }
    requires slot { slot < 256 }
    requires leaving { state_of (registry_of value.old) slot ≡ Leaving }
    ensures makes { Makes value.old value.new (Settle slot result) }
    ensures moves { Moves (registry_of value.old) (registry_of value.new) slot (moved_to result) }
{
    let DeskValue::List(registry) = value else {
        unreachable!()
    };
    registry.settle(slot)
}

pub(crate) fn snap<S>(value: &mut DeskValue<S>, walker: u16)
    requires list { IsList value.old }
    requires clock { (registry_of value.old).clock < 2 ^ 64 - 1 }
    requires walker { walker < (registry_of value.old).walkers }
    requires small { walker < 16 }
    requires none { birth_of (registry_of value.old) walker ≡ None }
    ensures makes { Makes value.old value.new (Snap walker) }
    ensures begins { Begins (registry_of value.old) (registry_of value.new) walker }
{
    let DeskValue::List(registry) = value else {
        unreachable!()
    };
    registry.snap(walker as u8);
}

pub(crate) fn unsnap<S>(value: &mut DeskValue<S>, walker: u16) -> ArrayVec<u16, 256>
    requires list { IsList value.old }
    requires clock { (registry_of value.old).clock < 2 ^ 64 - 1 }
    requires walker { walker < 16 }
    requires one { IsSome (birth_of (registry_of value.old) walker) }
    ensures makes { Makes value.old value.new (Unsnap walker result) }
    ensures ends { Ends (registry_of value.old) (registry_of value.new) walker result.items }
    ensures once { (h : History) → Replays h (registry_of value.old) → Apart result.items }
{
    let DeskValue::List(registry) = value else {
        unreachable!()
    };
    registry.unsnap(walker as u8)
}

pub(crate) fn head<S>(value: &DeskValue<S>) -> Option<u16>
    requires list { IsList value.now }
    ensures { Makes value.now value.now (Head result) }
{
    let DeskValue::List(registry) = value else {
        unreachable!()
    };
    registry.head()
}

pub(crate) fn next<S>(value: &DeskValue<S>, slot: u16) -> Option<u16>
    requires list { IsList value.now }
    requires slot { slot < 256 }
    requires walked { IsWalked (state_of (registry_of value.now) slot) }
    ensures { Makes value.now value.now (Next slot result) }
{
    let DeskValue::List(registry) = value else {
        unreachable!()
    };
    registry.next(slot)
}
