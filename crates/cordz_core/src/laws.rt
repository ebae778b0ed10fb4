//! The laws of the registry, over every legal list of actions. The functions do nothing: each one's contract is its law.
ghost use Rattle.std.specs.Prelude.{◌≡◌, ◌↔◌, ◌⊎◌, ℕ, ◌<◌, ◌≤◌, List, ◌∷◌, length, true, false, Some, None};
ghost use Rattle.cordz_core.specs.History.{Action, History, Tracked, Settles, Unsnaps, use_of, stamps_given};
ghost use Rattle.cordz_core.specs.Legal.{IsLegal, IsDeletionOf};
ghost use Rattle.cordz_core.specs.Times.{RecordTimes, records, snapshots, linked_at, seen_at, head_at, next_at};
ghost use Rattle.cordz_core.specs.Walks.{Read, IsWalk, lives_at, NoneDeleted, AllHold, key_of, IsWholeWalk, IsRun, IsNewestFirst, IsAmong, WasGiven};
ghost use Rattle.cordz_core.specs.Walks.{IsNewestOf, IsNewestBefore, NoneLinked, NoneBefore, BecomesClearing, stamps_of, CountsDown};

/// The head is the linked record that was tracked last.
pub fn head_is_newest()
    ensures found { (h : History) (place : ℕ) (r : RecordTimes) → head_at (records h) place ≡ Some r → IsNewestOf place (records h) r }
    ensures none { (h : History) (place : ℕ) → head_at (records h) place ≡ None → NoneLinked place (records h) }
{}

/// The next of a record is, among the records tracked before it that were linked at the earlier of the place and its unlink,
/// the one that was tracked last.
pub fn next_is_newest_before()
    ensures found { (h : History) (place : ℕ) (of r : RecordTimes) → next_at (records h) of place ≡ Some r
        → IsNewestBefore of.track (seen_at place of.course) (records h) r }
    ensures none { (h : History) (place : ℕ) (of : RecordTimes) → next_at (records h) of place ≡ None
        → NoneBefore of.track (seen_at place of.course) (records h) }
{}

/// A slot becomes one to be cleared exactly at the deletion place of its record.
pub fn clears_at_deletion_place()
    ensures { (walkers : ℕ) (a : Action) (h : History) (s : ℕ) → IsLegal walkers (a ∷ h) → use_of (a ∷ h) s ≡ Tracked
        → (BecomesClearing h a s ↔ IsDeletionOf (a ∷ h) s (length (a ∷ h))) }
{}

/// Only a record's own settle, or the end of a snapshot, makes its slot one to be cleared.
pub fn clears_in_settle_or_unsnap()
    ensures { (walkers : ℕ) (a : Action) (h : History) (s : ℕ) → IsLegal walkers (a ∷ h) → BecomesClearing h a s
        → (a ≡ Settles s) ⊎ ((w : ℕ) × (a ≡ Unsnaps w)) }
{}

/// No record that a walk was given is deleted while the walk's snapshot lives.
pub fn walked_records_live()
    ensures { (h : History) (birth place : ℕ) (walk : List Read) → IsWalk h birth walk → lives_at (snapshots h) birth place ≡ true
        → NoneDeleted (snapshots h) place walk }
{}

/// While a walk's snapshot lives, each slot that the walk was given still holds the record that it was given for, and isn't to be cleared.
pub fn walked_slots_hold()
    ensures { (walkers : ℕ) (h : History) (birth : ℕ) (walk : List Read) → IsLegal walkers h → IsWalk h birth walk
        → lives_at (snapshots h) birth (length h) ≡ true → AllHold h walk }
{}

/// What `head` and `next` gave at a place stays their answer at that place, whatever is done later.
pub fn reads_stand()
    ensures head { (a : Action) (h : History) (place : ℕ) → place ≤ length h → key_of (head_at (records (a ∷ h)) place) ≡ key_of (head_at (records h) place) }
    ensures next { (a : Action) (h : History) (place : ℕ) (of later : RecordTimes) → place ≤ length h → IsAmong of (records h)
        → IsAmong later (records (a ∷ h)) → of.track ≡ later.track → key_of (next_at (records (a ∷ h)) later place) ≡ key_of (next_at (records h) of place) }
{}

/// A walk gives its records newest first, and each once.
pub fn walks_go_from_newest()
    ensures { (h : History) (start : ℕ) (walk : List Read) → IsRun h start walk → IsNewestFirst walk }
{}

/// A walk run to its end gives every record that was linked from its head call to its end.
pub fn whole_walks_miss_none()
    ensures { (h : History) (start last : ℕ) (walk : List Read) → IsWholeWalk h start last walk → (x : RecordTimes) → IsAmong x (records h)
        → linked_at start x ≡ true → linked_at last x ≡ true → WasGiven x walk }
{}

/// Stamps begin at 1 and rise by one, so none is given twice.
pub fn stamps_count_up()
    ensures { (h : History) → CountsDown (stamps_given h) (stamps_of h) }
{}
