//! The laws of closed desks. The functions do nothing: each one's contract is its law.
ghost use Rattle.std.specs.Prelude.{◌≡◌, ℕ, ◌<◌, ◌≤◌, List, [], flat_map, All};
ghost use Rattle.std.specs.List.{sum_by};
ghost use Rattle.cord_runs.specs.Stamps.{AreDifferent};
ghost use Rattle.cordz_core.specs.declared.slot.SlotState.TheVariants.{Free};
ghost use Rattle.cordz_core.specs.Contents.{state_of};
ghost use Rattle.record_rule.specs.declared.views.Noted.{Noted as Noted_value};
ghost use Rattle.record_rule.specs.declared.views.TokenView.{TokenView as TokenView_value};
ghost use Rattle.record_rule.specs.Notes.{IsNoteOf};
ghost use Rattle.cordz_desk.specs.declared.share.Share.{Share as Share_value};
ghost use Rattle.cordz_desk.specs.Closed.{Each, IsClosed};
ghost use Rattle.desk_laws.specs.Counts.{reserved_in, tracks_in, unlinks_in, frees_in};
ghost use Rattle.desk_laws.specs.Ends.{AreAll, HasEnded, IsOfUntracked};

/// No stamp was reserved twice, by whichever tokens, and each is at least 1.
pub fn stamps_are_reserved_once<P>()
    ensures once { (tokens : List TokenView_value) (given : ℕ) (shares : List (Share_value P)) → IsClosed tokens given shares → AreAll tokens given
        → AreDifferent (flat_map (λ p. reserved_in p.own) tokens) }
    ensures positive { (tokens : List TokenView_value) (given : ℕ) (shares : List (Share_value P)) → IsClosed tokens given shares → AreAll tokens given
        → All (λ stamp. 1 ≤ stamp) (flat_map (λ p. reserved_in p.own) tokens) }
{}

/// Where each token has finished what it began and walks no more, and as many records were unlinked as were linked, every slot is
/// free. So no share comes back, and as many slots were freed as records were linked.
pub fn finished_desks_are_empty<P>()
    ensures free { (tokens : List TokenView_value) (given : ℕ) (shares : List (Share_value P)) (closed : IsClosed tokens given shares) → AreAll tokens given
        → Each HasEnded tokens → sum_by (λ p. tracks_in p.own) tokens ≡ sum_by (λ p. unlinks_in p.own) tokens
        → (s : ℕ) → s < 256 → state_of closed.facts.registry s ≡ Free }
    ensures none { (tokens : List TokenView_value) (given : ℕ) (shares : List (Share_value P)) → IsClosed tokens given shares → AreAll tokens given
        → Each HasEnded tokens → sum_by (λ p. tracks_in p.own) tokens ≡ sum_by (λ p. unlinks_in p.own) tokens → shares ≡ [] }
    ensures freed { (tokens : List TokenView_value) (given : ℕ) (shares : List (Share_value P)) → IsClosed tokens given shares → AreAll tokens given
        → Each HasEnded tokens → sum_by (λ p. tracks_in p.own) tokens ≡ sum_by (λ p. unlinks_in p.own) tokens
        → sum_by (λ p. tracks_in p.own) tokens ≡ sum_by (λ p. frees_in p.own) tokens }
{}

/// On such a desk each note that was read was set under a ticket that one of the tokens untracked.
pub fn read_notes_were_told<P>()
    ensures { (tokens : List TokenView_value) (given : ℕ) (shares : List (Share_value P)) → IsClosed tokens given shares → AreAll tokens given
        → Each HasEnded tokens → sum_by (λ p. tracks_in p.own) tokens ≡ sum_by (λ p. unlinks_in p.own) tokens
        → Each (λ p. (n : Noted_value) → IsNoteOf n p.reads → IsOfUntracked n tokens) tokens }
{}
