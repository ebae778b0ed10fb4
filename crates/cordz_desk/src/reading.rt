//! Records that a walk reads, and tickets that are shown to who walks.
ghost use Rattle.std.specs.Prelude.{◌≡◌, ◌<◌, ◌≤◌, ◌+◌, true, [], ◌∷◌, length, MatchOption, IfOk, IfErr};
ghost use Rattle.std.specs.Bool.{⊤};
ghost use Rattle.node_edges.specs.Trees.{IsWellFormed};
ghost use Rattle.pool_rule.specs.Trades.{Trades};
ghost use Rattle.turn_desk.specs.Passes.{desk_view, IsOf, IsIdle, IsSamePass, HasTurn};
ghost use Rattle.turn_desk.specs.Turns.{turn_place, turn_value, taken_value};
ghost use Rattle.cordz_core.specs.Queue.{has};
ghost use Rattle.record_rule.specs.Log.{is_walking, walk_of};
ghost use Rattle.record_rule.specs.Notes.{newest_update, NoneLater, NoneShownLater};
ghost use Rattle.record_rule.specs.Views.{reading, IsTokenView};
ghost use Rattle.cordz_desk.specs.Owners.{noted_as};
ghost use Rattle.cordz_desk.specs.Reading.{read_by, reading_view, IsCopied, IsRefused, WasRefused, IsShownTo};
ghost use Rattle.cordz_desk.specs.Reps.{rep_of, IsRep};
ghost use Rattle.cordz_desk.specs.Shares.{tree_in, IsShare};
ghost use Rattle.cordz_desk.specs.declared.reading.RecordRefused.TheVariants.{Memory};
ghost use Rattle.cordz_desk.specs.Tickets.{stamp_of, notes_of, IsAtRest, IsSameTicket};
ghost use Rattle.cordz_desk.specs.Tokens.{token_of, view_of};

use crate::desk::{Becoming, CordzDesk};
use crate::handing::{Filling, Issuing, Lending, Seeing};
use crate::naming::DeskNaming;
use crate::reps::{note_in, put_share, take_share};
use crate::rule::RecordRule;
use crate::share::Share;
use crate::tickets::Ticket;
use crate::tokens::{CordzPass, Seated};
use cord_port::Releaser;
use node_pool::{Edge, Naming, Pool, Worker};
use record_rule::{DeskValue, Note};
use std::marker::Brand;
use std::sync::Wait;
use turn_desk::Turn;

/// Why a record wasn't read.
#[derive(Clone, Copy, Debug, PartialEq, Eq)]
pub enum RecordRefused {
    /// The record of this stamp has no share.
    Bare { stamp: u64 },
    Memory,
}

// One hold more of a share's tree.
fn tree_again<P: Naming, B: Releaser>(
    share: &mut Share<P>,
    pool: &Pool<P, B>,
    w: &mut Worker<P>,
) -> Result<Edge, RecordRefused>
    requires share { IsShare share.old }
    requires room { length w.old.holds ≤ 96 }
    ensures share { IfOk result (λ _. IsShare share.new × (tree_in share.new ≡ tree_in share.old)) }
    ensures edge { IfOk result (λ e. e ≡ tree_in share.old) }
    ensures traded { IfOk result (λ e. Trades w.old.holds [] (e ∷ []) w.new.holds) }
    ensures shared { IfOk result (λ e. w.new ≡ read_by e w.old) }
    ensures memory { IfErr result (λ e. e ≡ Memory) }
    ensures same { IfErr result (λ _. share.new ≡ share.old) }
    ensures worker { IfErr result (λ _. w.new ≡ w.old) }
{
    let Ok(edge) = share.edge.again() else {
        return Err(RecordRefused::Memory);
    };
    pool.draw(w, &mut share.pass);
    pool.share(w, &share.edge);
    pool.fill(w, &mut share.pass, &share.edge);
    Ok(edge)
}

// A record's note, and one hold more of its tree.
fn copied<P: Naming, B: Releaser>(
    value: &mut DeskValue<Share<P>>,
    pool: &Pool<P, B>,
    w: &mut Worker<P>,
) -> Result<(Note, Edge), RecordRefused>
    requires rep { IsRep value.old }
    requires share { MatchOption (rep_of value.old).hold ⊤ IsShare }
    requires room { length w.old.holds ≤ 96 }
    ensures copied { IfOk result (λ r. IsCopied value.old value.new r.0 r.1) }
    ensures traded { IfOk result (λ r. Trades w.old.holds [] (r.1 ∷ []) w.new.holds) }
    ensures shared { IfOk result (λ r. w.new ≡ read_by r.1 w.old) }
    ensures refused { IfErr result (λ e. IsRefused e value.old) }
    ensures same { IfErr result (λ _. value.new ≡ value.old) }
    ensures worker { IfErr result (λ _. w.new ≡ w.old) }
{
    let note = note_in(value);
    let Some(mut share) = take_share(value) else {
        return Err(RecordRefused::Bare { stamp: note.stamp });
    };
    let again = tree_again(&mut share, pool, w);
    put_share(value, Some(share));
    match again {
        Ok(edge) => Ok((note, edge)),
        Err(error) => Err(error),
    }
}

impl<P: Naming, D: DeskNaming> CordzDesk<P, D> {
    /// The note of a record that the pass's walk gave, and its tree at that turn, as a direct hold of the worker.
    pub fn read_record<R: Wait, B: Releaser>(
        &self,
        rt: &R,
        pass: &mut CordzPass<P, D>,
        slot: u16,
        pool: &Pool<P, B>,
        w: &mut Worker<P>,
    ) -> Result<(Note, Edge), RecordRefused>
        requires walking { is_walking (token_of pass.old).own ≡ true }
        requires given { has slot (walk_of (token_of pass.old).own) ≡ true }
        requires slot { slot < 256 }
        requires room { length w.old.holds ≤ 96 }
        ensures read { IfOk result (λ r. token_of pass.new ≡ reading (noted_as r.0 r.1) (token_of pass.old)) }
        ensures tree { IfOk result (λ r. IsWellFormed r.1 × (r.1.0.length ≤ 2147483647)) }
        ensures length { IfOk result (λ r. r.0.length ≡ r.1.0.length) }
        ensures later { IfOk result (λ r. NoneShownLater r.0.stamp r.0.update (token_of pass.old).shown) }
        ensures traded { IfOk result (λ r. Trades w.old.holds [] (r.1 ∷ []) w.new.holds) }
        ensures shared { IfOk result (λ r. w.new ≡ read_by r.1 w.old) }
        ensures refused { IfErr result (λ e. WasRefused P e slot (view_of pass.old)) }
        ensures same { IfErr result (λ _. token_of pass.new ≡ token_of pass.old) }
        ensures worker { IfErr result (λ _. w.new ≡ w.old) }
    {
        let mut turn = self.enter_record(rt, &mut pass.pass, slot);
        match copied(turn.value(), pool, w) {
            Ok((note, edge)) => {
                self.leave_read::<Brand>(&mut pass.pass, turn, slot, note, &edge);
                Ok((note, edge))
            }
            Err(error) => {
                self.leave_to::<Brand>(&mut pass.pass, turn, slot);
                Err(error)
            }
        }
    }

    fn leave_read<B: Becoming>(
        &self,
        pass: &mut Seated<P>,
        turn: Turn<RecordRule<Share<P>>>,
        slot: u16,
        note: Note,
        edge: &Edge,
    )
        requires after { B.after ≡ reading_view (noted_as note edge.now) }
        requires desk { IsOf self.now.parts.desk pass.old }
        requires turn { HasTurn pass.old (turn_place turn) (taken_value turn) }
        requires place { turn_place turn ≡ slot + 1 }
        requires slot { slot < 256 }
        requires token { IsTokenView (desk_view pass.old) }
        requires from { IsRep (taken_value turn) }
        requires copied { IsCopied (taken_value turn) (turn_value turn) note edge.now }
        ensures pass { IsSamePass pass.old pass.new × IsIdle pass.new }
        ensures view { desk_view pass.new ≡ reading_view (noted_as note edge.now) (desk_view pass.old) }
    {
        self.leave_to::<B>(pass, turn, slot);
    }

    /// Shows the pass the ticket's update: what the pass read of this record before isn't newer, and what it reads later isn't older.
    pub fn show(&self, pass: &mut CordzPass<P, D>, ticket: &mut Ticket<P, D>)
        requires rest { IsAtRest ticket.old }
        ensures shown { IsShownTo (stamp_of ticket.old) (newest_update (notes_of ticket.old)) (token_of pass.old) (token_of pass.new) }
        ensures earlier { NoneLater (stamp_of ticket.old) (newest_update (notes_of ticket.old)) (token_of pass.old).reads }
        ensures ticket { IsSameTicket ticket.old ticket.new }
        ensures rest { IsAtRest ticket.new }
    {
        let lent = self.parts.desk.split::<Lending>(&mut ticket.pass);
        self.parts.desk.merge::<Seeing>(&mut pass.pass, lent);
        let back = self.parts.desk.split::<Issuing>(&mut pass.pass);
        self.parts.desk.merge::<Filling>(&mut ticket.pass, back);
    }
}
