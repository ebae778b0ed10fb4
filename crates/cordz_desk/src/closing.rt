//! How the desk ends.
ghost use Rattle.std.specs.Prelude.{◌≡◌, ◌≤◌, length, map, vec_len, vec_capacity};
ghost use Rattle.turn_desk.specs.Passes.{desk_view, IsOf, IsIdle};
ghost use Rattle.record_rule.specs.declared.views.DeskView.TheVariants.{Root};
ghost use Rattle.cordz_desk.specs.Closed.{returned, passes_given, share_in, shares_of, IsClosed};
ghost use Rattle.cordz_desk.specs.Seeing.{given_by, back_to, IsRootView};
ghost use Rattle.cordz_desk.specs.Tokens.{token_of};

use crate::desk::CordzDesk;
use crate::handing::Returning;
use crate::naming::DeskNaming;
use crate::parts::Parts;
use crate::rule::RecordRule;
use crate::share::Share;
use crate::tokens::{CordzPass, Seated};
use node_pool::Naming;
use record_rule::DeskValue;
use turn_desk::Desk;

impl<P: Naming, D: DeskNaming> CordzDesk<P, D> {
    /// Ends the desk, and gives the shares that its slots still have. A record whose turn a ticket has keeps its share.
    pub fn close(self, passes: Vec<CordzPass<P, D>>) -> Vec<Share<P>>
        ensures { IsClosed (map token_of passes.items) (passes_given self) result.items }
    {
        let CordzDesk { parts, of: _ } = self;
        let Parts { desk, root, shares } = parts;
        let root = gathered(&desk, root.into_value(), passes);
        let values = desk.close(root);
        let room = shares.into_room();
        shares_left(values, room)
    }
}

// The first token with all that the passes knew.
fn gathered<P: Naming, D: DeskNaming>(
    desk: &Desk<RecordRule<Share<P>>>,
    root: Seated<P>,
    passes: Vec<CordzPass<P, D>>,
) -> Seated<P>
    requires named { desk.now.table.shared.table_id ≡ D.desk }
    requires root { IsOf desk.now root × IsIdle root }
    requires first { IsRootView (desk_view root) }
    ensures root { IsOf desk.now result × IsIdle result }
    ensures view { desk_view result ≡ Root (given_by (desk_view root)) (returned (map token_of passes.items) (back_to (desk_view root))) }
{
    let mut root = root;
    for pass in passes {
        let CordzPass {
            pass: seat,
            number: _,
            of: _,
        } = pass;
        desk.merge::<Returning>(&mut root, seat);
    }
    root
}

// The shares of the values that were at home.
fn shares_left<P: Naming>(
    values: Vec<Option<DeskValue<Share<P>>>>,
    room: Vec<Share<P>>,
) -> Vec<Share<P>>
    requires empty { vec_len room ≡ 0 }
    requires room { length values.items ≤ vec_capacity room }
    ensures { result.items ≡ shares_of values.items }
{
    let mut shares = room;
    for value in values {
        match share_left(value) {
            Some(share) => shares.push_reserved(share),
            None => {}
        }
    }
    shares
}

fn share_left<P: Naming>(value: Option<DeskValue<Share<P>>>) -> Option<Share<P>>
    ensures { result ≡ share_in value }
{
    match value {
        Some(DeskValue::Record(rep)) => rep.hold,
        _ => None,
    }
}
