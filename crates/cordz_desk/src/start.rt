//! How a desk of records begins: without a name, which the program then gives it.
ghost use Rattle.std.specs.Prelude.{◌≡◌, ◌≤◌, ◌+◌, [], map, IfOk};
ghost use Rattle.turn_desk.specs.Passes.{desk_places, desk_view, IsOf, IsIdle};
ghost use Rattle.room_reserve.specs.Rooms.{room_of};
ghost use Rattle.record_rule.specs.declared.views.DeskView.TheVariants.{Root};
ghost use Rattle.cordz_desk.specs.Fresh.{AreFresh};

use crate::desk::CordzDesk;
use crate::keeping::Kept;
use crate::naming::DeskNaming;
use crate::parts::Parts;
use crate::rule::RecordRule;
use crate::share::Share;
use crate::tokens::{CordzPass, Seated};
use cord_port::Memory;
use cordz_core::Registry;
use node_pool::Naming;
use record_rule::{DeskValue, DeskView, Rep};
use room_reserve::Reserve;
use std::alloc::Global;
use std::marker::PhantomData;
use turn_desk::{Desk, DeskRefused, Split};

// How many slots for records there are, and how many walkers may hold a snapshot.
const SLOTS: usize = 256;

const WALKERS: u8 = 16;

/// A desk with one token, which has no name yet.
pub struct OpenedDesk<P: Naming> {
    pub(crate) desk: Desk<RecordRule<Share<P>>>,
    pub(crate) root: Seated<P>,
    pub(crate) shares: Reserve<Share<P>>,
    pub(crate) walkers: u8,
    ghost places: { desk_places desk ≡ 257 },
    ghost rooted: { IsOf desk root },
    ghost idle: { IsIdle root },
    ghost first: { desk_view root ≡ Root 0 [] },
    ghost few: { walkers ≤ 16 },
    ghost room: { 257 ≤ room_of shares },
}

// The next token.
struct Given;

impl Split<DeskView> for Given {
    ghost use Rattle.cordz_desk.specs.Seeing.{root_after, token_after};

    ghost left = { root_after };

    ghost right = { token_after };
}

// The registry, and an empty record for each slot.
fn first_values<S: Drop>(alloc: Global) -> Result<Vec<DeskValue<S>>, Memory>
    ensures { IfOk result (λ v. AreFresh v.items) }
{
    let mut values = Vec::with_capacity(alloc, SLOTS + 1)?;
    values.push_reserved(DeskValue::List(Registry::new(WALKERS)));
    for _ in 0..SLOTS {
        values.push_reserved(DeskValue::Record(Rep {
            stamp: 0,
            update: 0,
            length: 0,
            method: 0,
            hold: None,
        }));
    }
    Ok(values)
}

impl<P: Naming> OpenedDesk<P> {
    ghost use Rattle.cordz_desk.specs.Closed.{passes_given};
    ghost use Rattle.cordz_desk.specs.Opened.{opened_desk, opened_walkers};
    ghost use Rattle.cordz_desk.specs.Seeing.{first_tokens};
    ghost use Rattle.cordz_desk.specs.Tokens.{token_of};

    /// A desk with 256 free slots, for 0 to 16 walkers.
    pub fn start(alloc: Global, walkers: u8) -> Result<OpenedDesk<P>, Memory>
        requires { walkers ≤ 16 }
        ensures { IfOk result (λ o. opened_walkers o ≡ walkers) }
    {
        let shares = Reserve::new(alloc, SLOTS + 1)?;
        let values = first_values(alloc)?;
        match Desk::start(alloc, values, &0) {
            Ok((desk, root)) => Ok(OpenedDesk {
                desk,
                root,
                shares,
                walkers,
            }),
            Err(DeskRefused { values: _ }) => Err(Memory),
        }
    }

    /// The desk under a name, with a pass for each walker and one more, numbered from 0.
    pub fn named<D: DeskNaming>(
        self,
        alloc: Global,
    ) -> Result<(CordzDesk<P, D>, Vec<CordzPass<P, D>>), Memory>
        requires { opened_desk self ≡ D.desk }
        ensures tokens { IfOk result (λ r. map token_of r.1.items ≡ first_tokens (opened_walkers self + 1)) }
        ensures given { IfOk result (λ r. passes_given r.0 ≡ opened_walkers self + 1) }
    {
        let OpenedDesk {
            desk,
            mut root,
            shares,
            walkers,
        } = self;
        let count = usize::from(walkers) + 1;
        let Ok(mut passes) = Vec::<CordzPass<P, D>>::with_capacity(alloc, count) else {
            desk.close(root);
            return Err(Memory);
        };
        for i in 0..count {
            let pass = desk.split::<Given>(&mut root);
            passes.push_reserved(CordzPass {
                pass,
                number: i as u16,
                of: PhantomData,
            });
        }
        let root = match Kept::new(alloc, root) {
            Ok(root) => root,
            Err(root) => {
                desk.close(root);
                return Err(Memory);
            }
        };
        let desk = CordzDesk {
            parts: Parts { desk, root, shares },
            of: PhantomData,
        };
        Ok((desk, passes))
    }
}
