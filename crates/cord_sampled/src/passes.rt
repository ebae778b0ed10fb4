//! Passes that wait for a tree.
ghost use Rattle.std.specs.Prelude.{[]};
ghost use Rattle.cord_value.specs.Workers.{Keeps};
ghost use Rattle.cord_sampled.specs.Copies.{one_if, IsEmptyIf};

use cord_port::Releaser;
use node_pool::{Naming, Pass, Pool, Worker};

/// A pass for a copy, and one for its record where cords are sampled at all.
#[derive(Drop)]
pub struct Ready<P: Naming> {
    pub copy: Pass<P>,
    pub sample: Option<Pass<P>>,
}

/// Ends a pass that is there.
pub(crate) fn end_pass<P: Naming, B: Releaser>(
    pool: &Pool<P, B>,
    w: &mut Worker<P>,
    pass: Option<Pass<P>>,
)
    requires empty { IsEmptyIf pass }
    ensures { Keeps P.limit [] 0 (one_if pass) w.old w.new }
{
    if let Some(pass) = pass {
        pool.end(w, pass);
    }
}
