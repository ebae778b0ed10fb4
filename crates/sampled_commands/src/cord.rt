//! A session's cord.
ghost use Rattle.std.specs.Prelude.{◌≡◌, None};
ghost use Rattle.sampled_commands.specs.Forms.{view_of, IsForm};
ghost use Rattle.sampled_commands.specs.Views.{no_session_cord, IsWhole};

use cord_board::{BoardItem, Twin};
use cord_port::{Memory, Releaser};
use cord_sampled::{Copied, Peeker, SampledCord};
use cord_value::Cord;
use cordz_desk::DeskNaming;
use node_pool::Naming;
use std::marker::Model;

/// A cord that a name has or that lies in a cell of the board. Where it is sampled its record has a share of its tree. Contracts see the cord, and of
/// its record the slot, the stamp and the notes.
#[derive(Drop)]
pub struct SessionCord<P: Naming, D: DeskNaming> {
    cord: SampledCord<P, D>,
}

impl<P: Naming, D: DeskNaming> Model for SessionCord<P, D> {
    ghost use Rattle.sampled_commands.specs.Views.{SessionCordView};
    ghost use Rattle.sampled_commands.specs.Forms.{coded_session_cord, view_of, IsForm};

    ghost Value = { SessionCordView };

    ghost coded = { coded_session_cord };

    ghost view = { λ c. view_of c.cord };

    ghost invariant = { λ c. IsForm c.cord };
}

impl<P: Naming, D: DeskNaming> SessionCord<P, D> {
    /// The empty cord.
    pub fn new() -> SessionCord<P, D>
        ensures { result ≡ no_session_cord }
    {
        SessionCord {
            cord: SampledCord::new(),
        }
    }

    /// A sampled cord as one of a session. Its record isn't bare.
    pub fn of(cord: SampledCord<P, D>) -> SessionCord<P, D>
        requires { IsForm cord }
        ensures { result ≡ view_of cord }
    {
        SessionCord { cord }
    }

    /// The sampled cord.
    pub fn into_sampled(self) -> SampledCord<P, D>
        ensures form { IsForm result }
        ensures view { view_of result ≡ self }
    {
        let SessionCord { cord } = self;
        cord
    }

    /// The cord without its record.
    pub fn cord(&self) -> &Cord<P>
        ensures cord { result.now ≡ self.now.cord }
        ensures whole { IsWhole self.now }
    {
        let cord = self.cord.cord();
        let _ = cord.len();
        cord
    }

    /// The cord, which isn't sampled.
    pub fn into_cord(self) -> Cord<P>
        requires plain { self.sample ≡ None }
        ensures { result ≡ self.cord }
    {
        let SessionCord { cord } = self;
        cord.into_cord()
    }
}

impl<P: Naming, D: DeskNaming> BoardItem for SessionCord<P, D> {
    ghost use Rattle.std.specs.Prelude.{length};

    ghost length_of = { λ c. length c.cord.bytes };

    fn size(&self) -> u64 {
        self.cord.cord().len()
    }
}

impl<'a, P: Naming, D: DeskNaming, B: Releaser> Twin<Peeker<'a, P, B>> for SessionCord<P, D> {
    ghost use Rattle.std.specs.Prelude.{◌≡◌, ◌≤◌, length, is_some};
    ghost use Rattle.cord_sampled.specs.Peeks.{IsReadyIf, IsPeeked};

    type Out = Result<Option<Copied<P>>, Memory>;

    ghost asks = { λ with. (length with.worker.now.holds ≤ 96) × IsReadyIf with.ready };

    ghost gives = { λ c with after out. (after.worker.ghost_name ≡ with.worker.ghost_name)
        × IsPeeked P.limit c.cord (is_some c.sample) with.worker.now after.worker.now with.ready after.ready out };

    fn twin(&mut self, with: &mut Peeker<'a, P, B>) -> Result<Option<Copied<P>>, Memory> {
        self.cord.twin(with)
    }
}
