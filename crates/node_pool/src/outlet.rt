//! The boxes of releasers in their slots.
ghost use Rattle.std.specs.Prelude.{◌≡◌, ◌-◌, ◌^◌, ◌<◌, None, Some};
ghost use Rattle.node_pool.specs.Boxes.{calls_after, latest_after};

use cord_port::Releaser;

/// A box beside what it was when it was handed in, and the length with which it was called since then.
#[derive(Drop)]
pub struct Outlet<B: Releaser> {
    inner: B,
    pub before: u64,
    pub latest: Option<u64>,
    pub length: Option<u64>,
    ghost counted: { B.calls_of inner ≡ calls_after before length },
    ghost lasted: { B.latest_of inner ≡ latest_after latest length },
    ghost room: { before < 2 ^ 64 - 1 },
}

impl<B: Releaser> Outlet<B> {
    ghost use Rattle.node_pool.specs.Outlets.{inner_of};

    /// A slot's box that wasn't called.
    pub fn new(inner: B) -> Outlet<B>
        requires room { B.calls_of inner < 2 ^ 64 - 1 }
        ensures inner { inner_of result ≡ inner }
        ensures before { result.before ≡ B.calls_of inner }
        ensures latest { result.latest ≡ B.latest_of inner }
        ensures fresh { result.length ≡ None }
    {
        let before = inner.calls();
        let latest = inner.latest();
        Outlet {
            inner,
            before,
            latest,
            length: None,
        }
    }

    /// The last reference to an external of so many bytes has gone.
    pub fn release(&mut self, length: u64)
        requires fresh { self.old.length ≡ None }
        ensures before { self.new.before ≡ self.old.before }
        ensures latest { self.new.latest ≡ self.old.latest }
        ensures called { self.new.length ≡ Some length }
    {
        self.inner.release(length);
        self.length = Some(length);
    }

    /// The box.
    pub fn into_inner(self) -> B
        ensures inner { result ≡ inner_of self }
        ensures calls { B.calls_of result ≡ calls_after self.before self.length }
        ensures latest { B.latest_of result ≡ latest_after self.latest self.length }
    {
        let Outlet {
            inner,
            before: _,
            latest: _,
            length: _,
        } = self;
        inner
    }
}
