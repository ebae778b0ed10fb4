//! The program's releaser.
ghost use Rattle.std.specs.Prelude.{◌≡◌, None};

use crate::Releaser;

/// It keeps how often it was called and the latest length.
#[derive(Drop)]
pub struct CountReleaser {
    calls: u64,
    latest: Option<u64>,
}

impl CountReleaser {
    /// A releaser that wasn't called.
    pub fn new() -> CountReleaser
        ensures calls { ⟦<CountReleaser as Releaser>⟧.calls_of result ≡ 0 }
        ensures latest { ⟦<CountReleaser as Releaser>⟧.latest_of result ≡ None }
    {
        CountReleaser {
            calls: 0,
            latest: None,
        }
    }
}

impl Releaser for CountReleaser {
    ghost calls_of = { λ r. r.calls };

    ghost latest_of = { λ r. r.latest };

    fn release(&mut self, length: u64) {
        self.calls += 1;
        self.latest = Some(length);
    }

    fn calls(&self) -> u64 {
        self.calls
    }

    fn latest(&self) -> Option<u64> {
        self.latest
    }
}
