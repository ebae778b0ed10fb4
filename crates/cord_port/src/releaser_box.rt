//! A boxed releaser of any type is a releaser.
use crate::Releaser;

impl Releaser for Box<dyn Releaser + Send> {
    ghost calls_of = { λ b. (Releaser-box b).calls_of b.value };

    ghost latest_of = { λ b. (Releaser-box b).latest_of b.value };

    fn release(&mut self, length: u64) {
        (**self).release(length);
    }

    fn calls(&self) -> u64 {
        (**self).calls()
    }

    fn latest(&self) -> Option<u64> {
        (**self).latest()
    }
}
