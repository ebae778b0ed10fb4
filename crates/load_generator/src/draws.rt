//! What is drawn for a command.
ghost use Rattle.std.specs.Prelude.{◌≡◌, ◌<◌, ◌%◌};
ghost use Rattle.rand_pcg.specs.Pcg.{pcg32};
ghost use Rattle.load_generator.specs.Draws.{drawn, draws_of, IsDrawn};

use rand_core::utils::NextWord;
use rand_pcg::Lcg64Xsh32;

/// A row of the table, two names, and a number.
#[derive(Clone, Copy)]
pub(crate) struct Draws {
    pub(crate) row: u32,
    pub(crate) a: u32,
    pub(crate) b: u32,
    pub(crate) k: u32,
}

/// The next word, below `most`.
pub(crate) fn draw(random: &mut Lcg64Xsh32, most: u32) -> u32
    requires { 0 < most }
    ensures drawn { (result, random.new) ≡ drawn most random.old }
    ensures low { result < most }
{
    random.next_word() % most
}

/// The four numbers of a command, in this order.
pub(crate) fn draw_all(random: &mut Lcg64Xsh32) -> Draws
    ensures drawn { (result, random.new) ≡ draws_of random.old }
    ensures low { IsDrawn result }
{
    let row = draw(random, 12);
    let a = draw(random, 8);
    let b = draw(random, 8);
    let k = draw(random, 2000);
    Draws { row, a, b, k }
}
