ghost use Rattle.std.specs.Prelude.{◌≡◌, ◌<◌, ℕ, ⊤, true, [], ◌++◌, ◌∷◌};
ghost use Rattle.cord_board.specs.Passes.{board_view, IsOn};
ghost use Rattle.cord_board.specs.Views.{has, cleared_of, IsLast};

use super::*;
use std::sync::Wait;
use std::test::Fail;

// An item of so many bytes.
#[derive(Drop)]
struct Bytes(u64);

impl BoardItem for Bytes {
    ghost length_of = { λ b. b.0 };

    fn size(&self) -> u64 {
        self.0
    }
}

// Its twin is its length; how often it was asked is counted.
impl Twin<u64> for Bytes {
    type Out = u64;

    ghost asks = { λ _. ⊤ };

    ghost gives = { λ b _ _ out. out ≡ b.0 };

    fn twin(&mut self, with: &mut u64) -> u64 {
        *with = with.saturating_add(1);
        self.0
    }
}

pub(crate) fn cleared<C: BoardItem + Drop, R: Wait>(
    rt: &R,
    board: &Board<C>,
    pass: &mut BoardPass<C>,
)
    requires board { IsOn board.now pass.old }
    requires last { IsLast (board_view pass.old) }
    ensures board { IsOn board.now pass.new }
    ensures last { IsLast (board_view pass.new) }
    ensures all { (k : ℕ) → k < 64 → has k (cleared_of (board_view pass.new)) ≡ true }
{
    for cell in 0..64u8 {
        let _ = board.clear(rt, pass, cell);
    }
}

fn entry(
    session: u16,
    place: u32,
    act: Act,
    cell: u8,
    came: Option<u64>,
    was: Option<u64>,
) -> Entry {
    Entry {
        session,
        place,
        act,
        cell,
        came,
        was,
    }
}

#[test]
fn two_sessions_meet_at_a_cell(rt: HostRuntime) -> Result<(), Fail> {
    let (board, mut root) = Board::start(rt.alloc(), 8)?;
    let mut one = board.split(&mut root, 1, 5);
    let mut two = board.split(&mut root, 2, 3);
    assert_eq!(rt; (one.session(), two.session()), (1, 2));
    let mut asked = 0;
    assert!(rt; board.put(&rt, &mut one, 7, Bytes(5)).is_none());
    assert_eq!(rt; board.peek(&rt, &mut two, 7, &mut asked), Some(5));
    assert_eq!(rt; asked, 1);
    assert_eq!(rt;
        board.swap(&rt, &mut two, 7, Bytes(6)).map_or(0, |b| b.0),
        5
    );
    assert_eq!(rt;
        board
            .swap(&rt, &mut one, 8, Bytes(9))
            .map_or_else(|b| b.0, |_| 0),
        9
    );
    assert_eq!(rt; board.take(&rt, &mut one, 7).map_or(0, |b| b.0), 6);
    assert!(rt; board.take(&rt, &mut two, 7).is_none());
    assert!(rt; board.put(&rt, &mut one, 63, Bytes(4)).is_none());
    assert_eq!(rt;
        board.put(&rt, &mut one, 63, Bytes(3)).map_or(0, |b| b.0),
        4
    );
    board.merge(&mut root, one);
    board.merge(&mut root, two);
    cleared(&rt, &board, &mut root);
    let wanted = [
        entry(1, 1, Act::Put, 7, Some(5), None),
        entry(2, 1, Act::Peek, 7, None, Some(5)),
        entry(2, 2, Act::Swap, 7, Some(6), Some(5)),
        entry(1, 2, Act::Swap, 8, None, None),
        entry(1, 3, Act::Take, 7, None, Some(6)),
        entry(2, 3, Act::Take, 7, None, None),
        entry(1, 4, Act::Put, 63, Some(4), None),
        entry(1, 5, Act::Put, 63, Some(3), None),
    ];
    assert_eq!(rt; board.finish(root).as_slice(), wanted.as_slice());
    Ok(())
}
