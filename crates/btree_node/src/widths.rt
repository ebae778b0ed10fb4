//! How many data edges stand under a node of a level.
ghost use Rattle.std.specs.Prelude.{◌≡◌, ◌≤◌};
ghost use Rattle.tree_shapes.specs.Room.{most_under};

/// How many data edges stand under a full node of this level, 0 being that of a data edge.
pub fn most_under(level: u8) -> usize
    requires { level ≤ 12 }
    ensures { result ≡ most_under level }
{
    let mut most = 1;
    for _ in 0..level {
        most *= 6;
    }
    most
}
