//! A name's cord, taken out of the names while a call works on it, and cords that leave the names.
ghost use Rattle.std.specs.Prelude.{◌≡◌, ◌≤◌, ◌+◌, length, Some, IfSome, IfNone};
ghost use Rattle.ordered_names.specs.Named.{named};
ghost use Rattle.cord_commands.specs.Accounts.{trees_of, trees_in, trees_if, IsSteady};
ghost use Rattle.cord_value.specs.Views.{no_cord};
ghost use Rattle.cord_commands.specs.Views.{AreSame, IsSetTo};

use cord_port::Releaser;
use cord_value::Cord;
use node_pool::{Naming, Pool, Worker};
use ordered_names::Names;

/// Takes the cord of a name out, if it was ever set. Meanwhile the name has an empty cord.
pub fn take_out<P: Naming>(names: &mut Names<'_, Cord<P>>, a: &[u8]) -> Option<Cord<P>>
    ensures found { result ≡ named names.old a.now }
    ensures lent { IfSome result (λ _. IsSetTo names.old names.new a.now no_cord) }
    ensures trees { IfSome result (λ c. trees_in names.new + trees_of c ≡ trees_in names.old) }
    ensures same { IfNone result (AreSame names.old names.new × (trees_in names.new ≡ trees_in names.old)) }
{
    match names.exchange(a, Cord::new()) {
        Ok(cord) => Some(cord),
        Err(_) => None,
    }
}

/// Gives a name whose cord was taken out a cord again.
pub fn put_back<P: Naming>(names: &mut Names<'_, Cord<P>>, a: &[u8], cord: Cord<P>)
    requires lent { named names.old a.now ≡ Some no_cord }
    ensures set { IsSetTo names.old names.new a.now cord }
    ensures trees { trees_in names.new ≡ trees_in names.old + trees_of cord }
{
    let _ = names.exchange(a, cord);
}

/// Releases a cord that nobody has any more.
pub fn let_go<P: Naming, B: Releaser>(pool: &Pool<P, B>, w: &mut Worker<P>, cord: Option<Cord<P>>)
    requires room { length w.old.holds ≤ 96 }
    ensures worker { IsSteady w.old w.new (trees_if cord) 0 }
{
    if let Some(cord) = cord {
        cord.release(pool, w);
    }
}
