//! A cord taken apart.
ghost use Rattle.std.specs.Prelude.{◌≡◌, ◌≤◌, [], ◌∷◌, option_map, IfSome};
ghost use Rattle.node_edges.specs.Trees.{IsWellFormed};

use crate::cord::{Cord, Form};
use node_pool::{Edge, Naming, Pass};

impl<P: Naming> Cord<P> {
    /// The tree, and the pass that holds it. A cord without a tree gives none.
    pub fn into_tree(self) -> Option<(Pass<P>, Edge)>
        ensures tree { option_map (λ r. r.1) result ≡ self.tree }
        ensures held { IfSome result (λ r. r.0.holds ≡ r.1 ∷ []) }
        ensures formed { IfSome result (λ r. IsWellFormed r.1) }
        ensures short { IfSome result (λ r. r.1.0.length ≤ 2147483647) }
    {
        let Cord { form } = self;
        match form {
            Form::Inline(_) => None,
            Form::Tree { pass, root } => Some((pass, root)),
        }
    }
}
