//! What changes a cord.
ghost use Rattle.std.specs.Prelude.{◌≡◌, ◌≤◌, ℕ, Bool, List, true, length, IsSome, IfOk, IfErr, OnErr};
ghost use Rattle.pool_rule.specs.Views.{View};
ghost use Rattle.cord_value.specs.Refusals.{IsBalanced};
ghost use Rattle.cord_value.specs.Views.{CordView};
ghost use Rattle.cord_value.specs.Workers.{Keeps};
ghost use Rattle.cord_value.specs.declared.refusals.CordError.{CordError};
ghost use Rattle.cord_value.specs.declared.refusals.CordError.TheVariants.{Memory};
ghost use Rattle.cord_sampled.specs.Edits.{HasKept};

use cord_port::Releaser;
use cord_value::{Cord, CordError};
use node_pool::{Naming, Pool, Worker};
use std::alloc::Global;

/// What changes a cord with the help of `with`, which stays.
pub(crate) trait Alters<P: Naming, B: Releaser, W> {
    // Of it, `with` and a cord: whether it is a change, and makes a new tree; what it makes of the cord, and why it doesn't.
    ghost changes: { Self → W → CordView → Bool };

    ghost roots: { Self → W → CordView → Bool };

    ghost makes: { Self → W → CordView → CordView → Type 0 };

    ghost refuses: { Self → W → CordView → CordError → View → View → Type 0 };

    /// Whether it makes a new tree.
    fn grows(&self, cord: &Cord<P>, with: &W) -> bool
        ensures { result ≡ roots self.now with.now cord.now };

    /// Does the change. After a refusal the cord is as before.
    fn apply(
        &self,
        alloc: Global,
        pool: &Pool<P, B>,
        w: &mut Worker<P>,
        cord: &mut Cord<P>,
        with: &mut W,
    ) -> Result<(), CordError>
        requires room { length w.old.holds ≤ 96 }
        ensures altered { IfOk result (λ _. makes self.now with.old cord.old cord.new) }
        ensures tree { roots self.now with.old cord.old ≡ true → IfOk result (λ _. IsSome cord.new.tree) }
        ensures kept { IfOk result (λ _. HasKept P.limit cord.old cord.new w.old w.new) }
        ensures refused { IfErr result (λ x. refuses self.now with.old cord.old x w.old w.new) }
        ensures balanced { IfErr result (λ x. IsBalanced P.limit x w.old w.new) }
        ensures same { OnErr result (cord.new ≡ cord.old) }
        ensures stays { with.new ≡ with.old };

    // Passes that were made before a refused change, and ended after it, show no other cause.
    ghost within: { (s : Self) (with : W) (xs ys : List ℕ) (i j k l : ℕ) (u v w z : View) → Keeps P.limit xs i j u v → Keeps P.limit ys k l w z
        → (c : CordView) (x : CordError) → refuses s with c x v w → refuses s with c x u z };

    // One that was made may still want memory for the record.
    ghost lacks: { (s : Self) (with : W) (old new : CordView) (v w : View) → changes s with old ≡ true → makes s with old new → refuses s with old Memory v w };
}
