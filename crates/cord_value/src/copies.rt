//! Copies, which share the tree.
ghost use Rattle.std.specs.Prelude.{◌≡◌, ◌↔◌, ◌+◌, ◌≤◌, [], length, None, Some, IsSome, IfOk, IfErr, IfSome};
ghost use Rattle.cord_value.specs.Workers.{Keeps};
ghost use Rattle.cord_value.specs.Refusals.{IsCopyRefused, IsBalanced};
ghost use Rattle.cord_value.specs.Views.{passes_of};

use crate::cord::{Cord, Form};
use crate::inline::inline_of;
use crate::refusals::{CopyRefused, CordError};
use cord_port::Releaser;
use node_pool::{Naming, Pass, Pool, Worker};

impl<P: Naming> Cord<P> {
    /// A cord with the very same tree, under a pass of its own, or with the same inline bytes.
    pub fn copy<B: Releaser>(
        &mut self,
        pool: &Pool<P, B>,
        w: &mut Worker<P>,
    ) -> Result<Cord<P>, CordError>
        requires room { length w.old.holds ≤ 96 }
        ensures kept { self.new ≡ self.old }
        ensures same { IfOk result (λ c. c ≡ self.old) }
        ensures worker { IfOk result (λ c. Keeps P.limit [] (passes_of c.tree) 0 w.old w.new) }
        ensures shared { IfOk result (λ c. w.new.shares ≡ w.old.shares + passes_of c.tree) }
        ensures untried { IfOk result (λ _. w.new.full ≡ w.old.full) }
        ensures refused { IfErr result (λ x. IsCopyRefused P.limit self.old.tree x w.old w.new) }
        ensures balanced { IfErr result (λ x. IsBalanced P.limit x w.old w.new) }
        ensures untaken { IfErr result (λ _. w.new.taken ≡ w.old.taken) }
    {
        if let Form::Inline(bytes) = &self.form {
            return Ok(Cord {
                form: Form::Inline(inline_of(bytes.as_slice())),
            });
        }
        let pass = pool.pass(w)?;
        match self.copy_into(pool, w, pass) {
            Ok((copy, _)) => Ok(copy),
            Err(CopyRefused { pass }) => {
                pool.end(w, pass);
                Err(CordError::Memory)
            }
        }
    }

    /// The same into an empty pass, which comes back where the cord has no tree.
    pub fn copy_into<B: Releaser>(
        &mut self,
        pool: &Pool<P, B>,
        w: &mut Worker<P>,
        pass: Pass<P>,
    ) -> Result<(Cord<P>, Option<Pass<P>>), CopyRefused<P>>
        requires room { length w.old.holds ≤ 96 }
        requires empty { pass.holds ≡ [] }
        ensures kept { self.new ≡ self.old }
        ensures same { IfOk result (λ r. r.0 ≡ self.old) }
        ensures spent { IfOk result (λ r. IsSome r.1 ↔ (self.old.tree ≡ None)) }
        ensures back { IfOk result (λ r. IfSome r.1 (λ p. p.holds ≡ [])) }
        ensures worker { IfOk result (λ _. Keeps P.limit [] 0 0 w.old w.new) }
        ensures shared { IfOk result (λ r. w.new.shares ≡ w.old.shares + passes_of r.0.tree) }
        ensures untried { IfOk result (λ _. w.new.full ≡ w.old.full) }
        ensures refused { IfErr result (λ r. (r.pass.holds ≡ []) × (w.new ≡ w.old)) }
        ensures memory { IfErr result (λ _. IsSome self.old.tree) }
    {
        let mut pass = pass;
        match &mut self.form {
            Form::Inline(bytes) => {
                let copy = Cord {
                    form: Form::Inline(inline_of(bytes.as_slice())),
                };
                Ok((copy, Some(pass)))
            }
            Form::Tree { pass: own, root } => {
                let Ok(again) = root.again() else {
                    return Err(CopyRefused { pass });
                };
                pool.share_pass(w, own, &mut pass, root);
                let copy = Cord {
                    form: Form::Tree { pass, root: again },
                };
                Ok((copy, None))
            }
        }
    }
}
