//! Cords of bytes from outside.
ghost use Rattle.std.specs.Prelude.{◌≡◌, ◌≤◌, length, Some, IfOk, IfErr};
ghost use Rattle.tree_shapes.specs.Cords.{cord_of_external};
ghost use Rattle.edge_nodes.specs.Externals.{external_node, first_slot};
ghost use Rattle.cord_value.specs.Externals.{IsExternalMade, IsExternalRefused};
ghost use Rattle.cord_value.specs.Refusals.{IsBalanced};
ghost use Rattle.cord_value.specs.Views.{cord_shape, root_number, IsTreeOf};

use crate::cord::{Cord, Form, MOST_BYTES};
use crate::refusals::CordError;
use cord_port::Releaser;
use edge_nodes::new_external;
use node_pool::{Naming, Pool, Worker};
use std::alloc::Global;

impl<P: Naming> Cord<P> {
    /// A cord over an external of at least 16 bytes (`cord.h`, `MakeCordFromExternal`), which keeps one copy of them. It uses the worker's next
    /// releaser slot, whose box is called when the last reference to the external has gone.
    pub fn from_external<B: Releaser>(
        alloc: Global,
        pool: &Pool<P, B>,
        w: &mut Worker<P>,
        bytes: &[u8],
    ) -> Result<Cord<P>, CordError>
        requires long { 16 ≤ length bytes.now }
        requires room { length w.old.holds ≤ 96 }
        ensures bytes { IfOk result (λ c. c.bytes ≡ bytes.now) }
        ensures node { IfOk result (λ c. c.tree ≡ Some (external_node (root_number c.tree) bytes.now (first_slot w.old.unused))) }
        ensures formed { IfOk result (λ c. IsTreeOf c.bytes c.tree) }
        ensures shape { IfOk result (λ c. cord_shape c ≡ cord_of_external (length bytes.now)) }
        ensures made { IfOk result (λ c. IsExternalMade P.limit (length bytes.now) (root_number c.tree) w.old w.new) }
        ensures refused { IfErr result (λ x. IsExternalRefused P.size P.limit (length bytes.now) x w.old w.new) }
        ensures balanced { IfErr result (λ x. IsBalanced P.limit x w.old w.new) }
    {
        let used = w.used_slots();
        let Some(_) = w.next_slot() else {
            return Err(CordError::NoReleaser { used });
        };
        if bytes.len() > MOST_BYTES {
            let asked = bytes.len() as u64;
            return Err(CordError::LengthLimit { asked });
        }
        let mut pass = pool.pass(w)?;
        match new_external(alloc, pool, w, bytes) {
            Ok(root) => {
                pool.fill(w, &mut pass, &root);
                Ok(Cord {
                    form: Form::Tree { pass, root },
                })
            }
            Err(error) => {
                pool.end(w, pass);
                Err(error.into())
            }
        }
    }
}
