//! That threads may share a desk.
use crate::desk::CordzDesk;
use crate::naming::DeskNaming;
use node_pool::Naming;

// It asks that threads may share what it is given.
fn shared<T: Sync>(_shared: &T) {}

// Threads may share a desk, under each name and over each pool.
fn shared_desk<P: Naming + Send + Sync, D: DeskNaming + Send + Sync>(desk: &CordzDesk<P, D>) {
    shared(desk);
}
