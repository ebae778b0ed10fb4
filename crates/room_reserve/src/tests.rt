//! A reserve that threads share.
use super::*;
use std::alloc::AllocError;
use std::thread::{self, Threads};

// A box that may be sent and not shared.
trait Caller: Drop {
    fn called(&self) -> u64;
}

#[derive(Drop)]
struct Once(u64);

impl Caller for Once {
    fn called(&self) -> u64 {
        self.0
    }
}

// What is lent to threads.
struct Lent<B> {
    room: Reserve<B>,
    count: u64,
}

// Each thread reads beside the reserve.
fn read_by_all<B: Send, R: Threads + Sync>(rt: &R, lent: &Lent<B>, counts: &mut [u64]) {
    let read = |_: usize, count: &mut u64| *count = lent.count;
    thread::for_each_mut(rt, counts, 4, &read);
}

#[test]
fn threads_share_room_for_boxes_that_they_may_not_share(rt: HostRuntime) -> Result<(), AllocError> {
    let room: Reserve<Box<dyn Caller + Send>> = Reserve::new(rt.alloc(), 3)?;
    let lent = Lent { room, count: 7 };
    let mut counts = [0, 0, 0, 0];
    read_by_all(&rt, &lent, &mut counts);
    assert_eq!(rt; counts, [7, 7, 7, 7]);
    let Lent { room, count: _ } = lent;
    let mut boxes = room.into_room();
    boxes.push_reserved(Box::new(rt.alloc(), Once(3))?);
    assert_eq!(rt; boxes[0].called(), 3);
    Ok(())
}
