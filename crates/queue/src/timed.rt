// A key of time and number, as the heap queue keeps it in its heap.
ghost use Rattle.queue.specs.Timed.{timed_leq};
ghost use Rattle.std.proofs.Common.{rules};

use heap::Key;

// By time, and by number among equal times.
#[derive(Clone, Copy, PartialEq, Eq, PartialOrd, Ord)]
pub struct TimedKey {
    pub time: u64,
    pub number: usize,
}

impl Key for TimedKey {
    ghost leq = { timed_leq };

    ghost ordered = { Prim.search rules };

    fn at_most(self, other: TimedKey) -> bool {
        self <= other
    }
}
