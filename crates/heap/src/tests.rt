// A heap of small numbers, run.
ghost use Rattle.std.specs.Prelude.{nat_le};
ghost use Rattle.std.proofs.Common.{rules};

use crate::{Heap, Key};
use refusal::Refusal;
use std::test::Fail;

// A number, in its own order.
#[derive(Clone, Copy, PartialEq, Eq, PartialOrd, Ord, Debug)]
struct Rank(u8);

impl Key for Rank {
    ghost leq = { λ a b. nat_le a.0 b.0 };

    ghost ordered = { Prim.search rules };

    fn at_most(self, other: Rank) -> bool {
        self <= other
    }
}

#[test]
fn takes_in_order(rt: HostRuntime) -> Result<(), Fail> {
    let mut room = [Rank(0); 3];
    let mut heap = Heap::open(&mut room);
    heap.insert(Rank(7))?;
    heap.insert(Rank(2))?;
    heap.insert(Rank(7))?;
    assert_eq!(rt; heap.insert(Rank(1)), Err(Refusal::HeapFull));
    assert_eq!(rt; heap.take_equal(Rank(7)), Some(Rank(7)));
    assert_eq!(rt; heap.take_equal(Rank(1)), None);
    assert_eq!(rt; heap.take_least(), Some(Rank(2)));
    assert_eq!(rt; heap.least(), Some(Rank(7)));
    assert_eq!(rt; heap.take_least(), Some(Rank(7)));
    assert_eq!(rt; heap.take_least(), None);
    Ok(())
}
