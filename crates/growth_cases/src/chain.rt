// The chain of five nodes: its sheet, its steps, and its clusters between them.
use crate::stages::Stage;
use growth::Event::{Deactivated, Merged};
use growth::Phase;
use growth::Phase::{Active, Inactive};

pub(crate) const CHAIN: &[u8] =
    b"N\t1\nN\t2\nN\t2\nN\t100\nN\t100\nS\t0\t1\t6\tA1\nS\t1\t2\t2\tA2\nS\t2\t3\t10\tB1\nS\t3\t4\t90\tA10\n";

// Both ends of edge 0 become inactive.
pub(crate) static FIRST: [Stage; 3] = [
    Stage {
        event: Deactivated { cluster: 0 },
        time: 2,
        active: 4,
        steps: 1,
        total: 10,
        bound: 8,
    },
    Stage {
        event: Merged { edge: 1 },
        time: 2,
        active: 3,
        steps: 2,
        total: 10,
        bound: 8,
    },
    Stage {
        event: Deactivated { cluster: 5 },
        time: 6,
        active: 2,
        steps: 3,
        total: 22,
        bound: 16,
    },
];

// Edge 0 had 4 of slack left at time 6 and is due only once one of its ends is active again.
pub(crate) static THEN: [Stage; 3] = [
    Stage {
        event: Merged { edge: 2 },
        time: 14,
        active: 2,
        steps: 4,
        total: 38,
        bound: 24,
    },
    Stage {
        event: Merged { edge: 0 },
        time: 18,
        active: 2,
        steps: 5,
        total: 46,
        bound: 28,
    },
    Stage {
        event: Merged { edge: 3 },
        time: 90,
        active: 1,
        steps: 6,
        total: 190,
        bound: 100,
    },
];

pub(crate) static AFTER_FIRST: [(Option<(usize, usize)>, Phase, u64); 6] = [
    (None, Inactive, 2),
    (None, Active, 2),
    (None, Active, 2),
    (None, Active, 6),
    (None, Active, 6),
    (Some((1, 2)), Inactive, 4),
];

pub(crate) static AT_END: [(Option<(usize, usize)>, Phase, u64); 9] = [
    (None, Inactive, 2),
    (None, Active, 2),
    (None, Active, 2),
    (None, Active, 14),
    (None, Active, 90),
    (Some((1, 2)), Inactive, 4),
    (Some((5, 3)), Active, 4),
    (Some((0, 6)), Active, 72),
    (Some((7, 4)), Active, 0),
];
