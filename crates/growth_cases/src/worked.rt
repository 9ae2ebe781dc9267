// The worked networks, each grown to the end on both queues.
use crate::rows::{Kept, Row, check_row};
use pruning::Coverage::{Alone, Part, Whole};
use std::test::*;

static ROWS: [Row; 7] = [
    Row {
        sheet: b"N\t7\n",
        steps: 0,
        total: 0,
        bound: 0,
        plan: Kept {
            answer: (Whole, 0, 0),
            nodes: &[1],
            edges: &[],
        },
        strong: Kept {
            answer: (Whole, 0, 0),
            nodes: &[1],
            edges: &[],
        },
    },
    Row {
        sheet: b"N\t5\nN\t8\n",
        steps: 1,
        total: 20,
        bound: 10,
        plan: Kept {
            answer: (Alone, 0, 5),
            nodes: &[0, 1],
            edges: &[],
        },
        strong: Kept {
            answer: (Alone, 0, 5),
            nodes: &[0, 1],
            edges: &[],
        },
    },
    Row {
        sheet: b"N\t10\nN\t3\nS\t0\t1\t5\tA1\n",
        steps: 1,
        total: 10,
        bound: 5,
        plan: Kept {
            answer: (Whole, 5, 0),
            nodes: &[1, 1],
            edges: &[1],
        },
        strong: Kept {
            answer: (Alone, 0, 3),
            nodes: &[1, 0],
            edges: &[0],
        },
    },
    Row {
        sheet: b"N\t10\nN\t3\nS\t0\t1\t6\tA1\n",
        steps: 1,
        total: 12,
        bound: 6,
        plan: Kept {
            answer: (Alone, 0, 3),
            nodes: &[1, 0],
            edges: &[0],
        },
        strong: Kept {
            answer: (Alone, 0, 3),
            nodes: &[1, 0],
            edges: &[0],
        },
    },
    Row {
        sheet: b"N\t0\nN\t4\nS\t0\t1\t0\tA1\n",
        steps: 1,
        total: 0,
        bound: 0,
        plan: Kept {
            answer: (Whole, 0, 0),
            nodes: &[0, 1],
            edges: &[0],
        },
        strong: Kept {
            answer: (Whole, 0, 0),
            nodes: &[0, 1],
            edges: &[0],
        },
    },
    Row {
        sheet: b"N\t1\nN\t2\nN\t2\nN\t100\nN\t100\nS\t0\t1\t6\tA1\nS\t1\t2\t2\tA2\nS\t2\t3\t10\tB1\nS\t3\t4\t90\tA10\n",
        steps: 6,
        total: 190,
        bound: 100,
        plan: Kept {
            answer: (Part, 90, 5),
            nodes: &[0, 0, 0, 1, 1],
            edges: &[0, 0, 0, 1],
        },
        strong: Kept {
            answer: (Part, 90, 5),
            nodes: &[0, 0, 0, 1, 1],
            edges: &[0, 0, 0, 1],
        },
    },
    Row {
        sheet: b"N\t15\nN\t15\nN\t15\nN\t15\nN\t0\nS\t0\t1\t20\tA1\nS\t1\t2\t20\tA1\nS\t2\t3\t20\tA1\nS\t4\t0\t11\tA1\nS\t4\t1\t11\tA1\nS\t4\t2\t11\tA1\nS\t4\t3\t11\tA1\n",
        steps: 4,
        total: 80,
        bound: 60,
        plan: Kept {
            answer: (Whole, 60, 0),
            nodes: &[1, 1, 1, 1, 0],
            edges: &[1, 1, 1, 0, 0, 0, 0],
        },
        strong: Kept {
            answer: (Alone, 0, 45),
            nodes: &[1, 0, 0, 0, 0],
            edges: &[0; 7],
        },
    },
];

#[test]
fn come_out_as_worked(rt: HostRuntime) -> Result<(), Fail> {
    for row in &ROWS {
        check_row(&rt, row)?;
    }
    Ok(())
}
