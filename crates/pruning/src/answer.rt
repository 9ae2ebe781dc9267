// What a plan answers, and how a report shows it.
ghost use Rattle.std.specs.Prelude.{Some};
ghost use Rattle.pruning.specs.Shown.{coverage_text, answer_text};

use std::fmt;

// How much of the prizes a plan takes: all of them, those of one node, or some.
#[derive(Clone, Copy, PartialEq, Eq, Debug)]
pub enum Coverage {
    Whole,
    Alone,
    Part,
}

// The cost of the edges that a plan keeps, and the prizes of the nodes that it leaves.
#[derive(Clone, Copy, PartialEq, Eq, Debug)]
pub struct Answer {
    pub status: Coverage,
    pub cost: u64,
    pub lost: u64,
}

// The word of a report.
impl fmt::Display for Coverage {
    ghost output = { λ c. Some (coverage_text c) };

    fn fmt<W: fmt::Write>(&self, f: &mut fmt::Formatter<W>) -> fmt::Result {
        match self {
            Coverage::Whole => write!(f, "whole"),
            Coverage::Alone => write!(f, "alone"),
            Coverage::Part => write!(f, "part"),
        }
    }
}

// Status, cost and lost prizes, parted by tabs.
impl fmt::Display for Answer {
    ghost output = { λ a. Some (answer_text a) };

    fn fmt<W: fmt::Write>(&self, f: &mut fmt::Formatter<W>) -> fmt::Result {
        let Answer { status, cost, lost } = *self;
        write!(f, "{status}\t{cost}\t{lost}")
    }
}
