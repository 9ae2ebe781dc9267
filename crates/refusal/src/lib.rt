// Why a call says no: one enum for every call, with its number.
#![tactic(auto)]

ghost use Rattle.std.specs.Prelude.{◌≡◌, Some};
ghost use Rattle.refusal.specs.Numbers.{refusal_number, refusal_line, refusal_text};

use std::fmt;

// The lowest-numbered refusal that applies is the answer; docs/REFUSALS.md has a row for each.
#[derive(Clone, Copy, PartialEq, Eq, Debug)]
pub enum Refusal {
    NodesFull,
    EdgesFull,
    AmountTooLarge,
    UnknownNode,
    EqualEnds,
    BadCode,
    EventOutOfRange,
    GrowthEnded,
    NoNode,
    StillGrowing,
    ClusterNotFormed,
    ListTooShort,
    HeapFull,
    LineForm { line: usize },
    LineEntry { line: usize },
}

impl Refusal {
    // The number under which the documents and the program's report name it. A method and no `From`, as `line` is.
    pub fn number(self) -> u8
        ensures { result ≡ refusal_number self }
    {
        match self {
            Refusal::NodesFull => 1,
            Refusal::EdgesFull => 2,
            Refusal::AmountTooLarge => 3,
            Refusal::UnknownNode => 4,
            Refusal::EqualEnds => 5,
            Refusal::BadCode => 6,
            Refusal::EventOutOfRange => 7,
            Refusal::GrowthEnded => 8,
            Refusal::NoNode => 9,
            Refusal::StillGrowing => 10,
            Refusal::ClusterNotFormed => 11,
            Refusal::ListTooShort => 12,
            Refusal::HeapFull => 13,
            Refusal::LineForm { line: _ } => 14,
            Refusal::LineEntry { line: _ } => 15,
        }
    }

    // The sheet's line, counted from 1, or 0 where no line applies: the report prints that 0.
    pub fn line(self) -> usize
        ensures { result ≡ refusal_line self }
    {
        match self {
            Refusal::LineForm { line } => line,
            Refusal::LineEntry { line } => line,
            _ => 0,
        }
    }
}

// As a report prints it: the word, the number and the line, parted by tabs.
impl fmt::Display for Refusal {
    ghost output = { λ r. Some (refusal_text r) };

    fn fmt<W: fmt::Write>(&self, f: &mut fmt::Formatter<W>) -> fmt::Result {
        let number = self.number();
        let line = self.line();
        write!(f, "refused\t{number}\t{line}")
    }
}
