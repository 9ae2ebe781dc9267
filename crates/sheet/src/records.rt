// Taking a line's record, field by field: a field that is missing or has another form refuses the line.
ghost use Rattle.std.specs.Prelude.{◌≡◌, true, false, [], ◌∷◌, MatchResult};
ghost use Rattle.refusal.specs.declared.Refusal.TheVariants.{LineForm};
ghost use Rattle.sheet.specs.Numbers.{is_number, value_of};
ghost use Rattle.sheet.specs.Readers.{ahead, is_empty, field_of, behind_field, closed_field, TakesRecord};

use crate::{Field, Reader};
use network::Entry;
use refusal::Refusal;

// A sheet's lines, by number: `line` is the one that is read next.
#[derive(Drop)]
pub(crate) struct Lines<'a> {
    reader: Reader<'a>,
    pub(crate) line: usize,
}

impl<'a> Lines<'a> {
    pub(crate) fn open(sheet: &'a [u8]) -> Lines<'a>
        ensures whole { ahead result.reader ≡ sheet.now }
        ensures first { result.line ≡ 1 }
    {
        Lines {
            reader: Reader::open(sheet),
            line: 1,
        }
    }

    pub(crate) fn is_done(&self) -> bool
        ensures { result ≡ is_empty (ahead self.now.reader) }
    {
        self.reader.is_done()
    }

    fn bad_form(&self) -> Refusal
        ensures { result ≡ LineForm self.now.line }
    {
        Refusal::LineForm { line: self.line }
    }

    // The number that the next field says.
    fn value(&mut self, end: u8) -> Result<u64, Refusal>
        ensures value { MatchResult result (λ n. (is_number (field_of (ahead self.old.reader)) ≡ true) × (n ≡ value_of (field_of (ahead self.old.reader))) × (behind_field (ahead self.old.reader) ≡ end ∷ ahead self.new.reader)) (λ why. (why ≡ LineForm self.old.line) × (closed_field is_number end (ahead self.old.reader) ≡ false)) }
        ensures line { self.new.line ≡ self.old.line }
    {
        let Some(Field::Number(_, _, value)) = self.reader.number(end) else {
            return Err(self.bad_form());
        };
        Ok(value)
    }

    // A node's prize.
    #[tactic(auto, using(crate::proofs::Forms::handed_on, crate::proofs::Forms::node_refused))]
    fn node_record(&mut self) -> Result<Entry<'a>, Refusal>
        ensures taken { TakesRecord ((78 ∷ []) ∷ []) self.old.line (ahead self.old.reader) result (ahead self.new.reader) }
        ensures line { self.new.line ≡ self.old.line }
    {
        let prize = self.value(b'\n')?;
        Ok(Entry::Node { prize })
    }

    // An edge's two ends, its cost and its code.
    #[tactic(auto, using(crate::proofs::Forms::handed_on, crate::proofs::Forms::first_refused, crate::proofs::Forms::second_refused, crate::proofs::Forms::cost_refused, crate::proofs::Forms::code_refused))]
    fn edge_record(&mut self) -> Result<Entry<'a>, Refusal>
        ensures taken { TakesRecord ((83 ∷ []) ∷ []) self.old.line (ahead self.old.reader) result (ahead self.new.reader) }
        ensures line { self.new.line ≡ self.old.line }
    {
        let first = self.value(b'\t')?;
        let second = self.value(b'\t')?;
        let cost = self.value(b'\t')?;
        let Some(Field::Code(code, _)) = self.reader.code(b'\n') else {
            return Err(self.bad_form());
        };
        Ok(Entry::Edge {
            first: first as usize,
            second: second as usize,
            cost,
            code,
        })
    }

    // The record of the line, up to and with its line feed.
    #[tactic(auto, using(crate::proofs::Forms::letter_refused, crate::proofs::Forms::other_refused))]
    pub(crate) fn record(&mut self) -> Result<Entry<'a>, Refusal>
        ensures taken { TakesRecord [] self.old.line (ahead self.old.reader) result (ahead self.new.reader) }
        ensures line { self.new.line ≡ self.old.line }
    {
        let Some(Field::Letter(letter, _)) = self.reader.letter(b'\t') else {
            return Err(self.bad_form());
        };
        match char::from(letter[0]) {
            'N' => self.node_record(),
            'S' => self.edge_record(),
            _ => Err(self.bad_form()),
        }
    }
}
