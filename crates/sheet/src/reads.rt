// Taking fields and records from a sheet.
ghost use Rattle.std.specs.Prelude.{◌≡◌, false, ◌∷◌, MatchOption};
ghost use Rattle.sheet.specs.Numbers.{is_number};
ghost use Rattle.sheet.specs.Readers.{ahead, is_empty, field_of, behind_field, next_is, any_letter, any_bytes, LetterAt, NumberAt, CodeAt, TakesField};

use crate::number::number_of;
use crate::{Field, Reader};

impl<'a> Reader<'a> {
    pub(crate) fn open(sheet: &'a [u8]) -> Reader<'a>
        ensures { ahead result ≡ sheet.now }
    {
        Reader { sheet, at: 0 }
    }

    pub(crate) fn is_done(&self) -> bool
        ensures { result ≡ is_empty (ahead self.now) }
    {
        self.sheet[self.at..].is_empty()
    }

    // The bytes of the next field and their place, where the byte `end` closes it.
    fn field(&mut self, end: u8) -> Option<(&'a [u8], usize)>
        ensures { MatchOption result (next_is end (behind_field (ahead self.old)) ≡ false) (λ p. (p.0.now ≡ field_of (ahead self.old)) × (p.1 ≡ self.old.at) × (behind_field (ahead self.old) ≡ end ∷ ahead self.new)) }
    {
        let rest = &self.sheet[self.at..];
        let len = rest.iter().position(|b| matches!(b, b'\t' | b'\n'))?;
        if rest[len] != end {
            return None;
        }
        let place = self.at;
        self.at += len + 1;
        Some((&rest[..len], place))
    }

    // A field of one byte.
    pub(crate) fn letter(&mut self, end: u8) -> Option<Field<'a>>
        ensures { TakesField any_letter LetterAt end self.old result self.new }
    {
        let (bytes, place) = self.field(end)?;
        (bytes.len() == 1).then_some(Field::Letter(bytes, place))
    }

    pub(crate) fn number(&mut self, end: u8) -> Option<Field<'a>>
        ensures { TakesField is_number NumberAt end self.old result self.new }
    {
        let (bytes, place) = self.field(end)?;
        Some(Field::Number(bytes, place, number_of(bytes)?))
    }

    // Any bytes have a code's form, also none: whether they are a code, the network judges.
    pub(crate) fn code(&mut self, end: u8) -> Option<Field<'a>>
        ensures { TakesField any_bytes CodeAt end self.old result self.new }
    {
        let (bytes, place) = self.field(end)?;
        Some(Field::Code(bytes, place))
    }
}
