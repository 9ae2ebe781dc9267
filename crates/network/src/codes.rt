// Making a code of its text, and reading it back.
ghost use Rattle.std.specs.Prelude.{◌≡◌, Some};
ghost use Rattle.std.specs.Option.{option_map};
ghost use Rattle.network.specs.Codes.{is_code_byte, is_code, code_from, padded_code};
ghost use Rattle.network.specs.Edges.{text_of};

use super::Code;
use std::fmt;

fn is_code_byte(b: u8) -> bool
    ensures { result ≡ is_code_byte b }
{
    b.is_ascii_digit() || b.is_ascii_uppercase()
}

fn is_code(text: &[u8]) -> bool
    ensures { result ≡ is_code text.now }
{
    (1..=8).contains(&text.len()) && text.iter().all(|b| is_code_byte(*b))
}

impl Code {
    // The code of this text; None where it is empty, longer than 8 bytes, or has another byte than A to Z and 0 to 9.
    pub fn new(text: &[u8]) -> Option<Code>
        ensures { option_map text_of result ≡ code_from text.now }
    {
        if !is_code(text) {
            return None;
        }
        let mut bytes = [0; 8];
        bytes[0..text.len()].copy_from_slice(text);
        Some(Code {
            bytes,
            len: text.len(),
        })
    }

    pub fn text(&self) -> &[u8]
        ensures { result.now ≡ text_of self.now }
    {
        &self.bytes[0..self.len]
    }

    pub fn as_str(&self) -> &str
        ensures { result.now ≡ text_of self.now }
    {
        // Letters and digits are always a text.
        str::from_utf8(self.text()).unwrap_or("")
    }

    // The text with 0 behind it, up to 8 bytes: in this form codes compare byte by byte.
    pub fn padded(&self) -> [u8; 8]
        ensures { result ≡ padded_code (text_of self.now) }
    {
        self.bytes
    }
}

// The text, as sheets and reports have it.
impl fmt::Display for Code {
    ghost output = { λ c. Some (text_of c) };

    fn fmt<W: fmt::Write>(&self, f: &mut fmt::Formatter<W>) -> fmt::Result {
        f.write_str(self.as_str())
    }
}
