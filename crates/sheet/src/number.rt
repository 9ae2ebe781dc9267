// Numbers in decimal digits.
ghost use Rattle.std.specs.Prelude.{◌≡◌};
ghost use Rattle.sheet.specs.Numbers.{number_from};

// The number that the bytes write: 1 to 10 digits, and no leading zero but in `0` itself.
#[tactic(auto, using(crate::proofs::Digits::value_at_small, crate::proofs::Digits::digits_more, crate::proofs::Digits::value_more))]
pub(crate) fn number_of(bytes: &[u8]) -> Option<u64>
    ensures { result ≡ number_from bytes.now }
{
    if bytes.is_empty() || bytes.len() > 10 || matches!(bytes, [b'0', _, ..]) {
        return None;
    }
    let mut value = 0;
    // Not `parse`: it wants the bytes as a text first, and answers two more failures that never come.
    for digit in bytes {
        if !digit.is_ascii_digit() {
            return None;
        }
        value = value * 10 + u64::from(*digit - b'0');
    }
    Some(value)
}
