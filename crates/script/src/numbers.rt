ghost use Rattle.std.specs.Prelude.{◌≡◌};
ghost use Rattle.script.specs.Numbers.{digit_after, number_of};

// The number with one more digit.
fn with_digit(value: u64, c: u8) -> Option<u64>
    ensures { result ≡ digit_after value c }
{
    if !c.is_ascii_digit() {
        return None;
    }
    value.checked_mul(10)?.checked_add(u64::from(c - b'0'))
}

// The decimal number of a word; none for other bytes than digits, for no bytes, and from 2^64 on.
pub fn read_number(word: &[u8]) -> Option<u64>
    ensures { result ≡ number_of word.now }
{
    if word.is_empty() {
        return None;
    }
    let mut value: u64 = 0;
    for c in word {
        value = with_digit(value, *c)?;
    }
    Some(value)
}
