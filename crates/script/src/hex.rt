ghost use Rattle.std.specs.Prelude.{◌≡◌, ℕ, ◌*◌, ◌<◌, ◌≤◌, List, length, take, IfSome, Some, vec_items, string_bytes};
ghost use Rattle.std.specs.List.{flat_map, AllByRecursion};
ghost use Rattle.std.specs.Str.{IsUtf8};
ghost use Rattle.std.specs.Option.{ok_or};
ghost use Rattle.script.specs.Complaints.{Tells};
ghost use Rattle.script.specs.Hex.{digit_of, byte_of, pair_bytes, hex_bytes, hex_digit, hex_pair, hex_text};
ghost use Rattle.script.specs.Texts.{Appends};
ghost use Rattle.script.specs.declared.complaints.Complaint.TheVariants.{BadHex};

use crate::complaints::Complaint;
use crate::words::is_word;
use std::alloc::{AllocError, Global};
use std::fmt;

// The value of a hex digit, in either case.
fn digit(c: u8) -> Option<u8>
    ensures value { result ≡ digit_of c }
    ensures below { IfSome result (λ d. d < 16) }
{
    match c {
        b'0'..=b'9' => Some(c - b'0'),
        b'A'..=b'F' => Some(c - b'A' + 10),
        b'a'..=b'f' => Some(c - b'a' + 10),
        _ => None,
    }
}

// The byte of two digits.
fn pair(high: u8, low: u8) -> Option<u8>
    ensures { result ≡ byte_of (digit_of high) (digit_of low) }
{
    let high = digit(high)?;
    let low = digit(low)?;
    Some(high * 16 + low)
}

// The bytes of pairs of digits.
fn read_pairs(heap: Global, word: &[u8]) -> Result<Vec<u8>, Complaint>
    ensures { Tells vec_items result (ok_or (pair_bytes word.now) BadHex) }
{
    // A last digit alone is no pair. Asked first, so that it is told with no memory.
    if word.len() % 2 == 1 {
        return Err(Complaint::BadHex);
    }
    let mut bytes = Vec::new(heap);
    for digits in word.chunks(2) {
        let [high, low] = digits else {
            return Err(Complaint::BadHex);
        };
        let byte = pair(*high, *low).ok_or(Complaint::BadHex)?;
        bytes.push(byte)?;
    }
    Ok(bytes)
}

// The bytes that a word stands for: at least one pair of digits, or `-` for no bytes.
#[tactic(auto, using(crate::proofs::Digits::hex_back))]
pub fn read_hex(heap: Global, word: &[u8]) -> Result<Vec<u8>, Complaint>
    ensures value { Tells vec_items result (ok_or (hex_bytes word.now) BadHex) }
    ensures law { (xs : List ℕ) → AllByRecursion (λ x. x < 256) xs → hex_bytes (hex_text xs) ≡ Some xs }
{
    if word.is_empty() {
        return Err(Complaint::BadHex);
    }
    if is_word(word, b"-") {
        return Ok(Vec::new(heap));
    }
    read_pairs(heap, word)
}

// The digit of a value, in upper case.
fn hex_digit(value: u8) -> u8
    requires { value < 16 }
    ensures value { result ≡ hex_digit value }
    ensures ascii { result < 128 }
{
    if value < 10 {
        b'0' + value
    } else {
        b'A' + (value - 10)
    }
}

// Puts the two digits of each byte into a buffer, from its beginning.
fn put_digits(bytes: &[u8], buffer: &mut [u8; 64])
    requires { length bytes.now ≤ 32 }
    ensures digits { take (2 * length bytes.now) buffer.new ≡ flat_map hex_pair bytes.now }
    ensures utf8 { IsUtf8 (take (2 * length bytes.now) buffer.new) }
{
    // By index, as each byte sets two places of the buffer.
    for i in 0..bytes.len() {
        buffer[2 * i] = hex_digit(bytes[i] / 16);
        buffer[2 * i + 1] = hex_digit(bytes[i] % 16);
    }
}

// Bytes that print as the word for them: two digits a byte, in upper case, or `-` for no bytes.
#[derive(Clone, Copy)]
pub struct Hex<'a>(pub &'a [u8]);

impl fmt::Display for Hex<'_> {
    ghost output = { λ hex. Some (hex_text hex.0.now) };

    fn fmt<W: fmt::Write>(&self, f: &mut fmt::Formatter<W>) -> fmt::Result {
        if self.0.is_empty() {
            return f.write_str("-");
        }
        // The digits of many bytes in one write, as a write for each byte took several times as long.
        for bytes in self.0.chunks(32) {
            let mut buffer = [0; 64];
            put_digits(bytes, &mut buffer);
            let Ok(digits) = str::from_utf8(&buffer[..2 * bytes.len()]) else {
                unreachable!();
            };
            f.write_str(digits)?;
        }
        Ok(())
    }
}

// Appends the word for bytes: two digits a byte, or `-` for no bytes. One `write!` of what prints, as all `push_` functions are.
pub fn push_hex(out: &mut String, bytes: &[u8]) -> Result<(), AllocError>
    ensures { Appends result (string_bytes out.old) (string_bytes out.new) (hex_text bytes.now) }
{
    write!(out, "{}", Hex(bytes))
}
