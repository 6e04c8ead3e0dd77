ghost use Rattle.std.specs.Prelude.{◌≡◌, ℕ, ◌+◌, ◌-◌, ◌<◌, ◌≤◌, length, IfSome, nat_lt};
ghost use Rattle.std.specs.List.{position};
ghost use Rattle.der.specs.Heads.{run, long_tag, tag_width, long_size, size_of, head_of};

use crate::kinds::{Head, Size};
use parts::numbers::read_big;
use parts::parts::tail;

// The place of the first byte whose top bit is clear.
fn end_of(bytes: &[u8]) -> Option<usize>
    ensures value { result ≡ position (λ x. nat_lt x 128) bytes.now }
    ensures within { IfSome result (λ i. i < length bytes.now) }
{
    bytes.iter().position(|byte| *byte < 128)
}

// How many bytes there are up to the first whose top bit is clear.
#[tactic(auto, using(crate::proofs::Runs::run_position))]
fn run_of(bytes: &[u8]) -> Option<usize>
    ensures value { result ≡ run bytes.now }
    ensures within { IfSome result (λ n. n ≤ length bytes.now) }
{
    let end = end_of(bytes)?;
    Some(end + 1)
}

// How many bytes a tag of several bytes has after its first.
fn long_tag(bytes: &[u8]) -> Option<usize>
    ensures value { result ≡ long_tag bytes.now }
    ensures within { IfSome result (λ n. n ≤ length bytes.now) }
{
    let first = *bytes.first()?;
    if first < 31 || first == 128 {
        return None;
    }
    run_of(bytes)
}

// How many bytes a tag has.
fn tag_width(bytes: &[u8]) -> Option<usize>
    ensures value { result ≡ tag_width bytes.now }
    ensures within { IfSome result (λ n. (0 < n) × (n ≤ length bytes.now)) }
{
    let first = *bytes.first()?;
    if first % 32 != 31 {
        return Some(1);
    }
    let more = long_tag(tail(bytes, 1))?;
    Some(1 + more)
}

// A length that is written in `width` bytes after its first.
fn long_size(width: usize, bytes: &[u8]) -> Option<Size>
    ensures value { result ≡ long_size width bytes.now }
    ensures within { IfSome result (λ s. s.width ≤ 1 + length bytes.now) }
{
    if width < 1 || width > 8 || width > bytes.len() || bytes[0] < 1 {
        return None;
    }
    let size = read_big(&bytes[..width])?;
    if size < 128 {
        return None;
    }
    Some(Size {
        width: 1 + width,
        size: size as usize,
    })
}

// The length at the beginning of some bytes: definite and shortest.
fn size_of(bytes: &[u8]) -> Option<Size>
    ensures value { result ≡ size_of bytes.now }
    ensures within { IfSome result (λ s. s.width ≤ length bytes.now) }
{
    let first = *bytes.first()?;
    if first < 128 {
        return Some(Size {
            width: 1,
            size: usize::from(first),
        });
    }
    long_size(usize::from(first - 128), tail(bytes, 1))
}

// The item at the beginning of some bytes, where a whole one stands there.
pub(crate) fn head_of(bytes: &[u8]) -> Option<Head>
    ensures value { result ≡ head_of bytes.now }
    ensures within { IfSome result (λ h. (0 < h.header) × (h.header + h.size ≤ length bytes.now)) }
{
    let width = tag_width(bytes)?;
    let size = size_of(tail(bytes, width))?;
    let header = width + size.width;
    if size.size > bytes.len() - header {
        return None;
    }
    Some(Head {
        tag: bytes[0],
        header,
        size: size.size,
    })
}
