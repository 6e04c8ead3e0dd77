ghost use Rattle.std.specs.Prelude.{◌≡◌, ◌≤◌, IfSome};
ghost use Rattle.cbor.specs.Heads.{StandsIn, long_head, head_of};

use crate::kinds::Head;
use parts::numbers::read_big;

// A head whose number stands in the `width` bytes after its first and must be at least `least`.
fn long_head(width: usize, least: u64, bytes: &[u8]) -> Option<Head>
    requires { width ≤ 8 }
    ensures value { result ≡ long_head width least bytes.now }
    ensures within { IfSome result (StandsIn bytes.now) }
{
    let digits = bytes.get(1..1 + width)?;
    let argument = read_big(digits)?;
    if argument < least {
        return None;
    }
    Some(Head {
        major: bytes[0] / 32,
        argument,
        size: 1 + width,
    })
}

// The head at the beginning of some bytes: shortest and definite.
pub(crate) fn head_of(bytes: &[u8]) -> Option<Head>
    ensures value { result ≡ head_of bytes.now }
    ensures within { IfSome result (StandsIn bytes.now) }
{
    let first = *bytes.first()?;
    let info = first % 32;
    if info < 24 {
        return Some(Head {
            major: first / 32,
            argument: u64::from(info),
            size: 1,
        });
    }
    match info {
        24 => long_head(1, 24, bytes),
        25 => long_head(2, 256, bytes),
        26 => long_head(4, 65536, bytes),
        27 => long_head(8, 4294967296, bytes),
        _ => None,
    }
}
