ghost use Rattle.std.specs.Prelude.{◌≡◌, ◌≤◌, length};
ghost use Rattle.parts.specs.Numbers.{big, big_of};

// The number that at most eight bytes write, high byte first.
fn big_endian(bytes: &[u8]) -> u64
    requires { length bytes.now ≤ 8 }
    ensures { result ≡ big bytes.now }
{
    let mut n: u64 = 0;
    // A cast, as the bound of the sum is proved of the byte itself.
    for b in bytes {
        n = n * 256 + *b as u64;
    }
    n
}

// The number that bytes write, high byte first; none where they are more than eight.
pub fn read_big(bytes: &[u8]) -> Option<u64>
    ensures { result ≡ big_of bytes.now }
{
    if bytes.len() > 8 {
        return None;
    }
    Some(big_endian(bytes))
}
