ghost use Rattle.std.specs.Prelude.{◌≡◌};
ghost use Rattle.refusals.specs.Reading.{admitted, above};

use crate::Refusal;

// Whether a message may be read at all: it has 1 to 65,535 bytes.
pub fn admit(message: &[u8]) -> Result<(), Refusal>
    ensures { result ≡ admitted message.now }
{
    if message.is_empty() {
        return Err(Refusal::MessageEmpty);
    }
    if message.len() > 65535 {
        return Err(Refusal::MessageTooLong);
    }
    Ok(())
}

// Whether a number is above the one before it, if there is one.
pub fn rises(last: Option<u64>, number: u64) -> bool
    ensures { result ≡ above last number }
{
    last.is_none_or(|before| before < number)
}

#[cfg(test)]
mod tests {
    use super::*;
    use std::test::Fail;

    #[test]
    fn lengths(rt: HostRuntime) -> Result<(), Fail> {
        let longest = vec![in rt.alloc(); 0u8; 65535]?;
        assert_eq!(rt; admit(longest.as_slice()), Ok(()));
        let longer = vec![in rt.alloc(); 0u8; 65536]?;
        assert_eq!(rt; admit(longer.as_slice()), Err(Refusal::MessageTooLong));
        assert_eq!(rt; admit(b""), Err(Refusal::MessageEmpty));
        Ok(())
    }
}
