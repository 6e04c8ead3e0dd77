ghost use Rattle.std.specs.Prelude.{◌≡◌, length};
ghost use Rattle.spdm.specs.Examples.{examples, AllReadSo};

// How many worked examples are known, each of which the reading is proved to read as it says.
pub fn worked_examples() -> usize
    ensures number { result ≡ length examples }
    ensures read { AllReadSo }
{
    2
}

#[cfg(test)]
mod tests {
    use crate::kinds::Spdm;
    use evidence::Format;
    use refusals::Refusal;
    use std::test::Fail;

    #[test]
    fn settings(rt: HostRuntime) -> Result<(), Fail> {
        let reader = Spdm::new(b"coin", 1)?;
        let message = b"\x05\x01\x05\x00\x83\x02\x00\x00\xC8";
        assert_eq!(rt; reader.count(message)?, 1);
        let claim = reader.claim(message, 0)?;
        assert_eq!(rt; claim.key, Some(5));
        let Some(raw) = claim.values.raw else {
            return Err(Fail::new("no raw value"));
        };
        assert!(rt; raw.as_slice() == b"\x00\xC8".as_slice());
        let Err(beyond) = reader.claim(message, 1) else {
            return Err(Fail::new("a second claim"));
        };
        assert_eq!(rt; beyond, Refusal::NoSuchNumber(1));
        Ok(())
    }

    #[test]
    fn refusals(rt: HostRuntime) -> Result<(), Fail> {
        let reader = Spdm::new(b"coin", 1)?;
        assert_eq!(rt;
            reader.count(b"\x05\x01\x05\x00\x83\x02\x00\x00"),
            Err(Refusal::Malformed(0))
        );
        assert_eq!(rt;
            reader.count(b"\x05\x01\x04\x00\x83\x01\x00\x78\x05\x01\x04\x00\x83\x01\x00\x78"),
            Err(Refusal::Unknown(8))
        );
        assert_eq!(rt;
            reader.count(b"\x05\x02\x04\x00\x83\x01\x00\x78"),
            Err(Refusal::OutOfLimits(0))
        );
        assert!(rt; Spdm::new(b"", 1).is_err());
        assert!(rt; Spdm::new(b"coin", 2).is_err());
        Ok(())
    }
}
