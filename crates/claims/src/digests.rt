ghost use Rattle.std.specs.Prelude.{◌≡◌};
ghost use Rattle.claims.specs.Digests.{algorithm_from, has_digest, with_digest};
ghost use Rattle.claims.specs.Limits.{some_digest};
ghost use Rattle.claims.specs.Same.{same_digests};

use crate::kinds::{Algorithm, Bytes, Digests, UnknownAlgorithm};

impl TryFrom<u64> for Algorithm {
    type Error = UnknownAlgorithm;

    ghost try_from_gives = { λ number r. r ≡ algorithm_from number };

    fn try_from(number: u64) -> Result<Algorithm, UnknownAlgorithm> {
        match number {
            1 => Ok(Algorithm::Sha256),
            7 => Ok(Algorithm::Sha384),
            8 => Ok(Algorithm::Sha512),
            _ => Err(UnknownAlgorithm(number)),
        }
    }
}

// Whether some digest is there.
pub(crate) fn has_digest(digests: &Digests) -> bool
    ensures { result ≡ some_digest digests.now }
{
    digests.sha256.is_some() || digests.sha384.is_some() || digests.sha512.is_some()
}

impl Digests {
    // Whether a digest of an algorithm is there.
    pub fn has(&self, algorithm: Algorithm) -> bool
        ensures { result ≡ has_digest self.now algorithm }
    {
        match algorithm {
            Algorithm::Sha256 => self.sha256.is_some(),
            Algorithm::Sha384 => self.sha384.is_some(),
            Algorithm::Sha512 => self.sha512.is_some(),
        }
    }

    // The set with one digest more; none where its bytes are not as many as the algorithm makes.
    pub fn with(self, algorithm: Algorithm, part: &[u8]) -> Option<Digests>
        ensures { result ≡ with_digest self algorithm part.now }
    {
        match algorithm {
            Algorithm::Sha256 => Some(Digests {
                sha256: Some(Bytes::new(part, 32)?),
                ..self
            }),
            Algorithm::Sha384 => Some(Digests {
                sha384: Some(Bytes::new(part, 48)?),
                ..self
            }),
            Algorithm::Sha512 => Some(Digests {
                sha512: Some(Bytes::new(part, 64)?),
                ..self
            }),
        }
    }

    // Whether both have the same digests, by the derived `==`; it stays for the laws it names.
    pub fn is_same(&self, other: &Digests) -> bool
        ensures { result ≡ same_digests self.now other.now }
    {
        self == other
    }
}
