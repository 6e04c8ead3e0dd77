ghost use Rattle.std.specs.Prelude.{◌≡◌, ℕ, ◌+◌, ◌^◌, ◌<◌};
ghost use Rattle.refusals.specs.Reading.{keeps};
ghost use Rattle.evidence.specs.Readings.{counted, claim_at};
ghost use Rattle.parts.specs.Picks.{picked};
ghost use Rattle.spdm.specs.Laws.{ReadAsRows};
ghost use Rattle.spdm.specs.Setups.{setup_of};
ghost use Rattle.spdm.specs.Rows.{reading};
ghost use Rattle.spdm.specs.Told.{keeps_limits, refuses_as_reader};

use crate::blocks::read_entry;
use crate::kinds::{Setup, Spdm};
use claims::kinds::{Algorithm, Bytes, Claim};
use evidence::Format;
use parts::kinds::{Part, Pick};
use refusals::Refusal;

impl Spdm {
    // A reader whose claims speak of a class of 1 to 32 bytes, and whose digests are of the algorithm 1, 7 or 8.
    pub fn new(class: &[u8], algorithm: u64) -> Result<Spdm, Refusal>
        ensures { keeps result (λ s. s.setup) ≡ setup_of class.now algorithm }
    {
        let class = Bytes::new(class, 1).ok_or(Refusal::OutOfLimits(0))?;
        let algorithm = Algorithm::try_from(algorithm).map_err(|_| Refusal::OutOfLimits(0))?;
        Ok(Spdm {
            setup: Setup { class, algorithm },
        })
    }
}

// Reads every block of the message, and keeps the claim of a number.
fn walk(setup: &Setup, message: &[u8], wanted: usize) -> Result<Pick<Claim>, Refusal>
    ensures { result ≡ keeps (reading setup.now message.now) (picked wanted) }
{
    let mut last = None;
    let mut pick = Pick {
        seen: 0,
        kept: None,
    };
    let mut rest = Part::whole(message);
    // A loop of its own and not `read_elements`: a row's state holds a claim, and moving it for each block took 2.5 times as long.
    while !rest.is_empty() {
        let entry = read_entry(setup, last, rest)?;
        // In place and not by `note`, which copies the kept claim for each block.
        if pick.seen == wanted {
            pick.kept = Some(entry.claim);
        }
        pick.seen += 1;
        last = Some(entry.index);
        rest = rest.after(entry.size);
    }
    Ok(pick)
}

impl Format for Spdm {
    ghost reads = { λ s. reading s.setup };

    ghost limits = { λ format message. keeps_limits format.setup message format.ok };

    ghost refusals = { λ format message. refuses_as_reader format.setup message };

    fn count(&self, message: &[u8]) -> Result<usize, Refusal>
        ensures value { result ≡ counted (reading self.now.setup message.now) }
        ensures rows { ReadAsRows self.now.setup message.now }
    {
        let pick = walk(&self.setup, message, 0)?;
        Ok(pick.seen)
    }

    fn claim(&self, message: &[u8], n: usize) -> Result<Claim, Refusal>
        ensures value { result ≡ claim_at (reading self.now.setup message.now) n }
        ensures rows { ReadAsRows self.now.setup message.now }
    {
        let pick = walk(&self.setup, message, n)?;
        pick.kept.ok_or(Refusal::NoSuchNumber(pick.seen))
    }
}
