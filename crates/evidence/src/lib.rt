#![tactic(auto)]

ghost use Rattle.std.specs.Prelude.{◌≡◌, ℕ, List};
ghost use Rattle.evidence.specs.Readings.{Reading, counted, claim_at, KeepsLimits, RefusesAsReader};

use claims::kinds::Claim;
use refusals::Refusal;

// An evidence format: a fixed reading of every byte string as claims or one refusal.
pub trait Format {
    ghost reads: { Self → List ℕ → Reading };

    // How many claims the message has.
    fn count(&self, message: &[u8]) -> Result<usize, Refusal>
        ensures { result ≡ counted (reads self.now message.now) };

    // The claim of a number, from 0. A message and a question about it, which are two things.
    fn claim(&self, message: &[u8], n: usize) -> Result<Claim, Refusal>
        ensures { result ≡ claim_at (reads self.now message.now) n };

    ghost limits: { (format : Self) (message : List ℕ) → KeepsLimits (reads format message) };

    ghost refusals: { (format : Self) (message : List ℕ) → RefusesAsReader (reads format message) };
}
