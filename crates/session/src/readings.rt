ghost use Rattle.std.specs.Prelude.{◌≡◌, Some, length, string_bytes};
ghost use Rattle.refusals.specs.Reading.{keeps};
ghost use Rattle.script.specs.Texts.{Appends};
ghost use Rattle.session.specs.Readings.{heard_by, reading_text};

use evidence::Format;
use refusals::Refusal;
use refusals::reading::admit;
use std::alloc::AllocError;
use std::fmt;
use text::claim::ClaimText;

// A message and the format to read it by. It prints as what comes of that: how many claims the message has, and each of them on a line of its own;
// or the refusal.
#[derive(Drop)]
struct Reading<'a, F> {
    format: &'a F,
    message: &'a [u8],
}

impl<F: Format> Reading<'_, F> {
    // How many claims the message has, which is of a length that may be read.
    fn count(&self) -> Result<usize, Refusal>
        ensures { result ≡ keeps (heard_by (F.reads self.now.format.now) self.now.message.now) length }
    {
        admit(self.message)?;
        self.format.count(self.message)
    }
}

impl<F: Format> fmt::Display for Reading<'_, F> {
    ghost output = { λ r. Some (reading_text (heard_by (F.reads r.format.now) r.message.now)) };

    fn fmt<W: fmt::Write>(&self, f: &mut fmt::Formatter<W>) -> fmt::Result {
        let count = match self.count() {
            Ok(count) => count,
            Err(refusal) => return write!(f, "{refusal}"),
        };
        write!(f, "read: {count} claims")?;
        for n in 0..count {
            // A format gives its claims by number, and each number below the count has one.
            let Ok(claim) = self.format.claim(self.message, n) else {
                unreachable!();
            };
            write!(f, "\n {}", ClaimText(&claim))?;
        }
        Ok(())
    }
}

// Appends what comes of reading a message: how many claims it has, and each of them; or the refusal. One `write!` of what prints.
pub fn push_reading<F: Format>(
    out: &mut String,
    format: &F,
    message: &[u8],
) -> Result<(), AllocError>
    ensures { Appends result (string_bytes out.old) (string_bytes out.new) (reading_text (heard_by (F.reads format.now) message.now)) }
{
    write!(out, "{}", Reading { format, message })
}
