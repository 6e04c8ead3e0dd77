ghost use Rattle.std.specs.Prelude.{◌≡◌, string_bytes};
ghost use Rattle.text.specs.Refusals.{refusal_text};
ghost use Rattle.script.specs.Texts.{Appends};

use refusals::Refusal;
use std::alloc::AllocError;

// Appends what a refusal says: its number, its layer and its place. One `write!` of what prints.
pub fn push_refusal(out: &mut String, refusal: Refusal) -> Result<(), AllocError>
    ensures { Appends result (string_bytes out.old) (string_bytes out.new) (refusal_text refusal) }
{
    write!(out, "{refusal}")
}
