ghost use Rattle.std.specs.Prelude.{◌≡◌, string_bytes};
ghost use Rattle.std.specs.Option.{option_map};
ghost use Rattle.script.specs.Complaints.{Tells};
ghost use Rattle.script.specs.Spoken.{spoken};
ghost use Rattle.script.specs.Texts.{Appends};
ghost use Rattle.session.specs.Answers.{answer_of, line_answer};

use crate::readings::push_reading;
use dice::kinds::Dice;
use script::commands::parse;
use script::complaints::Complaint;
use script::kinds::Command;
use spdm::kinds::Spdm;
use std::alloc::{AllocError, Global};
use text::refusal::push_refusal;

// Appends the answer to a command, which is one `write!` of what prints.
pub fn push_answer(out: &mut String, command: &Command) -> Result<(), AllocError>
    ensures { Appends result (string_bytes out.old) (string_bytes out.new) (answer_of (spoken command.now)) }
{
    match command {
        Command::ReadSpdm {
            class,
            algorithm,
            message,
        } => match Spdm::new(class.as_slice(), *algorithm) {
            Ok(format) => push_reading(out, &format, message.as_slice()),
            Err(refusal) => push_refusal(out, refusal),
        },
        Command::ReadDice { message } => push_reading(out, &Dice, message.as_slice()),
    }
}

// The answer to a line of the command language, if it asks for anything; or what is wrong with it.
pub fn answer(heap: Global, line: &[u8]) -> Result<Option<String>, Complaint>
    ensures { Tells (option_map string_bytes) result (line_answer line.now) }
{
    // No `map`, as its closure would give a Result inside the Option.
    let Some(command) = parse(heap, line)? else {
        return Ok(None);
    };
    let mut out = String::new(heap);
    push_answer(&mut out, &command)?;
    Ok(Some(out))
}
