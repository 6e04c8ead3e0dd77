ghost use Rattle.std.specs.Prelude.{◌≡◌, Some, Ok};
ghost use Rattle.std.specs.Option.{option_map};
ghost use Rattle.script.specs.Commands.{Request, read_spdm_from, read_dice_from, read_from, command_from, blank, remark, skipped, command_of, line_of, Sayable};
ghost use Rattle.script.specs.Complaints.{Tells};
ghost use Rattle.script.specs.Spoken.{spoken};
ghost use Rattle.script.specs.Words.{words_of};

use crate::complaints::Complaint;
use crate::kinds::Command;
use crate::reader::Words;
use crate::words::is_word;
use std::alloc::Global;

// The rest of a `read spdm` command: CLASS ALGORITHM MESSAGE.
fn read_spdm(heap: Global, words: &mut Words) -> Result<Command, Complaint>
    ensures { Tells spoken result (read_spdm_from words.old) }
{
    let class = words.hex(heap)?;
    let algorithm = words.number()?;
    let message = words.hex(heap)?;
    words.end()?;
    Ok(Command::ReadSpdm {
        class,
        algorithm,
        message,
    })
}

// The rest of a `read dice` command: MESSAGE.
fn read_dice(heap: Global, words: &mut Words) -> Result<Command, Complaint>
    ensures { Tells spoken result (read_dice_from words.old) }
{
    let message = words.hex(heap)?;
    words.end()?;
    Ok(Command::ReadDice { message })
}

// The rest of a `read` command, after the word that names the format.
fn read_format(heap: Global, noun: &[u8], words: &mut Words) -> Result<Command, Complaint>
    ensures { Tells spoken result (read_from noun.now words.old) }
{
    if is_word(noun, b"spdm") {
        return read_spdm(heap, words);
    }
    if is_word(noun, b"dice") {
        return read_dice(heap, words);
    }
    Err(Complaint::UnknownCommand)
}

// The command of a line that has one: its first two words name it.
fn read_command(heap: Global, line: &[u8]) -> Result<Command, Complaint>
    ensures { Tells spoken result (command_from (words_of line.now)) }
{
    let mut words = Words::new(line);
    let verb = words.next_word().ok_or(Complaint::UnknownCommand)?;
    let noun = words.next_word().ok_or(Complaint::UnknownCommand)?;
    if is_word(verb, b"read") {
        return read_format(heap, noun, &mut words);
    }
    Err(Complaint::UnknownCommand)
}

// Whether there is nothing but spaces.
fn is_blank(line: &[u8]) -> bool
    ensures { result ≡ blank line.now }
{
    line.iter().all(|c| *c == b' ')
}

// Whether a line begins with `#`.
fn is_remark(line: &[u8]) -> bool
    ensures { result ≡ remark line.now }
{
    line.first() == Some(&b'#')
}

// Whether a line says nothing: it begins with `#`, or is blank.
fn is_skipped(line: &[u8]) -> bool
    ensures { result ≡ skipped line.now }
{
    is_remark(line) || is_blank(line)
}

// The command of a line, or none where the line says nothing. Words stand one space apart. The complaint is the first that is found:
// no command has the first two words, then each word from the left (missing, then unreadable), then a word too many.
#[tactic(auto, using(crate::proofs::Lines::line_back))]
pub fn parse(heap: Global, line: &[u8]) -> Result<Option<Command>, Complaint>
    ensures value { Tells (option_map spoken) result (command_of line.now) }
    ensures law { (asked : Request) → Sayable asked → command_of (line_of asked) ≡ Ok (Some asked) }
{
    if is_skipped(line) {
        return Ok(None);
    }
    let command = read_command(heap, line)?;
    Ok(Some(command))
}

#[cfg(test)]
mod tests {
    use super::*;
    use crate::hex::push_hex;
    use crate::numbers::read_number;
    use std::test::Fail;

    fn complaint(heap: Global, line: &[u8]) -> Option<Complaint> {
        parse(heap, line).err()
    }

    #[test]
    fn reads_a_line(rt: HostRuntime) -> Result<(), Fail> {
        let Some(command) = parse(rt.alloc(), b"read spdm 0aFF 007 -")? else {
            return Err(Fail::new("no command"));
        };
        let Command::ReadSpdm {
            class,
            algorithm,
            message,
        } = command
        else {
            return Err(Fail::new("another command"));
        };
        assert!(rt; is_word(class.as_slice(), b"\x0a\xff"));
        assert_eq!(rt; algorithm, 7);
        assert!(rt; message.is_empty());
        assert!(rt; parse(rt.alloc(), b"read dice 00")?.is_some());
        Ok(())
    }

    #[test]
    fn skips_lines(rt: HostRuntime) -> Result<(), Fail> {
        assert!(rt; parse(rt.alloc(), b"  ")?.is_none());
        assert!(rt; parse(rt.alloc(), b"# read")?.is_none());
        Ok(())
    }

    #[test]
    fn complains(rt: HostRuntime) {
        let heap = rt.alloc();
        assert_eq!(rt; complaint(heap, b"read"), Some(Complaint::UnknownCommand));
        assert_eq!(rt;
            complaint(heap, b"read spdm 00 1"),
            Some(Complaint::MissingWord)
        );
        assert_eq!(rt;
            complaint(heap, b"read spdm 00 1 00 "),
            Some(Complaint::ExtraWord)
        );
        assert_eq!(rt;
            complaint(heap, b"read spdm 000 x"),
            Some(Complaint::BadHex)
        );
        assert_eq!(rt;
            complaint(heap, b"read spdm 00 +1 00"),
            Some(Complaint::BadNumber)
        );
    }

    #[test]
    fn numbers_end(rt: HostRuntime) {
        assert_eq!(rt; read_number(b"18446744073709551615"), Some(u64::MAX));
        assert_eq!(rt; read_number(b"18446744073709551616"), None);
    }

    #[test]
    fn writes_hex(rt: HostRuntime) -> Result<(), Fail> {
        let mut out = String::new(rt.alloc());
        push_hex(&mut out, &[0, 171])?;
        push_hex(&mut out, &[])?;
        assert_eq!(rt; out.as_str(), "00AB-");
        Ok(())
    }
}
