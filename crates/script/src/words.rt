ghost use Rattle.std.specs.Prelude.{◌≡◌, ◌∷◌};
ghost use Rattle.std.specs.Str.{bytes_eq};
ghost use Rattle.script.specs.Rests.{rest_words};
ghost use Rattle.script.specs.Words.{words_of, spaced, Solid};

use crate::kinds::Split;

// Whether both are the same bytes. `==` would want two arrays or two slices; here `b".."` becomes a slice.
pub(crate) fn is_word(word: &[u8], name: &[u8]) -> bool
    ensures { result ≡ bytes_eq word.now name.now }
{
    word == name
}

// The first word of a line, and what follows its space.
pub fn split_word(line: &[u8]) -> Split<'_>
    ensures value { words_of line.now ≡ result.word.now ∷ rest_words result.rest }
    ensures whole { spaced (words_of line.now) ≡ line.now }
    ensures solid { Solid (words_of line.now) }
{
    match line.iter().position(|c| *c == b' ') {
        Some(end) => Split {
            word: &line[..end],
            rest: Some(&line[end + 1..]),
        },
        None => Split {
            word: line,
            rest: None,
        },
    }
}
