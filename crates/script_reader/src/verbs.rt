//! The first words of lines.
ghost use Rattle.std.specs.Prelude.{Ok};
ghost use Rattle.std.specs.Option.{option_map};
ghost use Rattle.script_words.specs.Reading.{Gives, NeedsNoMemory};
ghost use Rattle.script_reader.specs.Worded.{begun_at};

use script_words::{Cause, FirstWord, Refused, Verb, find_verb, first_word};

/// The first word of a line, and what stands behind its space.
#[tactic(auto, unfolding(crate::specs::Worded::begun_at))]
pub fn read_verb(line: &[u8]) -> Result<(Verb, Option<&[u8]>), Refused>
    ensures value { Gives (λ x. (x.0, option_map (λ rest. rest.now) x.1)) result (begun_at line.now) }
    ensures free { NeedsNoMemory result }
{
    let (word, rest) = first_word(line);
    match find_verb(word) {
        FirstWord::Unknown => Err(Refused::Fault(Cause::Command)),
        FirstWord::Unbuilt => Err(Refused::Fault(Cause::Unbuilt)),
        FirstWord::Built(verb) => Ok((verb, rest)),
    }
}
