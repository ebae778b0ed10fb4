//! The lookup of a line's first word: one comparison, however many words the table has.
ghost use Rattle.std.specs.Prelude.{◌≡◌};
ghost use Rattle.script_words.specs.Table.{word_of_table};
ghost use Rattle.script_words.specs.Slots.{do_first, slot_of, entry_at};

use crate::verbs::CommandVerb::{CellName, Name, NameCell, NameNumber, NameText, Sub, TwoNames};
use crate::verbs::{
    CellNameVerb, CommandVerb, FirstWord, NameCellVerb, NameNumberVerb, NameTextVerb, NameVerb,
    SettingVerb, TwoNamesVerb, Verb,
};

/// The word's slot, by its length, its second byte and its last one. No two first words have the same: where a new word
/// has that of another, the proof fails, and other factors are to be taken.
fn slot(word: &[u8]) -> usize
    ensures { result ≡ slot_of word.now }
{
    if word.len() < 2 {
        return 0;
    }
    let second = word[1] as usize;
    let last = word[word.len() - 1] as usize;
    (word.len() + 2 * second + 10 * last) % 128
}

fn command(verb: CommandVerb) -> FirstWord
    ensures { result ≡ do_first verb }
{
    FirstWord::Built(Verb::Do(verb))
}

/// The only first word with this slot, and what it is. An empty one stands where there is none.
fn entry(slot: usize) -> (&'static [u8], FirstWord)
    ensures { (result.0.now, result.1) ≡ entry_at slot }
{
    match slot {
        18 => (
            b"setsum".as_slice(),
            command(NameNumber(NameNumberVerb::SetSum)),
        ),
        26 => (
            b"pool".as_slice(),
            FirstWord::Built(Verb::Set(SettingVerb::Pool)),
        ),
        28 => (b"copy".as_slice(), command(TwoNames(TwoNamesVerb::Copy))),
        29 => (b"session".as_slice(), FirstWord::Built(Verb::Session)),
        31 => (
            b"cutback".as_slice(),
            command(NameNumber(NameNumberVerb::CutBack)),
        ),
        46 => (b"join".as_slice(), command(TwoNames(TwoNamesVerb::Join))),
        47 => (b"sum".as_slice(), command(Name(NameVerb::Sum))),
        56 => (b"take".as_slice(), command(CellName(CellNameVerb::Take))),
        62 => (b"find".as_slice(), command(NameText(NameTextVerb::Find))),
        64 => (b"snap".as_slice(), FirstWord::Unbuilt),
        65 => (b"sub".as_slice(), command(Sub)),
        66 => (b"unsnap".as_slice(), FirstWord::Unbuilt),
        70 => (
            b"passes".as_slice(),
            FirstWord::Built(Verb::Set(SettingVerb::Passes)),
        ),
        71 => (b"end".as_slice(), FirstWord::Built(Verb::End)),
        72 => (b"size".as_slice(), command(Name(NameVerb::Size))),
        78 => (
            b"append".as_slice(),
            command(NameText(NameTextVerb::Append)),
        ),
        81 => (b"clear".as_slice(), command(Name(NameVerb::Clear))),
        82 => (b"swap".as_slice(), command(NameCell(NameCellVerb::Swap))),
        83 => (
            b"prepend".as_slice(),
            command(NameText(NameTextVerb::Prepend)),
        ),
        85 => (b"let".as_slice(), command(NameText(NameTextVerb::Let))),
        87 => (
            b"compare".as_slice(),
            command(TwoNames(TwoNamesVerb::Compare)),
        ),
        94 => (b"ends".as_slice(), command(NameText(NameTextVerb::Ends))),
        96 => (b"stride".as_slice(), FirstWord::Unbuilt),
        108 => (
            b"starts".as_slice(),
            command(NameText(NameTextVerb::Starts)),
        ),
        111 => (
            b"joinfront".as_slice(),
            command(TwoNames(TwoNamesVerb::JoinFront)),
        ),
        113 => (b"print".as_slice(), command(Name(NameVerb::Print))),
        114 => (b"at".as_slice(), command(NameNumber(NameNumberVerb::At))),
        116 => (b"walk".as_slice(), FirstWord::Unbuilt),
        117 => (b"put".as_slice(), command(NameCell(NameCellVerb::Put))),
        122 => (
            b"cutfront".as_slice(),
            command(NameNumber(NameNumberVerb::CutFront)),
        ),
        123 => (b"ext".as_slice(), command(NameText(NameTextVerb::Ext))),
        124 => (b"peek".as_slice(), command(CellName(CellNameVerb::Peek))),
        _ => (b"".as_slice(), FirstWord::Unknown),
    }
}

/// What the word is as the first of a line.
pub fn find_verb(word: &[u8]) -> FirstWord
    ensures { result ≡ word_of_table word.now }
{
    let (only, first) = entry(slot(word));
    if word == only {
        first
    } else {
        FirstWord::Unknown
    }
}
