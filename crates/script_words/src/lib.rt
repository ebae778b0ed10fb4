//! The parts of a script's lines: words, names, numbers and texts, the causes of their faults, and the table of first words.
//! What is read of each is spelled so, and what is spelled so is read.
#![tactic(auto)]

mod fault;
mod lookup;
mod numbers;
mod texts;
mod verbs;
mod words;

pub use fault::{Cause, Refused};
pub use lookup::find_verb;
pub use numbers::read_number;
pub use texts::read_text;
pub use verbs::{
    BareVerb, CellNameVerb, CommandVerb, FirstWord, NameCellVerb, NameNumberVerb, NameTextVerb,
    NameVerb, Setting, SettingVerb, TwoNamesVerb, Verb,
};
pub use words::{
    all_shown, first_part, first_word, is_name, read_name, take_last_word, take_part, take_word,
};

#[cfg(test)]
mod tests;
