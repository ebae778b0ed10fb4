//! What the words after the program's name ask for.
ghost use Rattle.std.specs.Prelude.{◌≡◌, map, string_bytes, IsTrue, ◌↔◌, [], ◌∷◌, IfNone, IfSome};
ghost use Rattle.cord_sessions.specs.Asks.{Asks};
ghost use Rattle.cord_sessions.specs.declared.asked.Asked.{Asked as Asked_value};

/// The commands of the program.
#[derive(Clone, Copy, Debug, PartialEq, Eq)]
pub enum Asked {
    /// Run the script.
    Run,
    /// Tell whether it is well formed.
    Check,
}

/// The command that the words are, if they are one.
pub fn command_of(words: &[String]) -> Option<Asked>
    ensures some { IfSome result (λ command. Asks (map string_bytes words.now) command) }
    ensures none { IfNone result ((command : Asked_value) → ¬ (Asks (map string_bytes words.now) command)) }
{
    if is_word(words, "run") {
        Some(Asked::Run)
    } else if is_word(words, "check") {
        Some(Asked::Check)
    } else {
        None
    }
}

// Whether the words are this one alone.
fn is_word(words: &[String], name: &str) -> bool
    ensures { IsTrue result ↔ (map string_bytes words.now ≡ name.now ∷ []) }
{
    match words {
        [word] => word.as_str() == name,
        _ => false,
    }
}
