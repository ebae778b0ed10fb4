//! Laws of spellings and faults, for all bytes.
ghost use Rattle.std.specs.Prelude.{◌≡◌, ◌⊎◌, ℕ, List, Ok, Err};
ghost use Rattle.plain_cord.specs.declared.script.Script.{Script as Script_value};
ghost use Rattle.script_reader.specs.declared.fault.ScriptError.{ScriptError as ScriptError_value};
ghost use Rattle.script_reader.specs.Scripts.{read_of};
ghost use Rattle.script_reader.specs.ScriptSpelling.{Spells};
ghost use Rattle.script_reader.specs.Faults.{IsFirstFault};
ghost use Rattle.script_reader.specs.Limits.{IsWithinLimits};
ghost use Rattle.script_reader.specs.CauseLines.{BytesAreTold, CommandsAreTold, UnbuiltAreTold, MisplacedAreTold, OptionsAreTold, DuplicatesAreTold};
ghost use Rattle.script_reader.specs.CauseLines.{SessionsAreCounted, CommandsAreCounted};

/// A script is read back from each of its spellings.
pub fn spelled_script_is_read()
    ensures { (bytes : List ℕ) (s : Script_value) → Spells bytes s → read_of bytes ≡ Ok s }
{}

/// What is read, as a function of the bytes, is spelled so, and a fault is the first one, which is always told.
pub fn readings_are_right()
    ensures script { (bytes : List ℕ) (s : Script_value) → read_of bytes ≡ Ok s → Spells bytes s }
    ensures fault { (bytes : List ℕ) (e : ScriptError_value) → read_of bytes ≡ Err e → IsFirstFault bytes e }
    ensures told { (bytes : List ℕ) (e : ScriptError_value) → IsFirstFault bytes e → read_of bytes ≡ Err e }
{}

/// Spellings of different scripts differ.
pub fn spellings_differ()
    ensures { (bytes : List ℕ) (s : Script_value) (t : Script_value) → Spells bytes s → Spells bytes t → s ≡ t }
{}

/// All bytes spell a script or have a first fault, never both, and one first fault at most.
pub fn fault_or_script()
    ensures one { (bytes : List ℕ) → ((s : Script_value) × Spells bytes s) ⊎ ((e : ScriptError_value) × IsFirstFault bytes e) }
    ensures not_both { (bytes : List ℕ) (s : Script_value) (e : ScriptError_value) → Spells bytes s → IsFirstFault bytes e → ⊥ }
    ensures first { (bytes : List ℕ) (e : ScriptError_value) (f : ScriptError_value) → IsFirstFault bytes e → IsFirstFault bytes f → e ≡ f }
{}

/// A script that is spelled has sound names, texts, numbers and counts.
pub fn spelled_script_is_within_limits()
    ensures { (bytes : List ℕ) (s : Script_value) → Spells bytes s → IsWithinLimits s }
{}

/// A script that is spelled has no stride, since no line that begins with that word is built.
pub fn spelled_script_has_no_stride()
    ensures { (bytes : List ℕ) (s : Script_value) → Spells bytes s → s.stride ≡ 0 }
{}

/// Each cause comes where a line has it, apart from what a reader looks at first: a byte that isn't shown, a first word that is none, one that
/// isn't built, a line out of place, an option or a session's name for the second time, one session and one command too many.
pub fn causes_are_told()
    ensures bytes { BytesAreTold }
    ensures commands { CommandsAreTold }
    ensures unbuilt { UnbuiltAreTold }
    ensures misplaced { MisplacedAreTold }
    ensures options { OptionsAreTold }
    ensures duplicates { DuplicatesAreTold }
    ensures sessions { SessionsAreCounted }
    ensures counts { CommandsAreCounted }
{}
