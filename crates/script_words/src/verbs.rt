//! The first words of lines by the kinds of what stands behind them, and the command that each makes: a command is described here.
ghost use Rattle.std.specs.Prelude.{◌≡◌, ◌≤◌};
ghost use Rattle.script_words.specs.Table.{least_of, most_of, least_setting, most_setting, name_command, name_text_command, name_number_command};
ghost use Rattle.script_words.specs.Table.{name_cell_command, cell_name_command, two_names_command, bare_command, setting_of};

use plain_cord::{Command, Items, Text};

/// First words with a name behind them.
#[derive(Clone, Copy, Debug, PartialEq, Eq)]
pub enum NameVerb {
    Clear,
    Sum,
    Size,
    Print,
}

/// First words with a name and a text behind them.
#[derive(Clone, Copy, Debug, PartialEq, Eq)]
pub enum NameTextVerb {
    Let,
    Ext,
    Append,
    Prepend,
    Find,
    Starts,
    Ends,
}

/// First words with a name and a number behind them.
#[derive(Clone, Copy, Debug, PartialEq, Eq)]
pub enum NameNumberVerb {
    CutFront,
    CutBack,
    At,
    SetSum,
}

/// First words with a name and a cell behind them.
#[derive(Clone, Copy, Debug, PartialEq, Eq)]
pub enum NameCellVerb {
    Put,
    Swap,
}

/// First words with a cell and a name behind them.
#[derive(Clone, Copy, Debug, PartialEq, Eq)]
pub enum CellNameVerb {
    Take,
    Peek,
}

/// First words with two names behind them.
#[derive(Clone, Copy, Debug, PartialEq, Eq)]
pub enum TwoNamesVerb {
    Copy,
    Join,
    JoinFront,
    Compare,
}

/// First words with nothing behind them.
#[derive(Clone, Copy, Debug, PartialEq, Eq)]
pub enum BareVerb {
    Snap,
    Walk,
    Unsnap,
}

/// First words of commands, by the kinds of what stands behind them.
#[derive(Clone, Copy, Debug, PartialEq, Eq)]
pub enum CommandVerb {
    Name(NameVerb),
    NameText(NameTextVerb),
    NameNumber(NameNumberVerb),
    NameCell(NameCellVerb),
    CellName(CellNameVerb),
    TwoNames(TwoNamesVerb),
    Bare(BareVerb),
    /// A name, two numbers and a name.
    Sub,
}

/// First words of options, with a number behind them.
#[derive(Clone, Copy, Debug, PartialEq, Eq)]
pub enum SettingVerb {
    Pool,
    Passes,
    Stride,
}

/// The first words of lines.
#[derive(Clone, Copy, Debug, PartialEq, Eq)]
pub enum Verb {
    Set(SettingVerb),
    /// A name behind it.
    Session,
    /// Nothing behind it.
    End,
    Do(CommandVerb),
}

/// One of a script's options.
#[derive(Clone, Copy, Debug, PartialEq, Eq)]
pub enum Setting {
    Pool(u32),
    Passes(u32),
    Stride(u32),
}

/// What a first word is.
#[derive(Clone, Copy, Debug, PartialEq, Eq)]
pub enum FirstWord {
    /// No line begins so.
    Unknown,
    /// What lines with this word say isn't built yet.
    Unbuilt,
    Built(Verb),
}

impl NameVerb {
    /// The command on the name.
    pub fn command(self, a: Items<u8>) -> Command
        ensures { result ≡ name_command self a }
    {
        match self {
            NameVerb::Clear => Command::Clear { a },
            NameVerb::Sum => Command::Sum { a },
            NameVerb::Size => Command::Size { a },
            NameVerb::Print => Command::Print { a },
        }
    }
}

impl NameTextVerb {
    /// The least length of the text, in bytes. An external has more than the 15 bytes that a cord without a tree may have.
    pub fn least(self) -> u64
        ensures { result ≡ least_of self }
    {
        match self {
            NameTextVerb::Ext => 16,
            _ => 0,
        }
    }

    /// The command on the name and the text.
    pub fn command(self, a: Items<u8>, text: Text) -> Command
        ensures { result ≡ name_text_command self a text }
    {
        match self {
            NameTextVerb::Let => Command::Let { a, text },
            NameTextVerb::Ext => Command::Ext { a, text },
            NameTextVerb::Append => Command::Append { a, text },
            NameTextVerb::Prepend => Command::Prepend { a, text },
            NameTextVerb::Find => Command::Find { a, text },
            NameTextVerb::Starts => Command::Starts { a, text },
            NameTextVerb::Ends => Command::Ends { a, text },
        }
    }
}

impl NameNumberVerb {
    /// The greatest number that may stand there.
    pub fn most(self) -> u64
        ensures { result ≡ most_of self }
    {
        match self {
            NameNumberVerb::CutFront | NameNumberVerb::CutBack | NameNumberVerb::At => u64::MAX,
            NameNumberVerb::SetSum => 4294967295,
        }
    }

    /// The command on the name and the number.
    pub fn command(self, a: Items<u8>, n: u64) -> Command
        requires { n ≤ most_of self }
        ensures { result ≡ name_number_command self a n }
    {
        match self {
            NameNumberVerb::CutFront => Command::CutFront { a, n },
            NameNumberVerb::CutBack => Command::CutBack { a, n },
            NameNumberVerb::At => Command::At { a, i: n },
            NameNumberVerb::SetSum => Command::SetSum { a, value: n as u32 },
        }
    }
}

impl NameCellVerb {
    /// The command on the name and the cell.
    pub fn command(self, a: Items<u8>, cell: u8) -> Command
        ensures { result ≡ name_cell_command self a cell }
    {
        match self {
            NameCellVerb::Put => Command::Put { a, cell },
            NameCellVerb::Swap => Command::Swap { a, cell },
        }
    }
}

impl CellNameVerb {
    /// The command on the cell and the name.
    pub fn command(self, cell: u8, a: Items<u8>) -> Command
        ensures { result ≡ cell_name_command self cell a }
    {
        match self {
            CellNameVerb::Take => Command::Take { cell, a },
            CellNameVerb::Peek => Command::Peek { cell, a },
        }
    }
}

impl TwoNamesVerb {
    /// The command on the two names.
    pub fn command(self, a: Items<u8>, b: Items<u8>) -> Command
        ensures { result ≡ two_names_command self a b }
    {
        match self {
            TwoNamesVerb::Copy => Command::Copy { a, b },
            TwoNamesVerb::Join => Command::Join { a, b },
            TwoNamesVerb::JoinFront => Command::JoinFront { a, b },
            TwoNamesVerb::Compare => Command::Compare { a, b },
        }
    }
}

impl BareVerb {
    /// The command, which has no arguments.
    pub fn command(self) -> Command
        ensures { result ≡ bare_command self }
    {
        match self {
            BareVerb::Snap => Command::Snap,
            BareVerb::Walk => Command::Walk,
            BareVerb::Unsnap => Command::Unsnap,
        }
    }
}

impl SettingVerb {
    /// The least number that the option may have.
    pub fn least(self) -> u64
        ensures { result ≡ least_setting self }
    {
        match self {
            SettingVerb::Pool | SettingVerb::Passes => 1,
            SettingVerb::Stride => 0,
        }
    }

    /// The greatest number that the option may have.
    pub fn most(self) -> u64
        ensures { result ≡ most_setting self }
    {
        match self {
            SettingVerb::Pool | SettingVerb::Passes => 262144,
            SettingVerb::Stride => 1000000,
        }
    }

    /// The option with its number.
    pub fn setting(self, n: u32) -> Setting
        ensures { result ≡ setting_of self n }
    {
        match self {
            SettingVerb::Pool => Setting::Pool(n),
            SettingVerb::Passes => Setting::Passes(n),
            SettingVerb::Stride => Setting::Stride(n),
        }
    }
}
