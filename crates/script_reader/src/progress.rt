//! What lines say, and what was read so far.
ghost use Rattle.std.specs.Prelude.{◌≡◌, ◌++◌, ◌∷◌, [], Ok, Err, OnOk, OnErr};
ghost use Rattle.std.specs.List.{list_any};
ghost use Rattle.script_words.specs.declared.fault.Refused.TheVariants.{Memory};
ghost use Rattle.script_words.specs.Reading.{Gives};
ghost use Rattle.script_reader.specs.declared.progress.Item.TheVariants as items;
ghost use Rattle.script_reader.specs.Goes.{Goes};
ghost use Rattle.script_reader.specs.Scripts.{is_fresh, is_placed, is_called, chosen, entered};

use plain_cord::{Command, Items, Session};
use script_words::{Cause, Refused, Setting, Verb};
use std::alloc::Global;

/// What a line says.
#[derive(Debug, Drop)]
pub enum Item {
    Set(Setting),
    Begin(Items<u8>),
    Do(Command),
    End,
}

/// The options that were given so far.
#[derive(Clone, Copy, Debug, PartialEq, Eq)]
pub struct Settings {
    pub pool: Option<u32>,
    pub passes: Option<u32>,
    pub stride: Option<u32>,
}

/// What was read so far: the options, the sessions that have ended, the one that hasn't, and the number of commands in all.
#[derive(Debug, Drop)]
pub struct Progress {
    pub settings: Settings,
    pub done: Items<Session>,
    pub current: Option<Session>,
    pub commands: u32,
}

/// Whether no session has begun.
fn is_before_sessions(progress: &Progress) -> bool
    ensures { result ≡ is_fresh progress.now }
{
    progress.current.is_none() && progress.done.len() == 0
}

/// Whether a line with this first word may stand there: an option before the sessions, a command in one.
pub fn may_stand(progress: &Progress, verb: Verb) -> bool
    ensures { result ≡ is_placed progress.now verb }
{
    match verb {
        Verb::Set(_) => is_before_sessions(progress),
        Verb::Session => progress.current.is_none(),
        Verb::End | Verb::Do(_) => progress.current.is_some(),
    }
}

fn has_name(sessions: &[Session], name: &[u8]) -> bool
    ensures { result ≡ list_any (is_called name.now) sessions.now }
{
    for session in sessions {
        if session.name.as_slice() == name {
            return true;
        }
    }
    false
}

/// Adds an option, if it isn't given yet.
#[tactic(auto, unfolding(crate::specs::Scripts::chosen))]
fn choose(settings: Settings, setting: Setting) -> Result<Settings, Refused>
    ensures { Gives (λ s. s) result (chosen settings setting) }
{
    let Settings {
        pool,
        passes,
        stride,
    } = settings;
    match setting {
        Setting::Pool(n) => match pool {
            None => Ok(Settings {
                pool: Some(n),
                passes,
                stride,
            }),
            Some(_) => Err(Refused::Fault(Cause::Duplicate)),
        },
        Setting::Passes(n) => match passes {
            None => Ok(Settings {
                pool,
                passes: Some(n),
                stride,
            }),
            Some(_) => Err(Refused::Fault(Cause::Duplicate)),
        },
        Setting::Stride(n) => match stride {
            None => Ok(Settings {
                pool,
                passes,
                stride: Some(n),
            }),
            Some(_) => Err(Refused::Fault(Cause::Duplicate)),
        },
    }
}

/// Begins a session, if its name is new and there are fewer than 16.
#[tactic(auto, unfolding(crate::specs::Scripts::entered))]
fn begin_session(alloc: Global, progress: &mut Progress, name: Items<u8>) -> Result<(), Refused>
    ensures { Goes result progress.new (entered progress.old (items.Begin name)) }
{
    if has_name(progress.done.as_slice(), name.as_slice()) {
        return Err(Refused::Fault(Cause::Duplicate));
    }
    if progress.done.len() >= 16 {
        return Err(Refused::Fault(Cause::Many));
    }
    progress.current = Some(Session {
        name,
        commands: Items::new(alloc),
    });
    Ok(())
}

/// Adds a command to a session.
fn add_to(session: &mut Session, command: Command) -> Result<(), Refused>
    ensures ok { OnOk result (session.new ≡ record session.old { commands = session.old.commands ++ command ∷ [] }) }
    ensures err { OnErr result (result ≡ Err Memory) }
{
    session.commands.push(command)?;
    Ok(())
}

/// Adds a command to the open session, in place, if there are fewer than 16,384 in all.
#[tactic(auto, unfolding(crate::specs::Scripts::entered))]
fn add_command(progress: &mut Progress, command: Command) -> Result<(), Refused>
    ensures { Goes result progress.new (entered progress.old (items.Do command)) }
{
    let count = progress.commands;
    match &mut progress.current {
        None => Err(Refused::Fault(Cause::Misplaced)),
        Some(session) => {
            if count >= 16384 {
                return Err(Refused::Fault(Cause::Many));
            }
            add_to(session, command)?;
            progress.commands = count + 1;
            Ok(())
        }
    }
}

/// Ends the open session.
#[tactic(auto, unfolding(crate::specs::Scripts::entered))]
fn end_session(progress: &mut Progress) -> Result<(), Refused>
    ensures { Goes result progress.new (entered progress.old items.End) }
{
    let Some(session) = progress.current.take() else {
        return Err(Refused::Fault(Cause::Misplaced));
    };
    progress.done.push(session)?;
    Ok(())
}

/// Adds what a line says to what was read before.
#[tactic(auto, unfolding(crate::specs::Scripts::entered))]
pub fn enter(alloc: Global, progress: &mut Progress, item: Item) -> Result<(), Refused>
    ensures { Goes result progress.new (entered progress.old item) }
{
    match item {
        Item::Set(setting) => {
            progress.settings = choose(progress.settings, setting)?;
            Ok(())
        }
        Item::Begin(name) => begin_session(alloc, progress, name),
        Item::Do(command) => add_command(progress, command),
        Item::End => end_session(progress),
    }
}
