//! The names of a session.
ghost use Rattle.std.specs.Prelude.{◌≡◌, IsSome, IsOk, IfNone, IfOk, OnOk, OnErr, List};
ghost use Rattle.std.specs.Option.{option_map};
ghost use Rattle.plain_cord.specs.States.{SameNames, no_names, with_name};
ghost use Rattle.plain_cord.specs.Steps.{IsOutcome};
ghost use Rattle.plain_session.specs.States.{state_of, environment_of};
ghost use Rattle.plain_session.specs.Edits.{Fits, IsFree, change_outcome};

use crate::cord::PlainCord;
use crate::edit::Edit;
use crate::replies::unset;
use plain_cord::Reply;
use std::alloc::{AllocError, Global};
use std::collections::HashMap;
use std::mem;

/// The names that were set, and their cords. The keys are borrowed from the script.
#[derive(Drop)]
pub struct Names<'a> {
    pub(crate) alloc: Global,
    cords: HashMap<&'a [u8], PlainCord>,
}

impl<'a> Names<'a> {
    /// No names.
    pub fn new(alloc: Global) -> Names<'a>
        ensures { SameNames (environment_of result) no_names }
    {
        Names {
            alloc,
            cords: HashMap::new(alloc),
        }
    }

    /// The cord of a name, if it was ever set.
    pub fn find(&self, name: &[u8]) -> Option<&PlainCord>
        ensures { option_map (λ cord. state_of cord.now) result ≡ environment_of self.now name.now }
    {
        self.cords.get(name)
    }

    /// Sets a name; the cord that it had before is dropped. After an error the names are as before.
    pub fn set(&mut self, name: &'a [u8], cord: PlainCord) -> Result<(), AllocError>
        ensures ok { OnOk result (SameNames (environment_of self.new) (with_name (environment_of self.old) name.now (state_of cord))) }
        ensures err { OnErr result (SameNames (environment_of self.new) (environment_of self.old)) }
    {
        self.cords.insert(name, cord)?;
        Ok(())
    }

    /// Does an edit on the cord of a name, if it was ever set. After an error the names are as before.
    pub fn change(&mut self, name: &[u8], edit: Edit<'_>) -> Result<Reply, AllocError>
        requires { Fits edit }
        ensures ok { IfOk result (λ reply. IsOutcome (Some (change_outcome (environment_of self.old) name.now edit.entry)) (environment_of self.new) reply) }
        ensures err { OnErr result (SameNames (environment_of self.new) (environment_of self.old)) }
        ensures free { IsFree edit.entry → IsSome (environment_of self.old name.now) → IsOk result }
    {
        match self.cords.get_mut(name) {
            None => unset(self.alloc, name),
            Some(cord) => cord.change(edit),
        }
    }

    /// Puts a cord in the place of the one that a name has, if it was ever set.
    pub fn exchange(&mut self, name: &[u8], cord: PlainCord) -> Option<PlainCord>
        ensures found { option_map state_of result ≡ environment_of self.old name.now }
        ensures set { IsSome result → SameNames (environment_of self.new) (with_name (environment_of self.old) name.now (state_of cord)) }
        ensures unset { IfNone result (SameNames (environment_of self.new) (environment_of self.old)) }
    {
        match self.cords.get_mut(name) {
            None => None,
            Some(place) => Some(mem::replace(place, cord)),
        }
    }
}
