//! The names.
ghost use Rattle.std.specs.Prelude.{◌≡◌, ◌+◌, ℕ, List, [], ◌∷◌, Option, Some, None, All, sum_by, IfOk, IfErr, IfSome, IfNone, if◌then◌else◌};
ghost use Rattle.std.specs.Option.{option_copied, option_map_or};
ghost use Rattle.std.specs.Str.{bytes_eq};

use std::alloc::{AllocFailed, Global};
use std::collections::BTreeMap;
use std::mem;

/// The names that were set, in the order of their bytes, and their values. The keys are borrowed, so setting a name copies no
/// name. A value need be neither `Drop` nor `Clone`: whatever leaves the names is handed out.
#[derive(Drop)]
pub struct Names<'a, X> {
    values: BTreeMap<&'a [u8], X>,
}

impl<'a, X> Names<'a, X> {
    ghost use Rattle.ordered_names.specs.Named.{named, names_in, all_in, IsBefore};

    /// No names. Memory is taken by `set` alone.
    pub fn new(alloc: Global) -> Names<'a, X>
        ensures none { (q : List ℕ) → named result q ≡ None }
        ensures names { names_in result ≡ [] }
        ensures values { all_in result ≡ [] }
    {
        Names {
            values: BTreeMap::new(alloc),
        }
    }

    /// The value of a name, if it was ever set.
    pub fn find(&self, name: &[u8]) -> Option<&X>
        ensures { option_copied result ≡ named self.now name.now }
    {
        self.values.get(name)
    }

    /// Sets a name, and gives what it stood for. Want of memory gives the value back, and the names are as before.
    pub fn set(&mut self, name: &'a [u8], value: X) -> Result<Option<X>, X>
        ensures old { IfOk result (λ old. old ≡ named self.old name.now) }
        ensures set { IfOk result (λ _. (q : List ℕ) → named self.new q ≡ (if bytes_eq name.now q then Some value else named self.old q)) }
        ensures weights { IfOk result (λ old. (h : X → ℕ) → sum_by h (all_in self.new) + option_map_or h old 0 ≡ sum_by h (all_in self.old) + h value) }
        ensures back { IfErr result (λ back. back ≡ value) }
        ensures same { IfErr result (λ _. (q : List ℕ) → named self.new q ≡ named self.old q) }
        ensures kept { IfErr result (λ _. (names_in self.new ≡ names_in self.old) × (all_in self.new ≡ all_in self.old)) }
    {
        match self.values.insert(name, value) {
            Ok(old) => Ok(old),
            Err(AllocFailed { value: (_, value) }) => Err(value),
        }
    }

    /// Puts a value in the place of the one that a name has, and gives that. A value for a name that was never set comes back.
    /// No memory is taken.
    pub fn exchange(&mut self, name: &[u8], value: X) -> Result<X, X>
        ensures old { IfOk result (λ old. named self.old name.now ≡ Some old) }
        ensures set { IfOk result (λ _. (q : List ℕ) → named self.new q ≡ (if bytes_eq name.now q then Some value else named self.old q)) }
        ensures names { IfOk result (λ _. names_in self.new ≡ names_in self.old) }
        ensures weights { IfOk result (λ old. (h : X → ℕ) → sum_by h (all_in self.new) + h old ≡ sum_by h (all_in self.old) + h value) }
        ensures back { IfErr result (λ back. back ≡ value) }
        ensures unset { IfErr result (λ _. named self.old name.now ≡ None) }
        ensures same { IfErr result (λ _. (q : List ℕ) → named self.new q ≡ named self.old q) }
        ensures kept { IfErr result (λ _. (names_in self.new ≡ names_in self.old) × (all_in self.new ≡ all_in self.old)) }
    {
        match self.values.get_mut(name) {
            None => Err(value),
            Some(place) => Ok(mem::replace(place, value)),
        }
    }

    /// Takes the least name out with its value, if there is one. No memory is taken.
    pub fn pop(&mut self) -> Option<(&'a [u8], X)>
        ensures value { IfSome result (λ e. named self.old e.0.now ≡ Some e.1) }
        ensures least { IfSome result (λ e. All (IsBefore e.0.now) (names_in self.new)) }
        ensures set { IfSome result (λ e. (q : List ℕ) → named self.new q ≡ (if bytes_eq e.0.now q then None else named self.old q)) }
        ensures names { IfSome result (λ e. names_in self.old ≡ e.0.now ∷ names_in self.new) }
        ensures values { IfSome result (λ e. all_in self.old ≡ e.1 ∷ all_in self.new) }
        ensures none { IfNone result ((q : List ℕ) → named self.old q ≡ None) }
        ensures empty { IfNone result ((names_in self.new ≡ []) × (all_in self.new ≡ [])) }
        ensures kept { IfNone result ((names_in self.old ≡ []) × (all_in self.old ≡ [])) }
    {
        match self.values.pop_first() {
            None => None,
            Some((name, value)) => Some((name, value)),
        }
    }
}
