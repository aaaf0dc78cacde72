//! Names of attributes, by their numbers.
ghost use Rattle.std.specs.Prelude.{◌≡◌, ◌≤◌, ◌<◌, ◌≢◌, ◌↔◌, [], ◌∷◌, ◌++◌, length, slice_get, AllPairs, IsNone, IfSome, IfOk, IsOk, OnOk, OnErr};
ghost use Rattle.blz_value.specs.Members.{Has};
ghost use Rattle.blz_value.specs.Names.{place_of, added};
ghost use Rattle.fd_closure.specs.declared.names.NamesFault.TheVariants.{NoMemory};

use blz_value::{Faithful, Str, copies_of};
use std::alloc::{AllocError, AllocFailed, Global};
use std::marker::Model;
use thiserror::Error;

const MOST_NAMES: usize = 64;

/// Why a name was not added.
#[derive(Debug, Drop, Error)]
pub enum NamesFault {
    /// 64 other names are held.
    #[error("64 other names are held")]
    Full,
    /// Memory ran out.
    #[error("out of memory")]
    NoMemory,
}

impl From<AllocError> for NamesFault {
    ghost from_gives = { λ _ e. e ≡ NoMemory };

    fn from(_: AllocError) -> Self {
        NamesFault::NoMemory
    }
}

impl<T: Drop> From<AllocFailed<T>> for NamesFault {
    ghost from_gives = { λ _ e. e ≡ NoMemory };

    fn from(_: AllocFailed<T>) -> Self {
        NamesFault::NoMemory
    }
}

/// The names of attributes, at most 64 and each once. An attribute's number is the place of its
/// name.
#[derive(Drop)]
pub struct AttrNames {
    names: Vec<Str>,
}

impl Model for AttrNames {
    ghost use Rattle.std.specs.Prelude.{List, ℕ};
    ghost use Rattle.blz_value.specs.Names.{IsNameList};

    ghost Value = { List (List ℕ) };

    ghost view = { λ list. list.names.items };

    ghost invariant = { λ list. IsNameList list.names.items };
}

impl Clone for AttrNames {
    ghost is_clone = { λ one clone. clone ≡ one };

    fn clone(&self) -> Result<AttrNames, AllocError> {
        let names = copies_of(*self.names.allocator(), &self.names)?;
        Ok(AttrNames { names })
    }
}

impl Faithful for AttrNames {
    ghost equal = { λ _ _ same. same };
}

/// The first place at which the name stands, None where it stands nowhere.
fn place_in(names: &[Str], name: &Str) -> Option<usize>
    ensures within { IfSome result (λ place. place < length names.now) }
    ensures computed { result ≡ place_of names.now name.now }
{
    names.iter().position(|held| held.equals(name))
}

impl AttrNames {
    /// The list without a name.
    pub fn new(alloc: Global) -> AttrNames
        ensures { result ≡ [] }
    {
        AttrNames {
            names: Vec::new(alloc),
        }
    }

    /// The names in the order of their numbers.
    pub fn names(&self) -> &[Str]
        ensures all { result.now ≡ self.now }
        ensures few { length self.now ≤ 64 }
        ensures distinct { AllPairs (λ a b. a ≢ b) self.now }
    {
        &self.names
    }

    /// The number of the attribute with this name, None where there is none.
    pub fn find(&self, name: &Str) -> Option<u8>
        ensures place { IfSome result (λ place. slice_get self.now place ≡ Some name.now) }
        ensures none { IsNone result ↔ ¬ Has name.now self.now }
        ensures small { IfSome result (λ place. place < 64) }
        ensures computed { result ≡ place_of self.now name.now }
    {
        place_in(&self.names, name).map(|place| place as u8)
    }

    /// The number of the attribute with this name, which goes last where it is new.
    pub fn add(&mut self, name: &Str) -> Result<u8, NamesFault>
        ensures place { IfOk result (λ place. slice_get self.new place ≡ Some name.now) }
        ensures small { IfOk result (λ place. place < 64) }
        ensures computed { IfOk result (λ place. place_of self.new name.now ≡ Some place) }

        // A name that is held takes no memory.
        ensures held { Has name.now self.old → IsOk result }
        ensures kept { Has name.now self.old → self.new ≡ self.old }
        ensures last { ¬ Has name.now self.old → OnOk result (self.new ≡ self.old ++ name.now ∷ []) }
        ensures list { OnOk result (self.new ≡ added self.old name.now) }

        ensures full { (result ≡ Err NamesFault.Full) ↔ ((length self.old ≡ 64) × ¬ Has name.now self.old) }
        ensures err { OnErr result (self.new ≡ self.old) }
    {
        if let Some(place) = self.find(name) {
            return Ok(place);
        }
        let place = self.names.len();
        if place == MOST_NAMES {
            return Err(NamesFault::Full);
        }
        self.names.push(name.copy()?)?;
        Ok(place as u8)
    }
}
