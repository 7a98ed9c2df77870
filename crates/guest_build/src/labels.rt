//! Where labels stand.
use crate::places::Place;
use std::alloc::{AllocError, Global};
use std::collections::BTreeMap;

/// The places of labels.
#[derive(Drop)]
pub struct Labels {
    pub places: BTreeMap<String, Place>,
}

impl Labels {
    ghost use Rattle.std.specs.Prelude.{◌≡◌, OnOk, List, ℕ, None};
    ghost use Rattle.guest_build.specs.Views.{places_in, or_else, one_label};

    /// No labels.
    pub fn new(alloc: Global) -> Labels
        ensures { (name : List ℕ) → places_in result name ≡ None }
    {
        Labels {
            places: BTreeMap::new(alloc),
        }
    }

    /// Where a label stands.
    pub fn find(&self, name: &str) -> Option<Place>
        ensures { result ≡ places_in self.now name.now }
    {
        self.places.get(name).copied()
    }

    /// Takes a label in, if it isn't there yet.
    pub fn add(&mut self, alloc: Global, name: &str, place: Place) -> Result<(), AllocError>
        ensures { OnOk result ((other : List ℕ) → places_in self.new other ≡ or_else (places_in self.old other) (one_label name.now place other)) }
    {
        if self.places.contains_key(name) {
            return Ok(());
        }
        let key = String::from_str(alloc, name)?;
        self.places.insert(key, place)?;
        Ok(())
    }
}
