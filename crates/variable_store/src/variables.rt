//! The variables.
#![tactic(auto)]

ghost use Rattle.std.specs.Prelude.{◌≡◌, ◌≢◌, ◌<◌, ◌≤◌, ◌+◌, ◌++◌, [], ◌∷◌, length, remove, IfSome, IfNone, IfOk, OnOk, OnErr, Some, None, Ok, slice_get};
ghost use Rattle.uh_base.specs.Answers.{Reads};
ghost use Rattle.variable_store.specs.Entries.{room_of, place_of, next_of};
ghost use Rattle.variable_store.specs.Sets.{refusals, first_refusal, entry_at, refusal_of, new_entry, changed_at, written, set_of, Gives};
ghost use Rattle.variable_store.specs.Valid.{AreVariables};
ghost use Rattle.variable_store.specs.Store.{store_of};
ghost use Rattle.variable_store.specs.Reading.{store_in, named};
ghost use Rattle.variable_store.specs.declared.refusal.VarRefusal.TheVariants.{Memory};

use crate::asked::Asked;
use crate::fault::StoreFault;
use crate::places::Found;
use crate::refusal::VarRefusal;
use crate::variable::{Variable, fits};
use crate::{loading, places, saving};
use std::alloc::{AllocError, Global};
use std::marker::Model;
use uh_base::Guid;

/// What all variables may cost.
const LIMIT: u64 = 65_536;

/// The variables, in the order in which they were made (UEFI 2.10, section 8.2, Variable Services).
#[derive(Drop)]
pub struct Variables {
    entries: Vec<Variable>,
    used: u64,
}

impl Model for Variables {
    ghost use Rattle.std.specs.Prelude.{◌≡◌, List};
    ghost use Rattle.variable_store.specs.Entries.{Entry, total};
    ghost use Rattle.variable_store.specs.Valid.{AreVariables};

    ghost Value = { List Entry };

    ghost view = { λ v. v.entries.items };

    ghost invariant = { λ v. AreVariables v.entries.items × (v.used ≡ total v.entries.items) };
}

impl Variables {
    /// No variables. It takes no memory.
    pub fn new(alloc: Global) -> Variables
        ensures { result ≡ [] }
    {
        Variables {
            entries: Vec::new(alloc),
            used: 0,
        }
    }

    /// What is so of all variables.
    pub fn whole(&self)
        ensures { AreVariables self.now }
    {
        let _ = &self.used;
    }

    /// The place of the variable with a name of a vendor. After the end of boot services, where `runtime` is true,
    /// variables without runtime access aren't seen. None exactly where no variable is seen.
    pub fn find(&self, name: &[u16], vendor: &Guid, runtime: bool) -> Option<usize>
        ensures place { result ≡ place_of self.now name.now vendor.now runtime }
        ensures inside { IfSome result (λ place. place < length self.now) }
    {
        places::place_of(&self.entries, name, vendor, runtime)
    }

    /// The variable at a place. None exactly past the last.
    pub fn at(&self, index: usize) -> Option<&Variable>
        ensures some { IfSome result (λ variable. slice_get self.now index ≡ Some variable.now) }
        ensures none { IfNone result (slice_get self.now index ≡ None) }
    {
        self.entries.get(index)
    }

    /// The room that is left, in bytes.
    #[tactic(auto, unfolding(crate::specs::Entries::room_of))]
    pub fn room(&self) -> u64
        ensures { result ≡ room_of self.now }
    {
        LIMIT - self.used
    }

    /// The place of the next variable that is seen behind the one with a name of a vendor, or of the first where the name
    /// is empty (UEFI 2.10, section 8.2, GetNextVariableName). `Invalid` exactly where the name isn't empty and no
    /// variable with it is seen.
    #[tactic(auto, unfolding(crate::specs::Entries::next_of))]
    pub fn next_index(
        &self,
        name: &[u16],
        vendor: &Guid,
        runtime: bool,
    ) -> Result<Option<usize>, VarRefusal>
        ensures { result ≡ next_of self.now name.now vendor.now runtime }
    {
        if name.is_empty() {
            return Ok(places::seen_from(&self.entries, runtime, 0));
        }
        match self.find(name, vendor, runtime) {
            Some(place) => Ok(places::seen_from(&self.entries, runtime, place + 1)),
            None => Err(VarRefusal::Invalid),
        }
    }

    /// Why a set of so many bytes is refused, in the order of SetVariable's checks. None exactly where it isn't.
    #[tactic(auto, unfolding(crate::specs::Sets::refusal_of))]
    pub fn refusal(
        &self,
        name: &[u16],
        vendor: &Guid,
        attributes: u32,
        size: u64,
        runtime: bool,
    ) -> Option<VarRefusal>
        ensures first { result ≡ refusal_of self.now name.now vendor.now attributes size runtime }
        ensures known { IfSome result (λ refusal. refusal ≢ Memory) }
    {
        let asked = Asked {
            units: name.len(),
            attributes,
            size,
            runtime,
        };
        self.refusal_at(places::look(&self.entries, name, vendor, runtime), asked)
    }

    /// Why a set is refused, by what is found under its name.
    fn refusal_at(&self, found: Found, asked: Asked) -> Option<VarRefusal>
        ensures first { result ≡ first_refusal (refusals asked (entry_at self.now found.seen) found.is_there (room_of self.now)) }
        ensures known { IfSome result (λ refusal. refusal ≢ Memory) }
    {
        let there = match found.seen {
            Some(place) => self.at(place),
            None => None,
        };
        asked.refusal(there, found.is_there, self.room())
    }

    /// Puts a variable behind the others.
    pub(crate) fn push(&mut self, variable: Variable) -> Result<(), AllocError>
        requires { AreVariables (self.old ++ variable ∷ []) }
        ensures ok { OnOk result (self.new ≡ self.old ++ variable ∷ []) }
        ensures err { OnErr result (self.new ≡ self.old) }
    {
        let cost = variable.cost();
        self.entries.push(variable)?;
        self.used += cost;
        Ok(())
    }

    /// Puts a new variable behind the others.
    fn add(
        &mut self,
        name: &[u16],
        vendor: &Guid,
        attributes: u32,
        bytes: &[u8],
    ) -> Result<(), AllocError>
        requires { AreVariables (self.old ++ new_entry name.now vendor.now attributes bytes.now ∷ []) }
        ensures ok { OnOk result (self.new ≡ self.old ++ new_entry name.now vendor.now attributes bytes.now ∷ []) }
        ensures err { OnErr result (self.new ≡ self.old) }
    {
        let alloc = *self.entries.allocator();
        let variable = Variable {
            vendor: *vendor,
            name: Vec::from_slice(alloc, name)?,
            attributes: attributes & 7,
            data: Vec::from_slice(alloc, bytes)?,
        };
        self.push(variable)
    }

    /// Gives a variable other bytes, or more.
    fn change(&mut self, index: usize, attributes: u32, bytes: &[u8]) -> Result<(), AllocError>
        requires inside { index < length self.old }
        requires valid { AreVariables (changed_at (written attributes bytes.now) self.old index) }
        ensures ok { OnOk result (self.new ≡ changed_at (written attributes bytes.now) self.old index) }
        ensures err { OnErr result (self.new ≡ self.old) }
    {
        let variable = &mut self.entries[index];
        let before = variable.cost();
        variable.write(attributes, bytes)?;
        let after = variable.cost();
        self.used = self.used - before + after;
        Ok(())
    }

    /// Takes a variable away.
    fn remove(&mut self, index: usize)
        requires { index < length self.old }
        ensures { self.new ≡ remove self.old index }
    {
        let variable = self.entries.remove(index);
        self.used -= variable.cost();
    }

    /// Makes a set that isn't refused, of the variable at a place, or of one that isn't seen.
    fn accept(
        &mut self,
        place: Option<usize>,
        name: &[u16],
        vendor: &Guid,
        attributes: u32,
        bytes: &[u8],
        runtime: bool,
    ) -> Result<(), AllocError>
        requires place { place ≡ place_of self.old name.now vendor.now runtime }
        requires inside { IfSome place (λ index. index < length self.old) }
        requires free { refusal_of self.old name.now vendor.now attributes (length bytes.now) runtime ≡ None }
        ensures ok { OnOk result (set_of self.old name.now vendor.now attributes bytes.now runtime ≡ Ok self.new) }
        ensures err { OnErr result (self.new ≡ self.old) }
    {
        self.whole();
        fits(vendor);
        let asked = Asked {
            units: name.len(),
            attributes,
            size: bytes.len() as u64,
            runtime,
        };
        if asked.is_nothing() {
            return Ok(());
        }
        if asked.is_removal() {
            return match place {
                Some(index) => {
                    self.remove(index);
                    Ok(())
                }
                None => Ok(()),
            };
        }
        match place {
            Some(index) => self.change(index, attributes, bytes),
            None => self.add(name, vendor, attributes, bytes),
        }
    }

    /// Sets a variable (UEFI 2.10, section 8.2, SetVariable): with append, bytes are put behind those that are there;
    /// else a set of no bytes, or one without boot and runtime access, removes the variable; else its bytes are
    /// replaced. A new variable stands last. `runtime` is true after the end of boot services. For the refusals and their
    /// order see docs/variables.md; after each of them the variables are as before.
    pub fn set(
        &mut self,
        name: &[u16],
        vendor: &Guid,
        attributes: u32,
        bytes: &[u8],
        runtime: bool,
    ) -> Result<(), VarRefusal>
        ensures { Gives result (set_of self.old name.now vendor.now attributes bytes.now runtime) self.old self.new }
    {
        let asked = Asked {
            units: name.len(),
            attributes,
            size: bytes.len() as u64,
            runtime,
        };
        let found = places::look(&self.entries, name, vendor, runtime);
        match self.refusal_at(found, asked) {
            Some(refusal) => Err(refusal),
            None => match self.accept(found.seen, name, vendor, attributes, bytes, runtime) {
                Ok(()) => Ok(()),
                Err(_) => Err(VarRefusal::Memory),
            },
        }
    }

    /// The store file of the variables that outlive a run: `UVS1`, how many there are as four bytes, and for each its
    /// vendor's 16 bytes, its attributes, the units of its name and the bytes of its data as four bytes each, the
    /// name's units and the data. Numbers have their least byte first.
    pub fn save(&self) -> Result<Vec<u8>, AllocError>
        ensures { IfOk result (λ bytes. bytes.items ≡ store_of self.now) }
    {
        saving::store(*self.entries.allocator(), &self.entries)
    }

    /// The variables of a store file. A fault is the first field, by its offset, that is cut, out of its limits, repeated
    /// or behind the last variable: the four letters, the count, and of each variable the vendor, the attributes
    /// (non-volatile, and runtime access only with boot access), the units of the name (1 to 1,024), the bytes of the
    /// data (some, and the variable fits in the room that is left), the name (none before is of the same vendor and
    /// name), and the data.
    pub fn load(alloc: Global, bytes: &[u8]) -> Result<Variables, StoreFault>
        ensures { Reads named (λ variables. variables) result (store_in bytes.now) }
    {
        loading::load(alloc, bytes)
    }
}
