//! A set that is asked for, and why it is refused.
#![tactic(auto)]

ghost use Rattle.std.specs.Prelude.{◌≡◌, ◌≢◌, IfSome, option_copied};
ghost use Rattle.variable_store.specs.Sets.{is_bad_name, has_other_bits, lacks_boot_access, is_nothing, is_removal, is_write, is_protected, cannot_be_made, is_barred, is_missed, is_other, need, is_past, refusals, first_refusal};
ghost use Rattle.variable_store.specs.declared.refusal.VarRefusal.TheVariants.{Memory};

use crate::refusal::VarRefusal;
use crate::variable::{Variable, is_append, is_non_volatile, is_runtime};

/// A set, as far as a refusal asks: the units of the name, the attributes, how many bytes there are, and whether boot
/// services are over.
#[derive(Clone, Copy)]
pub struct Asked {
    pub units: usize,
    pub attributes: u32,
    pub size: u64,
    pub runtime: bool,
}

/// No name, or one above 1,024 units.
pub fn is_bad_name(units: usize) -> bool
    ensures { result ≡ is_bad_name units }
{
    units == 0 || units > 1024
}

impl Asked {
    fn has_other_bits(self) -> bool
        ensures { result ≡ has_other_bits self.attributes }
    {
        self.attributes | 0x47 != 0x47
    }

    fn lacks_boot_access(self) -> bool
        ensures { result ≡ lacks_boot_access self.attributes }
    {
        self.attributes & 6 == 4
    }

    /// An append of nothing changes nothing.
    pub fn is_nothing(self) -> bool
        ensures { result ≡ is_nothing self.attributes self.size }
    {
        is_append(self.attributes) && self.size == 0
    }

    /// A set of no bytes removes, and so does one without boot and runtime access, but for an append.
    pub fn is_removal(self) -> bool
        ensures { result ≡ is_removal self.attributes self.size }
    {
        !is_append(self.attributes) && (self.size == 0 || self.attributes & 6 == 0)
    }

    fn is_write(self) -> bool
        ensures { result ≡ is_write self.attributes self.size }
    {
        !self.is_nothing() && !self.is_removal()
    }

    fn is_protected(self, there: Option<&Variable>) -> bool
        ensures { result ≡ is_protected self (option_copied there.entry) }
    {
        match there {
            Some(variable) => {
                !is_non_volatile(variable.attributes) && self.runtime && !self.is_nothing()
            }
            None => false,
        }
    }

    fn is_barred(self, there: Option<&Variable>, hidden: bool) -> bool
        ensures { result ≡ is_barred self (option_copied there.entry) hidden }
    {
        match there {
            Some(_) => false,
            None => self.runtime && self.is_write() && self.cannot_be_made(hidden),
        }
    }

    fn cannot_be_made(self, hidden: bool) -> bool
        ensures { result ≡ cannot_be_made self hidden }
    {
        hidden || !is_non_volatile(self.attributes) || !is_runtime(self.attributes)
    }

    fn is_missed(self, there: Option<&Variable>) -> bool
        ensures { result ≡ is_missed self (option_copied there.entry) }
    {
        match there {
            Some(_) => false,
            None => self.is_removal(),
        }
    }

    fn is_other(self, there: Option<&Variable>) -> bool
        ensures { result ≡ is_other self (option_copied there.entry) }
    {
        match there {
            Some(variable) => variable.attributes != self.attributes & 7 && self.is_write(),
            None => false,
        }
    }

    fn need(self, there: Option<&Variable>) -> u128
        ensures { result ≡ need self (option_copied there.entry) }
    {
        match there {
            Some(variable) => {
                if is_append(self.attributes) {
                    u128::from(self.size)
                } else {
                    u128::from(self.size.saturating_sub(variable.data.len() as u64))
                }
            }
            None => 34 + 2 * self.units as u128 + u128::from(self.size),
        }
    }

    fn is_past(self, there: Option<&Variable>, room: u64) -> bool
        ensures { result ≡ is_past self (option_copied there.entry) room }
    {
        self.is_write() && self.need(there) > u128::from(room)
    }

    /// The first refusal in the order of SetVariable's checks: `there` is the variable that is seen, `hidden` says that
    /// one is there that isn't seen, and `room` is the room that is left.
    pub fn refusal(self, there: Option<&Variable>, hidden: bool, room: u64) -> Option<VarRefusal>
        ensures first { result ≡ first_refusal (refusals self (option_copied there.entry) hidden room) }
        ensures known { IfSome result (λ refusal. refusal ≢ Memory) }
    {
        if is_bad_name(self.units) {
            return Some(VarRefusal::Invalid);
        }
        if self.has_other_bits() {
            return Some(VarRefusal::Unsupported);
        }
        if self.lacks_boot_access() {
            return Some(VarRefusal::Invalid);
        }
        if self.is_protected(there) {
            return Some(VarRefusal::WriteProtected);
        }
        if self.is_barred(there, hidden) {
            return Some(VarRefusal::Invalid);
        }
        if self.is_missed(there) {
            return Some(VarRefusal::NotFound);
        }
        if self.is_other(there) {
            return Some(VarRefusal::Invalid);
        }
        if self.is_past(there, room) {
            return Some(VarRefusal::Full);
        }
        None
    }
}
