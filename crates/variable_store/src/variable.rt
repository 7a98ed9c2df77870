//! One variable.
#![tactic(auto)]

ghost use Rattle.std.specs.Prelude.{◌≡◌, ◌≤◌, ◌&&◌, ◌^◌, OnOk, OnErr};
ghost use Rattle.uh_base.specs.Guid.{IsGuid};
ghost use Rattle.variable_store.specs.Entries.{is_named, is_seen, is_non_volatile, is_runtime, is_append, cost};
ghost use Rattle.variable_store.specs.Sets.{written};
ghost use Rattle.variable_store.specs.Valid.{AreBelow};

use std::alloc::AllocError;
use std::marker::Model;
use uh_base::Guid;

/// EFI_VARIABLE_NON_VOLATILE: the variable outlives the run (UEFI 2.10, section 8.2, GetVariable).
pub const NON_VOLATILE: u32 = 1;

/// EFI_VARIABLE_RUNTIME_ACCESS: the variable is seen after the end of boot services.
pub const RUNTIME_ACCESS: u32 = 4;

/// EFI_VARIABLE_APPEND_WRITE: bytes are put behind those that are there.
pub const APPEND_WRITE: u32 = 0x40;

/// A variable: who owns its name, the units of its name without an end, its attributes, and its data.
#[derive(Debug, Drop)]
pub struct Variable {
    pub vendor: Guid,
    pub name: Vec<u16>,
    pub attributes: u32,
    pub data: Vec<u8>,
}

impl Model for Variable {
    ghost use Rattle.variable_store.specs.Entries.{Entry};

    ghost Value = { Entry };

    ghost view = { λ v. record { vendor = v.vendor; name = v.name.items; attributes = v.attributes; «data» = v.data.items } };
}

/// The variable outlives the run (EFI_VARIABLE_NON_VOLATILE).
pub fn is_non_volatile(attributes: u32) -> bool
    ensures { result ≡ is_non_volatile attributes }
{
    attributes & NON_VOLATILE != 0
}

/// The variable is seen after the end of boot services (EFI_VARIABLE_RUNTIME_ACCESS).
pub fn is_runtime(attributes: u32) -> bool
    ensures { result ≡ is_runtime attributes }
{
    attributes & RUNTIME_ACCESS != 0
}

/// Bytes go behind those that are there (EFI_VARIABLE_APPEND_WRITE).
pub fn is_append(attributes: u32) -> bool
    ensures { result ≡ is_append attributes }
{
    attributes & APPEND_WRITE != 0
}

/// The fields of a GUID fit their types.
pub fn fits(guid: &Guid)
    ensures { IsGuid guid.now }
{
    let Guid {
        d1: _d1,
        d2: _d2,
        d3: _d3,
        d4: _d4,
    } = *guid;
}

/// Units fit their type.
pub fn units_fit(units: &[u16])
    ensures { AreBelow (2 ^ 16) units.now }
{
    let _ = units;
}

/// Bytes fit their type.
pub fn bytes_fit(bytes: &[u8])
    ensures { AreBelow (2 ^ 8) bytes.now }
{
    let _ = bytes;
}

impl Variable {
    /// It has this name of this vendor.
    pub fn is_named(&self, name: &[u16], vendor: &Guid) -> bool
        ensures { result ≡ is_named name.now vendor.now self.now }
    {
        self.vendor.is_same(vendor) && self.name.as_slice() == name
    }

    /// It is seen: after the end of boot services it needs runtime access.
    pub fn is_seen(&self, runtime: bool) -> bool
        ensures { result ≡ is_seen runtime self.now }
    {
        !runtime || is_runtime(self.attributes)
    }

    /// It is seen under a name of a vendor.
    pub fn is_found(&self, name: &[u16], vendor: &Guid, runtime: bool) -> bool
        ensures { result ≡ (is_seen runtime self.now && is_named name.now vendor.now self.now) }
    {
        self.is_seen(runtime) && self.is_named(name, vendor)
    }

    /// Gives it other bytes, or with append more bytes. Where memory is wanting it stays as it was.
    pub fn write(&mut self, attributes: u32, bytes: &[u8]) -> Result<(), AllocError>
        ensures ok { OnOk result (self.new ≡ written attributes bytes.now self.old) }
        ensures err { OnErr result (self.new ≡ self.old) }
    {
        if is_append(attributes) {
            self.data.extend_from_slice(bytes)?;
        } else {
            self.data = Vec::from_slice(*self.data.allocator(), bytes)?;
        }
        Ok(())
    }

    /// What it takes of the room: 32 bytes, two for each unit of its name and for its end, and its bytes.
    pub fn cost(&self) -> u64
        requires { cost self.now ≤ 65_536 }
        ensures { result ≡ cost self.now }
    {
        34 + 2 * self.name.len() as u64 + self.data.len() as u64
    }
}
