//! Outputs of a call, one after another.
#![tactic(auto)]

ghost use Rattle.std.specs.Prelude.{◌≡◌, IfOk, OnOk, OnErr, map, false};
ghost use Rattle.guest_memory.specs.Pages.{rights_at};
ghost use Rattle.guest_memory.specs.Changes.{TouchedBesides};
ghost use Rattle.address_view.specs.Windows.{see};
ghost use Rattle.address_view.specs.Ranges.{lacks_ranges, marked_ranges};
ghost use Rattle.runtime_services.specs.Outputs.{range_of, unless_zero, outputs_written, told, OutputsSeen, OutputsTouched};

use address_view::{
    ByteRange, View, lacks_after, put_touched, ranges_suffice, touch_bytes, touched_pages_suffice,
};
use guest_memory::{GuestMemory, PutEnd};
use service_answer::{Served, gives, lacks_frames};
use std::alloc::{AllocError, Global};
use std::marker::Model;

/// Bytes that are written at an address.
#[derive(Drop)]
pub(crate) struct Output<'a> {
    pub at: u64,
    pub bytes: &'a [u8],
}

impl<'a> Model for Output<'a> {
    ghost use Rattle.runtime_services.specs.Outputs.{OutputBytes};

    ghost Value = { OutputBytes };

    ghost view = { λ o. record { at = o.at; bytes = o.bytes.now } };
}

impl<'a> Output<'a> {
    /// Where it lies.
    pub(crate) fn range(&self) -> ByteRange
        ensures { result ≡ range_of self.now }
    {
        ByteRange {
            at: self.at,
            len: self.bytes.len() as u64,
        }
    }
}

/// An output, unless its address is 0.
pub(crate) fn unless_zero<'a>(at: u64, bytes: &'a [u8]) -> Output<'a>
    ensures { result ≡ unless_zero at bytes.now }
{
    if at == 0 {
        Output { at, bytes: &[] }
    } else {
        Output { at, bytes }
    }
}

/// Touches the pages of outputs, where each of them is seen and frames suffice for all.
fn touch_outputs(
    memory: &mut GuestMemory,
    view: &View,
    outputs: &[Output],
) -> Result<(), AllocError>
    requires seen { OutputsSeen (see view.now) memory.old outputs.now }
    requires frames { lacks_ranges (see view.now) memory.old (map range_of outputs.now) ≡ false }
    ensures ok { OnOk result (memory.new ≡ record memory.old { touched = marked_ranges (see view.now) memory.old.base memory.old.touched (map range_of outputs.now) }) }
    ensures touched { OnOk result (OutputsTouched (see view.now) memory.new outputs.now) }
    ensures err { OnErr result (TouchedBesides memory.old memory.new) }
    ensures rights { rights_at memory.new ≡ rights_at memory.old }
    ensures base { memory.new.base ≡ memory.old.base }
    ensures pages { memory.new.pages ≡ memory.old.pages }
{
    ranges_suffice();
    for output in outputs {
        match touch_bytes(memory, view, output.at, output.bytes.len() as u64) {
            Ok(()) => {}
            Err(PutEnd::Memory) => return Err(AllocError),
            Err(PutEnd::Frames) => unreachable!(),
            Err(PutEnd::Outside) => unreachable!(),
        }
    }
    Ok(())
}

/// Writes outputs one after another, where each of them is seen and its pages are touched.
fn put_outputs(memory: &mut GuestMemory, view: &View, outputs: &[Output])
    requires seen { OutputsSeen (see view.now) memory.old outputs.now }
    requires touched { OutputsTouched (see view.now) memory.old outputs.now }
    ensures written { memory.new ≡ outputs_written (see view.now) memory.old outputs.now }
    ensures rights { rights_at memory.new ≡ rights_at memory.old }
    ensures base { memory.new.base ≡ memory.old.base }
    ensures pages { memory.new.pages ≡ memory.old.pages }
{
    for output in outputs {
        put_touched(memory, view, output.at, output.bytes);
    }
}

/// Gives a value and outputs, each of which is seen; `ranges` are where they lie. Pages are touched first, so that
/// nothing is written where the host lacks memory.
pub(crate) fn tell(
    alloc: Global,
    memory: &mut GuestMemory,
    view: &View,
    value: u64,
    outputs: &[Output],
    ranges: &[ByteRange],
) -> Result<Served, AllocError>
    requires ranges { ranges.now ≡ map range_of outputs.now }
    requires seen { OutputsSeen (see view.now) memory.old outputs.now }
    ensures ok { IfOk result (λ answer. record { answer = answer; memory = memory.new } ≡ told (see view.now) memory.old value outputs.now) }
    ensures err { OnErr result (TouchedBesides memory.old memory.new) }
    ensures rights { rights_at memory.new ≡ rights_at memory.old }
    ensures base { memory.new.base ≡ memory.old.base }
    ensures pages { memory.new.pages ≡ memory.old.pages }
{
    touched_pages_suffice();
    if lacks_after(memory, view, ranges) {
        return Ok(lacks_frames(alloc));
    }
    touch_outputs(memory, view, outputs)?;
    put_outputs(memory, view, outputs);
    Ok(gives(alloc, value))
}
