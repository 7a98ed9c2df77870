//! The fault that a text may be the text of.
ghost use Rattle.std.specs.Prelude.{◌≡◌, ◌<◌};
ghost use Rattle.record_names.specs.Faults.{fault_text, FaultFits, cut_at, seen_cut, small_number, plain_fault, numbered_fault, site_fault, with_numbers, behind_name, guess_of};
ghost use Rattle.record_names.specs.declared.fault.Fault.{Fault as AnyFault};

use crate::fault::Fault;
use uh_base::{decimals_read_back, number};

/// What stands before the first byte of a kind, and what behind it.
fn cut_at(text: &str, mark: char) -> Option<(&str, &str)>
    requires { mark < 128 }
    ensures { seen_cut result ≡ cut_at mark text.now }
{
    text.split_once(mark)
}

/// A number below 2^32.
#[tactic(auto, unfolding(crate::specs::Faults::small_number))]
fn small_number(text: &str) -> Option<u32>
    ensures { result ≡ small_number text.now }
{
    match number(text) {
        Some(n) => if n < 1 << 32 { Some(n as u32) } else { None },
        None => None,
    }
}

/// The fault of a name, of those without a number.
#[tactic(auto, unfolding(crate::specs::Faults::plain_fault))]
fn plain_fault(name: &str) -> Option<Fault>
    ensures { result ≡ plain_fault name.now }
{
    if name == "BeforeExit" {
        Some(Fault::BeforeExit)
    } else if name == "AlreadyMapped" {
        Some(Fault::AlreadyMapped)
    } else if name == "DescriptorSize" {
        Some(Fault::DescriptorSize)
    } else if name == "DescriptorVersion" {
        Some(Fault::DescriptorVersion)
    } else if name == "MapSize" {
        Some(Fault::MapSize)
    } else if name == "OsWindow" {
        Some(Fault::OsWindow)
    } else {
        None
    }
}

/// The fault of a name and a number.
#[tactic(auto, unfolding(crate::specs::Faults::numbered_fault))]
fn numbered_fault(name: &str, i: u32) -> Option<Fault>
    ensures { result ≡ numbered_fault name.now i }
{
    if name == "NotFound" {
        Some(Fault::NotFound(i))
    } else if name == "Twice" {
        Some(Fault::Twice(i))
    } else if name == "Unaligned" {
        Some(Fault::Unaligned(i))
    } else if name == "OutOfRange" {
        Some(Fault::OutOfRange(i))
    } else if name == "Overlap" {
        Some(Fault::Overlap(i))
    } else if name == "Shadow" {
        Some(Fault::Shadow(i))
    } else if name == "NoMapping" {
        Some(Fault::NoMapping(i))
    } else {
        None
    }
}

/// The fault that has two numbers.
#[tactic(auto, unfolding(crate::specs::Faults::site_fault))]
fn site_fault(numbers: &str) -> Option<Fault>
    ensures { result ≡ site_fault numbers.now }
{
    let (first, second) = cut_at(numbers, ',')?;
    let image = small_number(first)?;
    let site = small_number(second)?;
    Some(Fault::Reloc32(image, site))
}

#[tactic(auto, unfolding(crate::specs::Faults::with_numbers))]
fn with_numbers(name: &str, numbers: &str) -> Option<Fault>
    ensures { result ≡ with_numbers name.now numbers.now }
{
    if name == "Reloc32" {
        site_fault(numbers)
    } else {
        let i = small_number(numbers)?;
        numbered_fault(name, i)
    }
}

/// The fault of a name and of what stands behind the parenthesis.
#[tactic(auto, unfolding(crate::specs::Faults::behind_name))]
fn behind_name(name: &str, rest: &str) -> Option<Fault>
    ensures { result ≡ behind_name name.now rest.now }
{
    let (numbers, _) = cut_at(rest, ')')?;
    with_numbers(name, numbers)
}

/// The one fault that a text may be the text of: it is, where its text is this text.
#[tactic(auto, unfolding(crate::specs::Faults::guess_of))]
pub fn fault_of(text: &str) -> Option<Fault>
    ensures { result ≡ guess_of text.now }
{
    match cut_at(text, '(') {
        Some((name, rest)) => behind_name(name, rest),
        None => plain_fault(text),
    }
}

/// A law: a fault's text is that of no other.
pub fn faults_read_back()
    ensures { (fault : AnyFault) → FaultFits fault → guess_of (fault_text fault) ≡ Some fault }
{
    decimals_read_back();
}
