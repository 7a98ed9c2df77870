//! Entries and nodes of a certificate.
ghost use Rattle.std.specs.Prelude.{◌≡◌, ◌==◌, [], map, option_map, IfOk};
ghost use Rattle.std.specs.List.{slice_split};
ghost use Rattle.prov_cert.specs.Words.{listed, seen_pair};
ghost use Rattle.prov_cert.specs.Forms.{Counts, has_register, next_register, registers_of, stack_part, stack_of, index_below, indices_of, indices, name_of, entry_of, fields_of, node_of};
ghost use Rattle.prov_cert.specs.Apart.{parts_of};
ghost use Rattle.prov_cert.specs.Seen.{texts_of, counts_seen, fields_seen};

use crate::apart::are_apart;
use crate::cert::{CertEntry, Node, RegKind, StackPart};
use crate::forms::{is_width, kind_of, reg_kind};
use crate::words::{cut, listed, next_number, next_word, one_number};
use std::alloc::{AllocError, Global};
use uh_base::{Text, is_name};

/// How many regions, nodes and convertible cells there are.
#[derive(Clone, Copy, Debug, PartialEq, Eq, Drop)]
pub(crate) struct Counted {
    pub regions: u8,
    pub nodes: u32,
    pub cells: u32,
}

fn has_register(kinds: &[RegKind], reg: u8) -> bool
    ensures { result ≡ has_register kinds.now reg }
{
    for k in kinds {
        if k.reg == reg {
            return true;
        }
    }
    false
}

/// A register that none before it is, and its kind.
fn next_register(regions: u8, before: &[RegKind], text: &str) -> Option<RegKind>
    ensures { result ≡ next_register regions before.now text.now }
{
    match reg_kind(regions, text) {
        None => None,
        Some(kind) => {
            if has_register(before, kind.reg) {
                None
            } else {
                Some(kind)
            }
        }
    }
}

/// Registers and their kinds, each register once.
fn registers_of(
    alloc: Global,
    regions: u8,
    parts: &[&str],
) -> Result<Option<Vec<RegKind>>, AllocError>
    ensures { IfOk result (λ o. option_map (λ v. v.items) o ≡ registers_of regions [] (texts_of parts.now)) }
{
    let mut kinds = Vec::new(alloc);
    for part in parts {
        match next_register(regions, kinds.as_slice(), part) {
            None => return Ok(None),
            Some(kind) => kinds.push(kind)?,
        }
    }
    Ok(Some(kinds))
}

/// A part of the stack.
#[tactic(auto, unfolding(crate::specs::Forms::stack_part))]
fn stack_part(regions: u8, text: &str) -> Option<StackPart>
    ensures { result ≡ stack_part regions text.now }
{
    let (at, rest) = match next_number(text) {
        None => return None,
        Some(found) => found,
    };
    let (width, rest) = match next_number(rest) {
        None => return None,
        Some(found) => found,
    };
    if !is_width(width) || at % width != 0 {
        return None;
    }
    match kind_of(regions, rest) {
        None => None,
        Some(kind) => Some(StackPart {
            at,
            width: width as u8,
            kind,
        }),
    }
}

/// Parts of the stack, also where they meet.
fn parts_of(
    alloc: Global,
    regions: u8,
    texts: &[&str],
) -> Result<Option<Vec<StackPart>>, AllocError>
    ensures { IfOk result (λ o. option_map (λ v. v.items) o ≡ parts_of regions [] (texts_of texts.now)) }
{
    let mut parts = Vec::new(alloc);
    for text in texts {
        match stack_part(regions, text) {
            None => return Ok(None),
            Some(part) => parts.push(part)?,
        }
    }
    Ok(Some(parts))
}

/// Parts of the stack, of which no two meet.
fn stack_of(
    alloc: Global,
    regions: u8,
    parts: &[&str],
) -> Result<Option<Vec<StackPart>>, AllocError>
    ensures { IfOk result (λ o. option_map (λ v. v.items) o ≡ stack_of regions [] (texts_of parts.now)) }
{
    let stack = match parts_of(alloc, regions, parts)? {
        None => return Ok(None),
        Some(stack) => stack,
    };
    if are_apart(alloc, stack.as_slice())? {
        Ok(Some(stack))
    } else {
        Ok(None)
    }
}

/// A number below a bound.
fn index_below(bound: u32, n: Option<u64>) -> Option<u32>
    ensures { result ≡ index_below bound n }
{
    match n {
        None => None,
        Some(n) => {
            if n < u64::from(bound) {
                Some(n as u32)
            } else {
                None
            }
        }
    }
}

/// The pieces of a text between spaces.
fn between_spaces(alloc: Global, text: &str) -> Result<Vec<&str>, AllocError>
    ensures { IfOk result (λ v. map (λ part. part.now) v.items ≡ slice_split (λ b. b == 32) text.now) }
{
    text.split(' ').collect(alloc)
}

/// Numbers below a bound.
fn indices_of(alloc: Global, bound: u32, words: &[&str]) -> Result<Option<Vec<u32>>, AllocError>
    ensures { IfOk result (λ o. option_map (λ v. v.items) o ≡ indices_of bound [] (texts_of words.now)) }
{
    let mut numbers = Vec::new(alloc);
    for word in words {
        if !word.is_empty() {
            match index_below(bound, uh_base::number(word)) {
                None => return Ok(None),
                Some(n) => numbers.push(n)?,
            }
        }
    }
    Ok(Some(numbers))
}

/// Numbers below a bound, with spaces between.
#[tactic(auto, unfolding(crate::specs::Forms::indices))]
fn indices(alloc: Global, bound: u32, text: &str) -> Result<Option<Vec<u32>>, AllocError>
    ensures { IfOk result (λ o. option_map (λ v. v.items) o ≡ indices bound text.now) }
{
    let words = between_spaces(alloc, text)?;
    indices_of(alloc, bound, words.as_slice())
}

/// A name, and what is behind it.
#[tactic(auto, unfolding(crate::specs::Forms::name_of))]
fn name_of(text: &str) -> Option<(&str, &str)>
    ensures { seen_pair result ≡ name_of text.now }
{
    match next_word(text) {
        None => None,
        Some((word, rest)) => {
            if is_name(word) {
                Some((word, rest))
            } else {
                None
            }
        }
    }
}

/// The registers of a list between commas.
fn registers(alloc: Global, regions: u8, text: &str) -> Result<Option<Vec<RegKind>>, AllocError>
    ensures { IfOk result (λ o. option_map (λ v. v.items) o ≡ registers_of regions [] (listed text.now)) }
{
    let parts = listed(alloc, text)?;
    registers_of(alloc, regions, parts.as_slice())
}

/// The parts of the stack of a list between commas.
fn stack(alloc: Global, regions: u8, text: &str) -> Result<Option<Vec<StackPart>>, AllocError>
    ensures { IfOk result (λ o. option_map (λ v. v.items) o ≡ stack_of regions [] (listed text.now)) }
{
    let parts = listed(alloc, text)?;
    stack_of(alloc, regions, parts.as_slice())
}

/// The entry of a text.
#[tactic(auto, unfolding(crate::specs::Forms::entry_of))]
pub(crate) fn entry_of(
    alloc: Global,
    counts: Counted,
    text: &str,
) -> Result<Option<CertEntry>, AllocError>
    ensures { IfOk result (λ o. o ≡ entry_of (counts_seen counts) text.now) }
{
    let (front, kinds) = match cut(text, ';') {
        None => return Ok(None),
        Some(found) => found,
    };
    let (name, rest) = match name_of(front) {
        None => return Ok(None),
        Some(found) => found,
    };
    let node = match index_below(counts.nodes, one_number(rest)) {
        None => return Ok(None),
        Some(node) => node,
    };
    let arg_kinds = match registers(alloc, counts.regions, kinds)? {
        None => return Ok(None),
        Some(kinds) => kinds,
    };
    let name = Text::new(alloc, name)?;
    Ok(Some(CertEntry {
        name,
        node,
        arg_kinds,
    }))
}

/// The texts between the semicolons of a node.
#[derive(Clone, Copy, Drop)]
struct Fields<'a> {
    at: &'a str,
    regs: &'a str,
    stack: &'a str,
    next: &'a str,
    done: &'a str,
}

#[tactic(auto, unfolding(crate::specs::Forms::fields_of))]
fn fields_of(text: &str) -> Option<Fields<'_>>
    ensures { fields_seen result ≡ fields_of text.now }
{
    let (at, rest) = match cut(text, ';') {
        None => return None,
        Some(found) => found,
    };
    let (regs, rest) = match cut(rest, ';') {
        None => return None,
        Some(found) => found,
    };
    let (stack, rest) = match cut(rest, ';') {
        None => return None,
        Some(found) => found,
    };
    match cut(rest, ';') {
        None => None,
        Some((next, done)) => Some(Fields {
            at,
            regs,
            stack,
            next,
            done,
        }),
    }
}

/// The node of a text.
#[tactic(auto, unfolding(crate::specs::Forms::node_of))]
pub(crate) fn node_of(
    alloc: Global,
    counts: Counted,
    text: &str,
) -> Result<Option<Node>, AllocError>
    ensures { IfOk result (λ o. o ≡ node_of (counts_seen counts) text.now) }
{
    let fields = match fields_of(text) {
        None => return Ok(None),
        Some(fields) => fields,
    };
    let at = match one_number(fields.at) {
        None => return Ok(None),
        Some(at) => at,
    };
    let regs = match registers(alloc, counts.regions, fields.regs)? {
        None => return Ok(None),
        Some(regs) => regs,
    };
    let stack = match stack(alloc, counts.regions, fields.stack)? {
        None => return Ok(None),
        Some(stack) => stack,
    };
    let next = match indices(alloc, counts.nodes, fields.next)? {
        None => return Ok(None),
        Some(next) => next,
    };
    let done = match indices(alloc, counts.cells, fields.done)? {
        None => return Ok(None),
        Some(done) => done,
    };
    Ok(Some(Node {
        at,
        regs,
        stack,
        next,
        done,
    }))
}
