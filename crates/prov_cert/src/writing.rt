//! The text of a certificate.
ghost use Rattle.std.specs.Prelude.{◌≡◌, ◌++◌, ℕ, List, map, IfOk, OnOk, string_bytes};
ghost use Rattle.std.specs.Fmt.{decimal};
ghost use Rattle.std.specs.List.{slice_get};
ghost use Rattle.rv_decode.specs.Texts.{or_empty, register_name};
ghost use Rattle.prov_cert.specs.Texts.{each, list_of, is_one, is_whole, span_text, offsets_text, number_text, kind_text, region_text, class_text, stretch_text, register_text, part_text, entry_text, node_text, registers_text, stack_text, indices_text, quoted_list, number_list, line_list, document, cert_lines};

use crate::cert::{Cert, CertEntry, CertSpan, Class, Node, OwnRegion, RegKind, StackPart};
use crate::forms::NAMES;
use prov_types::{Kind, Span};
use std::alloc::{AllocError, Global};

/// What has a text.
trait Written {
    /// Its text.
    ghost text: { Self → List ℕ };

    /// Its text.
    fn write(&self, alloc: Global) -> Result<String, AllocError>
        ensures { IfOk result (λ s. string_bytes s ≡ text self.now) };
}

/// Appends the text of each item, with something before and behind it.
fn push_each<T: Written>(
    alloc: Global,
    text: &mut String,
    before: &str,
    items: &[T],
    behind: &str,
) -> Result<(), AllocError>
    ensures { OnOk result (string_bytes text.new ≡ string_bytes text.old ++ each before.now behind.now (map T.text items.now)) }
{
    for item in items {
        text.push_str(before)?;
        let written = item.write(alloc)?;
        text.push_str(written.as_str())?;
        text.push_str(behind)?;
    }
    Ok(())
}

/// The texts of items, with something before the first, before each other one, and behind each.
fn list_of<T: Written>(
    alloc: Global,
    before: &str,
    between: &str,
    items: &[T],
    behind: &str,
) -> Result<String, AllocError>
    ensures { IfOk result (λ s. string_bytes s ≡ list_of before.now between.now behind.now (map T.text items.now)) }
{
    match items.split_first() {
        None => Ok(String::new(alloc)),
        Some((first, rest)) => {
            let first = first.write(alloc)?;
            let mut text = String::from_str(alloc, before)?;
            text.push_str(first.as_str())?;
            text.push_str(behind)?;
            push_each(alloc, &mut text, between, rest, behind)?;
            Ok(text)
        }
    }
}

fn is_one(s: Span) -> bool
    ensures { result ≡ is_one s }
{
    s.lo == s.hi && s.by == 1
}

fn is_whole(s: Span) -> bool
    ensures { result ≡ is_whole s }
{
    s.lo == 0 && s.hi == u64::MAX && s.by == 1
}

#[tactic(auto, unfolding(crate::specs::Texts::span_text))]
fn span_text(alloc: Global, s: Span) -> Result<String, AllocError>
    ensures { IfOk result (λ text. string_bytes text ≡ span_text s) }
{
    format!(in alloc; "{} {} {}", s.lo, s.hi, s.by)
}

#[tactic(auto, unfolding(crate::specs::Texts::offsets_text))]
fn offsets_text(alloc: Global, s: Span) -> Result<String, AllocError>
    ensures { IfOk result (λ text. string_bytes text ≡ offsets_text s) }
{
    if is_one(s) {
        format!(in alloc; "{}", s.lo)
    } else {
        span_text(alloc, s)
    }
}

#[tactic(auto, unfolding(crate::specs::Texts::number_text))]
fn number_text(alloc: Global, s: Span) -> Result<String, AllocError>
    ensures { IfOk result (λ text. string_bytes text ≡ number_text s) }
{
    if is_one(s) {
        return format!(in alloc; "c {}", s.lo);
    }
    if is_whole(s) {
        return String::from_str(alloc, "n");
    }
    let span = span_text(alloc, s)?;
    format!(in alloc; "n {}", span.as_str())
}

/// The shortest text of a kind.
#[tactic(auto, unfolding(crate::specs::Texts::kind_text))]
fn kind_text(alloc: Global, kind: Kind) -> Result<String, AllocError>
    ensures { IfOk result (λ text. string_bytes text ≡ kind_text kind) }
{
    match kind {
        Kind::Any => String::from_str(alloc, "any"),
        Kind::Num(s) => number_text(alloc, s),
        Kind::Ptr(r, s) => {
            let offsets = offsets_text(alloc, s)?;
            format!(in alloc; "p {} {}", r, offsets.as_str())
        }
        Kind::Opt(r, s) => {
            let offsets = offsets_text(alloc, s)?;
            format!(in alloc; "o {} {}", r, offsets.as_str())
        }
    }
}

#[tactic(auto, unfolding(crate::specs::Texts::class_text))]
fn class_text(alloc: Global, class: Class) -> Result<String, AllocError>
    ensures { IfOk result (λ text. string_bytes text ≡ class_text class) }
{
    match class {
        Class::Code => String::from_str(alloc, "code"),
        Class::Plain => String::from_str(alloc, "plain"),
        Class::Num(kind) => {
            let kind = kind_text(alloc, kind)?;
            format!(in alloc; "num {}", kind.as_str())
        }
        Class::Fixed => String::from_str(alloc, "fixed"),
        Class::Convert(kind) => {
            let kind = kind_text(alloc, kind)?;
            format!(in alloc; "convert {}", kind.as_str())
        }
    }
}

#[tactic(auto, using(crate::proofs::TextLemmas::name_there, crate::proofs::TextLemmas::no_name))]
fn name_in<'a>(names: &[&'a str], reg: u8) -> &'a str
    ensures { result.now ≡ or_empty (slice_get (map (λ name. name.now) names.now) reg) }
{
    let place = reg as usize;
    if place < names.len() {
        names[place]
    } else {
        ""
    }
}

/// The name of a register; empty from register 32 on.
fn register_name(reg: u8) -> &'static str
    ensures { result.now ≡ register_name reg }
{
    name_in(&NAMES, reg)
}

impl Written for OwnRegion {
    ghost text = { λ region. region_text region };

    #[tactic(auto, unfolding(crate::specs::Texts::region_text))]
    fn write(&self, alloc: Global) -> Result<String, AllocError> {
        format!(in alloc; "{} {} {}", self.cell_region, self.cell_at, self.len)
    }
}

impl Written for CertSpan {
    ghost text = { λ span. stretch_text span };

    #[tactic(auto, unfolding(crate::specs::Texts::stretch_text))]
    fn write(&self, alloc: Global) -> Result<String, AllocError> {
        let class = class_text(alloc, self.class)?;
        format!(in alloc;
            "{} {} {} {}",
            self.region,
            self.at,
            self.len,
            class.as_str()
        )
    }
}

impl Written for RegKind {
    ghost text = { λ k. register_text k };

    #[tactic(auto, unfolding(crate::specs::Texts::register_text))]
    fn write(&self, alloc: Global) -> Result<String, AllocError> {
        let kind = kind_text(alloc, self.kind)?;
        format!(in alloc; "{} {}", register_name(self.reg), kind.as_str())
    }
}

impl Written for StackPart {
    ghost text = { λ part. part_text part };

    #[tactic(auto, unfolding(crate::specs::Texts::part_text))]
    fn write(&self, alloc: Global) -> Result<String, AllocError> {
        let kind = kind_text(alloc, self.kind)?;
        format!(in alloc; "{} {} {}", self.at, self.width, kind.as_str())
    }
}

impl Written for u32 {
    ghost text = { λ n. decimal n };

    fn write(&self, alloc: Global) -> Result<String, AllocError> {
        format!(in alloc; "{}", *self)
    }
}

fn registers_text(alloc: Global, kinds: &[RegKind]) -> Result<String, AllocError>
    ensures { IfOk result (λ text. string_bytes text ≡ registers_text kinds.now) }
{
    list_of(alloc, "", ", ", kinds, "")
}

fn stack_text(alloc: Global, parts: &[StackPart]) -> Result<String, AllocError>
    ensures { IfOk result (λ text. string_bytes text ≡ stack_text parts.now) }
{
    list_of(alloc, "", ", ", parts, "")
}

fn indices_text(alloc: Global, numbers: &[u32]) -> Result<String, AllocError>
    ensures { IfOk result (λ text. string_bytes text ≡ indices_text numbers.now) }
{
    list_of(alloc, "", " ", numbers, "")
}

impl Written for CertEntry {
    ghost text = { λ entry. entry_text entry };

    #[tactic(auto, unfolding(crate::specs::Texts::entry_text))]
    fn write(&self, alloc: Global) -> Result<String, AllocError> {
        let kinds = registers_text(alloc, self.arg_kinds.as_slice())?;
        format!(in alloc; "{} {}; {}", self.name.as_str(), self.node, kinds.as_str())
    }
}

impl Written for Node {
    ghost text = { λ node. node_text node };

    #[tactic(auto, unfolding(crate::specs::Texts::node_text))]
    fn write(&self, alloc: Global) -> Result<String, AllocError> {
        let regs = registers_text(alloc, self.regs.as_slice())?;
        let stack = stack_text(alloc, self.stack.as_slice())?;
        let next = indices_text(alloc, self.next.as_slice())?;
        let done = indices_text(alloc, self.done.as_slice())?;
        format!(in alloc;
            "{}; {}; {}; {}; {}",
            self.at,
            regs.as_str(),
            stack.as_str(),
            next.as_str(),
            done.as_str()
        )
    }
}

/// The texts of items in quotes, on one line.
fn quoted_list<T: Written>(alloc: Global, items: &[T]) -> Result<String, AllocError>
    ensures { IfOk result (λ text. string_bytes text ≡ quoted_list (map T.text items.now)) }
{
    let items = list_of(alloc, "\"", ", \"", items, "\"")?;
    format!(in alloc; "[{}]", items.as_str())
}

fn number_list(alloc: Global, numbers: &[u32]) -> Result<String, AllocError>
    ensures { IfOk result (λ text. string_bytes text ≡ number_list numbers.now) }
{
    let numbers = list_of(alloc, "", ", ", numbers, "")?;
    format!(in alloc; "[{}]", numbers.as_str())
}

/// The texts of items in quotes, each on a line of its own with a comma behind it.
fn line_list<T: Written>(alloc: Global, items: &[T]) -> Result<String, AllocError>
    ensures { IfOk result (λ text. string_bytes text ≡ line_list (map T.text items.now)) }
{
    if items.is_empty() {
        return String::from_str(alloc, "[]");
    }
    let mut text = String::from_str(alloc, "[")?;
    push_each(alloc, &mut text, "\n\"", items, "\",")?;
    text.push_str("\n]")?;
    Ok(text)
}

/// The five keys, each with its value.
fn document(
    alloc: Global,
    regions: &str,
    spans: &str,
    entries: &str,
    notify: &str,
    nodes: &str,
) -> Result<String, AllocError>
    ensures { IfOk result (λ s. string_bytes s ≡ document regions.now spans.now entries.now notify.now nodes.now) }
{
    format!(in alloc;
        "regions = {}\nspans = {}\nentries = {}\nnotify = {}\nnodes = {}\n",
        regions, spans, entries, notify, nodes
    )
}

/// The text of a certificate, a TOML document: the five keys in the order of `Part`, each kind in its shortest form, and
/// each node on a line of its own.
#[tactic(auto, unfolding(crate::specs::Texts::cert_lines))]
pub fn cert_text(alloc: Global, cert: &Cert) -> Result<String, AllocError>
    ensures { IfOk result (λ s. string_bytes s ≡ cert_lines cert.now) }
{
    let regions = quoted_list(alloc, cert.regions.as_slice())?;
    let spans = quoted_list(alloc, cert.spans.as_slice())?;
    let entries = quoted_list(alloc, cert.entries.as_slice())?;
    let notify = number_list(alloc, cert.notify.as_slice())?;
    let nodes = line_list(alloc, cert.nodes.as_slice())?;
    document(
        alloc,
        regions.as_str(),
        spans.as_str(),
        entries.as_str(),
        notify.as_str(),
        nodes.as_str(),
    )
}
