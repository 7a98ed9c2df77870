//! Kinds, own regions and spans of a certificate.
ghost use Rattle.std.specs.Prelude.{◌≡◌, ◌<◌, ◌≤◌, ◌&&◌, map, length};
ghost use Rattle.prov_types.specs.Spans.{one as one_span};
ghost use Rattle.prov_cert.specs.Forms.{is_span, span_from, offsets, number_kind, value_kind, pointed, kind_by, kind_of, region_of, is_width, num_class, convert_class, class_by, class_of, span_of, register_from, register, reg_kind};

use crate::cert::{CertSpan, Class, OwnRegion, RegKind};
use crate::words::{is_blank, next_number, next_word, one_number};
use prov_types::{Kind, Span};

/// The names of x0 to x31. (RISC-V unprivileged manual, version 20191213, table 25.1)
pub(crate) static NAMES: [&str; 32] = [
    "zero", "ra", "sp", "gp", "tp", "t0", "t1", "t2", "s0", "s1", "a0", "a1", "a2", "a3", "a4",
    "a5", "a6", "a7", "s2", "s3", "s4", "s5", "s6", "s7", "s8", "s9", "s10", "s11", "t3", "t4",
    "t5", "t6",
];

fn one(value: u64) -> Span
    ensures { result ≡ one_span value }
{
    Span {
        lo: value,
        hi: value,
        by: 1,
    }
}

fn is_span(lo: u64, hi: u64, by: u64) -> bool
    ensures { result ≡ is_span lo hi by }
{
    by > 0 && lo <= hi && (hi - lo) % by == 0
}

/// The high end and the step behind a low end.
#[tactic(auto, unfolding(crate::specs::Forms::span_from))]
fn span_from(lo: u64, text: &str) -> Option<Span>
    ensures { result ≡ span_from lo text.now }
{
    match next_number(text) {
        None => None,
        Some((hi, rest)) => match one_number(rest) {
            None => None,
            Some(by) => {
                if is_span(lo, hi, by) {
                    Some(Span { lo, hi, by })
                } else {
                    None
                }
            }
        },
    }
}

/// One offset, or a span of them.
#[tactic(auto, unfolding(crate::specs::Forms::offsets))]
fn offsets(text: &str) -> Option<Span>
    ensures { result ≡ offsets text.now }
{
    match next_number(text) {
        None => None,
        Some((lo, rest)) => {
            if is_blank(rest) {
                Some(one(lo))
            } else {
                span_from(lo, rest)
            }
        }
    }
}

#[tactic(auto, unfolding(crate::specs::Forms::number_kind))]
fn number_kind(text: &str) -> Option<Kind>
    ensures { result ≡ number_kind text.now }
{
    if is_blank(text) {
        return Some(Kind::Num(Span {
            lo: 0,
            hi: u64::MAX,
            by: 1,
        }));
    }
    match next_number(text) {
        None => None,
        Some((lo, rest)) => match span_from(lo, rest) {
            None => None,
            Some(span) => Some(Kind::Num(span)),
        },
    }
}

#[tactic(auto, unfolding(crate::specs::Forms::value_kind))]
fn value_kind(text: &str) -> Option<Kind>
    ensures { result ≡ value_kind text.now }
{
    match one_number(text) {
        None => None,
        Some(value) => Some(Kind::Num(one(value))),
    }
}

/// A region and offsets in it.
#[tactic(auto, unfolding(crate::specs::Forms::pointed))]
fn pointed(regions: u8, text: &str) -> Option<(u8, Span)>
    ensures { result ≡ pointed regions text.now }
{
    match next_number(text) {
        None => None,
        Some((r, rest)) => {
            if r >= u64::from(regions) {
                return None;
            }
            match offsets(rest) {
                None => None,
                Some(span) => Some((r as u8, span)),
            }
        }
    }
}

#[tactic(auto, unfolding(crate::specs::Forms::kind_by))]
fn kind_by(word: &str, regions: u8, rest: &str) -> Option<Kind>
    ensures { result ≡ kind_by word.now regions rest.now }
{
    if word == "any" {
        return if is_blank(rest) {
            Some(Kind::Any)
        } else {
            None
        };
    }
    if word == "n" {
        return number_kind(rest);
    }
    if word == "c" {
        return value_kind(rest);
    }
    if word == "p" {
        return match pointed(regions, rest) {
            None => None,
            Some((r, span)) => Some(Kind::Ptr(r, span)),
        };
    }
    if word == "o" {
        return match pointed(regions, rest) {
            None => None,
            Some((r, span)) => Some(Kind::Opt(r, span)),
        };
    }
    None
}

/// The kind of a text, where there are so many regions.
#[tactic(auto, unfolding(crate::specs::Forms::kind_of))]
pub(crate) fn kind_of(regions: u8, text: &str) -> Option<Kind>
    ensures { result ≡ kind_of regions text.now }
{
    match next_word(text) {
        None => None,
        Some((word, rest)) => kind_by(word, regions, rest),
    }
}

/// The own region of a number.
#[tactic(auto, unfolding(crate::specs::Forms::region_of))]
pub(crate) fn region_of(number: u8, text: &str) -> Option<OwnRegion>
    ensures { result ≡ region_of number text.now }
{
    let (cell, rest) = match next_number(text) {
        None => return None,
        Some(found) => found,
    };
    let (cell_at, rest) = match next_number(rest) {
        None => return None,
        Some(found) => found,
    };
    let len = match one_number(rest) {
        None => return None,
        Some(len) => len,
    };
    if cell >= u64::from(number) {
        return None;
    }
    Some(OwnRegion {
        cell_region: cell as u8,
        cell_at,
        len,
    })
}

/// Whether a number of bytes is 1, 2, 4 or 8.
pub(crate) fn is_width(n: u64) -> bool
    ensures { result ≡ is_width n }
{
    n == 1 || n == 2 || n == 4 || n == 8
}

fn num_class(len: u64, kind: Kind) -> Option<Class>
    ensures { result ≡ num_class len kind }
{
    match kind {
        Kind::Num(span) => {
            if is_width(len) {
                Some(Class::Num(Kind::Num(span)))
            } else {
                None
            }
        }
        _ => None,
    }
}

fn convert_class(len: u64, kind: Kind) -> Option<Class>
    ensures { result ≡ convert_class len kind }
{
    match kind {
        Kind::Ptr(r, span) => {
            if len == 8 {
                Some(Class::Convert(Kind::Ptr(r, span)))
            } else {
                None
            }
        }
        Kind::Opt(r, span) => {
            if len == 8 {
                Some(Class::Convert(Kind::Opt(r, span)))
            } else {
                None
            }
        }
        _ => None,
    }
}

#[tactic(auto, unfolding(crate::specs::Forms::class_by))]
fn class_by(word: &str, regions: u8, len: u64, rest: &str) -> Option<Class>
    ensures { result ≡ class_by word.now regions len rest.now }
{
    if word == "code" {
        return if is_blank(rest) {
            Some(Class::Code)
        } else {
            None
        };
    }
    if word == "plain" {
        return if is_blank(rest) {
            Some(Class::Plain)
        } else {
            None
        };
    }
    if word == "fixed" {
        return if is_blank(rest) && len == 8 {
            Some(Class::Fixed)
        } else {
            None
        };
    }
    if word == "num" {
        return match kind_of(regions, rest) {
            None => None,
            Some(kind) => num_class(len, kind),
        };
    }
    if word == "convert" {
        return match kind_of(regions, rest) {
            None => None,
            Some(kind) => convert_class(len, kind),
        };
    }
    None
}

#[tactic(auto, unfolding(crate::specs::Forms::class_of))]
fn class_of(regions: u8, len: u64, text: &str) -> Option<Class>
    ensures { result ≡ class_of regions len text.now }
{
    match next_word(text) {
        None => None,
        Some((word, rest)) => class_by(word, regions, len, rest),
    }
}

/// The span of a text, where there are so many regions.
#[tactic(auto, unfolding(crate::specs::Forms::span_of))]
pub(crate) fn span_of(regions: u8, text: &str) -> Option<CertSpan>
    ensures { result ≡ span_of regions text.now }
{
    let (region, rest) = match next_number(text) {
        None => return None,
        Some(found) => found,
    };
    if region >= u64::from(regions) {
        return None;
    }
    let (at, rest) = match next_number(rest) {
        None => return None,
        Some(found) => found,
    };
    let (len, rest) = match next_number(rest) {
        None => return None,
        Some(found) => found,
    };
    match class_of(regions, len, rest) {
        None => None,
        Some(class) => Some(CertSpan {
            region: region as u8,
            at,
            len,
            class,
        }),
    }
}

fn register_in(names: &[&str], text: &str) -> Option<u8>
    requires { length names.now ≤ 32 }
    ensures { result ≡ register_from 0 (map (λ name. name.now) names.now) text.now }
{
    for i in 0..names.len() {
        if names[i] == text {
            return Some(i as u8);
        }
    }
    None
}

/// The number of a register's name.
#[tactic(auto, unfolding(crate::specs::Forms::register, rv_decode::specs::Texts::register_names))]
fn register(text: &str) -> Option<u8>
    ensures { result ≡ register text.now }
{
    register_in(&NAMES, text)
}

/// A register and its kind.
#[tactic(auto, unfolding(crate::specs::Forms::reg_kind))]
pub(crate) fn reg_kind(regions: u8, text: &str) -> Option<RegKind>
    ensures { result ≡ reg_kind regions text.now }
{
    let (word, rest) = match next_word(text) {
        None => return None,
        Some(found) => found,
    };
    let reg = match register(word) {
        None => return None,
        Some(reg) => reg,
    };
    match kind_of(regions, rest) {
        None => None,
        Some(kind) => Some(RegKind { reg, kind }),
    }
}
