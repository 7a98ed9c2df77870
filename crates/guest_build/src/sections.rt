//! What lines make of the sections.
ghost use Rattle.std.specs.Prelude.{◌≡◌, ◌++◌, OnOk};
ghost use Rattle.guest_build.specs.Layout.{site_at};
ghost use Rattle.guest_build.specs.Assembled.{formed, is_repeated, once};
ghost use Rattle.guest_build.specs.Views.{sections_of, places_in};

use crate::bytes::put_statement;
use crate::fault::{AsmKind, Fault};
use crate::labels::Labels;
use crate::layout::is_large;
use crate::measure::Measure;
use crate::places::{Origins, Section, Settings};
use crate::relocation::{Site, SiteKind};
use crate::statement::{Line, Operand, Statement};
use std::alloc::{AllocError, Global};
use uh_base::Text;

/// A section's bytes, and its sites by their offsets in it.
#[derive(Drop)]
pub struct Content {
    pub bytes: Vec<u8>,
    pub sites: Vec<Site>,
}

/// What lines have made so far.
#[derive(Drop)]
pub struct Sections {
    /// The section that the next line stands in.
    pub section: Section,
    pub in_text: Content,
    pub in_data: Content,
    pub settings: Settings,
}

/// Appends the site of a statement, if it has one.
fn put_site(sites: &mut Vec<Site>, at: u64, statement: &Statement) -> Result<(), AllocError>
    ensures { OnOk result (sites.new.items ≡ sites.old.items ++ site_at at statement.now) }
{
    match statement {
        Statement::Address(_) => Ok(sites.push(Site {
            at,
            kind: SiteKind::Dir64,
        })?),
        Statement::Instruction {
            operand: Operand::High(_),
            ..
        } => Ok(sites.push(Site {
            at,
            kind: SiteKind::High20,
        })?),
        _ => Ok(()),
    }
}

impl Content {
    ghost use Rattle.std.specs.Prelude.{◌≡◌, Ok, length};
    ghost use Rattle.guest_build.specs.Layout.{no_content};
    ghost use Rattle.guest_build.specs.Assembled.{content_put};
    ghost use Rattle.guest_build.specs.Views.{content_of, places_in, Makes};

    fn new(alloc: Global) -> Content
        ensures { content_of result ≡ no_content }
    {
        Content {
            bytes: Vec::new(alloc),
            sites: Vec::new(alloc),
        }
    }

    /// Appends a statement at an offset in the image.
    #[tactic(auto, unfolding(crate::specs::Layout::content_with))]
    fn put(
        &mut self,
        origins: &Origins,
        labels: &Labels,
        here: u64,
        statement: &Statement,
    ) -> Result<(), Fault>
        ensures { Makes result (content_of self.new) (content_put origins.now (places_in labels.now) here (content_of self.old) statement.now) }
    {
        let at = self.bytes.len() as u64;
        put_statement(&mut self.bytes, origins, labels, here, statement)?;
        put_site(&mut self.sites, at, statement)?;
        Ok(())
    }
}

/// Refuses a statement without a form.
fn formed(statement: &Statement) -> Result<(), AsmKind>
    ensures { result ≡ formed statement.now }
{
    match statement {
        Statement::Fault(kind) => Err(*kind),
        _ => Ok(()),
    }
}

/// Whether a label stands on a line before this one.
fn is_repeated(labels: &Labels, line: u32, label: &Option<Text>) -> bool
    ensures { result ≡ is_repeated (places_in labels.now) line label.now }
{
    match label {
        Some(name) => match labels.find(name.as_str()) {
            Some(place) => place.line < line,
            None => false,
        },
        None => false,
    }
}

/// Refuses a label or a setting that stands on an earlier line.
#[tactic(auto, unfolding(crate::specs::Assembled::once))]
fn once(labels: &Labels, n: u32, before: &Sections, line: &Line) -> Result<(), AsmKind>
    ensures { result ≡ once (places_in labels.now) n (sections_of before.now) line.now }
{
    if is_repeated(labels, n, &line.label) || before.settings.has(&line.statement) {
        return Err(AsmKind::Twice);
    }
    Ok(())
}

impl Sections {
    ghost use Rattle.std.specs.Prelude.{◌≡◌, Ok, length};
    ghost use Rattle.guest_build.specs.Layout.{no_sections};
    ghost use Rattle.guest_build.specs.Assembled.{here_in, sections_put, with_line};
    ghost use Rattle.guest_build.specs.Measures.{IsMeasure};
    ghost use Rattle.guest_build.specs.Views.{sections_of, places_in, Makes};

    /// Nothing yet.
    pub fn new(alloc: Global) -> Sections
        ensures { sections_of result ≡ no_sections }
    {
        Sections {
            section: Section::Text,
            in_text: Content::new(alloc),
            in_data: Content::new(alloc),
            settings: Settings::new(),
        }
    }

    /// Where the next line stands in the image.
    fn here(&self, origins: &Origins) -> u64
        ensures { result ≡ here_in origins.now (sections_of self.now) }
    {
        match self.section {
            Section::Text => origins.at(Section::Text, self.in_text.bytes.len() as u64),
            Section::Data => origins.at(Section::Data, self.in_data.bytes.len() as u64),
        }
    }

    /// Appends a statement.
    #[tactic(auto, unfolding(crate::specs::Layout::sections_with))]
    fn put(
        &mut self,
        origins: &Origins,
        labels: &Labels,
        statement: &Statement,
    ) -> Result<(), Fault>
        ensures { Makes result (sections_of self.new) (sections_put origins.now (places_in labels.now) (sections_of self.old) statement.now) }
    {
        let here = self.here(origins);
        match self.section {
            Section::Text => self.in_text.put(origins, labels, here, statement)?,
            Section::Data => self.in_data.put(origins, labels, here, statement)?,
        }
        self.section = self.section.behind(statement);
        self.settings = self.settings.with(statement);
        Ok(())
    }

    /// Takes in the line with a number.
    #[tactic(auto, unfolding(crate::specs::Assembled::with_line, crate::specs::Assembled::not_large))]
    pub fn add(
        &mut self,
        measure: &mut Measure,
        origins: &Origins,
        labels: &Labels,
        n: u32,
        line: &Line,
    ) -> Result<(), Fault>
        requires { IsMeasure measure.old self.old.in_text.sites.items self.old.in_data.sites.items }
        ensures made { Makes result (sections_of self.new) (with_line origins.now (places_in labels.now) n (sections_of self.old) line.now) }
        ensures measure { OnOk result (IsMeasure measure.new self.new.in_text.sites.items self.new.in_data.sites.items) }
    {
        formed(&line.statement)?;
        once(labels, n, self, line)?;
        self.put(origins, labels, &line.statement)?;
        if is_large(self, measure) {
            return Err(Fault::Kind(AsmKind::Size));
        }
        Ok(())
    }
}
