//! Assembling a text.
ghost use Rattle.std.specs.Prelude.{◌≡◌, ◌<◌, ◌-◌, ◌^◌, ℕ, List, length, map, None, IfOk, OnOk};
ghost use Rattle.std.specs.Str.Lines.{lines};
ghost use Rattle.uh_base.specs.Answers.{Reads};
ghost use Rattle.guest_build.specs.Faults.{fault_of, fault_on};
ghost use Rattle.guest_build.specs.Places.{extent_of, nothing_yet, found, labelled};
ghost use Rattle.guest_build.specs.Lines.{line_of};
ghost use Rattle.guest_build.specs.Layout.{no_sections};
ghost use Rattle.guest_build.specs.Assembled.{with_line, sections_from, image_from, image_in, assembled};
ghost use Rattle.guest_build.specs.Measures.{IsMeasure};
ghost use Rattle.guest_build.specs.Views.{sections_of, places_in, or_else, Makes};

use crate::encoding::offset_of;
use crate::fault::{AsmFault, AsmKind, Fault};
use crate::image::image_of;
use crate::labels::Labels;
use crate::layout::origins_of;
use crate::line::line_of;
use crate::measure::Measure;
use crate::places::{Extent, Origins, Place};
use crate::sections::Sections;
use std::alloc::{AllocError, Global};
use uh_base::Text;

/// The lines of a text.
fn lines_of(alloc: Global, text: &str) -> Result<Vec<&str>, AllocError>
    ensures { IfOk result (λ all. map (λ line. line.now) all.items ≡ lines text.now) }
{
    text.lines().collect(alloc)
}

/// How much lines fill, and where their labels stand.
#[derive(Drop)]
struct Survey {
    extent: Extent,
    labels: Labels,
}

/// Takes in the label of a line, if it has one.
fn add_label(
    alloc: Global,
    labels: &mut Labels,
    place: Place,
    label: &Option<Text>,
) -> Result<(), AllocError>
    ensures { OnOk result ((name : List ℕ) → places_in labels.new name ≡ or_else (places_in labels.old name) (labelled place label.now name None)) }
{
    match label {
        Some(label) => labels.add(alloc, label.as_str(), place),
        None => Ok(()),
    }
}

impl Survey {
    ghost use Rattle.std.specs.Prelude.{◌≡◌, ℕ, List, None, OnOk};
    ghost use Rattle.guest_build.specs.Lines.{line_of};
    ghost use Rattle.guest_build.specs.Places.{grown, labelled, place_in};
    ghost use Rattle.guest_build.specs.Views.{places_in, or_else};

    /// Takes in the line with a number.
    fn add(&mut self, alloc: Global, n: u32, text: &str) -> Result<(), AllocError>
        ensures extent { OnOk result (self.new.extent ≡ grown self.old.extent (line_of text.now).statement) }
        ensures labels { OnOk result ((name : List ℕ) → places_in self.new.labels name ≡ or_else (places_in self.old.labels name) (labelled (place_in n self.old.extent) (line_of text.now).label name None)) }
    {
        let line = line_of(alloc, text)?;
        add_label(alloc, &mut self.labels, self.extent.place(n), &line.label)?;
        self.extent = self.extent.grown(&line.statement);
        Ok(())
    }
}

/// Goes over lines once.
fn surveyed(alloc: Global, lines: &[&str]) -> Result<Survey, AllocError>
    requires { length lines.now < 2 ^ 32 - 1 }
    ensures extent { IfOk result (λ survey. survey.extent ≡ extent_of nothing_yet (map (λ line. line.now) lines.now)) }
    ensures labels { IfOk result (λ survey. (name : List ℕ) → places_in survey.labels name ≡ found 1 nothing_yet (map (λ line. line.now) lines.now) name) }
{
    let mut survey = Survey {
        extent: Extent::new(),
        labels: Labels::new(alloc),
    };
    for i in 0..lines.len() {
        survey.add(alloc, i as u32 + 1, lines[i])?;
    }
    Ok(survey)
}

/// The fault of a line.
fn fault_on(line: u32, fault: Fault) -> AsmFault
    ensures { result ≡ fault_on line fault }
{
    match fault {
        Fault::Kind(kind) => AsmFault::At { line, kind },
        Fault::Memory => AsmFault::Memory,
    }
}

/// Takes in the line with a number.
fn add_line(
    alloc: Global,
    all: &mut Sections,
    measure: &mut Measure,
    origins: &Origins,
    labels: &Labels,
    n: u32,
    text: &str,
) -> Result<(), Fault>
    requires { IsMeasure measure.old all.old.in_text.sites.items all.old.in_data.sites.items }
    ensures made { Makes result (sections_of all.new) (with_line origins.now (places_in labels.now) n (sections_of all.old) (line_of text.now)) }
    ensures measure { OnOk result (IsMeasure measure.new all.new.in_text.sites.items all.new.in_data.sites.items) }
{
    let line = line_of(alloc, text)?;
    all.add(measure, origins, labels, n, &line)
}

/// What lines make of the sections.
fn sections_from(
    alloc: Global,
    origins: &Origins,
    labels: &Labels,
    lines: &[&str],
) -> Result<Sections, AsmFault>
    requires { length lines.now < 2 ^ 32 - 1 }
    ensures { Reads fault_of sections_of result (sections_from origins.now (places_in labels.now) 1 no_sections (map (λ line. line.now) lines.now)) }
{
    let mut all = Sections::new(alloc);
    let mut measure = Measure::new();
    for i in 0..lines.len() {
        let n = i as u32 + 1;
        match add_line(alloc, &mut all, &mut measure, origins, labels, n, lines[i]) {
            Ok(()) => {}
            Err(fault) => return Err(fault_on(n, fault)),
        }
    }
    Ok(all)
}

/// The image of lines whose labels are placed.
fn image_from(
    alloc: Global,
    origins: &Origins,
    labels: &Labels,
    lines: &[&str],
) -> Result<Vec<u8>, AsmFault>
    requires { length lines.now < 2 ^ 32 - 1 }
    ensures { Reads fault_of (λ image. image.items) result (image_from origins.now (places_in labels.now) (map (λ line. line.now) lines.now)) }
{
    let entry = match offset_of(origins, labels, "start") {
        Ok(entry) => entry,
        Err(kind) => return Err(AsmFault::At { line: 0, kind }),
    };
    let all = match sections_from(alloc, origins, labels, lines) {
        Ok(all) => all,
        Err(fault) => return Err(fault),
    };
    match image_of(alloc, entry, &all) {
        Ok(image) => Ok(image),
        Err(_) => Err(AsmFault::Memory),
    }
}

/// The image of lines.
fn image_in(alloc: Global, lines: &[&str]) -> Result<Vec<u8>, AsmFault>
    requires { length lines.now < 2 ^ 32 - 1 }
    ensures { Reads fault_of (λ image. image.items) result (image_in (map (λ line. line.now) lines.now)) }
{
    match surveyed(alloc, lines) {
        Ok(survey) => {
            let origins = origins_of(&survey.extent);
            image_from(alloc, &origins, &survey.labels, lines)
        }
        Err(_) => Err(AsmFault::Memory),
    }
}

/// The PE32+ image of an assembly text, or the first thing that is wrong with it: on the least line, and of several
/// on it the first in the order of `AsmKind`. Line 0 is the text as a whole, in which `start` is on no line. The
/// language is described in docs/assembly.md.
#[tactic(auto, unfolding(crate::specs::Assembled::assembled))]
pub fn assemble(alloc: Global, text: &str) -> Result<Vec<u8>, AsmFault>
    requires { length text.now < 2 ^ 32 - 1 }
    ensures { Reads fault_of (λ image. image.items) result (assembled text.now) }
{
    match lines_of(alloc, text) {
        Ok(lines) => image_in(alloc, lines.as_slice()),
        Err(_) => Err(AsmFault::Memory),
    }
}
