//! How long the table of base relocations is, kept from one line to the next.
ghost use Rattle.std.specs.Prelude.{◌≡◌, ◌++◌, ◌%◌, ◌^◌, length, []};
ghost use Rattle.guest_build.specs.Measures.{IsRun, IsMeasure};
ghost use Rattle.guest_build.specs.Relocations.{placed, table_of};

use crate::relocation::{Run, Site};

/// A table's length, and the sites that it has: so many of each of two sections, which begin at these offsets.
#[derive(Clone, Copy)]
pub struct Measure {
    pub text_from: u64,
    pub data_from: u64,
    pub text_count: usize,
    pub data_count: usize,
    pub run: Run,
}

/// Further sites of `.data`, where the sections stayed where they were.
fn with_data(measure: Measure, text: &[Site], data_from: u64, cells: &[Site]) -> Run
    requires measure { IsMeasure measure text.now cells.now }
    requires text { measure.text_count ≡ length text.now }
    requires from { measure.data_from ≡ data_from }
    ensures { IsRun result (placed measure.text_from text.now ++ placed data_from cells.now) }
{
    measure
        .run
        .with_all(data_from, &cells[measure.data_count..])
}

/// Further sites of `.text`, where there were none of `.data`.
fn with_text(measure: Measure, text_from: u64, text: &[Site], data_from: u64, cells: &[Site]) -> Run
    requires measure { IsMeasure measure text.now cells.now }
    requires cells { measure.data_count ≡ 0 }
    requires from { measure.text_from ≡ text_from }
    ensures { IsRun result (placed text_from text.now ++ placed data_from cells.now) }
{
    measure
        .run
        .with_all(text_from, &text[measure.text_count..])
        .with_all(data_from, cells)
}

/// All sites.
fn anew(text_from: u64, text: &[Site], data_from: u64, cells: &[Site]) -> Run
    ensures { IsRun result (placed text_from text.now ++ placed data_from cells.now) }
{
    Run::new()
        .with_all(text_from, text)
        .with_all(data_from, cells)
}

/// The run over all sites, of which the measure has some.
fn run_of(measure: Measure, text_from: u64, text: &[Site], data_from: u64, cells: &[Site]) -> Run
    requires { IsMeasure measure text.now cells.now }
    ensures { IsRun result (placed text_from text.now ++ placed data_from cells.now) }
{
    if measure.text_from != text_from {
        return anew(text_from, text, data_from, cells);
    }
    if measure.data_count == 0 {
        return with_text(measure, text_from, text, data_from, cells);
    }
    if measure.data_from != data_from || measure.text_count != text.len() {
        return anew(text_from, text, data_from, cells);
    }
    with_data(measure, text, data_from, cells)
}

impl Measure {
    ghost use Rattle.std.specs.Prelude.{◌≡◌, ◌++◌, ◌%◌, ◌^◌, length, []};
    ghost use Rattle.guest_build.specs.Measures.{IsRun, IsMeasure};
    ghost use Rattle.guest_build.specs.Relocations.{placed, table_of};

    /// No sites.
    pub fn new() -> Measure
        ensures { IsMeasure result [] [] }
    {
        Measure {
            text_from: 0,
            data_from: 0,
            text_count: 0,
            data_count: 0,
            run: Run::new(),
        }
    }

    /// The measure of all sites, of which it has some.
    pub fn over(self, text_from: u64, text: &[Site], data_from: u64, cells: &[Site]) -> Measure
        requires { IsMeasure self text.now cells.now }
        ensures measure { IsMeasure result text.now cells.now }
        ensures run { IsRun result.run (placed text_from text.now ++ placed data_from cells.now) }
    {
        Measure {
            text_from,
            data_from,
            text_count: text.len(),
            data_count: cells.len(),
            run: run_of(self, text_from, text, data_from, cells),
        }
    }
}
