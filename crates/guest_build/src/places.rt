//! Where lines and labels stand.
ghost use Rattle.std.specs.Prelude.{◌≡◌, ◌<◌, ◌^◌};
ghost use Rattle.guest_build.specs.Places.{is_base, is_subsystem, is_alignment, first, settings_with, is_set, base_in, subsystem_in, alignment_in, size_of, zeros_in, is_moved, section_behind, sum, more_text, more_data, grown, filled, place_in, no_settings, nothing_yet, at_origin};

use crate::number::Number;
use crate::statement::{Operand, Statement};

/// A section that lines fill.
#[derive(Clone, Copy, Debug, PartialEq, Eq)]
pub enum Section {
    Text,
    Data,
}

/// What the settings say. The first of each counts.
#[derive(Clone, Copy, Debug)]
pub struct Settings {
    /// The address that the image is linked for.
    pub base: Option<u64>,
    pub subsystem: Option<u64>,
    /// The alignment of sections.
    pub alignment: Option<u64>,
}

/// How much lines fill. Numbers of bytes are modulo 2^64.
#[derive(Clone, Copy, Debug)]
pub struct Extent {
    /// The section that the next line stands in.
    pub section: Section,
    pub text_len: u64,
    pub data_len: u64,
    /// Whether there are base relocations.
    pub moved: bool,
    pub settings: Settings,
}

/// Where a label stands: its line, and its place in a section.
#[derive(Clone, Copy, Debug)]
pub struct Place {
    pub line: u32,
    pub section: Section,
    pub offset: u64,
}

/// Where the sections of the whole text begin.
#[derive(Clone, Copy, Debug)]
pub struct Origins {
    /// The address that the image is linked for.
    pub base: u64,
    /// Offsets in the image.
    pub text_from: u64,
    pub data_from: u64,
}

/// A multiple of 4,096.
pub fn is_base(n: Number) -> bool
    ensures { result ≡ is_base n }
{
    !n.negative && n.size % 4096 == 0
}

/// An application, a boot driver or a runtime driver.
pub fn is_subsystem(n: Number) -> bool
    ensures { result ≡ is_subsystem n }
{
    n.is_between(10, 12)
}

/// An alignment of sections.
pub fn is_alignment(n: Number) -> bool
    ensures { result ≡ is_alignment n }
{
    !n.negative && (n.size == 32 || n.size == 4096)
}

/// The first number of a setting, where one out of its range is as if absent.
fn first(good: bool, n: Number, before: Option<u64>) -> Option<u64>
    ensures { result ≡ first good n before }
{
    match before {
        Some(n) => Some(n),
        None => if good { Some(n.size) } else { None },
    }
}

impl Settings {
    ghost use Rattle.std.specs.Prelude.{◌≡◌, ◌<◌};
    ghost use Rattle.guest_build.specs.Places.{no_settings, settings_with, is_set, base_in, subsystem_in, alignment_in};

    /// Nothing is set.
    pub fn new() -> Settings
        ensures { result ≡ no_settings }
    {
        Settings {
            base: None,
            subsystem: None,
            alignment: None,
        }
    }

    /// The settings with what a statement sets.
    #[tactic(auto, unfolding(crate::specs::Places::settings_with))]
    pub fn with(self, statement: &Statement) -> Settings
        ensures { result ≡ settings_with self statement.now }
    {
        match statement {
            Statement::Base(n) => Settings {
                base: first(is_base(*n), *n, self.base),
                ..self
            },
            Statement::Subsystem(n) => Settings {
                subsystem: first(is_subsystem(*n), *n, self.subsystem),
                ..self
            },
            Statement::Alignment(n) => Settings {
                alignment: first(is_alignment(*n), *n, self.alignment),
                ..self
            },
            _ => self,
        }
    }

    /// Whether a statement sets what is set.
    #[tactic(auto, unfolding(crate::specs::Places::is_set))]
    pub fn has(&self, statement: &Statement) -> bool
        ensures { result ≡ is_set self.now statement.now }
    {
        match statement {
            Statement::Base(_) => self.base.is_some(),
            Statement::Subsystem(_) => self.subsystem.is_some(),
            Statement::Alignment(_) => self.alignment.is_some(),
            _ => false,
        }
    }

    /// The address that the image is linked for; 0 where none is set.
    pub fn base(&self) -> u64
        ensures { result ≡ base_in self.now }
    {
        self.base.unwrap_or(0)
    }

    /// The subsystem; that of an application where none is set.
    pub fn subsystem(&self) -> u64
        ensures { result ≡ subsystem_in self.now }
    {
        self.subsystem.unwrap_or(10)
    }

    /// The alignment of sections; 4,096 where none is set.
    pub fn alignment(&self) -> u64
        ensures value { result ≡ alignment_in self.now }
        ensures positive { 0 < result }
    {
        match self.alignment {
            Some(n) => if n == 32 { 32 } else { 4096 },
            None => 4096,
        }
    }
}

/// How many bytes a statement has.
#[tactic(auto, unfolding(crate::specs::Places::size_of))]
fn size_of(statement: &Statement) -> u64
    ensures { result ≡ size_of statement.now }
{
    match statement {
        Statement::Number { width, .. } => u64::from(*width),
        Statement::Address(_) => 8,
        Statement::Zero(n) => if n.is_between(0, 1 << 20) { n.size } else { 0 },
        Statement::Ascii16(text) => (text.as_str().len() as u64).wrapping_mul(2).wrapping_add(2),
        Statement::Guid(_) => 16,
        Statement::Instruction { .. } => 4,
        Statement::LoadImmediate { value, .. } => if value.is_signed(12) { 4 } else { 8 },
        Statement::LoadAddress { .. } => 8,
        _ => 0,
    }
}

/// Whether a statement has a base relocation.
#[tactic(auto, unfolding(crate::specs::Places::is_moved))]
fn is_moved(statement: &Statement) -> bool
    ensures { result ≡ is_moved statement.now }
{
    match statement {
        Statement::Address(_) => true,
        Statement::Instruction {
            operand: Operand::High(_),
            ..
        } => true,
        _ => false,
    }
}

impl Section {
    ghost use Rattle.std.specs.Prelude.{◌≡◌};
    ghost use Rattle.guest_build.specs.Places.{section_behind};

    /// The section behind a statement.
    #[tactic(auto, unfolding(crate::specs::Places::section_behind))]
    pub fn behind(self, statement: &Statement) -> Section
        ensures { result ≡ section_behind self statement.now }
    {
        match statement {
            Statement::Text => Section::Text,
            Statement::Data => Section::Data,
            _ => self,
        }
    }
}

impl Extent {
    ghost use Rattle.std.specs.Prelude.{◌≡◌};
    ghost use Rattle.guest_build.specs.Places.{nothing_yet, grown, filled, place_in, more_text, more_data};

    /// Nothing yet.
    pub fn new() -> Extent
        ensures { result ≡ nothing_yet }
    {
        Extent {
            section: Section::Text,
            text_len: 0,
            data_len: 0,
            moved: false,
            settings: Settings::new(),
        }
    }

    fn more_text(&self, size: u64) -> u64
        ensures { result ≡ more_text self.now.section size self.now.text_len }
    {
        match self.section {
            Section::Text => self.text_len.wrapping_add(size),
            Section::Data => self.text_len,
        }
    }

    fn more_data(&self, size: u64) -> u64
        ensures { result ≡ more_data self.now.section size self.now.data_len }
    {
        match self.section {
            Section::Text => self.data_len,
            Section::Data => self.data_len.wrapping_add(size),
        }
    }

    /// One line more.
    #[tactic(auto, unfolding(crate::specs::Places::grown))]
    pub fn grown(&self, statement: &Statement) -> Extent
        ensures { result ≡ grown self.now statement.now }
    {
        let size = size_of(statement);
        Extent {
            section: self.section.behind(statement),
            text_len: self.more_text(size),
            data_len: self.more_data(size),
            moved: self.moved || is_moved(statement),
            settings: self.settings.with(statement),
        }
    }

    fn filled(&self) -> u64
        ensures { result ≡ filled self.now self.now.section }
    {
        match self.section {
            Section::Text => self.text_len,
            Section::Data => self.data_len,
        }
    }

    /// The place of a label on the next line, which has a number.
    pub fn place(&self, line: u32) -> Place
        ensures { result ≡ place_in line self.now }
    {
        Place {
            line,
            section: self.section,
            offset: self.filled(),
        }
    }
}

impl Origins {
    ghost use Rattle.std.specs.Prelude.{◌≡◌};
    ghost use Rattle.guest_build.specs.Places.{at_origin};

    /// The offset in the image of a place in a section.
    pub fn at(&self, section: Section, offset: u64) -> u64
        ensures { result ≡ at_origin self.now section offset }
    {
        match section {
            Section::Text => self.text_from.wrapping_add(offset),
            Section::Data => self.data_from.wrapping_add(offset),
        }
    }
}
