//! Texts that are assembled, and what is said of those that aren't.
#![tactic(auto)]

ghost use Rattle.std.specs.Prelude.{◌≡◌, ◌≤◌, ◌<◌, ◌-◌, ◌^◌, Err, IfOk, length, vec_len};
ghost use Rattle.guest_build.specs.Assembled.{assembled};
ghost use Rattle.host_engine.specs.Assemblies.{in_words};
ghost use Rattle.host_engine.specs.Limits.{code_limit};
ghost use Rattle.host_engine.specs.Stages.{AssemblyGives, IsWhy};

use guest_build::{AsmFault, AsmKind, assemble, assembled_images_are_short};
use std::alloc::Global;

/// Why there is no image of a text.
#[derive(Drop)]
pub enum Unassembled {
    /// The text is refused: of which image or file, at which line and why.
    Refused(String),
    /// Memory was wanting.
    Memory,
}

/// What is said of a text that is refused, under the name of its image or file.
pub fn refused(alloc: Global, name: &str, line: u32, kind: AsmKind) -> Unassembled
    ensures { IsWhy result (in_words name.now (Err (line, kind))) }
{
    match format!(in alloc; "{} {} {}", name, line, kind.name()) {
        Ok(text) => Unassembled::Refused(text),
        Err(_) => Unassembled::Memory,
    }
}

/// The image of a text, under the name of its image or file.
pub fn assembly(alloc: Global, name: &str, text: &str) -> Result<Vec<u8>, Unassembled>
    requires { length text.now < 2 ^ 32 - 1 }
    ensures gives { AssemblyGives (λ image. image.items) result (in_words name.now (assembled text.now)) }
    ensures short { IfOk result (λ image. vec_len image ≤ code_limit) }
{
    assembled_images_are_short();
    match assemble(alloc, text) {
        Ok(image) => Ok(image),
        Err(AsmFault::At { line, kind }) => Err(refused(alloc, name, line, kind)),
        Err(AsmFault::Memory) => Err(Unassembled::Memory),
    }
}
