//! The text of a line.
ghost use Rattle.std.specs.Prelude.{◌≡◌, IfOk, string_bytes};
ghost use Rattle.uh_base.specs.Hex.{hex_digits};
ghost use Rattle.record_text.specs.Texts.{text_of};

use crate::hex_bytes::bytes_text;
use crate::line::Line;
use crate::service::service_name;
use record_names::fault_text;
use std::alloc::{AllocError, Global};
use uh_base::hex_text;

/// A 64-bit number as lines have it: 16 hexadecimal digits.
fn word(alloc: Global, n: u64) -> Result<String, AllocError>
    ensures { IfOk result (λ s. string_bytes s ≡ hex_digits 16 n) }
{
    hex_text(alloc, 16, n)
}

/// The text of a line, without the line end.
#[tactic(auto, unfolding(crate::specs::Texts::text_of))]
pub fn line_text(alloc: Global, line: &Line) -> Result<String, AllocError>
    ensures { IfOk result (λ s. string_bytes s ≡ text_of line.now) }
{
    match line {
        Line::Console { text } => format!(in alloc; "console {}", text.as_str()),
        Line::Svc { slot, h0 } => {
            let h0 = word(alloc, *h0)?;
            format!(in alloc; "svc {} {}", service_name(*slot), h0.as_str())
        }
        Line::Load {
            name,
            h0,
            h1,
            pages,
        } => {
            let h0 = word(alloc, *h0)?;
            let h1 = word(alloc, *h1)?;
            format!(in alloc;
                "load {} {} {} {}",
                name.as_str(),
                h0.as_str(),
                h1.as_str(),
                *pages
            )
        }
        Line::Start { name, h0, steps } => {
            let h0 = word(alloc, *h0)?;
            format!(in alloc; "start {} {} {}", name.as_str(), h0.as_str(), *steps)
        }
        Line::Unload { name, h0 } => {
            let h0 = word(alloc, *h0)?;
            format!(in alloc; "unload {} {}", name.as_str(), h0.as_str())
        }
        Line::ExitBoot { h0 } => {
            let h0 = word(alloc, *h0)?;
            format!(in alloc; "exit_boot {}", h0.as_str())
        }
        Line::CheckYes { name } => format!(in alloc; "check {} yes", name.as_str()),
        Line::CheckNo { name, rule, n } => {
            format!(in alloc; "check {} no {} {}", name.as_str(), rule.name(), *n)
        }
        Line::CheckCert { name, part, n } => {
            format!(in alloc; "check {} cert {} {}", name.as_str(), part.name(), *n)
        }
        Line::MapAccepted { steps } => format!(in alloc; "map accepted {}", *steps),
        Line::MapRefused { fault } => {
            let fault = fault_text(alloc, *fault)?;
            format!(in alloc; "map refused {}", fault.as_str())
        }
        Line::Call { name, h0, steps } => {
            let h0 = word(alloc, *h0)?;
            format!(in alloc; "call {} {} {}", name.as_str(), h0.as_str(), *steps)
        }
        Line::CallTrap { name, cause, steps } => {
            format!(in alloc; "call {} trap {} {}", name.as_str(), cause.name(), *steps)
        }
        Line::CallBound { name, steps } => {
            format!(in alloc; "call {} bound {}", name.as_str(), *steps)
        }
        Line::CallEarly { name } => format!(in alloc; "call {} early", name.as_str()),
        Line::Bytes { offset, hex } => {
            let hex = bytes_text(alloc, hex.as_slice())?;
            format!(in alloc; "bytes {} {}", *offset, hex.as_str())
        }
        Line::Peek { h0, hex } => {
            let h0 = word(alloc, *h0)?;
            let hex = bytes_text(alloc, hex.as_slice())?;
            format!(in alloc; "peek {} {}", h0.as_str(), hex.as_str())
        }
        Line::PeekFault { h0 } => {
            let h0 = word(alloc, *h0)?;
            format!(in alloc; "peek {} fault", h0.as_str())
        }
        Line::MemmapKey { key } => format!(in alloc; "memmap {}", *key),
        Line::MemmapRow {
            memory_type,
            h0,
            pages,
            h1,
        } => {
            let h0 = word(alloc, *h0)?;
            let h1 = word(alloc, *h1)?;
            format!(in alloc;
                "{} {} {} {}",
                *memory_type,
                h0.as_str(),
                *pages,
                h1.as_str()
            )
        }
        Line::Vars { hex } => {
            let hex = bytes_text(alloc, hex.as_slice())?;
            format!(in alloc; "vars {}", hex.as_str())
        }
        Line::Reset { kind, h0 } => {
            let h0 = word(alloc, *h0)?;
            format!(in alloc; "reset {} {}", *kind, h0.as_str())
        }
        Line::Halt { cause, h0, h1 } => {
            let h0 = word(alloc, *h0)?;
            let h1 = word(alloc, *h1)?;
            format!(in alloc; "halt {} {} {}", cause.name(), h0.as_str(), h1.as_str())
        }
        Line::End => String::from_str(alloc, "end"),
    }
}
