//! The statuses of refusals.
#![tactic(auto)]

ghost use Rattle.std.specs.Prelude.{◌≡◌, ◌≢◌, IfOk};
ghost use Rattle.service_answer.specs.Answers.{gives};
ghost use Rattle.protocol_db.specs.declared.refusal.ProtocolRefusal.TheVariants.{Memory};
ghost use Rattle.protocol_services.specs.Refusals.{protocol_status};

use protocol_db::ProtocolRefusal;
use service_answer::{Served, gives};
use std::alloc::{AllocError, Global};
use uh_base::EfiStatus;

/// The status of a refusal.
fn protocol_status(refusal: ProtocolRefusal) -> u64
    ensures { result ≡ protocol_status refusal }
{
    match refusal {
        ProtocolRefusal::Invalid => EfiStatus::INVALID_PARAMETER.0,
        ProtocolRefusal::NotFound => EfiStatus::NOT_FOUND.0,
        ProtocolRefusal::Unsupported => EfiStatus::UNSUPPORTED.0,
        ProtocolRefusal::AccessDenied => EfiStatus::ACCESS_DENIED.0,
        ProtocolRefusal::AlreadyStarted => EfiStatus::ALREADY_STARTED.0,
        ProtocolRefusal::Full => EfiStatus::OUT_OF_RESOURCES.0,
        ProtocolRefusal::Memory => EfiStatus::OUT_OF_RESOURCES.0,
    }
}

/// Gives the status of a refusal, unless that is want of host memory.
pub(crate) fn refuse(alloc: Global, refusal: ProtocolRefusal) -> Result<Served, AllocError>
    ensures other { IfOk result (λ answer. refusal ≢ Memory) }
    ensures gives { IfOk result (λ answer. answer ≡ gives (protocol_status refusal)) }
{
    match refusal {
        ProtocolRefusal::Memory => Err(AllocError),
        _ => Ok(gives(alloc, protocol_status(refusal))),
    }
}

/// Gives the status of a refusal.
pub(crate) fn refuse_surely(alloc: Global, refusal: ProtocolRefusal) -> Served
    ensures { result ≡ gives (protocol_status refusal) }
{
    gives(alloc, protocol_status(refusal))
}
