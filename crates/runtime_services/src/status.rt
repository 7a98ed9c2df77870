//! The statuses of refusals.
#![tactic(auto)]

ghost use Rattle.std.specs.Prelude.{◌≡◌};
ghost use Rattle.runtime_services.specs.Refusals.{variable_status};

use uh_base::EfiStatus;
use variable_store::VarRefusal;

/// The status of a refusal. Want of host memory isn't one; it isn't answered so.
pub(crate) fn variable_status(refusal: VarRefusal) -> u64
    ensures { result ≡ variable_status refusal }
{
    match refusal {
        VarRefusal::Invalid => EfiStatus::INVALID_PARAMETER.0,
        VarRefusal::Unsupported => EfiStatus::UNSUPPORTED.0,
        VarRefusal::NotFound => EfiStatus::NOT_FOUND.0,
        VarRefusal::WriteProtected => EfiStatus::WRITE_PROTECTED.0,
        VarRefusal::Full => EfiStatus::OUT_OF_RESOURCES.0,
        VarRefusal::Memory => EfiStatus::OUT_OF_RESOURCES.0,
    }
}
