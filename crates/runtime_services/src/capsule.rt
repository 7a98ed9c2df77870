//! UpdateCapsule and QueryCapsuleCapabilities (UEFI 2.10, section 8.5). No capsule is taken.
#![tactic(auto)]

ghost use Rattle.std.specs.Prelude.{◌≡◌};
ghost use Rattle.runtime_services.specs.Capsules.{update_capsule, query_capsule_capabilities};

use guest_call::argument;
use uh_base::EfiStatus;

/// UpdateCapsule (array, count): the status.
#[tactic(auto, unfolding(crate::specs::Capsules::update_capsule))]
pub(crate) fn update_capsule(registers: &[u64; 32]) -> u64
    ensures { result ≡ update_capsule registers.now }
{
    if argument(1, registers) == 0 {
        EfiStatus::INVALID_PARAMETER.0
    } else {
        EfiStatus::UNSUPPORTED.0
    }
}

/// QueryCapsuleCapabilities: the status.
pub(crate) fn query_capsule_capabilities() -> u64
    ensures { result ≡ query_capsule_capabilities }
{
    EfiStatus::UNSUPPORTED.0
}
