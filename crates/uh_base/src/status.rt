//! Statuses of UEFI services.
#![tactic(auto)]

ghost use Rattle.std.specs.Prelude.{◌≡◌};
ghost use Rattle.uh_base.specs.Statuses.{success, load_error, invalid_parameter, unsupported, buffer_too_small, not_ready, device_error, write_protected, out_of_resources, not_found, access_denied, no_mapping, not_started, already_started, aborted, security_violation, warn_unknown_glyph};

/// The status of a UEFI service: UEFI 2.10, appendix D. An error has bit 63.
#[derive(Clone, Copy, Debug, PartialEq, Eq)]
pub struct EfiStatus(pub u64);

impl EfiStatus {
    /// The call did what was asked.
    pub const SUCCESS: EfiStatus = EfiStatus(0);

    /// An image can't be loaded.
    pub const LOAD_ERROR: EfiStatus = EfiStatus(0x8000_0000_0000_0001);

    /// An argument is out of form.
    pub const INVALID_PARAMETER: EfiStatus = EfiStatus(0x8000_0000_0000_0002);

    /// The service doesn't do this.
    pub const UNSUPPORTED: EfiStatus = EfiStatus(0x8000_0000_0000_0003);

    /// A buffer has too few bytes; the service says how many are needed.
    pub const BUFFER_TOO_SMALL: EfiStatus = EfiStatus(0x8000_0000_0000_0005);

    /// What is asked for hasn't come yet.
    pub const NOT_READY: EfiStatus = EfiStatus(0x8000_0000_0000_0006);

    /// A device failed.
    pub const DEVICE_ERROR: EfiStatus = EfiStatus(0x8000_0000_0000_0007);

    /// What is to be written may only be read.
    pub const WRITE_PROTECTED: EfiStatus = EfiStatus(0x8000_0000_0000_0008);

    /// A limit is reached.
    pub const OUT_OF_RESOURCES: EfiStatus = EfiStatus(0x8000_0000_0000_0009);

    /// Nothing is there of what is asked for.
    pub const NOT_FOUND: EfiStatus = EfiStatus(0x8000_0000_0000_000e);

    /// Another has what is asked for.
    pub const ACCESS_DENIED: EfiStatus = EfiStatus(0x8000_0000_0000_000f);

    /// A device has no mapping.
    pub const NO_MAPPING: EfiStatus = EfiStatus(0x8000_0000_0000_0011);

    /// What is to be stopped wasn't started.
    pub const NOT_STARTED: EfiStatus = EfiStatus(0x8000_0000_0000_0013);

    /// What is to be started was started before.
    pub const ALREADY_STARTED: EfiStatus = EfiStatus(0x8000_0000_0000_0014);

    /// The call was broken off.
    pub const ABORTED: EfiStatus = EfiStatus(0x8000_0000_0000_0015);

    /// A signature or a right is missing.
    pub const SECURITY_VIOLATION: EfiStatus = EfiStatus(0x8000_0000_0000_001a);

    /// A warning: a character of a text couldn't be printed.
    pub const WARN_UNKNOWN_GLYPH: EfiStatus = EfiStatus(1);
}

/// A law: each constant is the number that the standard gives to its status.
pub fn statuses_are_of_the_standard()
    ensures success { EfiStatus.SUCCESS ≡ record { 0 = success } }
    ensures load_error { EfiStatus.LOAD_ERROR ≡ record { 0 = load_error } }
    ensures invalid_parameter { EfiStatus.INVALID_PARAMETER ≡ record { 0 = invalid_parameter } }
    ensures unsupported { EfiStatus.UNSUPPORTED ≡ record { 0 = unsupported } }
    ensures buffer_too_small { EfiStatus.BUFFER_TOO_SMALL ≡ record { 0 = buffer_too_small } }
    ensures not_ready { EfiStatus.NOT_READY ≡ record { 0 = not_ready } }
    ensures device_error { EfiStatus.DEVICE_ERROR ≡ record { 0 = device_error } }
    ensures write_protected { EfiStatus.WRITE_PROTECTED ≡ record { 0 = write_protected } }
    ensures out_of_resources { EfiStatus.OUT_OF_RESOURCES ≡ record { 0 = out_of_resources } }
    ensures not_found { EfiStatus.NOT_FOUND ≡ record { 0 = not_found } }
    ensures access_denied { EfiStatus.ACCESS_DENIED ≡ record { 0 = access_denied } }
    ensures no_mapping { EfiStatus.NO_MAPPING ≡ record { 0 = no_mapping } }
    ensures not_started { EfiStatus.NOT_STARTED ≡ record { 0 = not_started } }
    ensures already_started { EfiStatus.ALREADY_STARTED ≡ record { 0 = already_started } }
    ensures aborted { EfiStatus.ABORTED ≡ record { 0 = aborted } }
    ensures security_violation { EfiStatus.SECURITY_VIOLATION ≡ record { 0 = security_violation } }
    ensures warn_unknown_glyph { EfiStatus.WARN_UNKNOWN_GLYPH ≡ record { 0 = warn_unknown_glyph } }
{}
