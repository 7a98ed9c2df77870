//! Pairs of a GUID and an interface.
#![tactic(auto)]

ghost use Rattle.std.specs.Prelude.{◌≡◌};
ghost use Rattle.protocol_db.specs.Calls.{is_before};

use uh_base::Guid;

/// Whether a pair has a GUID.
pub fn is_before(before: &[(Guid, u64)], guid: &Guid) -> bool
    ensures { result ≡ is_before before.now guid.now }
{
    before.iter().any(|pair| guid.is_same(&pair.0))
}
