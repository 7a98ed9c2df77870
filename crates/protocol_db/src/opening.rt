//! The rules of opening, on attributes alone.
#![tactic(auto)]

ghost use Rattle.std.specs.Prelude.{◌≡◌, ◌&&◌, Some};
ghost use Rattle.protocol_db.specs.Opening.{is_attribute, asks_agent, asks_controller, is_by_driver, is_alone, is_holding, entry_of, judged};
ghost use Rattle.handle_db.specs.Database.{is_like, is_between};
ghost use Rattle.std.specs.List.{list_any};

use crate::refusal::ProtocolRefusal;
use crate::request::OpenRequest;
use handle_db::{OpenEntry, ProtocolInterface};

/// Whether OpenProtocol knows the attributes.
pub fn is_attribute(attributes: u32) -> bool
    ensures { result ≡ is_attribute attributes }
{
    matches!(attributes, 1 | 2 | 4 | 8 | 0x10 | 0x20 | 0x30)
}

/// Whether the agent has to be a handle.
pub fn asks_agent(attributes: u32) -> bool
    ensures { result ≡ asks_agent attributes }
{
    attributes >= 8
}

/// Whether the controller has to be a handle.
pub fn asks_controller(attributes: u32) -> bool
    ensures { result ≡ asks_controller attributes }
{
    matches!(attributes, 8 | 0x10 | 0x30)
}

/// Whether it is an open by a driver.
pub fn is_by_driver(attributes: u32) -> bool
    ensures { result ≡ is_by_driver attributes }
{
    matches!(attributes, 0x10 | 0x30)
}

/// Whether an open lets no other such be there: by a driver, or exclusive.
pub fn is_alone(attributes: u32) -> bool
    ensures { result ≡ is_alone attributes }
{
    attributes & 0x30 != 0
}

/// Whether an open keeps an interface from being taken away: by a child controller, by a driver, or exclusive.
pub fn is_holding(attributes: u32) -> bool
    ensures { result ≡ is_holding attributes }
{
    attributes & 0x38 != 0
}

/// Whether an entry is like one.
fn any_like(entry: &OpenEntry, opens: &[OpenEntry]) -> bool
    ensures { result ≡ list_any (is_like entry.now) opens.now }
{
    opens.iter().any(|other| entry.is_like(other))
}

/// Whether an entry lets no other be there.
fn any_alone(opens: &[OpenEntry]) -> bool
    ensures { result ≡ list_any (λ e. is_alone e.attributes) opens.now }
{
    opens.iter().any(|entry| is_alone(entry.attributes))
}

/// Whether an entry keeps an interface from being taken away.
pub fn any_holding(opens: &[OpenEntry]) -> bool
    ensures { result ≡ list_any (λ e. is_holding e.attributes) opens.now }
{
    opens.iter().any(|entry| is_holding(entry.attributes))
}

/// Whether an entry is an agent's for a controller.
pub fn any_between(opens: &[OpenEntry], agent: u64, controller: u64) -> bool
    ensures { result ≡ list_any (is_between agent controller) opens.now }
{
    opens.iter().any(|entry| entry.agent == agent && entry.controller == controller)
}

/// Whether the same agent has opened by driver for the same controller.
fn is_started(request: &OpenRequest, opens: &[OpenEntry]) -> bool
    ensures { result ≡ (is_by_driver request.now.attributes && list_any (is_like (entry_of request.now)) opens.now) }
{
    is_by_driver(request.attributes) && any_like(&request.entry(), opens)
}

/// Whether an open that is alone comes to another such.
fn is_denied(request: &OpenRequest, opens: &[OpenEntry]) -> bool
    ensures { result ≡ (is_alone request.now.attributes && list_any (λ e. is_alone e.attributes) opens.now) }
{
    is_alone(request.attributes) && any_alone(opens)
}

/// The interface that an open of a protocol gives, or why the entries that are there refuse it.
pub fn judged(request: &OpenRequest, protocol: &ProtocolInterface) -> Result<u64, ProtocolRefusal>
    ensures { result ≡ judged request.now (Some protocol.now) }
{
    let opens = protocol.opens();
    if is_started(request, opens) {
        return Err(ProtocolRefusal::AlreadyStarted);
    }
    if is_denied(request, opens) {
        return Err(ProtocolRefusal::AccessDenied);
    }
    Ok(protocol.interface())
}
