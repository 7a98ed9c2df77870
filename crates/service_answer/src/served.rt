//! What a service comes to.
use std::marker::Model;

/// What a service comes to.
#[derive(Drop)]
pub struct Served {
    /// What it gives its caller in register a0: a status of UEFI 2.10, appendix D, where the service has one.
    pub value: u64,
    /// Whether it would touch more than 65,536 pages of memory. Nothing has changed then.
    pub frames: bool,
    /// The events that are to be signalled, in order.
    pub events: Vec<u64>,
}

impl Model for Served {
    ghost use Rattle.service_answer.specs.Answers.{Answer};

    ghost Value = { Answer };

    ghost view = { λ s. record { value = s.value; frames = s.frames; events = s.events.items } };
}
