//! What the hart stands at, and the frames that it goes back to.
use rv_step::Regs;
use std::marker::Model;

/// Where a service that comes in several turns stands.
#[derive(Clone, Copy, Debug, PartialEq, Eq, Drop)]
pub enum Phase {
    /// It was called.
    Called,
    /// It comes again, behind the notifications that it queued.
    Notified,
    /// It begins anew, behind a wait for the next timer.
    Renewed,
}

/// The hart: its registers and program counter, where the service under way stands, and the task priority level.
#[derive(Drop)]
pub struct Hart {
    pub regs: Regs,
    pub phase: Phase,
    /// The task priority level, from 4 to 31.
    pub tpl: u8,
}

impl Model for Hart {
    ghost use Rattle.firmware_core.specs.Harts.{Hart};

    ghost Value = { Hart };

    ghost view = { λ h. record { x = h.regs.x; pc = h.regs.pc; phase = h.phase; tpl = h.tpl } };
}

/// What began a frame.
#[derive(Clone, Copy, Debug, PartialEq, Eq, Drop)]
pub enum Purpose {
    /// A job, which runs the image of this handle.
    Job(u64),
    /// StartImage, which runs the image of this handle for the code that called it.
    Image(u64),
    /// A call of guest code by the host, at a slot that comes again behind it.
    Call,
    /// A call of runtime code by the operating system.
    Runtime,
    /// The notification of an event.
    Notification,
}

/// What an image ends with.
#[derive(Clone, Copy, Debug, PartialEq, Eq, Drop)]
pub struct Ending {
    pub status: u64,
    /// The size of its exit data, in bytes.
    pub size: u64,
    /// The address of its exit data.
    pub exit_data: u64,
}

/// What runs, and the hart as it was before.
#[derive(Drop)]
pub struct Frame {
    pub purpose: Purpose,
    pub back: Hart,
}
