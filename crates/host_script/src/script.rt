//! What a script holds.
use std::marker::Model;
use uh_base::{Bytes, Text};

/// Where an image, or a certificate, comes from.
#[derive(Drop)]
pub enum Origin {
    /// A file of this name.
    File(Text),
    /// This text: of an image, in assembly. It has at most 4 MiB.
    Text(Text),
}

/// An image that a script names.
#[derive(Drop)]
pub struct ImageSpec {
    /// 1 to 32 of `a` to `z`, `0` to `9` and `_`; no two images have the same.
    pub name: Text,
    pub origin: Origin,
}

/// An entry of a virtual address map (UEFI 2.10, section 8.4): so many pages from a physical address on, and where they
/// are to be seen.
#[derive(Drop)]
pub struct MapEntry {
    pub phys: u64,
    pub pages: u64,
    pub virt: u64,
    /// Whether the entry lacks the attribute RUNTIME.
    pub plain: bool,
}

/// A virtual address map, as a script writes it.
#[derive(Drop)]
pub struct MapStep {
    /// At most 1,024.
    pub entries: Vec<MapEntry>,
    /// The size of a descriptor, below 2^32.
    pub size: u64,
    /// The version of a descriptor.
    pub version: u32,
}

impl Model for MapStep {
    ghost use Rattle.host_script.specs.Steps.{MapPlain};

    ghost Value = { MapPlain };

    ghost view = { λ m. record { entries = m.entries.items; size = m.size; version = m.version } };
}

/// What is called.
#[derive(Drop)]
pub enum Target {
    /// The byte at an offset of the image that was loaded last under the name.
    Image { image: Text, at: u64 },
    /// The service of a slot.
    Service { slot: u8 },
}

/// An argument of a call.
#[derive(Drop)]
pub enum Arg {
    Number(u64),
    /// The address of this offset of the OS arguments.
    At(u64),
}

/// Bytes that are written to the OS arguments before a call, from an offset on: one or more, which end at most at 65,536.
#[derive(Drop)]
pub struct Buffer {
    pub offset: u32,
    pub hex: Bytes,
}

/// 1 to 4,096 bytes of the OS arguments that are printed after a call, from an offset on; they end at most at 65,536.
#[derive(Drop)]
pub struct Shown {
    pub offset: u32,
    pub len: u32,
}

/// A call of runtime code, as a script writes it.
#[derive(Drop)]
pub struct CallStep {
    pub target: Target,
    /// At most 8, for a0 and on.
    pub args: Vec<Arg>,
    /// At most 16.
    pub buffers: Vec<Buffer>,
    /// At most 16.
    pub show: Vec<Shown>,
    /// The most steps that the call may run, 1 to 50,000,000.
    pub bound: u64,
}

impl Model for CallStep {
    ghost use Rattle.host_script.specs.Steps.{CallPlain};

    ghost Value = { CallPlain };

    ghost view = { λ c. record { target = c.target; args = c.args.items; buffers = c.buffers.items; show = c.show.items; bound = c.bound } };
}

/// One step of a script. The image of a step is one that the script names; the step is on the image that was loaded
/// last under the name.
#[derive(Drop)]
pub enum Step {
    /// Loads the image.
    Load { image: Text },
    /// Unloads the image.
    Unload { image: Text },
    /// Runs the image, for at most `bound` steps, 1 to 50,000,000.
    Start { image: Text, bound: u64 },
    /// Ends boot services, in the name of the image, by a key of the memory map: the present one where none is given.
    ExitBoot { image: Text, key: Option<u64> },
    /// Checks the certificate, a file or a text, against the image.
    Check { image: Text, origin: Origin },
    /// Makes a virtual address map.
    Map(MapStep),
    /// Calls runtime code.
    Call(CallStep),
    /// Prints `len` bytes of memory from an address on, 1 to 4,096.
    Peek { at: u64, len: u32 },
    /// Prints the memory map.
    MemMap,
    /// Prints the variables that are kept.
    Vars,
}

/// A script: at most 16 images, and 1 to 4,096 steps.
#[derive(Drop)]
pub struct Script {
    /// The address of the first byte of RAM: a multiple of 4,096 from 0x100000 on, with which RAM ends at most at 2^46.
    pub ram_base: u64,
    /// How many pages of 4,096 bytes RAM has: 256 to 4,096.
    pub ram_pages: u32,
    /// The time at opening, as `2024-01-01T00:00:00`: one that sets a clock.
    pub time: Text,
    /// Tick moments beside the usual ones, in units of 100 ns: at most 1,024, positive and rising.
    pub ticks: Vec<u64>,
    /// Where the window of the operating system moves to.
    pub os_virtual: Option<u64>,
    /// Whether each service that answers prints a line.
    pub trace: bool,
    /// The file of the variables at opening.
    pub store: Option<Text>,
    pub image: Vec<ImageSpec>,
    pub step: Vec<Step>,
}

impl Model for Script {
    ghost use Rattle.host_script.specs.Plain.{Plain};

    ghost Value = { Plain };

    ghost view = { λ s. record { ram_base = s.ram_base; ram_pages = s.ram_pages; time = s.time; ticks = s.ticks.items; os_virtual = s.os_virtual; trace = s.trace; store = s.store; image = s.image.items; step = s.step.items } };
}
