//! A line of output.
use crate::cause::Cause;
use record_names::{Fault, Part, Rule};
use uh_base::{Bytes, Text};

/// A line. Its fields `h0` and `h1` are the 16 hexadecimal digits of its text, from the left.
#[derive(Drop)]
pub enum Line {
    /// `console TEXT`: a guest printed a string.
    Console {
        text: Text,
    },
    /// `svc NAME A0`: a service answered, that of the slot of this name.
    Svc {
        slot: u8,
        h0: u64,
    },
    /// `load NAME STATUS BASE PAGES`: an image was loaded.
    Load {
        name: Text,
        h0: u64,
        h1: u64,
        pages: u32,
    },
    /// `start NAME STATUS STEPS`: an image ran.
    Start {
        name: Text,
        h0: u64,
        steps: u64,
    },
    /// `unload NAME STATUS`: an image was unloaded.
    Unload {
        name: Text,
        h0: u64,
    },
    /// `exit_boot STATUS`: boot services were ended, or not.
    ExitBoot {
        h0: u64,
    },
    /// `check NAME yes`: a certificate of an image was checked, and holds.
    CheckYes {
        name: Text,
    },
    /// `check NAME no RULE N`: the first rule that fails, and the number that the rule names.
    CheckNo {
        name: Text,
        rule: Rule,
        n: u32,
    },
    /// `check NAME cert PART N`: the text is no certificate; the first part at fault, and its number from 0.
    CheckCert {
        name: Text,
        part: Part,
        n: u32,
    },
    /// `map accepted STEPS`: the virtual address map was made; notified functions took so many steps.
    MapAccepted {
        steps: u64,
    },
    /// `map refused FAULT`: the virtual address map was refused, and nothing changed.
    MapRefused {
        fault: Fault,
    },
    /// `call NAME A0 STEPS`: a function of an image, or a service, returned. NAME is the image's or the service's.
    Call {
        name: Text,
        h0: u64,
        steps: u64,
    },
    /// `call NAME trap CAUSE STEPS`: an instruction of the call trapped.
    CallTrap {
        name: Text,
        cause: Cause,
        steps: u64,
    },
    /// `call NAME bound STEPS`: the call reached its bound.
    CallBound {
        name: Text,
        steps: u64,
    },
    /// `call NAME early`: boot services last, or there is no such image.
    CallEarly {
        name: Text,
    },
    /// `bytes OFFSET HEX`: 1 to 4,096 bytes of the arguments of a call from an offset on, all below 65,536.
    Bytes {
        offset: u32,
        hex: Bytes,
    },
    /// `peek ADDRESS HEX`: 1 to 4,096 bytes of memory from an address on.
    Peek {
        h0: u64,
        hex: Bytes,
    },
    /// `peek ADDRESS fault`: some of the bytes aren't there.
    PeekFault {
        h0: u64,
    },
    /// `memmap KEY`: a memory map of this key follows, a row for each descriptor.
    MemmapKey {
        key: u64,
    },
    /// `TYPE START PAGES ATTRIBUTE`: a descriptor of a memory map (UEFI 2.10, section 7.2), with its physical start.
    MemmapRow {
        memory_type: u32,
        h0: u64,
        pages: u64,
        h1: u64,
    },
    /// `vars HEX`: the variables that are kept, as a file of them.
    Vars {
        hex: Bytes,
    },
    /// `reset TYPE STATUS`: a guest reset the system (UEFI 2.10, section 8.5.1), the last line.
    Reset {
        kind: u32,
        h0: u64,
    },
    /// `halt CAUSE PC ADDRESS`: the run stopped, the last line.
    Halt {
        cause: Cause,
        h0: u64,
        h1: u64,
    },
    /// `end`: the run is over, the last line.
    End,
}
