//! The rules that a driver and its certificate have to meet.

/// A rule, in the order in which they are judged. The rules from `Insn` to `Unconverted` are judged at each node.
#[derive(Clone, Copy, Debug, PartialEq, Eq, Drop)]
pub enum Rule {
    /// The image is a runtime driver that stays, boot services are over, and no map was made.
    Phase,
    /// The regions are where the certificate says, and hold what they are given.
    Region,
    /// Spans lie in their regions, meet no other, and code may be executed.
    Span,
    /// Spans hold what they say.
    Data,
    /// What holds where a call begins serves its first node.
    Entry,
    /// What holds where a notified function begins serves its first node.
    Notify,
    /// An instruction that doesn't stop the run stands in code.
    Insn,
    /// A HIGH20 site is that of a LUI, and names an offset of the image.
    Site,
    /// A load is allowed at each offset.
    Load,
    /// A store is allowed at each offset, and keeps what is there.
    Store,
    /// A jump has one target, and a branch compares what it may.
    Jump,
    /// A function leaves the stack as it was, and a call a number in a0.
    Exit,
    /// ConvertPointer is called for a cell that isn't converted yet.
    Convert,
    /// The nodes that come next are those where the run may go on, and serve.
    Edge,
    /// Nodes of notified functions lead on to later ones, and no call reaches them.
    Order,
    /// Each cell is converted where the last notified function ends.
    Unconverted,
    /// There are frames for all pages that are to be touched.
    Frames,
}
