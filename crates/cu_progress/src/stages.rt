//! The stages of long work, and who is told of them.

/// A stage of long work.
#[derive(Clone, Copy, PartialEq, Eq)]
pub enum Stage {
    /// Files are loaded, and tables read and checked.
    Reading,
    /// A packed file is checked.
    Opening,
    /// An order is made by dissection.
    Ordering,
    /// Measured profiles are turned into pieces.
    Measuring,
    /// The shortcuts of a graph are found, without their ways.
    Closing,
    /// The shortcuts of a hierarchy are settled.
    Customizing,
    /// A file of edits is made.
    Editing,
    /// A packed file's shortcuts are compared with the built ones.
    Comparing,
    /// A packed file, or a table, is spelled.
    Packing,
    /// Files are stored.
    Storing,
    /// No long work is left: a script is answered, or a last line is said.
    Done,
}

/// Whoever is told how far long work is.
pub trait Progress {
    /// Is told that so much of a stage is done, of so much in all. A stage begins with nothing done, and the next one ends it.
    fn tell(&mut self, stage: Stage, done: u64, of: u64);
}

/// Nobody, who is told and keeps silent.
#[derive(Clone, Copy)]
pub struct Silent;

impl Progress for Silent {
    fn tell(&mut self, _stage: Stage, _done: u64, _of: u64) {}
}

/// Tells that a stage begins of which no parts are counted.
pub fn begin<P: Progress>(progress: &mut P, stage: Stage) {
    progress.tell(stage, 0, 1);
}
