//! What is asked for.

/// Run a program on a machine, and write a record of the run.
#[derive(Debug, Drop)]
pub struct RecordRequest<'a> {
    /// How many frames the machine has, 4 to 4096.
    pub frames: u32,
    /// How many slots it has for pages that have no frame, in memory.
    pub slots: u32,
    /// How many instructions a hart's turn has at most.
    pub slice: u32,
    pub driver: Driver,
    /// The file to which the record is written.
    pub record: &'a str,
    pub image: &'a str,
    /// The words that it is given, if any: its name, and more.
    pub argv: Vec<&'a str>,
}

/// What runs the machine.
#[derive(Clone, Copy, PartialEq, Eq, Debug)]
pub enum Driver {
    /// One thread, up to so many instructions.
    Serial { limit: u64 },
    /// So many threads, and one that makes room for pages; it writes changed pages ahead, or does not.
    Workers { workers: u32, ahead: bool },
}
