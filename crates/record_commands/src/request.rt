//! What is asked for.

/// Run a program by the turns of a record.
#[derive(Debug, Drop)]
pub struct ReplayRequest<'a> {
    pub record: &'a str,
    pub image: &'a str,
    /// The words that it is given, if any: its name, and more.
    pub argv: Vec<&'a str>,
}

/// Run a program by schedules that are chosen at random.
#[derive(Clone, Copy, Debug)]
pub struct ExploreRequest<'a> {
    /// How many runs there are at most.
    pub runs: u32,
    /// The seed of the first run. The next run has the next number, and so on.
    pub seed: u32,
    /// Behind how many rows no run is begun; None: any number.
    pub until: Option<u32>,
    /// The most steps of a run.
    pub limit: u64,
    /// How the turns of a run are chosen.
    pub by: By,
    /// Where the record of the first run of each row is saved, if anywhere.
    pub folder: Option<&'a str>,
    /// Whether the table is written as lines of values with commas between.
    pub is_csv: bool,
    /// Whether it is shown how many runs are done.
    pub is_watched: bool,
    pub image: &'a str,
}

/// How the turns of a run are chosen.
#[derive(Clone, Copy, Debug, PartialEq, Eq)]
pub enum By {
    /// Each turn is of any live hart, and of 1 to 1000 instructions.
    Turns,
    /// The live hart of the highest priority runs; priorities are for faults of this depth.
    Priorities { depth: u32 },
}
