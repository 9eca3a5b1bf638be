//! Counts by instruction, by function and by call, in the order in which they are written.

use crate::function_names::FunctionNames;
use guest_profile::{CallSite, InsnTally, NOTHING, Profile, Sums};
use rv_isa::decode;
use std::alloc::{AllocError, AllocFailed, Global};
use std::collections::BTreeMap;

/// A row: ordered by steps.
#[derive(Clone, Copy, Debug, PartialEq, Eq, PartialOrd, Ord)]
pub(crate) struct Row {
    pub(crate) sums: Sums,
    /// Of an instruction its own address, of a function that at which it begins.
    pub(crate) address: u32,
    pub(crate) word: u32,
    /// Of the sums what is of calls within a call of the same function.
    pub(crate) inner: Sums,
}

/// A call with its counts: ordered by the steps inside.
#[derive(Clone, Copy, Debug, PartialEq, Eq, PartialOrd, Ord)]
pub(crate) struct CallRow {
    pub(crate) inside: u64,
    pub(crate) times: u64,
    pub(crate) call: CallSite,
    /// What was done inside.
    pub(crate) sums: Sums,
}

/// The counts of a profile.
#[derive(Drop)]
pub(crate) struct Tables {
    pub(crate) total: Sums,
    /// By rising address.
    pub(crate) insns: Vec<Row>,
    /// By rising steps.
    pub(crate) hot_insns: Vec<Row>,
    /// By rising steps.
    pub(crate) functions: Vec<Row>,
    /// By rising steps inside.
    pub(crate) calls: Vec<CallRow>,
}

/// The sums of an instruction's word that ran so often, and so often was not followed by the instruction after it in memory.
fn sums_of(word: u32, steps: u64, taken: u64) -> Sums {
    match decode(word) {
        Some(insn) => Sums::of(insn, steps, taken),
        None => {
            let mut sums = NOTHING;
            sums.steps = steps;
            sums
        }
    }
}

impl Row {
    /// An instruction with its counts.
    fn of(address: u32, counts: InsnTally) -> Self {
        let word = counts.word;
        Row {
            sums: sums_of(word, counts.steps, counts.taken),
            address,
            word,
            inner: sums_of(word, counts.inner_steps, counts.inner_taken),
        }
    }
}

impl Tables {
    pub(crate) fn of(
        alloc: Global,
        profile: &Profile,
        names: &FunctionNames<'_>,
    ) -> Result<Self, AllocError> {
        let insns = rows_of(alloc, profile)?;
        let functions = functions_of(alloc, insns.as_slice(), names)?;
        let calls = calls_of(alloc, profile)?;
        let hot_insns = sorted(insns.clone()?);
        Ok(Tables {
            total: total_of(insns.as_slice()),
            insns,
            hot_insns,
            functions,
            calls,
        })
    }

    /// Where the functions begin that ran or were called, each once.
    pub(crate) fn function_starts(&self, alloc: Global) -> Result<Vec<u32>, AllocError> {
        let mut starts = Vec::new(alloc);
        for row in self.functions.as_slice() {
            starts.push(row.address).map_err(AllocError::from)?;
        }
        for row in self.calls.as_slice() {
            starts.push(row.call.callee).map_err(AllocError::from)?;
        }
        starts.sort_unstable();
        starts.dedup();
        Ok(starts)
    }
}

fn total_of(rows: &[Row]) -> Sums {
    let mut total = NOTHING;
    for row in rows {
        total = total.and(row.sums);
    }
    total
}

/// Rows by rising steps.
fn sorted(mut rows: Vec<Row>) -> Vec<Row> {
    rows.sort_unstable();
    rows
}

fn rows_of(alloc: Global, profile: &Profile) -> Result<Vec<Row>, AllocError> {
    let mut rows = Vec::new(alloc);
    for address in profile.insns().addresses(alloc)?.as_slice() {
        if let Some(counts) = profile.insns().at(*address) {
            rows.push(Row::of(*address, counts))
                .map_err(AllocError::from)?;
        }
    }
    Ok(rows)
}

fn functions_of(
    alloc: Global,
    insns: &[Row],
    names: &FunctionNames<'_>,
) -> Result<Vec<Row>, AllocError> {
    let mut sums: BTreeMap<u32, Sums> = BTreeMap::new(alloc);
    for row in insns {
        let function = names.function_of(row.address);
        let before = match sums.get(&function) {
            Some(before) => *before,
            None => NOTHING,
        };
        sums.insert(function, before.and(row.sums))
            .map_err(AllocError::from)?;
    }
    let mut rows = Vec::new(alloc);
    for (address, sums) in sums.iter() {
        let row = Row {
            sums: *sums,
            address: *address,
            word: 0,
            inner: NOTHING,
        };
        rows.push(row).map_err(AllocError::from)?;
    }
    Ok(sorted(rows))
}

fn calls_of(alloc: Global, profile: &Profile) -> Result<Vec<CallRow>, AllocError> {
    let mut rows = Vec::new(alloc);
    for call in profile.calls(alloc)?.as_slice() {
        if let Some(count) = profile.call(*call) {
            let row = CallRow {
                inside: count.inside.steps,
                times: count.times,
                call: *call,
                sums: count.inside,
            };
            rows.push(row).map_err(AllocError::from)?;
        }
    }
    rows.sort_unstable();
    Ok(rows)
}
