//! Tests of records: texts that are read, written and refused, and replays.
#![tactic(auto)]

#[cfg(test)]
mod records;
