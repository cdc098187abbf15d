//! Tests that cross the crates: rule files as texts through the parser and the checks, the network beside what is found anew, its nodes,
//! sessions, and one run with an engine of a type.
//! It has tests and their helpers alone, so that the crates below are proved once, without their tests. What a rule file and a script print,
//! with whichever words and failing calls, is shown by the crate `cases`, whose cases are data.
#![tactic(auto)]

#[cfg(test)]
mod agreeing;
#[cfg(test)]
mod certificates;
#[cfg(test)]
mod changes;
#[cfg(test)]
mod desks;
#[cfg(test)]
mod every_kind;
#[cfg(test)]
mod files;
#[cfg(test)]
mod inspections;
#[cfg(test)]
mod networks;
#[cfg(test)]
mod programs;
#[cfg(test)]
mod runs;
#[cfg(test)]
mod sessions;
