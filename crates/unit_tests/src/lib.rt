//! Tests of the lower crates, by their public calls.
//! It has tests and their helpers alone, so that those crates are proved once, without their tests.
#![tactic(auto)]

#[cfg(test)]
mod actions;
#[cfg(test)]
mod candidates;
#[cfg(test)]
mod commands;
#[cfg(test)]
mod desk_images;
#[cfg(test)]
mod folds;
#[cfg(test)]
mod held_events;
#[cfg(test)]
mod held_facts;
#[cfg(test)]
mod images;
#[cfg(test)]
mod lines;
#[cfg(test)]
mod loads;
#[cfg(test)]
mod networks;
#[cfg(test)]
mod operators;
#[cfg(test)]
mod pages;
#[cfg(test)]
mod pending;
#[cfg(test)]
mod questions;
#[cfg(test)]
mod ranges;
#[cfg(test)]
mod rows;
#[cfg(test)]
mod sources;
#[cfg(test)]
mod texts;
#[cfg(test)]
mod timers;
#[cfg(test)]
mod tokens;
#[cfg(test)]
mod windows;
