//! Tests of `vbi_cli` through its public calls: what the words of the command line mean and how they are refused, jobs
//! over devices that cut, interrupt and fail, what these are asked, and the texts of the faults. It is a crate of its
//! own, since a crate with tests is proved twice.
#![tactic(auto)]

#[cfg(test)]
mod asserts;
#[cfg(test)]
mod drawing;
#[cfg(test)]
mod inputs;
#[cfg(test)]
mod jobs;
#[cfg(test)]
mod known;
#[cfg(test)]
mod lines;
#[cfg(test)]
mod memory;
#[cfg(test)]
mod metadata;
#[cfg(test)]
mod refusals;
#[cfg(test)]
mod runs;
#[cfg(test)]
mod streams;
#[cfg(test)]
mod words;
