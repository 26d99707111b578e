//! Tests of `vbi_meta` through its public calls: the vectors of `settings` and of `read_meta`, the order of refusals,
//! how the system is named, texts that are no JSON, and the texts of the faults. It is a crate of its own, since a
//! crate with tests is proved twice.
#![tactic(auto)]

#[cfg(test)]
mod documents;
#[cfg(test)]
mod naming;
#[cfg(test)]
mod not_json;
#[cfg(test)]
mod settling;
