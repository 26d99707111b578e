//! Tests of `vbi_field` through its public calls: the texts of words, causes and codes, documents and reports of known
//! streams, pulled and pushed, what a text of words may hold, drawn fields, and what stands after a device failed. The
//! expected values are those of tables and of arithmetic. It is a crate of its own, since a crate with tests is proved
//! twice.
#![tactic(auto)]

#[cfg(test)]
mod circle;
#[cfg(test)]
mod documents;
#[cfg(test)]
mod drawing;
#[cfg(test)]
mod fault_texts;
#[cfg(test)]
mod faults;
#[cfg(test)]
mod feeding;
#[cfg(test)]
mod fields;
#[cfg(test)]
mod items;
#[cfg(test)]
mod known;
#[cfg(test)]
mod outlets;
#[cfg(test)]
mod recovered;
#[cfg(test)]
mod runs;
#[cfg(test)]
mod texts;
