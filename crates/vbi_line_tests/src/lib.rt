//! Tests of `vbi_words` and `vbi_line` through their public calls: codes and boundaries of known words, lines with what
//! they show, and how a line is filled from devices that cut, interrupt, fail and end. The expected values are those of
//! tables and of arithmetic. It is a crate of its own, since a crate with tests is proved twice.
#![tactic(auto)]

#[cfg(test)]
mod buffers;
#[cfg(test)]
mod calling;
#[cfg(test)]
mod cases;
#[cfg(test)]
mod classes;
#[cfg(test)]
mod devices;
#[cfg(test)]
mod fault_texts;
#[cfg(test)]
mod intakes;
#[cfg(test)]
mod limits;
#[cfg(test)]
mod lines;
#[cfg(test)]
mod packed;
#[cfg(test)]
mod values;
