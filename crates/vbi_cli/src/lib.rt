//! What the program `ldvbi` does between its start and its end, over readers and writers that are lent to it: the words
//! of the command line become a job (`read_words`), the job is done over its devices (`run_job`), and its end has a
//! status (`status`). Only words and metadata take memory.
#![tactic(auto)]

mod command_line;
mod commands;
mod fault;
mod input;
mod job;
mod one_line;
mod source;

pub use command_line::{Job, Verb, WordsFault, read_words};
pub use fault::AppFault;
pub use input::Input;
pub use job::{Ended, run_job, status};
pub use one_line::{LineFault, run_line};
