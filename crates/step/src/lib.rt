// One symbol in, the bytes that all runs agree on out: `step`. A refusal changes nothing, and nothing outside what is
// lent is read or written.
#![tactic(auto)]

mod taking;
mod write;

pub use step_drafts::WORK;
pub use taking::{step, step_in};
