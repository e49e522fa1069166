// The end of a message: `finish`. It changes no session, and nothing outside what is lent is read or written.

#![tactic(auto)]

mod finishing;

pub use finishing::finish;
