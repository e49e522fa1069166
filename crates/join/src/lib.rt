// Joining two hops: the second table reads the words of the first, what its readings give is gathered on shelves, and
// the joined table's file is written. Nothing outside the lent rooms is read or written.
#![tactic(auto)]

mod gathering;
mod hops;
mod reading;

pub use hops::{Unjoined, join, join_in};
pub use reading::TAPE;
