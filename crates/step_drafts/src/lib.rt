// The drafts of a step, in a lent room that begins as a session does: links with pieces, each put once at its place,
// shaken, and settled. What else the room holds is nobody's business.
#![tactic(auto)]

mod keeping;
mod moving;
mod room;
mod settling;
mod shaking;

pub use keeping::{Keeping, put};
pub use room::{WORK, clear, piece};
pub use settling::{Settled, settle};
pub use shaking::shake;
