// Two keepers, receivables' and treasury's, and what they agree on.
#![tactic(auto)]

mod handing;
mod playing;
mod settlement;
mod settling;

pub use handing::hand_on;
pub use settlement::{Played, Settlement, Unsettled};
pub use settling::settle;
