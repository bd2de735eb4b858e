// A keeper of versions: an interface whose meaning and laws every implementation shows.
#![tactic(auto)]

// Calls of many programs, one after the other, over any keeper.
mod client;
// Why a call is turned down, and the layer that found it.
mod fault;
// What a keeper asks of the numbers that it is made for and called with.
mod limits;
// What a step came to.
mod outcome;
// What a program is doing.
mod stage;
// The enquiry trait and the acting trait.
mod traits;
// A version, and the declared steps.
mod version;

pub use client::{Action, Opened, open_among};
pub use fault::{Fault, Layer, Refusal, refused};
pub use limits::{MOST_PROGRAMS, MOST_SERIALS, check_limits, seated, within_limits};
pub use outcome::Outcome;
pub use stage::Stage;
pub use traits::{Enquiry, Keeper};
pub use version::{Declared, Version};
