// A session: eight stations, each with a seed and a draw count of its own. A score call moves the count of the
// station that it names.
#![tactic(auto)]

mod session; // session.rt: the eight seeds and counts
mod station; // station.rt: one station, as a call plays from it

pub use session::{Answer, Session};
pub use station::{Station, StationAnswer};
