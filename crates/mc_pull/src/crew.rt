//! Workers beside one another on one replica: the caller goes on alone as long as fewer blocks wait than there are workers,
//! then there is a round of them, and then the caller goes on alone to the end.

mod finishing;
mod hands;
mod laws;
mod repairing;
mod rounds;
mod starting;
mod working;

pub use repairing::repair;
pub use working::work;
