//! Drains of a replica's wanted blocks, on the caller's thread.
//! docs/GLOSSARY.md explains the words of its contracts.
#![tactic(auto)]

mod draining;
mod end;
mod finishing;
mod giving;
mod jobs;
mod numbers;
mod repairing;
mod sorting;
mod taking;
mod turns;
mod walking;
mod working;

pub use draining::{drain, drain_alone};
pub use end::DrainEnd;
pub use finishing::{finish_work, leave_off};
pub use giving::give_up;
pub use jobs::{begin_job, deliver_job, give_job_back, requeue};
pub use repairing::{Repaired, begin_repair, finish_repair, repair};
pub use taking::{give_up_inbox, take_in};
pub use working::{WorkError, Worked, work};
