//! What the lines of a script do, one after another, and what is promised of all runs.
//! docs/GLOSSARY.md explains the words of its contracts.
#![tactic(auto)]

mod laws;

pub use laws::{
    acknowledged_blocks_stand, acknowledged_commits_are_processed,
    acknowledged_deletes_are_processed, acknowledged_puts_are_processed,
    acknowledged_storms_are_processed, clean_repairs_are_reached, equal_blocks_answer_equally,
    exported_files_arrive, exports_arrive, links_are_mutual, others_stay, quiet_faults_are_fuses,
    runs_are_one, runs_only_grow, stopped_is_exact, works_are_one,
};
