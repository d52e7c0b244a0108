//! Laws of the drive machine (`drive_commands`), over any medium and any keeper, which saves a drive's reservations.
#![tactic(auto)]

mod laws;

pub use laws::{
    answers_are_determined, counts_are_held, events_run, honest_steps, replies_show_changes,
    runs_append, served_hosts_run,
};
