//! Schedules: lines of events of the machine of interleavings, and the lines that are printed of them. The machine runs in one thread, so a
//! schedule prints the same each time.
#![tactic(auto)]

mod begins;
mod end;
mod line;
mod print;
mod run;
mod runner;

pub use end::ScheduleEnd;
pub use run::run_schedule;
