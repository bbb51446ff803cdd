//! Reports, read back: the run that a report of a script tells, or the number of the line at fault.
#![tactic(auto)]

mod arguments;
mod build;
mod clones;
mod compare;
mod fault;
mod forms;
mod known;
mod laws;
mod page;
mod read;
mod reading;
mod run;
mod tables;
mod trace;

pub use compare::first_difference;
pub use fault::ReportFault;
pub use forms::{Forms, Section};
pub use known::Known;
pub use laws::{
    faults_are_one, legal_runs_are_told, names_of_sound_scripts, reports_determine_runs,
};
pub use page::report_text;
pub use read::read_report;
