//! Worked rows: the definitions on whole runs, computed by the checker. Each function's contract is a row.
#![tactic(auto)]

mod codec_rows;
mod follow_rows;
mod reader_rows;
mod report_rows;

pub use codec_rows::{closing_run, ordinary_run, resetting_run, saturating_run};
pub use follow_rows::{decoding_followed, encoding_followed, ordinary_followed};
pub use reader_rows::ordinary_run_again;
pub use report_rows::{
    boxes_of_histories, ordinary_report, run_from_a_file, run_with_encodes, run_with_takes,
};
