// The archive for C and Rust: each exported call calls the function of crate magic_string that has its name and its clause.
#![tactic(auto)]

pub mod exported_desk;
pub mod exported_edits;
pub mod exported_filed;
pub mod exported_join;
pub mod exported_marks;
pub mod exported_reports;
pub mod exported_sheet;
