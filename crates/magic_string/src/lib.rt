// The exported calls, for C and Rust, each on any memory. A call on a desk checks that the four slices hold a well-formed one (else 2), then calls the function that asks
// for it; an opening and a sheet ask of the tables their lengths alone.
#![tactic(auto)]

pub mod exported_desk;
pub mod exported_edits;
pub mod exported_filed;
pub mod exported_join;
pub mod exported_marks;
pub mod exported_reports;
pub mod exported_sheet;
