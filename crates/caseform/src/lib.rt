// The form of a case of the program `cases`: its arguments in the input, and parts of the line that shows its answer. Its main file has the table of cases.
#![tactic(auto)]

pub mod checksum;
pub mod input;
pub mod show;
