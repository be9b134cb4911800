// Text: the lines of a log, what their digits spell, the line that is not finished, answer lines. Nothing is known here of tables.
#![tactic(auto)]

pub mod answers;
pub mod input;
pub mod line;
