// The replay of a log: lines of hexadecimal digits in, an answer line for each out.
#![tactic(auto)]

pub mod replay;
