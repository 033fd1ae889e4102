// The agreement of machine and plan, for every routine that passes the check.
#![tactic(auto)]

pub mod laws;
