//! Rows, strips, files, their reports and images read by functions: what the definitions of
//! `fax_rows`, `fax_page`, `fax_files` and `fax_walk` say by relations, computed.
#![tactic(auto)]

pub mod laws;
