//! Callers of the libraries that are proved, as each `CALLING.md` shows them, with a run of each;
//! and a table of codes of their own. All other calls stand as data in `tests/calls`.
#![tactic(auto)]

#[cfg(test)]
mod any_table;
#[cfg(test)]
mod bits;
#[cfg(test)]
mod first_row;
#[cfg(test)]
mod recoding;
#[cfg(test)]
mod strip_callers;
