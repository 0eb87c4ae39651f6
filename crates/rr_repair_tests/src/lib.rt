//! Tests of whole repairs: a design and its table in; the printed source, the report, the status and the
//! certificate out. Nothing stands on it.
#![tactic(auto)]

#[cfg(test)]
mod designs;
#[cfg(test)]
mod dumps;
#[cfg(test)]
mod members;
#[cfg(test)]
mod repairs;
