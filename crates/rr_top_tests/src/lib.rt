//! Tests of the top call and of the crates below it that deal with arguments, files, reports and
//! commands, and of commands one after the other and under faults. It has no code but tests.
#![tactic(auto)]

#[cfg(test)]
mod arguments;
#[cfg(test)]
mod certificates;
#[cfg(test)]
mod commands;
#[cfg(test)]
mod directives;
#[cfg(test)]
mod dumps;
#[cfg(test)]
mod edge;
#[cfg(test)]
mod effects;
#[cfg(test)]
mod hostile;
#[cfg(test)]
mod limits;
#[cfg(test)]
mod lints;
#[cfg(test)]
mod listings;
#[cfg(test)]
mod loops;
#[cfg(test)]
mod makes;
#[cfg(test)]
mod memories;
#[cfg(test)]
mod repairs;
#[cfg(test)]
mod reports;
#[cfg(test)]
mod runs;
#[cfg(test)]
mod shelves;
#[cfg(test)]
mod starts;
#[cfg(test)]
mod words;
