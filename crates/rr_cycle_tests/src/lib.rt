//! What the contracts of the evaluator and of runs do not say: statements run by hand, designs with
//! rows of inputs and the outputs that they give, each refusal by its text, and that each call succeeds
//! where memory is left. It has tests alone.
#![tactic(auto)]

#[cfg(test)]
mod cycles;
#[cfg(test)]
mod directives;
#[cfg(test)]
mod dumps;
#[cfg(test)]
mod loops;
#[cfg(test)]
mod memories;
#[cfg(test)]
mod runs;
#[cfg(test)]
mod statements;
