//! What the contracts of `rr_bits`, `rr_decimal`, `rr_made_input`, `rr_cnf` and `rr_sort` do not say: values from
//! outside, written texts, and that each call succeeds where memory is left. It has tests alone.
#![tactic(auto)]

#[cfg(test)]
mod bits;
#[cfg(test)]
mod cnf;
#[cfg(test)]
mod decimal;
#[cfg(test)]
mod made;
#[cfg(test)]
mod sort;
