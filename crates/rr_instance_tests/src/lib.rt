//! Tests of choices and instances: sites and a choice in, the text of the instance out. Nothing stands
//! on it.
#![tactic(auto)]

#[cfg(test)]
mod instances;
#[cfg(test)]
mod texts;
