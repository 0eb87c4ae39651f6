//! Tests of kept sites: a file with directives and the sites of its expansion in, the kept ones out.
//! Nothing stands on it.
#![tactic(auto)]

#[cfg(test)]
mod keeping;
