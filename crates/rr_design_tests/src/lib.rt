//! What the contracts of the crates from expressions to flat designs do not say: vectors of the
//! standard, texts that are refused, each at its place, and that each call succeeds where memory is
//! left. It has tests alone.
#![tactic(auto)]

/// A name with the number of its token.
#[cfg(test)]
macro_rules! name {
    ($token:literal, $name:literal) => {
        Expr::Name { token: $token, name: $name }
    };
}

#[cfg(test)]
mod designs;
#[cfg(test)]
mod expressions;
#[cfg(test)]
mod heads;
#[cfg(test)]
mod leaves;
#[cfg(test)]
mod loops;
#[cfg(test)]
mod memories;
#[cfg(test)]
mod modules;
#[cfg(test)]
mod parts;
#[cfg(test)]
mod tables;
#[cfg(test)]
mod targets;
#[cfg(test)]
mod texts;
#[cfg(test)]
mod walks;
