//! Texts that are made as long as a limit asks.
use std::alloc::{AllocError, Global};

/// A text of a front, so many lines that are made of their numbers, and a back.
#[derive(Clone, Copy)]
pub(crate) struct Made {
    pub(crate) front: &'static str,
    pub(crate) before: &'static str,
    pub(crate) between: &'static str,
    pub(crate) after: &'static str,
    pub(crate) back: &'static str,
}

impl Made {
    /// The text with the lines from 1 to `count`: each has its number after `before` and the number below it after
    /// `between`, where that is not empty.
    pub(crate) fn text(&self, alloc: Global, count: u32) -> Result<String, AllocError> {
        let mut text = String::from_str(alloc, self.front)?;
        for above in 0..count {
            text.push_str(self.before)?;
            let number = format!(in alloc; "{}", above.saturating_add(1))?;
            text.push_str(number.as_str())?;
            if !self.between.is_empty() {
                text.push_str(self.between)?;
                let number = format!(in alloc; "{above}")?;
                text.push_str(number.as_str())?;
            }
            text.push_str(self.after)?;
        }
        text.push_str(self.back)?;
        Ok(text)
    }
}

/// A header and so many rows that are alike.
pub(crate) fn rows(
    alloc: Global,
    header: &str,
    row: &str,
    count: u32,
) -> Result<String, AllocError> {
    let mut text = String::from_str(alloc, header)?;
    for _ in 0..count {
        text.push_str(row)?;
    }
    Ok(text)
}
