use crate::fault::{Failure, Fault};
use p9_word::NoMemory;
use std::alloc::Global;

/// A line of a script that isn't blank and no comment.
#[derive(Clone, Copy)]
pub(crate) struct Row<'a> {
    /// Its number among all lines, from 1.
    pub(crate) number: usize,
    /// Its text.
    pub(crate) text: &'a str,
}

impl Row<'_> {
    /// Whether it is a history's first.
    pub(crate) fn is_first(&self) -> bool {
        self.text.starts_with("history ")
    }

    /// This line isn't played.
    pub(crate) fn fails(&self, fault: Fault) -> Failure {
        Failure {
            number: self.number,
            fault,
        }
    }
}

/// The rows of a script. A comment begins with `#`.
pub(crate) fn rows_of(alloc: Global, script: &str) -> Result<Vec<Row<'_>>, NoMemory> {
    let mut rows = Vec::new(alloc);
    let mut number: usize = 0;
    for line in script.lines() {
        number = number.saturating_add(1);
        let text = line.trim();
        if !text.is_empty() && !text.starts_with('#') {
            rows.push(Row { number, text })?;
        }
    }
    Ok(rows)
}
