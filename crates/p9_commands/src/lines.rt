use crate::fault::Fault;
use std::alloc::Global;

/// What a line of a script says.
#[derive(Clone, Copy)]
pub(crate) enum Line<'a> {
    /// It is blank or a comment.
    Nothing,
    /// A group of files begins, with these two.
    Files(&'a str, &'a str),
    /// A file begins, with so many bytes.
    File(&'a str, usize),
    /// The last file has this line.
    Text(&'a str),
    /// The last file has this, without the end of a line.
    LastText(&'a str),
    /// A command is given: its words, and what is planned.
    Command(&'a str),
}

/// A number below 2^64.
pub(crate) fn number(word: &str) -> Result<u64, Fault> {
    word.parse::<u64>().map_err(|_| Fault::NotUnderstood)
}

/// A number below 2^32.
pub(crate) fn id(word: &str) -> Result<u32, Fault> {
    word.parse::<u32>().map_err(|_| Fault::NotUnderstood)
}

/// A number of bytes.
pub(crate) fn size(word: &str) -> Result<usize, Fault> {
    word.parse::<usize>().map_err(|_| Fault::NotUnderstood)
}

/// What a line says.
pub(crate) fn read_line(alloc: Global, line: &str) -> Result<Line<'_>, Fault> {
    if let Some(text) = line.strip_prefix("| ") {
        return Ok(Line::Text(text));
    }
    if let Some(text) = line.strip_prefix("+ ") {
        return Ok(Line::LastText(text));
    }
    if let Some(command) = line.strip_prefix("p9pipe") {
        return Ok(Line::Command(command));
    }
    if line.starts_with('#') {
        return Ok(Line::Nothing);
    }
    let words: Vec<&str> = line.split_whitespace().collect(alloc)?;
    match words.as_slice() {
        [] => Ok(Line::Nothing),
        ["files", from, to] => Ok(Line::Files(from, to)),
        ["file", path] => Ok(Line::File(path, 0)),
        ["file", path, len] => Ok(Line::File(path, size(len)?)),
        _ => Err(Fault::NotUnderstood),
    }
}
