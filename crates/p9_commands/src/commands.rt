use crate::fault::{Failure, Fault};
use crate::group::Group;
use crate::lines::{Line, read_line};
use crate::outcome::Left;
use crate::plans::plan;
use crate::shown::Seen;
use p9_outside::{MemFiles, MemSink, MemSource};
use p9_run::pipe_main;
use p9_word::{Msg, NoMemory, Seq, Tid, Trail};
use std::alloc::{AllocError, Global};
use std::sync::Wait;
use std::thread::Threads;

/// The words of a command. The word `''` is the empty one.
fn words_of(alloc: Global, text: &str) -> Result<Vec<String>, AllocError> {
    let mut words = Vec::new(alloc);
    for word in text.split_whitespace() {
        let word = if word == "''" { "" } else { word };
        words.push(String::from_str(alloc, word)?)?;
    }
    Ok(words)
}

/// Calls the program with these words over these files, with nothing to read from standard input, no room on
/// standard output, and room for 4,096 bytes of messages.
fn call<R: Threads + Wait + Sync>(
    rt: &R,
    alloc: Global,
    words: &Vec<String>,
    mut files: MemFiles,
) -> Result<Left, NoMemory> {
    let mut err = MemSink::new(alloc, 4096, 4096, Seq::new(alloc))?;
    let input = MemSource::new(Msg::new(), 1, Seq::new(alloc));
    let out = MemSink::new(alloc, 1, 1, Seq::new(alloc))?;
    let outcome = pipe_main(rt, alloc, words, &mut files, input, out, &mut err);
    Ok(Left {
        status: outcome.status,
        err: err.into_msg(),
        trail: outcome.trail,
        files,
    })
}

/// Prints what a thread asks in a run, and what it is told.
fn print_calls(rt: &impl Print, trail: &Trail, t: Tid) -> Result<(), Fault> {
    for entry in trail.entries.as_slice() {
        let seen = Seen(entry, t);
        print!(rt; "{seen}").map_err(|_| Fault::Output)?;
    }
    Ok(())
}

/// Plans all that a command's line asks for behind its words, and gives the thread whose calls it asks for.
fn plan_all(alloc: Global, files: &mut MemFiles, parts: &[&str]) -> Result<Option<Tid>, Fault> {
    let mut shown = None;
    for part in parts {
        shown = plan(alloc, files, part)?.or(shown);
    }
    Ok(shown)
}

/// Gives a command, and prints it with what it left.
fn gives<R: Threads + Wait + Sync + Print>(
    rt: &R,
    alloc: Global,
    group: &Group,
    command: &str,
) -> Result<(), Fault> {
    let parts: Vec<&str> = command.split(" : ").collect(alloc)?;
    let Some((words, plans)) = parts.as_slice().split_first() else {
        return Err(Fault::NotUnderstood);
    };
    let mut files = group.files(alloc)?;
    let shown = plan_all(alloc, &mut files, plans)?;
    let words = words_of(alloc, words)?;
    let left = call(rt, alloc, &words, files)?;
    let text = left.text(alloc, group)?;
    println!(rt; "p9pipe{command} => {text}").map_err(|_| Fault::Output)?;
    if let Some(t) = shown {
        print_calls(rt, &left.trail, t)?;
    }
    Ok(())
}

/// Does what a line says.
fn does<'a, R: Threads + Wait + Sync + Print>(
    rt: &R,
    alloc: Global,
    group: &mut Group<'a>,
    line: &'a str,
) -> Result<(), Fault> {
    match read_line(alloc, line)? {
        Line::Nothing => Ok(()),
        Line::Files(from, to) => {
            *group = Group::new(alloc, from, to);
            println!(rt; "{line}").map_err(|_| Fault::Output)
        }
        Line::File(path, len) => {
            group.begin(alloc, path, len)?;
            println!(rt; "{line}").map_err(|_| Fault::Output)
        }
        Line::Text(text) => {
            group.add(text)?;
            group.add("\n")
        }
        Line::LastText(text) => group.add(text),
        Line::Command(command) => gives(rt, alloc, group, command),
    }
}

/// Does what each line of a script says.
pub(crate) fn runs_all<R: Threads + Wait + Sync + Print>(
    rt: &R,
    alloc: Global,
    script: &str,
) -> Result<(), Failure> {
    let mut group = Group::new(alloc, "", "");
    let mut number: usize = 0;
    for line in script.lines() {
        number = number.saturating_add(1);
        if let Err(fault) = does(rt, alloc, &mut group, line) {
            return Err(Failure { number, fault });
        }
    }
    Ok(())
}
