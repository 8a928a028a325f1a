//! The statements that declare things and procs, behind their first word.

ghost use Rattle.std.specs.Prelude.{◌≡◌, IfOk, None, Ok, Some, false, if◌then◌else◌};
ghost use Rattle.std.specs.List.{list_any};
ghost use Rattle.p9_grammar.specs.Decls.{chan_line, clashes, direction, elsize_of, enough_places, file_line, later_line, lock_line, new_path, proc_line, ref_line, rendez_line};
ghost use Rattle.p9_grammar.specs.Draft.{all_procs};
ghost use Rattle.p9_grammar.specs.Reading.{thing_line};
ghost use Rattle.p9_lang.specs.Gives.{Gives};
ghost use Rattle.p9_lang.specs.Views.{chans_of, draft_of, files_of, procs_of, refs_of, rendezes_of};

use crate::draft::{Chans, Draft, Files, OpenProc, Procs, Refs, Rendezes};
use crate::fault::LineFault;
use crate::names::Names;
use crate::sorts::{
    add_name, first_word, is_word_at, known_place, no_more, number_of_place, number_within,
    small_within,
};
use p9_grammar::limits::{MOST_LATER, USUAL_ELEMENT_BYTES};
use p9_grammar::{ChanDecl, ChanEnds, FileDecl, ProcDecl, RefDecl, RendezDecl, Why};
use p9_word::limits::{
    MOST_CHANNELS, MOST_ELEMENT_BYTES, MOST_ELEMENTS, MOST_FILES, MOST_LOCKS, MOST_PLACES,
    MOST_REFS, MOST_RENDEZES,
};
use p9_word::{Room, Word};
use std::alloc::Global;

/// `in` or `out`: whether it is `out`.
#[tactic(auto, unfolding(p9_grammar::specs::Decls::direction))]
fn is_out(word: &Word) -> Result<bool, LineFault>
    ensures { Gives (λ x. x) result (direction word.now) }
{
    if is_word_at(word, b"in") {
        Ok(false)
    } else if is_word_at(word, b"out") {
        Ok(true)
    } else {
        Err(LineFault::Text(Why::UnknownStatement))
    }
}

/// Whether a file of this direction and path can't stand beside the other.
fn is_clash(out: bool, path: &[u8], file: &FileDecl) -> bool
    ensures { result ≡ clashes out path.now file.now }
{
    path == file.path.as_slice() && !(path == b"-".as_slice() && out != file.out)
}

/// Whether one of the files can't stand beside one of this direction and path.
fn has_clash(files: &[FileDecl], out: bool, path: &[u8]) -> bool
    ensures { result ≡ list_any (clashes out path.now) files.now }
{
    files.iter().any(|file| is_clash(out, path, file))
}

/// A path that no file before has.
fn unused_path(files: &[FileDecl], out: bool, path: &[u8]) -> Result<(), LineFault>
    ensures { Gives (λ _. tt) result (new_path files.now out path.now) }
{
    if has_clash(files, out, path) {
        return Err(LineFault::Text(Why::UsedTwice));
    }
    Ok(())
}

impl Files {
    /// `file NAME in PATH`, `file NAME out PATH`.
    #[tactic(auto, unfolding(p9_grammar::specs::Decls::file_line))]
    pub fn line(&mut self, alloc: Global, words: &[Word]) -> Result<(), LineFault>
        ensures { Gives (λ _. files_of self.new) result (file_line (files_of self.old) words.now) }
    {
        let (name, words) = first_word(words)?;
        add_name(alloc, MOST_FILES as usize, &mut self.names, name)?;
        let (way, words) = first_word(words)?;
        let out = is_out(way)?;
        let (path, words) = first_word(words)?;
        unused_path(self.decls.as_slice(), out, path.bytes.as_slice())?;
        no_more(words)?;
        let name = name.bytes.copy()?;
        let path = path.bytes.copy()?;
        self.decls.reserve(1)?;
        self.decls.push(FileDecl { name, out, path });
        Ok(())
    }
}

/// The size of an element, or the usual one where it is left out.
fn element_bytes(words: &[Word]) -> Result<u32, LineFault>
    ensures { Gives (λ n. n) result (elsize_of words.now) }
{
    match words {
        [] => Ok(USUAL_ELEMENT_BYTES),
        [word, rest @ ..] => {
            let size = small_within(1, MOST_ELEMENT_BYTES, word)?;
            no_more(rest)?;
            Ok(size)
        }
    }
}

impl Chans {
    /// `chan NAME CAP`, `chan NAME CAP ELSIZE`, at this line.
    #[tactic(auto, unfolding(p9_grammar::specs::Decls::chan_line))]
    pub fn line(&mut self, alloc: Global, line: u32, words: &[Word]) -> Result<(), LineFault>
        ensures { Gives (λ _. chans_of self.new) result (chan_line line (chans_of self.old) words.now) }
    {
        let (name, words) = first_word(words)?;
        add_name(alloc, MOST_CHANNELS, &mut self.names, name)?;
        let (cap, words) = first_word(words)?;
        let cap = small_within(0, MOST_ELEMENTS, cap)?;
        let elsize = element_bytes(words)?;
        let name = name.bytes.copy()?;
        self.decls.reserve(1)?;
        self.ends.push(ChanEnds {
            line,
            written: false,
            read: false,
        })?;
        self.decls.push(ChanDecl { name, cap, elsize });
        Ok(())
    }
}

/// `lock NAME`, `qlock NAME`, `rwlock NAME`: a name of that sort.
#[tactic(auto, unfolding(p9_grammar::specs::Decls::lock_line))]
pub(crate) fn lock(alloc: Global, names: &mut Names, words: &[Word]) -> Result<(), LineFault>
    ensures { Gives (λ _. names.new) result (lock_line names.old words.now) }
{
    let (name, words) = first_word(words)?;
    add_name(alloc, MOST_LOCKS as usize, names, name)?;
    no_more(words)
}

impl Rendezes {
    /// `rendez NAME QLOCK`.
    #[tactic(auto, unfolding(p9_grammar::specs::Decls::rendez_line))]
    pub fn line(&mut self, alloc: Global, qlocks: &Names, words: &[Word]) -> Result<(), LineFault>
        ensures { Gives (λ _. rendezes_of self.new) result (rendez_line qlocks.now (rendezes_of self.old) words.now) }
    {
        let (name, words) = first_word(words)?;
        add_name(alloc, MOST_RENDEZES, &mut self.names, name)?;
        let (qlock, words) = first_word(words)?;
        let place = known_place(qlocks, qlock)?;
        no_more(words)?;
        let qlock = number_of_place(place)?;
        let name = name.bytes.copy()?;
        self.decls.reserve(1)?;
        self.decls.push(RendezDecl { name, qlock });
        Ok(())
    }
}

impl Refs {
    /// `ref NAME NUMBER`.
    #[tactic(auto, unfolding(p9_grammar::specs::Decls::ref_line))]
    pub fn line(&mut self, alloc: Global, words: &[Word]) -> Result<(), LineFault>
        ensures { Gives (λ _. refs_of self.new) result (ref_line (refs_of self.old) words.now) }
    {
        let (name, words) = first_word(words)?;
        add_name(alloc, MOST_REFS, &mut self.names, name)?;
        let (value, words) = first_word(words)?;
        let value = number_within(0, u64::MAX, value)?;
        no_more(words)?;
        let name = name.bytes.copy()?;
        self.decls.reserve(1)?;
        self.decls.push(RefDecl { name, value });
        Ok(())
    }
}

/// Procs and further places together are at most as many as a run has.
fn has_places(procs: usize, later: u32) -> Result<(), LineFault>
    ensures { Gives (λ _. tt) result (enough_places procs later) }
{
    if procs.saturating_add(later as usize) > MOST_PLACES as usize {
        return Err(LineFault::Text(Why::TooMany));
    }
    Ok(())
}

/// `later N`, at most once: N.
#[tactic(auto, unfolding(p9_grammar::specs::Decls::later_line))]
pub(crate) fn later_places(
    procs: usize,
    later: Option<u32>,
    words: &[Word],
) -> Result<u32, LineFault>
    ensures { Gives (λ n. Some n) result (later_line procs later words.now) }
{
    if later.is_some() {
        return Err(LineFault::Text(Why::Twice));
    }
    let (number, words) = first_word(words)?;
    let number = small_within(0, MOST_LATER as u32, number)?;
    has_places(procs, number)?;
    no_more(words)?;
    Ok(number)
}

impl Procs {
    /// `proc NAME`: threads join it from here on.
    #[tactic(auto, unfolding(p9_grammar::specs::Decls::proc_line))]
    pub fn line(
        &mut self,
        alloc: Global,
        later: Option<u32>,
        words: &[Word],
    ) -> Result<(), LineFault>
        ensures { Gives (λ _. procs_of self.new) result (proc_line later (procs_of self.old) words.now) }
    {
        let (name, words) = first_word(words)?;
        let most = MOST_PLACES.saturating_sub(later.unwrap_or(0));
        add_name(alloc, most as usize, &mut self.names, name)?;
        no_more(words)?;
        self.close()?;
        let name = name.bytes.copy()?;
        self.current = Some(OpenProc {
            name,
            threads: Room::new(alloc),
        });
        Ok(())
    }

    /// Puts the last proc, if there is one, behind the others.
    pub(crate) fn close(&mut self) -> Result<(), LineFault>
        ensures { Gives (λ _. procs_of self.new) result (Ok (record (procs_of self.old) {
          done = all_procs (procs_of self.old).done (procs_of self.old).current;
          current = None;
        })) }
    {
        self.done.reserve(1)?;
        if let Some(OpenProc { name, threads }) = self.current.take() {
            let threads = threads.into_seq();
            self.done.push(ProcDecl { name, threads });
        }
        Ok(())
    }
}

impl Draft {
    /// A line that declares a thing, by its first word. It is false, and nothing has changed, where that is none of
    /// the words for things.
    pub fn thing(
        &mut self,
        alloc: Global,
        line: u32,
        word: &Word,
        words: &[Word],
    ) -> Result<bool, LineFault>
        ensures read { Gives (λ found. if found then Some (draft_of self.new) else None) result
            (thing_line line (draft_of self.old) word.now words.now) }
        ensures none { IfOk result (λ found. found ≡ false → self.new ≡ self.old) }
    {
        if is_word_at(word, b"file") {
            self.files.line(alloc, words)?;
            return Ok(true);
        }
        if is_word_at(word, b"chan") {
            self.chans.line(alloc, line, words)?;
            return Ok(true);
        }
        if is_word_at(word, b"lock") {
            lock(alloc, &mut self.locks, words)?;
            return Ok(true);
        }
        if is_word_at(word, b"qlock") {
            lock(alloc, &mut self.qlocks, words)?;
            return Ok(true);
        }
        if is_word_at(word, b"rwlock") {
            lock(alloc, &mut self.rwlocks, words)?;
            return Ok(true);
        }
        if is_word_at(word, b"rendez") {
            self.rendezes.line(alloc, &self.qlocks, words)?;
            return Ok(true);
        }
        if is_word_at(word, b"ref") {
            self.refs.line(alloc, words)?;
            return Ok(true);
        }
        Ok(false)
    }
}
