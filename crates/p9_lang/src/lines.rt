//! The lines of a text, and what a line may hold.

ghost use Rattle.std.specs.Prelude.{◌≡◌, ◌<◌, ◌==◌, ◌∷◌, length, position};
ghost use Rattle.std.specs.Str.{is_utf8};
ghost use Rattle.p9_grammar.specs.Lines.{is_skipped, is_text, lines_of};

use std::str;

/// Whether a line says nothing: it is blanks, or its first word begins with a `#`.
pub(crate) fn is_bare(line: &[u8]) -> bool
    ensures { result ≡ is_skipped line.now }
{
    for b in line {
        if *b != b' ' && *b != b'\t' {
            return *b == b'#';
        }
    }
    true
}

/// Whether a line is UTF-8.
pub(crate) fn is_valid(line: &[u8]) -> bool
    ensures { result ≡ is_utf8 line.now }
{
    match str::from_utf8(line) {
        Ok(_) => true,
        Err(_) => false,
    }
}

/// Whether a line has no byte below 32 other than tab, and no byte 127.
pub(crate) fn is_readable(line: &[u8]) -> bool
    ensures { result ≡ is_text line.now }
{
    for b in line {
        if (*b < 32 && *b != b'\t') || *b == 127 {
            return false;
        }
    }
    true
}

fn newline_in(text: &[u8]) -> Option<usize>
    ensures { result ≡ position (λ b. b == 10) text.now }
{
    text.iter().position(|b| *b == b'\n')
}

/// The first line, and the text behind it.
pub(crate) fn cut_line(text: &[u8]) -> (&[u8], &[u8])
    requires { 0 < length text.now }
    ensures line { lines_of text.now ≡ result.0.now ∷ lines_of result.1.now }
    ensures shorter { length result.1.now < length text.now }
{
    match newline_in(text) {
        None => (text, &text[text.len()..]),
        Some(i) => (&text[..i], &text[i + 1..]),
    }
}
