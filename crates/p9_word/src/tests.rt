use super::*;
use std::alloc::Global;
use std::process::Abort;
use std::test::Fail;

/// Whether a line has these words, each with whether it is quoted.
fn has_words(alloc: Global, line: &[u8], wanted: &[(&[u8], bool)]) -> bool {
    let Ok(words) = split_words(alloc, line) else {
        return false;
    };
    let words = words.as_slice();
    words.len() == wanted.len()
        && words.iter().zip(wanted).all(|(word, (bytes, quoted))| word.bytes.as_slice() == *bytes
            && word.quoted == *quoted)
}

/// Whether a line has a bad quote.
fn has_bad_quote(alloc: Global, line: &[u8]) -> bool {
    matches!(split_words(alloc, line), Err(WordsFault::Quote))
}

#[test]
fn splits_words(rt: HostRuntime) -> Result<(), Fail> {
    let alloc = rt.alloc();
    let wanted = [
        (b"a".as_slice(), false),
        (b"b c".as_slice(), true),
        (b"".as_slice(), true),
    ];
    assert!(rt; has_words(alloc, b"a 'b c' ''", &wanted));
    assert!(rt; has_words(alloc, b"'it''s'", &[(b"it's".as_slice(), true)]));
    assert!(rt; has_words(alloc, b"it's", &[(b"it's".as_slice(), false)]));
    assert!(rt; has_words(alloc, b" \t ", &[]));
    let wanted = [(b"a".as_slice(), false), (b"bc".as_slice(), false)];
    assert!(rt; has_words(alloc, b"\ta\t \tbc\t", &wanted));
    let long = b"longer than what stands in place";
    assert!(rt;
        has_words(
            alloc,
            b"'longer than what stands in place'",
            &[(long.as_slice(), true)]
        )
    );
    Ok(())
}

#[test]
fn finds_bad_quotes(rt: HostRuntime) -> Result<(), Fail> {
    let alloc = rt.alloc();
    assert!(rt; has_bad_quote(alloc, b"'x'y"));
    assert!(rt; has_bad_quote(alloc, b"'x"));
    assert!(rt; has_bad_quote(alloc, b"a '"));
    assert!(rt; has_bad_quote(alloc, b"'x''"));
    Ok(())
}

#[test]
fn puts_words(rt: HostRuntime) -> Result<(), Fail> {
    let mut out = Room::new(rt.alloc());
    assert!(rt; put_bytes(&mut out, b"a ").is_ok());
    assert!(rt; put_quoted(&mut out, b"it's").is_ok());
    assert!(rt; put_quoted(&mut out, b"").is_ok());
    assert!(rt; out.as_slice() == b"a 'it''s'''".as_slice());
    Ok(())
}

#[test]
fn puts_numbers(rt: HostRuntime) -> Result<(), Fail> {
    let mut out = Room::new(rt.alloc());
    assert!(rt; put_number(&mut out, 0).is_ok());
    assert!(rt; put_number(&mut out, 10).is_ok());
    assert!(rt; put_number(&mut out, u64::MAX).is_ok());
    assert!(rt; out.as_slice() == b"01018446744073709551615".as_slice());
    Ok(())
}

#[test]
fn reads_numbers(rt: HostRuntime) -> Result<(), Fail> {
    assert_eq!(rt; read_number(b""), None);
    assert_eq!(rt; read_number(b"18446744073709551615"), Some(u64::MAX));
    assert_eq!(rt; read_number(b"18446744073709551616"), None);
    assert_eq!(rt; read_number(b"007"), Some(7));
    assert_eq!(rt; read_number(b"1x"), None);
    Ok(())
}
