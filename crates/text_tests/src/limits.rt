//! Files at the limits, and one beyond them.

use linear::{MOST_CONSTRAINTS, MOST_TERMS, MOST_VARIABLES};
use opb_read::{OpbCode, read};
use std::alloc::{AllocError, Global};

/// A piece so many times, and an end.
fn repeated(alloc: Global, piece: &[u8], count: usize, end: &[u8]) -> Result<Vec<u8>, AllocError> {
    let mut text = Vec::new(alloc);
    for _ in 0..count {
        text.extend_from_slice(piece)?;
    }
    text.extend_from_slice(end)?;
    Ok(text)
}

/// The text of this many terms with names of their own, as `1 aaaab`.
fn with_names(alloc: Global, count: usize) -> Result<Vec<u8>, AllocError> {
    let mut text = Vec::new(alloc);
    for number in 0..count {
        text.extend_from_slice(b"1 ")?;
        let mut rest = number;
        for _ in 0..5 {
            text.push(b'a' + (rest % 26) as u8)?;
            rest /= 26;
        }
        text.push(b' ')?;
    }
    Ok(text)
}

/// The code of a text's fault; none where the text is read.
fn code_of(alloc: Global, text: &[u8]) -> Option<OpbCode> {
    match read(alloc, text) {
        Ok(_) => None,
        Err(fault) => Some(fault.code),
    }
}

#[test]
fn integers_have_any_length(rt: HostRuntime) {
    let cases: [(&'static [u8], &'static [u8], Option<OpbCode>); 2] = [
        (b"0", b"7 x1 >= 0 ;", None),
        (b"9", b" x1 >= 0 ;", Some(OpbCode::IntegerTooLarge)),
    ];
    for (digit, end, wanted) in cases {
        let text = repeated(rt.alloc(), digit, 1000, end).expect(&rt, "memory");
        assert!(&rt; code_of(rt.alloc(), text.as_slice()) == wanted);
    }
}

#[test]
fn terms_end_at_the_limit(rt: HostRuntime) {
    let ends: [(&'static [u8], Option<OpbCode>); 4] = [
        (b">= 0 ;", None),
        (b"1 x1 >= 0 ;", Some(OpbCode::TooMany)),
        (
            b"1237940039285380274899124225 x1 >= 0 ;",
            Some(OpbCode::IntegerTooLarge),
        ),
        (b"1 x >= 0 ;", Some(OpbCode::BadName)),
    ];
    for (end, wanted) in ends {
        let text = repeated(rt.alloc(), b"1 x1 ", MOST_TERMS, end).expect(&rt, "memory");
        assert!(&rt; code_of(rt.alloc(), text.as_slice()) == wanted);
    }
}

#[test]
fn variables_end_at_the_limit(rt: HostRuntime) {
    let mut text = with_names(rt.alloc(), MOST_VARIABLES).expect(&rt, "memory");
    let ends: [(&'static [u8], Option<OpbCode>); 3] = [
        (b">= 0 ; 1 aaaaa", Some(OpbCode::NoSemicolon)),
        (b" >= 0 ;", None),
        (b"\n1 more >= 0 ;", Some(OpbCode::TooMany)),
    ];
    for (end, wanted) in ends {
        text.extend_from_slice(end).expect(&rt, "memory");
        assert!(&rt; code_of(rt.alloc(), text.as_slice()) == wanted);
    }
}

#[test]
fn constraints_end_at_the_limit(rt: HostRuntime) {
    let ends: [(&'static [u8], Option<OpbCode>); 6] = [
        (b"", None),
        (b">= 0 ;", Some(OpbCode::TooMany)),
        (b"1", Some(OpbCode::TooMany)),
        (b"1237940039285380274899124225", Some(OpbCode::TooMany)),
        (b"min:", Some(OpbCode::ObjectiveLate)),
        (b";", Some(OpbCode::NoRelation)),
    ];
    for (end, wanted) in ends {
        let text = repeated(rt.alloc(), b">= 0 ;", MOST_CONSTRAINTS, end).expect(&rt, "memory");
        assert!(&rt; code_of(rt.alloc(), text.as_slice()) == wanted);
    }
}
