//! Every place of a statement by every kind of token: which fault of form a token is there.

use opb_read::{OpbCode, read};
use std::alloc::Global;

/// A place: what stands before it, and for each token of the table the digit of its code, 0 where it may stand.
struct Row {
    before: &'static [u8],
    codes: &'static [u8],
}

/// The tokens of the columns; the last is none, the end of the text.
const TOKENS: [&[u8]; 15] = [
    b";", b":", b">=", b"<=", b"=", b"->", b"<", b"1", b"x1", b"x", b"1.5", b"[1]", b"min",
    b"min:", b"",
];

const ROWS: [Row; 9] = [
    // the start of a statement, where no objective stands before it
    Row {
        before: b"",
        codes: b"210601101416100",
    },
    // the same, behind a statement
    Row {
        before: b">= 1 ;",
        codes: b"210601101416150",
    },
    // behind a coefficient of a constraint
    Row {
        before: b"1",
        codes: b"111111110411013",
    },
    // behind a coefficient of the objective
    Row {
        before: b"min: 1",
        codes: b"611111160411013",
    },
    // behind a literal of a constraint
    Row {
        before: b"1 x1",
        codes: b"210601106411663",
    },
    // behind `min :`
    Row {
        before: b"min:",
        codes: b"011111101411113",
    },
    // behind a literal of the objective
    Row {
        before: b"min: 1 x1",
        codes: b"011111106411663",
    },
    // behind a relation
    Row {
        before: b"1 x1 >=",
        codes: b"111111101411113",
    },
    // behind the right side
    Row {
        before: b"1 x1 >= 1",
        codes: b"033333333333333",
    },
];

fn code_of_digit(digit: u8) -> Option<OpbCode> {
    match digit {
        b'1' => Some(OpbCode::BadToken),
        b'2' => Some(OpbCode::NoRelation),
        b'3' => Some(OpbCode::NoSemicolon),
        b'4' => Some(OpbCode::BadName),
        b'5' => Some(OpbCode::ObjectiveLate),
        b'6' => Some(OpbCode::UnsupportedForm),
        _ => None,
    }
}

/// The code of a text's fault, where it stands on line 2.
fn code_on_second_line(alloc: Global, text: &[u8]) -> Option<OpbCode> {
    match read(alloc, text) {
        Err(fault) if fault.line == 2 => Some(fault.code),
        _ => None,
    }
}

#[test]
fn each_token_has_its_code_at_each_place(rt: HostRuntime) {
    for row in &ROWS {
        assert!(&rt; row.codes.len() == TOKENS.len());
        for (token, digit) in TOKENS.iter().zip(row.codes.iter()) {
            // The place on line 1, the token on line 2, and for a token that may stand the end on line 3.
            let mut text = Vec::new(rt.alloc());
            text.extend_from_slice(row.before).expect(&rt, "memory");
            text.push(b'\n').expect(&rt, "memory");
            text.extend_from_slice(token).expect(&rt, "memory");
            if !token.is_empty() {
                text.push(b'\n').expect(&rt, "memory");
            }
            assert!(&rt; code_on_second_line(rt.alloc(), text.as_slice()) == code_of_digit(*digit));
        }
    }
}
