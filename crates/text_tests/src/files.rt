//! Small files that are read, and small files that are refused, with the answers that the format gives them.

use opb_read::{OpbCode, OpbFault, read};
use std::alloc::Global;

/// A file that is refused, with the line and the code of its fault.
#[derive(Clone, Copy)]
struct Refused {
    text: &'static [u8],
    line: u64,
    code: OpbCode,
}

/// Files that are refused, each at the first token that cannot stand in its place.
const REFUSED: [Refused; 31] = [
    Refused {
        text: b"1 x >= 1 ;",
        line: 1,
        code: OpbCode::BadName,
    },
    Refused {
        text: b"x1 >= 1 ;",
        line: 1,
        code: OpbCode::BadToken,
    },
    Refused {
        text: b"1 x1 ;",
        line: 1,
        code: OpbCode::NoRelation,
    },
    Refused {
        text: b"1 x1 >= 1 1 x2 >= 1 ;",
        line: 1,
        code: OpbCode::NoSemicolon,
    },
    Refused {
        text: b"1 x1 >= 1 ;\nmin: 1 x1 ;",
        line: 2,
        code: OpbCode::ObjectiveLate,
    },
    Refused {
        text: b"min: 1 x1 3 ;",
        line: 1,
        code: OpbCode::UnsupportedForm,
    },
    Refused {
        text: b"max: 1 x1 ;",
        line: 1,
        code: OpbCode::UnsupportedForm,
    },
    Refused {
        text: b"soft: 6 ;",
        line: 1,
        code: OpbCode::UnsupportedForm,
    },
    Refused {
        text: b"mix: 1 x1 ;",
        line: 1,
        code: OpbCode::BadToken,
    },
    Refused {
        text: b"max 1 x1 ;",
        line: 1,
        code: OpbCode::BadToken,
    },
    Refused {
        text: b"soft 6 ;",
        line: 1,
        code: OpbCode::BadToken,
    },
    Refused {
        text: b"+ 3 x1 >= 1 ;",
        line: 1,
        code: OpbCode::BadToken,
    },
    Refused {
        text: b"1 x1 x2 >= 1 ;",
        line: 1,
        code: OpbCode::UnsupportedForm,
    },
    Refused {
        text: b"min\n: 1 x1 ;\nmin\n: 1 x1 ;",
        line: 3,
        code: OpbCode::ObjectiveLate,
    },
    Refused {
        text: b"min: ;\nmin: ;",
        line: 2,
        code: OpbCode::ObjectiveLate,
    },
    Refused {
        text: b"1 1 x1 >= 1 ;",
        line: 1,
        code: OpbCode::BadToken,
    },
    Refused {
        text: b"min: 3 ;",
        line: 1,
        code: OpbCode::UnsupportedForm,
    },
    Refused {
        text: b"1 ~ x1 >= 1 ;",
        line: 1,
        code: OpbCode::BadName,
    },
    Refused {
        text: b"1\nx1\n>=\n1\nx2 ;",
        line: 5,
        code: OpbCode::NoSemicolon,
    },
    Refused {
        text: b"\n\xff 1 ;",
        line: 2,
        code: OpbCode::BadToken,
    },
    Refused {
        text: b"1 \0x1 >= 1 ;",
        line: 1,
        code: OpbCode::BadToken,
    },
    Refused {
        text: b"1 x1\x80 >= 1 ;",
        line: 1,
        code: OpbCode::BadName,
    },
    Refused {
        text: b"1 x1 >= 1\0 ;",
        line: 1,
        code: OpbCode::BadToken,
    },
    Refused {
        text: b"1 x1 >= 1 \xff;",
        line: 1,
        code: OpbCode::NoSemicolon,
    },
    Refused {
        text: b"\r* no comment",
        line: 1,
        code: OpbCode::BadToken,
    },
    Refused {
        text: b"\r\n\r\n1 x1 >= 1 \r\n",
        line: 4,
        code: OpbCode::NoSemicolon,
    },
    Refused {
        text: b"1237940039285380274899124225 x1 >= 0 ;",
        line: 1,
        code: OpbCode::IntegerTooLarge,
    },
    Refused {
        text: b"-1237940039285380274899124225 x1 >= 0 ;",
        line: 1,
        code: OpbCode::IntegerTooLarge,
    },
    Refused {
        text: b"1 x1 >=\n1237940039285380274899124225 ;",
        line: 2,
        code: OpbCode::IntegerTooLarge,
    },
    Refused {
        text: b"1237940039285380274899124225 ;",
        line: 1,
        code: OpbCode::IntegerTooLarge,
    },
    Refused {
        text: b"min: 1329227995784915872903807060280344577 x1 ;",
        line: 1,
        code: OpbCode::IntegerTooLarge,
    },
];

fn is_refused(alloc: Global, case: &Refused) -> bool {
    match read(alloc, case.text) {
        Ok(_) => false,
        Err(fault) => fault.line == case.line && fault.code == case.code,
    }
}

/// How many names, objective terms and constraints a file has that is read.
fn sizes(alloc: Global, text: &[u8]) -> Option<(usize, Option<usize>, usize)> {
    let Ok(problem) = read(alloc, text) else {
        return None;
    };
    let objective = match problem.objective() {
        Some(terms) => Some(terms.len()),
        None => None,
    };
    Some((
        problem.names().len(),
        objective,
        problem.constraints().len(),
    ))
}

#[test]
fn files_are_read(rt: HostRuntime) {
    let cases: [(&'static [u8], (usize, Option<usize>, usize)); 12] = [
        (b"", (0, None, 0)),
        (b"* #variable= 1 #constraint= 1\r\n", (0, None, 0)),
        (b"min: ;", (0, Some(0), 0)),
        (b">= 1 ;", (0, None, 1)),
        (b"min:+1 x1;+1 x1>=1;", (1, Some(1), 1)),
        (
            b"-2 x1 3 x2 -2 x1 >= -1 ;\r\n1 x1 1 ~x1 >= 1 ;",
            (2, None, 2),
        ),
        (b"2 x1 2 x2 = 1 ;\n", (2, None, 1)),
        (b"1 min 1 max >= 1 ;\n* end", (2, None, 1)),
        (b"\r\n \t* one\r\n1 x1\r>=\t1\n;", (1, None, 1)),
        (b"1 x1>=1;1 a[1]{2}^- =1;", (2, None, 2)),
        (b"1237940039285380274899124224 x1 >= 0 ;", (1, None, 1)),
        (
            b"-1237940039285380274899124224 x1 >= -1237940039285380274899124224 ;",
            (1, None, 1),
        ),
    ];
    for (text, wanted) in cases {
        assert!(&rt; sizes(rt.alloc(), text) == Some(wanted));
    }
}

#[test]
fn files_are_refused_at_the_first_token_that_cannot_stand(rt: HostRuntime) {
    for case in &REFUSED {
        assert!(&rt; is_refused(rt.alloc(), case));
    }
}

#[test]
fn faults_have_names(rt: HostRuntime) {
    let fault = OpbFault {
        line: 1,
        code: OpbCode::UnsupportedForm,
    };
    assert!(&rt; fault.name() == "UnsupportedForm");
    assert!(&rt; fault.code.number() == 6);
    assert!(&rt; OpbCode::OutOfMemory.name() == "OutOfMemory");
}
