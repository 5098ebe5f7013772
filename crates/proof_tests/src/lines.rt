//! The lines around the steps, conclusions, and which lines count.

use super::asking::{fault_at, lit};
use linear::Names;
use proof_lines::ProofReader;
use proof_steps::{Conclusion, Lower, Upper};
use proof_text::{Line, ProofFault, ProofNames, Section, read_line};
use std::alloc::Global;

/// A line at its section, and the number of its fault, 0 where it has none.
#[derive(Clone, Copy, Debug)]
struct AtSection {
    section: Section,
    line: &'static [u8],
    fault: u8,
}

const LINES: [AtSection; 106] = [
    AtSection {
        section: Section::Header,
        line: b"pseudo-Boolean proof version 2.0",
        fault: 0,
    },
    AtSection {
        section: Section::Header,
        line: b"  pseudo-Boolean\tproof version 2.0;\r",
        fault: 0,
    },
    AtSection {
        section: Section::Header,
        line: b"pseudo-Boolean proof version 2.1",
        fault: 1,
    },
    AtSection {
        section: Section::Header,
        line: b"pseudo-Boolean proof version 2.0 3",
        fault: 1,
    },
    AtSection {
        section: Section::Header,
        line: b"pseudo-Boolean proof version 2.0;;",
        fault: 1,
    },
    AtSection {
        section: Section::Header,
        line: b"f 1",
        fault: 1,
    },
    AtSection {
        section: Section::Count,
        line: b"f 3",
        fault: 0,
    },
    AtSection {
        section: Section::Count,
        line: b"f -3 ;",
        fault: 0,
    },
    AtSection {
        section: Section::Count,
        line: b"f",
        fault: 2,
    },
    AtSection {
        section: Section::Count,
        line: b"f 3 3",
        fault: 2,
    },
    AtSection {
        section: Section::Count,
        line: b"f - 3",
        fault: 2,
    },
    AtSection {
        section: Section::Count,
        line: b"g 3",
        fault: 2,
    },
    AtSection {
        section: Section::Count,
        line: b"f 1329227995784915872903807060280344577",
        fault: 2,
    },
    AtSection {
        section: Section::Step,
        line: b"output NONE",
        fault: 0,
    },
    AtSection {
        section: Section::Step,
        line: b"output NONE ;",
        fault: 0,
    },
    AtSection {
        section: Section::Step,
        line: b"pol 1",
        fault: 0,
    },
    AtSection {
        section: Section::Step,
        line: b"output DERIVABLE",
        fault: 4,
    },
    AtSection {
        section: Section::Step,
        line: b"output 1",
        fault: 4,
    },
    AtSection {
        section: Section::Step,
        line: b"output",
        fault: 5,
    },
    AtSection {
        section: Section::Step,
        line: b"output ;",
        fault: 5,
    },
    AtSection {
        section: Section::Step,
        line: b"output NONE NONE",
        fault: 5,
    },
    AtSection {
        section: Section::Step,
        line: b"f 1",
        fault: 5,
    },
    AtSection {
        section: Section::Step,
        line: b"solx x1",
        fault: 4,
    },
    AtSection {
        section: Section::Conclusion,
        line: b"conclusion NONE",
        fault: 0,
    },
    AtSection {
        section: Section::Conclusion,
        line: b"conclusion SAT",
        fault: 0,
    },
    AtSection {
        section: Section::Conclusion,
        line: b"conclusion SAT :",
        fault: 0,
    },
    AtSection {
        section: Section::Conclusion,
        line: b"conclusion SAT : x1 ~x2 ;",
        fault: 0,
    },
    AtSection {
        section: Section::Conclusion,
        line: b"conclusion UNSAT",
        fault: 0,
    },
    AtSection {
        section: Section::Conclusion,
        line: b"conclusion UNSAT : 3",
        fault: 0,
    },
    AtSection {
        section: Section::Conclusion,
        line: b"conclusion UNSAT : -1 ;",
        fault: 0,
    },
    AtSection {
        section: Section::Conclusion,
        line: b"conclusion BOUNDS 1 2",
        fault: 0,
    },
    AtSection {
        section: Section::Conclusion,
        line: b"conclusion BOUNDS 1 : 3 1",
        fault: 0,
    },
    AtSection {
        section: Section::Conclusion,
        line: b"conclusion BOUNDS -INF INF",
        fault: 0,
    },
    AtSection {
        section: Section::Conclusion,
        line: b"conclusion BOUNDS INF INF ;",
        fault: 0,
    },
    AtSection {
        section: Section::Conclusion,
        line: b"conclusion BOUNDS -0 : 1 +002 : x1",
        fault: 0,
    },
    AtSection {
        section: Section::Conclusion,
        line: b"conclusion BOUNDS 1 2 :",
        fault: 0,
    },
    AtSection {
        section: Section::Conclusion,
        line: b"conclusion",
        fault: 5,
    },
    AtSection {
        section: Section::Conclusion,
        line: b"conclusion NONE NONE",
        fault: 5,
    },
    AtSection {
        section: Section::Conclusion,
        line: b"conclusion SAT x1",
        fault: 5,
    },
    AtSection {
        section: Section::Conclusion,
        line: b"conclusion SAT : 1",
        fault: 5,
    },
    AtSection {
        section: Section::Conclusion,
        line: b"conclusion UNSAT :",
        fault: 5,
    },
    AtSection {
        section: Section::Conclusion,
        line: b"conclusion UNSAT : x1",
        fault: 5,
    },
    AtSection {
        section: Section::Conclusion,
        line: b"conclusion UNSAT : 1 1",
        fault: 5,
    },
    AtSection {
        section: Section::Conclusion,
        line: b"conclusion BOUNDS",
        fault: 5,
    },
    AtSection {
        section: Section::Conclusion,
        line: b"conclusion BOUNDS 1",
        fault: 5,
    },
    AtSection {
        section: Section::Conclusion,
        line: b"conclusion BOUNDS 1 : 3",
        fault: 5,
    },
    AtSection {
        section: Section::Conclusion,
        line: b"conclusion BOUNDS 1 : x1 1",
        fault: 5,
    },
    AtSection {
        section: Section::Conclusion,
        line: b"conclusion BOUNDS INF -INF",
        fault: 5,
    },
    AtSection {
        section: Section::Conclusion,
        line: b"conclusion BOUNDS 1 2 3",
        fault: 5,
    },
    AtSection {
        section: Section::Conclusion,
        line: b"conclusion OPTIMAL",
        fault: 5,
    },
    AtSection {
        section: Section::Conclusion,
        line: b"pol 1",
        fault: 5,
    },
    AtSection {
        section: Section::Conclusion,
        line: b"end pseudo-Boolean proof",
        fault: 5,
    },
    AtSection {
        section: Section::Conclusion,
        line: b"conclusion UNSAT : 1329227995784915872903807060280344577",
        fault: 8,
    },
    AtSection {
        section: Section::Conclusion,
        line: b"conclusion BOUNDS 1329227995784915872903807060280344577 1",
        fault: 8,
    },
    AtSection {
        section: Section::Conclusion,
        line: b"conclusion BOUNDS 1 : 1329227995784915872903807060280344577 1",
        fault: 8,
    },
    AtSection {
        section: Section::End,
        line: b"end pseudo-Boolean proof ;",
        fault: 0,
    },
    AtSection {
        section: Section::End,
        line: b"end pseudo-Boolean",
        fault: 5,
    },
    AtSection {
        section: Section::After,
        line: b"end pseudo-Boolean proof",
        fault: 7,
    },
    // in a subproof: its block, and a goal of it
    AtSection {
        section: Section::Step,
        line: b"red >= 1 ; ; begin",
        fault: 0,
    },
    AtSection {
        section: Section::Step,
        line: b"proofgoal #1",
        fault: 5,
    },
    AtSection {
        section: Section::Step,
        line: b"proofgoal 1329227995784915872903807060280344577",
        fault: 5,
    },
    AtSection {
        section: Section::Step,
        line: b"end",
        fault: 5,
    },
    AtSection {
        section: Section::Step,
        line: b"end 8",
        fault: 5,
    },
    AtSection {
        section: Section::Step,
        line: b"begin",
        fault: 4,
    },
    AtSection {
        section: Section::Block,
        line: b"proofgoal #1",
        fault: 0,
    },
    AtSection {
        section: Section::Block,
        line: b"proofgoal 3 ;",
        fault: 0,
    },
    AtSection {
        section: Section::Block,
        line: b"pol 1 2 +",
        fault: 0,
    },
    AtSection {
        section: Section::Block,
        line: b"rup 1 x1 >= 1 ; 7",
        fault: 0,
    },
    AtSection {
        section: Section::Block,
        line: b"end",
        fault: 0,
    },
    AtSection {
        section: Section::Block,
        line: b"end 8",
        fault: 5,
    },
    AtSection {
        section: Section::Block,
        line: b"end 1329227995784915872903807060280344577",
        fault: 5,
    },
    AtSection {
        section: Section::Block,
        line: b"red >= 1 ;",
        fault: 5,
    },
    AtSection {
        section: Section::Block,
        line: b"red >= 1 ; ; begin",
        fault: 5,
    },
    AtSection {
        section: Section::Block,
        line: b"red 1 x1 = 1 ;",
        fault: 5,
    },
    AtSection {
        section: Section::Block,
        line: b"sol 1329227995784915872903807060280344577",
        fault: 5,
    },
    AtSection {
        section: Section::Block,
        line: b"sol x1",
        fault: 5,
    },
    AtSection {
        section: Section::Block,
        line: b"soli x1",
        fault: 5,
    },
    AtSection {
        section: Section::Block,
        line: b"del id 1",
        fault: 5,
    },
    AtSection {
        section: Section::Block,
        line: b"del range 1 2",
        fault: 5,
    },
    AtSection {
        section: Section::Block,
        line: b"del id 1329227995784915872903807060280344577",
        fault: 5,
    },
    AtSection {
        section: Section::Block,
        line: b"output NONE",
        fault: 5,
    },
    AtSection {
        section: Section::Block,
        line: b"output DERIVABLE",
        fault: 5,
    },
    AtSection {
        section: Section::Block,
        line: b"conclusion NONE",
        fault: 5,
    },
    AtSection {
        section: Section::Block,
        line: b"end pseudo-Boolean proof",
        fault: 5,
    },
    AtSection {
        section: Section::Block,
        line: b"f 1",
        fault: 5,
    },
    AtSection {
        section: Section::Block,
        line: b"pseudo-Boolean proof version 2.0",
        fault: 5,
    },
    AtSection {
        section: Section::Block,
        line: b"solx x1",
        fault: 4,
    },
    AtSection {
        section: Section::Block,
        line: b"begin",
        fault: 4,
    },
    AtSection {
        section: Section::Block,
        line: b"foo 1",
        fault: 3,
    },
    AtSection {
        section: Section::Block,
        line: b"rup 1 x1 = 1 ;",
        fault: 4,
    },
    AtSection {
        section: Section::Goal,
        line: b"p 1",
        fault: 0,
    },
    AtSection {
        section: Section::Goal,
        line: b"u >= 0 ;",
        fault: 0,
    },
    AtSection {
        section: Section::Goal,
        line: b"end 8 ;",
        fault: 0,
    },
    AtSection {
        section: Section::Goal,
        line: b"end",
        fault: 0,
    },
    AtSection {
        section: Section::Goal,
        line: b"end 1329227995784915872903807060280344577",
        fault: 8,
    },
    AtSection {
        section: Section::Goal,
        line: b"proofgoal #2",
        fault: 5,
    },
    AtSection {
        section: Section::Goal,
        line: b"red >= 1 ;",
        fault: 5,
    },
    AtSection {
        section: Section::Goal,
        line: b"sol",
        fault: 5,
    },
    AtSection {
        section: Section::Goal,
        line: b"del spec",
        fault: 5,
    },
    AtSection {
        section: Section::Goal,
        line: b"output NONE",
        fault: 5,
    },
    AtSection {
        section: Section::Goal,
        line: b"conclusion UNSAT",
        fault: 5,
    },
    AtSection {
        section: Section::Goal,
        line: b"core id 1",
        fault: 4,
    },
    AtSection {
        section: Section::Goal,
        line: b"foo 1",
        fault: 3,
    },
    AtSection {
        section: Section::Conclusion,
        line: b"proofgoal #1",
        fault: 5,
    },
    AtSection {
        section: Section::Conclusion,
        line: b"end",
        fault: 5,
    },
    AtSection {
        section: Section::After,
        line: b"end",
        fault: 7,
    },
];

#[test]
fn faults_by_place(rt: HostRuntime) {
    for case in &LINES {
        assert_eq!(&rt;
            fault_at(rt.alloc(), case.section, case.line),
            case.fault,
            "{case:?}"
        );
    }
}

/// Whether a line is `BOUNDS -3 INF` with the hint `x1 ~x2`.
fn is_hinted_bounds(line: &Line) -> bool {
    match line {
        Line::Conclusion(Conclusion::Bounds(Lower::At(-3), Upper::Inf, Some(hint))) => {
            hint.as_slice() == [lit(0, false), lit(1, true)].as_slice()
        }
        _ => false,
    }
}

/// How many literals the hint of a line `SAT` has, if it has a hint.
fn hint_length(line: &Line) -> Option<usize> {
    match line {
        Line::Conclusion(Conclusion::Sat(Some(hint))) => Some(hint.len()),
        _ => None,
    }
}

/// Whether a line concludes `BOUNDS -3 INF` with that hint.
fn reads_as_hinted_bounds(alloc: Global, line: &[u8]) -> bool {
    let file = Names::new(alloc);
    let mut names = ProofNames::new(alloc, &file);
    match read_line(alloc, Section::Conclusion, line, &mut names) {
        Ok(said) => is_hinted_bounds(&said),
        Err(_) => false,
    }
}

#[test]
fn bounds_with_a_hint(rt: HostRuntime) {
    let line = b"conclusion BOUNDS -3 : 7 INF : x1 ~x2";
    assert!(&rt; reads_as_hinted_bounds(rt.alloc(), line));
}

/// How many literals the hint of a line has that is read as a conclusion.
fn read_hint(alloc: Global, line: &[u8]) -> Result<Option<usize>, ProofFault> {
    let file = Names::new(alloc);
    let mut names = ProofNames::new(alloc, &file);
    let said = read_line(alloc, Section::Conclusion, line, &mut names)?;
    Ok(hint_length(&said))
}

/// An empty hint, and none.
const HINTS: [(&[u8], Option<usize>); 2] = [
    (b"conclusion SAT :", Some(0)),
    (b"conclusion SAT", None),
];

#[test]
fn hints_of_a_solution(rt: HostRuntime) {
    for (line, length) in &HINTS {
        assert!(&rt; read_hint(rt.alloc(), line) == Ok(*length), "{line:?}");
    }
}

/// Whether the next line is this one.
fn is_next(reader: &mut ProofReader<'_>, number: u64, text: &[u8]) -> bool {
    match reader.next() {
        Some(line) => line.number == number && line.text == text,
        None => false,
    }
}

#[test]
fn lines_that_count(rt: HostRuntime) {
    let mut reader = ProofReader::new(b"* a comment\n\r\n pol 1\n\t\n \t* x\n\r*\n;\nend");
    let wanted = [
        (3, b" pol 1".as_slice()),
        (6, b"\r*".as_slice()),
        (7, b";".as_slice()),
        (8, b"end".as_slice()),
    ];
    for (number, text) in &wanted {
        assert!(&rt; is_next(&mut reader, *number, *text), "line {number}");
    }
    assert!(&rt; reader.next().is_none());
    assert!(&rt; reader.next().is_none());
    assert_eq!(&rt; reader.end_number(), 8);
}

#[test]
fn the_end_stands_on_the_last_line(rt: HostRuntime) {
    assert_eq!(&rt; ProofReader::new(b"").end_number(), 1);
    assert_eq!(&rt; ProofReader::new(b"f 1\n").end_number(), 2);
}
