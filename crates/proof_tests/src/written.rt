//! What is written: the very bytes, which read back and are written the same again.

use super::asking::fault_at;
use super::writable::is_conclusion_writable;
use linear::Names;
use proof_lines::ProofReader;
use proof_steps::Conclusion;
use proof_text::{Line, ProofFault, ProofNames, Section, read_line, read_step};
use proof_write::{is_step_writable, write_end, write_step};
use std::alloc::Global;

/// A line, and how what it says is written.
#[derive(Clone, Copy, Debug)]
struct Rewriting {
    line: &'static [u8],
    written: &'static [u8],
}

/// Reads a step and writes it.
fn rewrite_step(
    alloc: Global,
    line: &[u8],
    names: &mut ProofNames<'_>,
    out: &mut Vec<u8>,
) -> Result<(), ProofFault> {
    let step = read_step(alloc, line, names)?;
    let table = names.added();
    if !is_step_writable(table.len(), &step) {
        return Err(ProofFault::TooManyIds);
    }
    write_step(&step, table, out)?;
    Ok(())
}

/// Writes the lines behind the steps.
fn write_conclusion(
    conclusion: &Conclusion,
    table: &Names,
    out: &mut Vec<u8>,
) -> Result<(), ProofFault> {
    if !is_conclusion_writable(table.len(), conclusion) {
        return Err(ProofFault::TooManyIds);
    }
    write_end(conclusion, table, out)?;
    Ok(())
}

/// Reads a conclusion and writes the lines behind the steps.
fn rewrite_end(
    alloc: Global,
    line: &[u8],
    names: &mut ProofNames<'_>,
    out: &mut Vec<u8>,
) -> Result<(), ProofFault> {
    match read_line(alloc, Section::Conclusion, line, names)? {
        Line::Conclusion(conclusion) => write_conclusion(&conclusion, names.added(), out),
        _ => Err(ProofFault::BadLine),
    }
}

const STEPS: [Rewriting; 21] = [
    Rewriting {
        line: b"p 1 -2 + x1 +3 * 007 d s x2 w ~x1 -0 s;",
        written: b"pol 1 -2 + x1 3 * 7 d s x2 w ~x1 0 s\n",
    },
    Rewriting {
        line: b"pol 1329227995784915872903807060280344576 -1329227995784915872903807060280344576 + 1329227995784915872903807060280344576 * -1329227995784915872903807060280344576 d",
        written: b"pol 1329227995784915872903807060280344576 -1329227995784915872903807060280344576 + 1329227995784915872903807060280344576 * -1329227995784915872903807060280344576 d\n",
    },
    Rewriting {
        line: b"pol ;",
        written: b"pol\n",
    },
    Rewriting {
        line: b"u +1 x1 -0 ~x2 -1329227995784915872903807060280344576 x1>=+1329227995784915872903807060280344576; 7 ~ 99",
        written: b"rup 1 x1 0 ~x2 -1329227995784915872903807060280344576 x1 >= 1329227995784915872903807060280344576 ;\n",
    },
    Rewriting {
        line: b"rup\t>=-1329227995784915872903807060280344576;",
        written: b"rup >= -1329227995784915872903807060280344576 ;\n",
    },
    Rewriting {
        line: b"red 2 x1 >= 01 ; x1 -> x2 x2 ~x1 x3 0 x4 -> 1 x5->~x5;",
        written: b"red 2 x1 >= 1 ; x1 -> x2 x2 -> ~x1 x3 -> 0 x4 -> 1 x5 -> ~x5\n",
    },
    Rewriting {
        line: b"red 1329227995784915872903807060280344576 ~x1 -1329227995784915872903807060280344576 x2 >= -1329227995784915872903807060280344576 ;",
        written: b"red 1329227995784915872903807060280344576 ~x1 -1329227995784915872903807060280344576 x2 >= -1329227995784915872903807060280344576 ;\n",
    },
    Rewriting {
        line: b"sol x1 ~x2 ;",
        written: b"sol x1 ~x2\n",
    },
    Rewriting {
        line: b"sol",
        written: b"sol\n",
    },
    Rewriting {
        line: b"soli ~x[1]  _{a}^2-b",
        written: b"soli ~x[1] _{a}^2-b\n",
    },
    Rewriting {
        line: b"del id -1 0007 1329227995784915872903807060280344576 -1329227995784915872903807060280344576 ;",
        written: b"del id -1 7 1329227995784915872903807060280344576 -1329227995784915872903807060280344576\n",
    },
    Rewriting {
        line: b"del id",
        written: b"del id\n",
    },
    Rewriting {
        line: b"red 2 x1>=01;x1 x2 x2->~x1;begin;",
        written: b"red 2 x1 >= 1 ; x1 -> x2 x2 -> ~x1 ; begin\n",
    },
    Rewriting {
        line: b"red >= 1 ;; begin",
        written: b"red >= 1 ; ; begin\n",
    },
    Rewriting {
        line: b"proofgoal +003 ;",
        written: b"proofgoal 3\n",
    },
    Rewriting {
        line: b"proofgoal -1",
        written: b"proofgoal -1\n",
    },
    Rewriting {
        line: b"proofgoal -1329227995784915872903807060280344576",
        written: b"proofgoal -1329227995784915872903807060280344576\n",
    },
    Rewriting {
        line: b"proofgoal #1;",
        written: b"proofgoal #1\n",
    },
    Rewriting {
        line: b"proofgoal\t#2",
        written: b"proofgoal #2\n",
    },
    Rewriting {
        line: b"end 8 ;",
        written: b"end\n",
    },
    Rewriting {
        line: b"end",
        written: b"end\n",
    },
];

/// What is written for the line of a step.
fn rewritten_step(alloc: Global, line: &[u8]) -> Result<Vec<u8>, ProofFault> {
    let file = Names::new(alloc);
    let mut names = ProofNames::new(alloc, &file);
    let mut out = Vec::new(alloc);
    rewrite_step(alloc, line, &mut names, &mut out)?;
    Ok(out)
}

/// Whether a text is one line that counts, a step that is written as it stands.
fn is_written_again(alloc: Global, text: &[u8]) -> Result<bool, ProofFault> {
    let mut reader = ProofReader::new(text);
    let Some(line) = reader.next() else {
        return Ok(false);
    };
    let is_one = reader.next().is_none();
    Ok(is_one && rewritten_step(alloc, line.text)?.as_slice() == text)
}

#[test]
fn written_steps(rt: HostRuntime) -> Result<(), ProofFault> {
    for case in &STEPS {
        assert!(&rt;
            rewritten_step(rt.alloc(), case.line)?.as_slice() == case.written,
            "{case:?}"
        );
        assert!(&rt; is_written_again(rt.alloc(), case.written)?, "{case:?}");
    }
    Ok(())
}

const ENDS: [Rewriting; 13] = [
    Rewriting {
        line: b"conclusion NONE ;",
        written: b"conclusion NONE",
    },
    Rewriting {
        line: b"conclusion SAT",
        written: b"conclusion SAT",
    },
    Rewriting {
        line: b"conclusion SAT :",
        written: b"conclusion SAT :",
    },
    Rewriting {
        line: b"conclusion SAT:~x1 x2;",
        written: b"conclusion SAT : ~x1 x2",
    },
    Rewriting {
        line: b"conclusion UNSAT",
        written: b"conclusion UNSAT",
    },
    Rewriting {
        line: b"conclusion UNSAT : -3",
        written: b"conclusion UNSAT",
    },
    Rewriting {
        line: b"conclusion BOUNDS -INF INF",
        written: b"conclusion BOUNDS -INF INF",
    },
    Rewriting {
        line: b"conclusion BOUNDS INF INF : x1 ~x2 ;",
        written: b"conclusion BOUNDS INF INF : x1 ~x2",
    },
    Rewriting {
        line: b"conclusion BOUNDS +1329227995784915872903807060280344576 : 1 -1329227995784915872903807060280344576 : ~x1",
        written: b"conclusion BOUNDS 1329227995784915872903807060280344576 -1329227995784915872903807060280344576 : ~x1",
    },
    Rewriting {
        line: b"conclusion BOUNDS -1329227995784915872903807060280344576 1329227995784915872903807060280344576",
        written: b"conclusion BOUNDS -1329227995784915872903807060280344576 1329227995784915872903807060280344576",
    },
    Rewriting {
        line: b"conclusion BOUNDS -INF -07",
        written: b"conclusion BOUNDS -INF -7",
    },
    Rewriting {
        line: b"conclusion BOUNDS INF 7 :",
        written: b"conclusion BOUNDS INF 7 :",
    },
    Rewriting {
        line: b"conclusion BOUNDS -0 INF",
        written: b"conclusion BOUNDS 0 INF",
    },
];

/// The lines behind the steps with this conclusion.
fn end_lines(alloc: Global, conclusion: &[u8]) -> Result<Vec<u8>, ProofFault> {
    let mut text = Vec::new(alloc);
    text.extend_from_slice(b"output NONE\n")?;
    text.extend_from_slice(conclusion)?;
    text.extend_from_slice(b"\nend pseudo-Boolean proof\n")?;
    Ok(text)
}

/// Whether the lines behind the steps that are written for a conclusion's line are those with this conclusion.
fn is_end_written(alloc: Global, line: &[u8], conclusion: &[u8]) -> Result<bool, ProofFault> {
    let file = Names::new(alloc);
    let mut names = ProofNames::new(alloc, &file);
    let mut out = Vec::new(alloc);
    rewrite_end(alloc, line, &mut names, &mut out)?;
    Ok(out.as_slice() == end_lines(alloc, conclusion)?.as_slice())
}

#[test]
fn written_ends(rt: HostRuntime) -> Result<(), ProofFault> {
    for case in &ENDS {
        assert!(&rt;
            is_end_written(rt.alloc(), case.line, case.written)?,
            "{case:?}"
        );
        assert!(&rt;
            is_end_written(rt.alloc(), case.written, case.written)?,
            "{case:?}"
        );
    }
    assert_eq!(&rt; fault_at(rt.alloc(), Section::Step, b"output NONE"), 0);
    Ok(())
}

/// A proof, as it is written.
const WRITTEN: &[u8] =
    b"pseudo-Boolean proof version 2.0\nf 1\nsoli x1 ~x2\npol 1 2 +\noutput NONE\nconclusion BOUNDS 1 1\nend pseudo-Boolean proof\n";

/// Reads steps and writes them, one after another.
fn rewrite_steps(
    alloc: Global,
    lines: &[&[u8]],
    names: &mut ProofNames<'_>,
    out: &mut Vec<u8>,
) -> Result<(), ProofFault> {
    for line in lines {
        rewrite_step(alloc, line, names, out)?;
    }
    Ok(())
}

/// What is written for a proof behind its first two lines, which are given as they are written.
fn rewritten_proof(
    alloc: Global,
    first: &[u8],
    steps: &[&[u8]],
    conclusion: &[u8],
) -> Result<Vec<u8>, ProofFault> {
    let file = Names::new(alloc);
    let mut names = ProofNames::new(alloc, &file);
    let mut out = Vec::from_slice(alloc, first)?;
    rewrite_steps(alloc, steps, &mut names, &mut out)?;
    rewrite_end(alloc, conclusion, &mut names, &mut out)?;
    Ok(out)
}

#[test]
fn a_written_proof(rt: HostRuntime) -> Result<(), ProofFault> {
    let first = b"pseudo-Boolean proof version 2.0\nf 1\n";
    let steps = [b"soli x1 ~x2 ;".as_slice(), b"p +1 2 + ;".as_slice()];
    let written = rewritten_proof(rt.alloc(), first, &steps, b"conclusion BOUNDS 1 1")?;
    assert_eq!(&rt; written.as_slice(), WRITTEN);
    Ok(())
}

/// Whether the next line can be read at a section.
fn is_read_next(alloc: Global, reader: &mut ProofReader<'_>, section: Section) -> bool {
    match reader.next() {
        Some(line) => fault_at(alloc, section, line.text) == 0,
        None => false,
    }
}

#[test]
fn sections_of_a_written_proof(rt: HostRuntime) {
    let mut reader = ProofReader::new(WRITTEN);
    let sections = [
        Section::Header,
        Section::Count,
        Section::Step,
        Section::Step,
        Section::Step,
        Section::Conclusion,
        Section::End,
    ];
    for section in &sections {
        assert!(&rt; is_read_next(rt.alloc(), &mut reader, *section));
    }
    assert!(&rt; reader.next().is_none());
}

/// A proof with a subproof, as it is written.
const NESTED: &[u8] =
    b"pseudo-Boolean proof version 2.0\nf 5\nred >= 1 ; ; begin\nproofgoal #1\npol 1 2 + 3 + 4 + 5 +\nend\nrup >= 0 ;\nend\nrup >= 1 ;\noutput NONE\nconclusion UNSAT\nend pseudo-Boolean proof\n";

/// The section that is due behind a line that is read at a section.
fn section_behind(alloc: Global, section: Section, line: &[u8]) -> Result<Section, ProofFault> {
    let file = Names::new(alloc);
    let mut names = ProofNames::new(alloc, &file);
    let said = read_line(alloc, section, line, &mut names)?;
    Ok(section.behind(&said))
}

#[test]
fn a_written_subproof(rt: HostRuntime) -> Result<(), ProofFault> {
    let first = b"pseudo-Boolean proof version 2.0\nf 5\n";
    let steps = [
        b"red>=1;;begin".as_slice(),
        b"proofgoal #1".as_slice(),
        b"p 1 2 + 3 + 4 + 5 +".as_slice(),
        b"end 8".as_slice(),
        b"u >= 0 ; 1".as_slice(),
        b"end ;".as_slice(),
        b"u >= 1 ;".as_slice(),
    ];
    let written = rewritten_proof(rt.alloc(), first, &steps, b"conclusion UNSAT")?;
    assert_eq!(&rt; written.as_slice(), NESTED);
    Ok(())
}

#[test]
fn sections_of_a_subproof(rt: HostRuntime) -> Result<(), ProofFault> {
    let alloc = rt.alloc();
    let mut reader = ProofReader::new(NESTED);
    let mut section = Section::Header;
    let behind = [
        Section::Count,
        Section::Step,
        Section::Block,
        Section::Goal,
        Section::Goal,
        Section::Block,
        Section::Block,
        Section::Step,
        Section::Step,
        Section::Conclusion,
        Section::End,
        Section::After,
    ];
    for wanted in &behind {
        if let Some(line) = reader.next() {
            section = section_behind(alloc, section, line.text)?;
            assert_eq!(&rt; section, *wanted);
        } else {
            assert!(&rt; false);
        }
    }
    assert!(&rt; reader.next().is_none());
    Ok(())
}
