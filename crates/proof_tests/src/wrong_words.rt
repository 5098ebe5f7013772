//! Which fault a wrong word gets: every place of a line by every kind of word.
//!
//! By the format the first word that cannot stand in its place decides, and its fault is told by the place: 3 where a rule is
//! due, 4 for what the profile leaves out, 8 for an integer above 2^120 where an integer may stand, else 5. The contracts say
//! that a line with such a fault is none, and leave open which of them it gets; this table says it. Its codes were worked by
//! hand from the grammar of the VeriPB proof format. 0 stands where the line is complete with the word; 5 also where
//! the word may stand and the line is cut behind it.

use super::asking::fault_at;
use proof_text::{ProofFault, Section};
use std::alloc::Global;

/// The words that are tried at each place, one for each kind: misspelt names, a name, a negated literal, integers, one that
/// is too large, signs alone, a word of no kind, `begin`, the symbols, nothing at all, and the one-byte words of `pol`.
pub(crate) const WORDS: [&[u8]; 24] = [
    b"x",
    b"~",
    b"x1",
    b"~x2",
    b"1",
    b"-7",
    b"1329227995784915872903807060280344577",
    b"-",
    b"+",
    b"1x",
    b"begin",
    b";",
    b"; begin",
    b":",
    b"=",
    b"<=",
    b">=",
    b"->",
    b"<",
    b"",
    b"*",
    b"d",
    b"s",
    b"w",
];

/// What stands before the word, and the code for each of the words, in their order.
#[derive(Clone, Copy, Debug)]
pub(crate) struct Row {
    pub(crate) section: Section,
    pub(crate) before: &'static [u8],
    pub(crate) codes: &'static [u8],
}

const ROWS: [Row; 96] = [
    // the first word of a line, and what stands behind one that is no rule or belongs elsewhere
    Row {
        section: Section::Header,
        before: b"",
        codes: b"111111111111111111111111",
    },
    Row {
        section: Section::Count,
        before: b"",
        codes: b"222222222222222222222222",
    },
    Row {
        section: Section::Step,
        before: b"",
        codes: b"333333333345555555555333",
    },
    Row {
        section: Section::Conclusion,
        before: b"",
        codes: b"555555555555555555555555",
    },
    Row {
        section: Section::End,
        before: b"",
        codes: b"555555555555555555555555",
    },
    Row {
        section: Section::After,
        before: b"",
        codes: b"777777777777777777777777",
    },
    Row {
        section: Section::Step,
        before: b"foo",
        codes: b"333333333333333333333333",
    },
    Row {
        section: Section::Step,
        before: b"solx",
        codes: b"444444444444444444444444",
    },
    Row {
        section: Section::Step,
        before: b"begin",
        codes: b"444444444444444444444444",
    },
    Row {
        section: Section::Step,
        before: b"proofgoal",
        codes: b"555555555555555555555555",
    },
    Row {
        section: Section::Step,
        before: b"pseudo-Boolean",
        codes: b"555555555555555555555555",
    },
    Row {
        section: Section::Step,
        before: b"f",
        codes: b"555555555555555555555555",
    },
    Row {
        section: Section::Step,
        before: b"conclusion",
        codes: b"555555555555555555555555",
    },
    Row {
        section: Section::Step,
        before: b"end",
        codes: b"555555555555555555555555",
    },
    Row {
        section: Section::Step,
        before: b";",
        codes: b"555555555555555555555555",
    },
    Row {
        section: Section::Step,
        before: b">",
        codes: b"555555555555555555555555",
    },
    Row {
        section: Section::Conclusion,
        before: b"pol",
        codes: b"555555555555555555555555",
    },
    Row {
        section: Section::Conclusion,
        before: b"foo",
        codes: b"555555555555555555555555",
    },
    Row {
        section: Section::Conclusion,
        before: b"solx",
        codes: b"555555555555555555555555",
    },
    Row {
        section: Section::Conclusion,
        before: b"output",
        codes: b"555555555555555555555555",
    },
    Row {
        section: Section::End,
        before: b"pol",
        codes: b"555555555555555555555555",
    },
    Row {
        section: Section::End,
        before: b"conclusion",
        codes: b"555555555555555555555555",
    },
    Row {
        section: Section::After,
        before: b"pol",
        codes: b"777777777777777777777777",
    },
    Row {
        section: Section::After,
        before: b"end",
        codes: b"777777777777777777777777",
    },
    // the lines around the steps
    Row {
        section: Section::Header,
        before: b"pseudo-Boolean",
        codes: b"111111111111111111111111",
    },
    Row {
        section: Section::Header,
        before: b"pseudo-Boolean proof version",
        codes: b"111111111111111111111111",
    },
    Row {
        section: Section::Header,
        before: b"pseudo-Boolean proof version 2.0",
        codes: b"111111111110111111101111",
    },
    Row {
        section: Section::Header,
        before: b"pseudo-Boolean proof version 2.0 ;",
        codes: b"111111111111111111101111",
    },
    Row {
        section: Section::Count,
        before: b"f",
        codes: b"222200222222222222222222",
    },
    Row {
        section: Section::Count,
        before: b"f 3",
        codes: b"222222222220222222202222",
    },
    Row {
        section: Section::Count,
        before: b"f 3 ;",
        codes: b"222222222222222222202222",
    },
    Row {
        section: Section::Step,
        before: b"output",
        codes: b"444444444445555555554444",
    },
    Row {
        section: Section::Step,
        before: b"output NONE",
        codes: b"555555555550555555505555",
    },
    Row {
        section: Section::Step,
        before: b"output NONE ;",
        codes: b"555555555555555555505555",
    },
    Row {
        section: Section::End,
        before: b"end",
        codes: b"555555555555555555555555",
    },
    Row {
        section: Section::End,
        before: b"end pseudo-Boolean",
        codes: b"555555555555555555555555",
    },
    Row {
        section: Section::End,
        before: b"end pseudo-Boolean proof",
        codes: b"555555555550555555505555",
    },
    Row {
        section: Section::End,
        before: b"end pseudo-Boolean proof ;",
        codes: b"555555555555555555505555",
    },
    // `pol`, `sol`, `soli` and `del`
    Row {
        section: Section::Step,
        before: b"pol",
        codes: b"550000850500555555505505",
    },
    Row {
        section: Section::Step,
        before: b"p 1 *",
        codes: b"550000850500555555505505",
    },
    Row {
        section: Section::Step,
        before: b"pol 1 +",
        codes: b"550000850500555555505505",
    },
    Row {
        section: Section::Step,
        before: b"pol ~x1",
        codes: b"550000850500555555505505",
    },
    Row {
        section: Section::Step,
        before: b"pol 1",
        codes: b"550000850500555555500005",
    },
    Row {
        section: Section::Step,
        before: b"pol x1",
        codes: b"550000850500555555505500",
    },
    Row {
        section: Section::Step,
        before: b"pol 1 ;",
        codes: b"555555555555555555505555",
    },
    Row {
        section: Section::Step,
        before: b"pol x",
        codes: b"555555555555555555555555",
    },
    Row {
        section: Section::Step,
        before: b"sol",
        codes: b"550055555500555555505555",
    },
    Row {
        section: Section::Step,
        before: b"sol ~x1",
        codes: b"550055555500555555505555",
    },
    Row {
        section: Section::Step,
        before: b"sol x1 ;",
        codes: b"555555555555555555505555",
    },
    Row {
        section: Section::Step,
        before: b"soli",
        codes: b"550055555500555555505555",
    },
    Row {
        section: Section::Step,
        before: b"soli x3",
        codes: b"550055555500555555505555",
    },
    Row {
        section: Section::Step,
        before: b"soli ;",
        codes: b"555555555555555555505555",
    },
    Row {
        section: Section::Step,
        before: b"del",
        codes: b"555555555555555555555555",
    },
    Row {
        section: Section::Step,
        before: b"del range",
        codes: b"444444444444444444444444",
    },
    Row {
        section: Section::Step,
        before: b"del spec",
        codes: b"444444444444444444444444",
    },
    Row {
        section: Section::Step,
        before: b"del id",
        codes: b"555500855550555555505555",
    },
    Row {
        section: Section::Step,
        before: b"del id 3",
        codes: b"555500855550555555505555",
    },
    Row {
        section: Section::Step,
        before: b"del id ;",
        codes: b"555555555555555555505555",
    },
    // `rup` and `red`, up to the `;` behind the constraint and behind it
    Row {
        section: Section::Step,
        before: b"rup",
        codes: b"555555855555554455555555",
    },
    Row {
        section: Section::Step,
        before: b"u",
        codes: b"555555855555554455555555",
    },
    Row {
        section: Section::Step,
        before: b"red",
        codes: b"555555855555554455555555",
    },
    Row {
        section: Section::Step,
        before: b"rup 2",
        codes: b"555555555555555555555555",
    },
    Row {
        section: Section::Step,
        before: b"red 2",
        codes: b"555555555555555555555555",
    },
    Row {
        section: Section::Step,
        before: b"rup 2 ~x1",
        codes: b"555555855555554455555555",
    },
    Row {
        section: Section::Step,
        before: b"red 2 x1",
        codes: b"555555855555554455555555",
    },
    Row {
        section: Section::Step,
        before: b"rup 2 x1 >=",
        codes: b"555555855555555555555555",
    },
    Row {
        section: Section::Step,
        before: b"red >=",
        codes: b"555555855555555555555555",
    },
    Row {
        section: Section::Step,
        before: b"rup 2 x1 >= 1",
        codes: b"555555555550055555555555",
    },
    Row {
        section: Section::Step,
        before: b"red 2 x1 >= 1",
        codes: b"555555555550555555555555",
    },
    Row {
        section: Section::Step,
        before: b"rup 2 x1 >= 1 ;",
        codes: b"000000000000000000000000",
    },
    Row {
        section: Section::Step,
        before: b"rup >= 1 ; 7 ;",
        codes: b"000000000000000000000000",
    },
    // the substitution of `red`
    Row {
        section: Section::Step,
        before: b"red >= 1 ;",
        codes: b"555555555550055555505555",
    },
    Row {
        section: Section::Step,
        before: b"red >= 1 ; x3",
        codes: b"550005555505555555555555",
    },
    Row {
        section: Section::Step,
        before: b"red >= 1 ; x3 ->",
        codes: b"550005555505555555555555",
    },
    Row {
        section: Section::Step,
        before: b"red >= 1 ; x3 -> 1",
        codes: b"555555555550055555505555",
    },
    Row {
        section: Section::Step,
        before: b"red >= 1 ; x3 ~x4",
        codes: b"555555555550055555505555",
    },
    Row {
        section: Section::Step,
        before: b"red >= 1 ; x3 -> 1 x3",
        codes: b"555555555555555555555555",
    },
    Row {
        section: Section::Step,
        before: b"red >= 1 ; x3 0 x4 x3 x3 ->",
        codes: b"555555555555555555555555",
    },
    Row {
        section: Section::Step,
        before: b"red >= 1 ; x3 -> 1 ;",
        codes: b"555555555505555555505555",
    },
    Row {
        section: Section::Step,
        before: b"red >= 1 ; ;",
        codes: b"555555555505555555505555",
    },
    // conclusions
    Row {
        section: Section::Conclusion,
        before: b"conclusion",
        codes: b"555555555555555555555555",
    },
    Row {
        section: Section::Conclusion,
        before: b"conclusion NONE",
        codes: b"555555555550555555505555",
    },
    Row {
        section: Section::Conclusion,
        before: b"conclusion NONE ;",
        codes: b"555555555555555555505555",
    },
    Row {
        section: Section::Conclusion,
        before: b"conclusion SAT",
        codes: b"555555555550505555505555",
    },
    Row {
        section: Section::Conclusion,
        before: b"conclusion SAT :",
        codes: b"550055555500555555505555",
    },
    Row {
        section: Section::Conclusion,
        before: b"conclusion SAT : x1",
        codes: b"550055555500555555505555",
    },
    Row {
        section: Section::Conclusion,
        before: b"conclusion UNSAT",
        codes: b"555555555550555555505555",
    },
    Row {
        section: Section::Conclusion,
        before: b"conclusion UNSAT :",
        codes: b"555500855555555555555555",
    },
    Row {
        section: Section::Conclusion,
        before: b"conclusion UNSAT : 3",
        codes: b"555555555550555555505555",
    },
    Row {
        section: Section::Conclusion,
        before: b"conclusion BOUNDS",
        codes: b"555555855555555555555555",
    },
    Row {
        section: Section::Conclusion,
        before: b"conclusion BOUNDS -INF",
        codes: b"555500855555555555555555",
    },
    Row {
        section: Section::Conclusion,
        before: b"conclusion BOUNDS 3",
        codes: b"555500855555555555555555",
    },
    Row {
        section: Section::Conclusion,
        before: b"conclusion BOUNDS 3 :",
        codes: b"555555855555555555555555",
    },
    Row {
        section: Section::Conclusion,
        before: b"conclusion BOUNDS 3 : 4",
        codes: b"555500855555555555555555",
    },
    Row {
        section: Section::Conclusion,
        before: b"conclusion BOUNDS 3 5",
        codes: b"555555555550505555505555",
    },
    Row {
        section: Section::Conclusion,
        before: b"conclusion BOUNDS INF : 4 INF :",
        codes: b"550055555500555555505555",
    },
];

/// The number of the fault of a line of these parts, with spaces between them.
fn fault_of_parts(
    alloc: Global,
    section: Section,
    before: &[u8],
    word: &[u8],
    behind: &[u8],
) -> Result<u8, ProofFault> {
    let mut line = Vec::new(alloc);
    line.extend_from_slice(before)?;
    line.push(b' ')?;
    line.extend_from_slice(word)?;
    line.push(b' ')?;
    line.extend_from_slice(behind)?;
    Ok(fault_at(alloc, section, line.as_slice()))
}

/// The code of a line that goes on with a word which stands nowhere: where the line was complete, that word is the first
/// that cannot stand. A complete `rup` line has its `;`, behind which everything may.
fn code_with_more(row: &Row, code: u8) -> u8 {
    if code != 0 || row.before.starts_with(b"rup") {
        return code;
    }
    match row.section {
        Section::Header => 1,
        Section::Count => 2,
        _ => 5,
    }
}

/// The number of the first word to which the reader gives another code than the row.
pub(crate) fn first_difference(alloc: Global, row: &Row) -> Result<Option<usize>, ProofFault> {
    for (i, (word, code)) in WORDS.iter().zip(row.codes.iter()).enumerate() {
        let wanted = code.wrapping_sub(b'0');
        let found = fault_of_parts(alloc, row.section, row.before, word, b"")?;
        let more = fault_of_parts(alloc, row.section, row.before, word, b"<")?;
        if found != wanted || more != code_with_more(row, wanted) {
            return Ok(Some(i));
        }
    }
    Ok(None)
}

#[test]
fn wrong_words(rt: HostRuntime) -> Result<(), ProofFault> {
    for row in &ROWS {
        assert_eq!(&rt; row.codes.len(), WORDS.len());
        assert_eq!(&rt;
            first_difference(rt.alloc(), row)?,
            None,
            "{:?}",
            row.before
        );
    }
    Ok(())
}
