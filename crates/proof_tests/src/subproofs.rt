//! Which fault a wrong word gets on the lines of subproofs: every place by every kind of word, as in `wrong_words`.
//!
//! What may stand in a block and in its goals is less than outside, so each first word is tried at both.

use super::wrong_words::{Row, WORDS, first_difference};
use proof_text::{ProofFault, Section};

const ROWS: [Row; 73] = [
    // behind `begin`
    Row {
        section: Section::Step,
        before: b"red >= 1 ; x3 1 ; begin",
        codes: b"555555555550555555505555",
    },
    Row {
        section: Section::Step,
        before: b"red >= 1 ; ; begin ;",
        codes: b"555555555555555555505555",
    },
    Row {
        section: Section::Step,
        before: b"red >= 1 ; ; beginning",
        codes: b"555555555555555555555555",
    },
    // in a block, and in a goal of it
    Row {
        section: Section::Block,
        before: b"",
        codes: b"333333333345555555555333",
    },
    Row {
        section: Section::Block,
        before: b"foo",
        codes: b"333333333333333333333333",
    },
    Row {
        section: Section::Block,
        before: b"solx",
        codes: b"444444444444444444444444",
    },
    Row {
        section: Section::Block,
        before: b"begin",
        codes: b"444444444444444444444444",
    },
    Row {
        section: Section::Block,
        before: b"red",
        codes: b"555555555555555555555555",
    },
    Row {
        section: Section::Block,
        before: b"red >= 1 ;",
        codes: b"555555555555555555555555",
    },
    Row {
        section: Section::Block,
        before: b"sol",
        codes: b"555555555555555555555555",
    },
    Row {
        section: Section::Block,
        before: b"soli x1",
        codes: b"555555555555555555555555",
    },
    Row {
        section: Section::Block,
        before: b"del",
        codes: b"555555555555555555555555",
    },
    Row {
        section: Section::Block,
        before: b"del id",
        codes: b"555555555555555555555555",
    },
    Row {
        section: Section::Block,
        before: b"del range",
        codes: b"555555555555555555555555",
    },
    Row {
        section: Section::Block,
        before: b"output",
        codes: b"555555555555555555555555",
    },
    Row {
        section: Section::Block,
        before: b"output NONE",
        codes: b"555555555555555555555555",
    },
    Row {
        section: Section::Block,
        before: b"conclusion",
        codes: b"555555555555555555555555",
    },
    Row {
        section: Section::Block,
        before: b"f",
        codes: b"555555555555555555555555",
    },
    Row {
        section: Section::Block,
        before: b"pseudo-Boolean",
        codes: b"555555555555555555555555",
    },
    Row {
        section: Section::Block,
        before: b";",
        codes: b"555555555555555555555555",
    },
    Row {
        section: Section::Block,
        before: b"pol",
        codes: b"550000850500555555505505",
    },
    Row {
        section: Section::Block,
        before: b"p 1 +",
        codes: b"550000850500555555505505",
    },
    Row {
        section: Section::Block,
        before: b"pol 1 ;",
        codes: b"555555555555555555505555",
    },
    Row {
        section: Section::Block,
        before: b"u",
        codes: b"555555855555554455555555",
    },
    Row {
        section: Section::Block,
        before: b"rup >= 1",
        codes: b"555555555550055555555555",
    },
    Row {
        section: Section::Block,
        before: b"rup >= 1 ; 7 ;",
        codes: b"000000000000000000000000",
    },
    Row {
        section: Section::Goal,
        before: b"",
        codes: b"333333333345555555555333",
    },
    Row {
        section: Section::Goal,
        before: b"foo",
        codes: b"333333333333333333333333",
    },
    Row {
        section: Section::Goal,
        before: b"solx",
        codes: b"444444444444444444444444",
    },
    Row {
        section: Section::Goal,
        before: b"begin",
        codes: b"444444444444444444444444",
    },
    Row {
        section: Section::Goal,
        before: b"red",
        codes: b"555555555555555555555555",
    },
    Row {
        section: Section::Goal,
        before: b"red >= 1 ;",
        codes: b"555555555555555555555555",
    },
    Row {
        section: Section::Goal,
        before: b"sol",
        codes: b"555555555555555555555555",
    },
    Row {
        section: Section::Goal,
        before: b"soli x1",
        codes: b"555555555555555555555555",
    },
    Row {
        section: Section::Goal,
        before: b"del",
        codes: b"555555555555555555555555",
    },
    Row {
        section: Section::Goal,
        before: b"del id",
        codes: b"555555555555555555555555",
    },
    Row {
        section: Section::Goal,
        before: b"del range",
        codes: b"555555555555555555555555",
    },
    Row {
        section: Section::Goal,
        before: b"output",
        codes: b"555555555555555555555555",
    },
    Row {
        section: Section::Goal,
        before: b"output NONE",
        codes: b"555555555555555555555555",
    },
    Row {
        section: Section::Goal,
        before: b"conclusion",
        codes: b"555555555555555555555555",
    },
    Row {
        section: Section::Goal,
        before: b"f",
        codes: b"555555555555555555555555",
    },
    Row {
        section: Section::Goal,
        before: b"pseudo-Boolean",
        codes: b"555555555555555555555555",
    },
    Row {
        section: Section::Goal,
        before: b";",
        codes: b"555555555555555555555555",
    },
    Row {
        section: Section::Goal,
        before: b"pol",
        codes: b"550000850500555555505505",
    },
    Row {
        section: Section::Goal,
        before: b"p 1 +",
        codes: b"550000850500555555505505",
    },
    Row {
        section: Section::Goal,
        before: b"pol 1 ;",
        codes: b"555555555555555555505555",
    },
    Row {
        section: Section::Goal,
        before: b"u",
        codes: b"555555855555554455555555",
    },
    Row {
        section: Section::Goal,
        before: b"rup >= 1",
        codes: b"555555555550055555555555",
    },
    Row {
        section: Section::Goal,
        before: b"rup >= 1 ; 7 ;",
        codes: b"000000000000000000000000",
    },
    Row {
        section: Section::Block,
        before: b"proofgoal",
        codes: b"555500855555555555555555",
    },
    Row {
        section: Section::Block,
        before: b"proofgoal 3",
        codes: b"555555555550555555505555",
    },
    Row {
        section: Section::Block,
        before: b"proofgoal -1",
        codes: b"555555555550555555505555",
    },
    Row {
        section: Section::Block,
        before: b"proofgoal #1",
        codes: b"555555555550555555505555",
    },
    Row {
        section: Section::Block,
        before: b"proofgoal #2",
        codes: b"555555555550555555505555",
    },
    Row {
        section: Section::Block,
        before: b"proofgoal #1 ;",
        codes: b"555555555555555555505555",
    },
    Row {
        section: Section::Block,
        before: b"proofgoal #",
        codes: b"555555555555555555555555",
    },
    Row {
        section: Section::Block,
        before: b"proofgoal #3",
        codes: b"555555555555555555555555",
    },
    Row {
        section: Section::Block,
        before: b"proofgoal #01",
        codes: b"555555555555555555555555",
    },
    Row {
        section: Section::Block,
        before: b"proofgoal # 1",
        codes: b"555555555555555555555555",
    },
    Row {
        section: Section::Block,
        before: b"proofgoal x1",
        codes: b"555555555555555555555555",
    },
    Row {
        section: Section::Goal,
        before: b"proofgoal",
        codes: b"555555555555555555555555",
    },
    Row {
        section: Section::Goal,
        before: b"proofgoal 3",
        codes: b"555555555555555555555555",
    },
    Row {
        section: Section::Goal,
        before: b"proofgoal #1",
        codes: b"555555555555555555555555",
    },
    Row {
        section: Section::Block,
        before: b"end",
        codes: b"555555555550555555505555",
    },
    Row {
        section: Section::Block,
        before: b"end ;",
        codes: b"555555555555555555505555",
    },
    Row {
        section: Section::Block,
        before: b"end 8",
        codes: b"555555555555555555555555",
    },
    Row {
        section: Section::Block,
        before: b"end pseudo-Boolean",
        codes: b"555555555555555555555555",
    },
    Row {
        section: Section::Block,
        before: b"end pseudo-Boolean proof",
        codes: b"555555555555555555555555",
    },
    Row {
        section: Section::Goal,
        before: b"end",
        codes: b"555500855550555555505555",
    },
    Row {
        section: Section::Goal,
        before: b"end 8",
        codes: b"555555555550555555505555",
    },
    Row {
        section: Section::Goal,
        before: b"end ;",
        codes: b"555555555555555555505555",
    },
    Row {
        section: Section::Goal,
        before: b"end -1 ;",
        codes: b"555555555555555555505555",
    },
    Row {
        section: Section::Goal,
        before: b"end pseudo-Boolean proof",
        codes: b"555555555555555555555555",
    },
];

#[test]
fn wrong_words_in_subproofs(rt: HostRuntime) -> Result<(), ProofFault> {
    for row in &ROWS {
        assert_eq!(&rt; row.codes.len(), WORDS.len());
        assert_eq!(&rt;
            first_difference(rt.alloc(), row)?,
            None,
            "{:?}",
            row.before
        );
    }
    Ok(())
}
