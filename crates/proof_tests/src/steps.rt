//! The lines of steps: what is read, and the faults of lines that only differ in a space, a sign or a symbol. A table of every
//! place by every kind of word stands in `wrong_words`.

use super::asking::{Case, fault_of};
use linear::{Lit, Names, Relation, Term, Var};
use proof_steps::{GoalName, Item, Step};
use proof_text::{ProofFault, ProofNames, read_step};
use std::alloc::Global;

const LINES: [Case; 152] = [
    // `pol`
    Case {
        line: b"pol 1 0 d",
        fault: 0,
    },
    Case {
        line: b"pol 1 -1 +",
        fault: 0,
    },
    Case {
        line: b"p 1 2 + ;",
        fault: 0,
    },
    Case {
        line: b"pol",
        fault: 0,
    },
    Case {
        line: b"pol ;",
        fault: 0,
    },
    Case {
        line: b"pol 1 d",
        fault: 0,
    },
    Case {
        line: b"pol s d",
        fault: 5,
    },
    Case {
        line: b"pol *",
        fault: 5,
    },
    Case {
        line: b"pol ~x1 w",
        fault: 5,
    },
    Case {
        line: b"pol w",
        fault: 5,
    },
    Case {
        line: b"pol x1 2 w",
        fault: 5,
    },
    Case {
        line: b"pol 1 x",
        fault: 5,
    },
    Case {
        line: b"pol 1 ; 2",
        fault: 5,
    },
    Case {
        line: b"pol ;;",
        fault: 5,
    },
    Case {
        line: b"pol + 3 *",
        fault: 0,
    },
    Case {
        line: b"pol 1 - 1",
        fault: 5,
    },
    Case {
        line: b"pol 1 1329227995784915872903807060280344576 *",
        fault: 0,
    },
    Case {
        line: b"pol 1 1329227995784915872903807060280344577 *",
        fault: 8,
    },
    Case {
        line: b"pol -1329227995784915872903807060280344577",
        fault: 8,
    },
    Case {
        line: b"pol 1 x 99999999999999999999999999999999999999999999",
        fault: 5,
    },
    // rules that are left out or unknown, and words that belong elsewhere
    Case {
        line: b"dom 1 x1 >= 1 ;",
        fault: 4,
    },
    Case {
        line: b"pre_order simple",
        fault: 4,
    },
    Case {
        line: b"load_order simple",
        fault: 4,
    },
    Case {
        line: b"obju new",
        fault: 4,
    },
    Case {
        line: b"solx x1",
        fault: 4,
    },
    Case {
        line: b"core id 1",
        fault: 4,
    },
    Case {
        line: b"e 1 x1 >= 1 ;",
        fault: 4,
    },
    Case {
        line: b"ea 1 x1 >= 1 ;",
        fault: 4,
    },
    Case {
        line: b"i 1 x1 >= 1 ;",
        fault: 4,
    },
    Case {
        line: b"ia 1 x1 >= 1 ;",
        fault: 4,
    },
    Case {
        line: b"setlvl 1",
        fault: 4,
    },
    Case {
        line: b"wiplvl 1",
        fault: 4,
    },
    Case {
        line: b"delc 1",
        fault: 4,
    },
    Case {
        line: b"deld 1",
        fault: 4,
    },
    Case {
        line: b"begin",
        fault: 4,
    },
    Case {
        line: b"del range 1 2",
        fault: 4,
    },
    Case {
        line: b"del spec 1 x1 >= 1 ;",
        fault: 4,
    },
    Case {
        line: b"foo 1",
        fault: 3,
    },
    Case {
        line: b"id 1",
        fault: 3,
    },
    Case {
        line: b"NONE",
        fault: 3,
    },
    Case {
        line: b"s",
        fault: 3,
    },
    Case {
        line: b"+",
        fault: 3,
    },
    Case {
        line: b"0",
        fault: 3,
    },
    Case {
        line: b"polx",
        fault: 3,
    },
    Case {
        line: b"POL 1",
        fault: 3,
    },
    Case {
        line: b";",
        fault: 5,
    },
    Case {
        line: b">= 1",
        fault: 5,
    },
    Case {
        line: b"<",
        fault: 5,
    },
    Case {
        line: b"f 1",
        fault: 5,
    },
    Case {
        line: b"pseudo-Boolean proof version 2.0",
        fault: 5,
    },
    Case {
        line: b"output NONE",
        fault: 5,
    },
    Case {
        line: b"conclusion NONE",
        fault: 5,
    },
    Case {
        line: b"end pseudo-Boolean proof",
        fault: 5,
    },
    Case {
        line: b"del",
        fault: 5,
    },
    Case {
        line: b"del 1",
        fault: 5,
    },
    // `rup`
    Case {
        line: b"rup 1 x1 1 x2 >= 1 ; 7 ~ 99",
        fault: 0,
    },
    Case {
        line: b"u >= 1;",
        fault: 0,
    },
    Case {
        line: b"rup +1 x1 -1 ~x1 >= -1 ; 99999999999999999999999999999999999999999999 ;",
        fault: 0,
    },
    Case {
        line: b"rup 1 x1 = 1 ;",
        fault: 4,
    },
    Case {
        line: b"rup 1 x1 <= 1 ;",
        fault: 4,
    },
    Case {
        line: b"rup = 1 ;",
        fault: 4,
    },
    Case {
        line: b"rup 1 = 1 ;",
        fault: 5,
    },
    Case {
        line: b"rup 1 x1 >= 1",
        fault: 5,
    },
    Case {
        line: b"rup 1 x1 >= ;",
        fault: 5,
    },
    Case {
        line: b"rup 1 x1 >= x1 ;",
        fault: 5,
    },
    Case {
        line: b"rup 1 x1 >= 1 1 x2 ;",
        fault: 5,
    },
    Case {
        line: b"rup 1 x1 x2 >= 1 ;",
        fault: 5,
    },
    Case {
        line: b"rup x1 >= 1 ;",
        fault: 5,
    },
    Case {
        line: b"rup 1 >= 1 ;",
        fault: 5,
    },
    Case {
        line: b"rup 1 x1 ;",
        fault: 5,
    },
    Case {
        line: b"rup ;",
        fault: 5,
    },
    Case {
        line: b"rup 1 2 x1 >= 1 ;",
        fault: 5,
    },
    Case {
        line: b"rup - 1 x1 >= 1 ;",
        fault: 5,
    },
    Case {
        line: b"rup 1329227995784915872903807060280344577 x1 >= 1 ;",
        fault: 8,
    },
    Case {
        line: b"rup 1 x1 >= 1329227995784915872903807060280344577 ;",
        fault: 8,
    },
    Case {
        line: b"rup 1 1329227995784915872903807060280344577 >= 1 ;",
        fault: 5,
    },
    // `red`
    Case {
        line: b"red 1 x1 >= 1 ; x1 1",
        fault: 0,
    },
    Case {
        line: b"red 1 x1 >= 1 ;",
        fault: 0,
    },
    Case {
        line: b"red 1 x1 >= 1 ; ;",
        fault: 0,
    },
    Case {
        line: b"red 1 x1 1 ~x2 >= 1 ; x1 -> x2 x2->x1;",
        fault: 0,
    },
    Case {
        line: b"red 1 x1 >= 1 ; x1 0 x2 ~x1 x3 -> 1",
        fault: 0,
    },
    Case {
        line: b"red 1 x1 >= 1 ; x1 -> 1 ; begin",
        fault: 0,
    },
    Case {
        line: b"red 1 x1 >= 1 ; ; begin",
        fault: 0,
    },
    Case {
        line: b"red 1 x1 >= 1 ; x1 -> 1 x2 0 x3->~x1; begin",
        fault: 0,
    },
    Case {
        line: b"red 1 x1 >= 1 ; x1 -> 1 x1 -> 0 ; begin",
        fault: 5,
    },
    Case {
        line: b"red 1 x1 >= 1 ; x1 1 x2 0 x1 1 ; begin",
        fault: 5,
    },
    Case {
        line: b"red 1 x1 >= 1 ; x1 1 x1 ; begin",
        fault: 5,
    },
    Case {
        line: b"red 1 x1 >= 1 ; x1 -> 1 ; ; begin",
        fault: 5,
    },
    Case {
        line: b"red 1 x1 = 1 ; x1 -> 1",
        fault: 4,
    },
    Case {
        line: b"red 1 x1 >= 1 ; begin",
        fault: 5,
    },
    Case {
        line: b"red 1 x1 >= 1 ; x1 -> 1 x1 -> 0",
        fault: 5,
    },
    Case {
        line: b"red 1 x1 >= 1 ; x1 -> 1 x2 -> 0 x1 -> x3",
        fault: 5,
    },
    Case {
        line: b"red 1 x1 >= 1",
        fault: 5,
    },
    Case {
        line: b"red 1 x1 >= 1 x1 -> 1",
        fault: 5,
    },
    Case {
        line: b"red 1 x1 >= 1 ; x1 ->",
        fault: 5,
    },
    Case {
        line: b"red 1 x1 >= 1 ; x1",
        fault: 5,
    },
    Case {
        line: b"red 1 x1 >= 1 ; ~x1 -> 1",
        fault: 5,
    },
    Case {
        line: b"red 1 x1 >= 1 ; x1 -> 00",
        fault: 5,
    },
    Case {
        line: b"red 1 x1 >= 1 ; x1 -> +1",
        fault: 5,
    },
    Case {
        line: b"red 1 x1 >= 1 ; x1 -> -0",
        fault: 5,
    },
    Case {
        line: b"red 1 x1 >= 1 ; x1 -> 2",
        fault: 5,
    },
    Case {
        line: b"red 1 x1 >= 1 ; x1 -> -> 1",
        fault: 5,
    },
    Case {
        line: b"red 1 x1 >= 1 ; -> 1",
        fault: 5,
    },
    Case {
        line: b"red 1 x1 >= 1 ; x1 -> 1 ; x2 -> 1",
        fault: 5,
    },
    Case {
        line: b"red 1 x1 >= 1 ; x1 -> 1 ; ;",
        fault: 5,
    },
    Case {
        line: b"red 1 x1 >= 1 ; 1 -> x1",
        fault: 5,
    },
    // `sol`, `soli` and `del`
    Case {
        line: b"sol x1 ~x1",
        fault: 0,
    },
    Case {
        line: b"sol",
        fault: 0,
    },
    Case {
        line: b"soli x1 x2 ;",
        fault: 0,
    },
    Case {
        line: b"soli\tx1\r",
        fault: 0,
    },
    Case {
        line: b"del id 1",
        fault: 0,
    },
    Case {
        line: b"del id",
        fault: 0,
    },
    Case {
        line: b"del id -1 1329227995784915872903807060280344576 ;",
        fault: 0,
    },
    Case {
        line: b"sol 1",
        fault: 5,
    },
    Case {
        line: b"sol x1 ; x2",
        fault: 5,
    },
    Case {
        line: b"soli ~ x1",
        fault: 5,
    },
    Case {
        line: b"soli x",
        fault: 5,
    },
    Case {
        line: b"del id x1",
        fault: 5,
    },
    Case {
        line: b"del id 1 ; 2",
        fault: 5,
    },
    Case {
        line: b"del id - 1",
        fault: 5,
    },
    Case {
        line: b"del id 1329227995784915872903807060280344577",
        fault: 8,
    },
    // subproofs: a step is read wherever it may stand
    Case {
        line: b"red >= 1 ;; begin;",
        fault: 0,
    },
    Case {
        line: b"red 1 x1 >= 1 ; x1 -> 1 ; begin x2",
        fault: 5,
    },
    Case {
        line: b"red 1 x1 >= 1 ; x1 -> 1 ; begin ; ;",
        fault: 5,
    },
    Case {
        line: b"red 1 x1 >= 1 ; x1 -> 1 ; Begin",
        fault: 5,
    },
    Case {
        line: b"red 1 x1 >= 1 ; x1 -> 1 begin",
        fault: 5,
    },
    Case {
        line: b"proofgoal 1",
        fault: 0,
    },
    Case {
        line: b"proofgoal +007;",
        fault: 0,
    },
    Case {
        line: b"proofgoal -1329227995784915872903807060280344576",
        fault: 0,
    },
    Case {
        line: b"proofgoal 1329227995784915872903807060280344577",
        fault: 8,
    },
    Case {
        line: b"proofgoal 1329227995784915872903807060280344577 x",
        fault: 8,
    },
    Case {
        line: b"proofgoal #1",
        fault: 0,
    },
    Case {
        line: b"proofgoal #2 ;",
        fault: 0,
    },
    Case {
        line: b"proofgoal #0",
        fault: 5,
    },
    Case {
        line: b"proofgoal #3",
        fault: 5,
    },
    Case {
        line: b"proofgoal #12",
        fault: 5,
    },
    Case {
        line: b"proofgoal # 1",
        fault: 5,
    },
    Case {
        line: b"proofgoal ~#1",
        fault: 5,
    },
    Case {
        line: b"proofgoal",
        fault: 5,
    },
    Case {
        line: b"proofgoal ;",
        fault: 5,
    },
    Case {
        line: b"proofgoal #1 #2",
        fault: 5,
    },
    Case {
        line: b"proofgoal x1",
        fault: 5,
    },
    Case {
        line: b"proofgoals 1",
        fault: 3,
    },
    Case {
        line: b"end",
        fault: 0,
    },
    Case {
        line: b"end ;",
        fault: 0,
    },
    Case {
        line: b"end 8",
        fault: 0,
    },
    Case {
        line: b"end -1 ;",
        fault: 0,
    },
    Case {
        line: b"end 8 9",
        fault: 5,
    },
    Case {
        line: b"end x1",
        fault: 5,
    },
    Case {
        line: b"end #1",
        fault: 5,
    },
    Case {
        line: b"end ; 8",
        fault: 5,
    },
    Case {
        line: b"end -1329227995784915872903807060280344577",
        fault: 8,
    },
];

#[test]
fn faults_of_steps(rt: HostRuntime) {
    for case in &LINES {
        assert_eq!(&rt; fault_of(rt.alloc(), case.line), case.fault, "{case:?}");
    }
}

const ITEMS: [Item; 10] = [
    Item::Id(1),
    Item::Id(-2),
    Item::Add,
    Item::Axiom(Lit {
        var: Var(0),
        negated: false,
    }),
    Item::Multiply(3),
    Item::Divide(7),
    Item::Saturate,
    Item::Weaken(Var(1)),
    Item::Axiom(Lit {
        var: Var(0),
        negated: true,
    }),
    Item::Axiom(Lit {
        var: Var(2),
        negated: false,
    }),
];

/// Whether a line is a `pol` step of these items, behind which there are so many names.
fn is_pol(alloc: Global, line: &[u8], wanted: &[Item], count: usize) -> bool {
    let file = Names::new(alloc);
    let mut names = ProofNames::new(alloc, &file);
    match read_step(alloc, line, &mut names) {
        Ok(Step::Pol(items)) => items.as_slice() == wanted && names.added().len() == count,
        _ => false,
    }
}

#[test]
fn pol_items(rt: HostRuntime) {
    let line = b"pol 1 -2 + x1 +3 * 007 d s x2 w ~x1 w1";
    assert!(&rt; is_pol(rt.alloc(), line, &ITEMS, 3));
}

/// Lines of goals, and the goal that each names.
const GOALS: [(&[u8], GoalName); 6] = [
    (b"proofgoal 3", GoalName::Live(3)),
    (b"proofgoal -1;", GoalName::Live(-1)),
    (b"proofgoal 0", GoalName::Live(0)),
    (
        b"proofgoal 1329227995784915872903807060280344576",
        GoalName::Live(1329227995784915872903807060280344576),
    ),
    (b"proofgoal #1", GoalName::Itself),
    (b"proofgoal #2", GoalName::Objective),
];

/// Whether a line opens this goal.
fn is_goal(alloc: Global, line: &[u8], wanted: GoalName) -> bool {
    let file = Names::new(alloc);
    let mut names = ProofNames::new(alloc, &file);
    match read_step(alloc, line, &mut names) {
        Ok(Step::Goal(goal)) => goal == wanted,
        _ => false,
    }
}

#[test]
fn goals(rt: HostRuntime) {
    for (line, goal) in &GOALS {
        assert!(&rt; is_goal(rt.alloc(), line, *goal), "{line:?}");
    }
}

/// Whether a line opens a block, by a constraint of so many terms and a substitution of so many names.
fn is_block(alloc: Global, line: &[u8], terms: usize, images: usize) -> bool {
    let file = Names::new(alloc);
    let mut names = ProofNames::new(alloc, &file);
    match read_step(alloc, line, &mut names) {
        Ok(Step::RedBegin(constraint, witness)) => {
            constraint.terms.len() == terms && witness.as_slice().len() == images
        }
        _ => false,
    }
}

#[test]
fn blocks(rt: HostRuntime) {
    let alloc = rt.alloc();
    assert!(&rt; is_block(alloc, b"red >= 1 ; ; begin", 0, 0));
    assert!(&rt;
        is_block(
            alloc,
            b"red 1 x1 2 x2 >= 1 ; x1 -> x2 x3 0 x2 1 ; begin ;",
            2,
            3
        )
    );
    assert!(&rt; !is_block(alloc, b"red 1 x1 2 x2 >= 1 ; x1 -> x2 x3 0 x2 1 ;", 2, 3));
}

/// The names of a `sol` line behind those of a file.
fn names_of<'a>(alloc: Global, file: &'a Names, line: &[u8]) -> Result<ProofNames<'a>, ProofFault> {
    let mut names = ProofNames::new(alloc, file);
    read_step(alloc, line, &mut names)?;
    Ok(names)
}

const TERMS: [Term; 3] = [
    Term {
        coef: 3,
        var: Var(1),
        negated: false,
    },
    Term {
        coef: -2,
        var: Var(0),
        negated: true,
    },
    Term {
        coef: 0,
        var: Var(1),
        negated: false,
    },
];

/// Whether a step is `rup` of these terms, `>=` and 4.
fn is_rup(step: &Step, wanted: &[Term]) -> bool {
    match step {
        Step::Rup(constraint) => {
            constraint.terms.as_slice() == wanted
                && constraint.relation == Relation::AtLeast
                && constraint.right == 4
        }
        _ => false,
    }
}

/// Whether a line is a `rup` step of these terms behind a line that brought `x2`, and brings one name.
fn is_rup_behind(alloc: Global, line: &[u8], wanted: &[Term]) -> Result<bool, ProofFault> {
    let file = Names::new(alloc);
    let mut names = names_of(alloc, &file, b"sol x2")?;
    let step = read_step(alloc, line, &mut names)?;
    Ok(is_rup(&step, wanted) && names.added().len() == 2)
}

#[test]
fn rup_terms(rt: HostRuntime) -> Result<(), ProofFault> {
    let line = b"rup 3 x1 -2 ~x2 0 x1 >= +4 ; x9 y9";
    assert!(&rt; is_rup_behind(rt.alloc(), line, &TERMS)?);
    Ok(())
}

/// Lines, whether each is read behind one that brought `x1`, and how many names there are then.
const NAMES_BEHIND: [(&[u8], bool, usize); 5] = [
    (b"sol x1 x2 x3 4", false, 1),
    (b"red 1 x7 >= 1 ; x8 -> x9 x8 -> 0", false, 1),
    (b"rup 1 y1 1 y2 = 1 ;", false, 1),
    (b"pol z1 z2 w q", false, 1),
    (b"sol x2 x1 x2", true, 2),
];

/// Whether a line is read behind one that brought `x1`, and how many names there are then.
fn names_behind(alloc: Global, line: &[u8]) -> Result<(bool, usize), ProofFault> {
    let file = Names::new(alloc);
    let mut names = names_of(alloc, &file, b"sol x1")?;
    let is_read = read_step(alloc, line, &mut names).is_ok();
    Ok((is_read, names.added().len()))
}

#[test]
fn refused_lines_add_no_names(rt: HostRuntime) -> Result<(), ProofFault> {
    for (line, is_read, count) in &NAMES_BEHIND {
        assert!(&rt;
            names_behind(rt.alloc(), line)? == (*is_read, *count),
            "{line:?}"
        );
    }
    Ok(())
}
