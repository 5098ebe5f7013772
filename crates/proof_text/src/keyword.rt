//! The words with which steps and conclusions begin. They are compared with the whole word, so `polx` is no `pol`, and the one-letter
//! forms `p` and `u` of the format's first version stand for their rules.

ghost use Rattle.std.specs.Prelude.{◌≡◌};
ghost use Rattle.proof_text.specs.Rules as rules;
ghost use Rattle.proof_text.specs.Conclusions as conclusions;

/// A rule of a step.
#[derive(Clone, Copy, Debug, PartialEq, Eq)]
pub enum Rule {
    Pol,
    Rup,
    Red,
    Sol,
    Soli,
    Del,
    Goal,
    End,
}

/// What a conclusion is about.
#[derive(Clone, Copy, Debug, PartialEq, Eq)]
pub enum ConclusionKind {
    Nothing,
    Sat,
    Unsat,
    Bounds,
}

/// The rule of a word in a subproof.
fn subproof_rule_of(word: &[u8]) -> Option<Rule>
    ensures { result ≡ rules.subproof_rule_of word.now }
{
    if word == b"proofgoal".as_slice() {
        Some(Rule::Goal)
    } else if word == b"end".as_slice() {
        Some(Rule::End)
    } else {
        None
    }
}

/// The rule of a word.
#[tactic(auto, unfolding(crate::specs::Rules::rule_of))]
pub(crate) fn rule_of(word: &[u8]) -> Option<Rule>
    ensures { result ≡ rules.rule_of word.now }
{
    match word {
        b"pol" | b"p" => Some(Rule::Pol),
        b"rup" | b"u" => Some(Rule::Rup),
        b"red" => Some(Rule::Red),
        b"sol" => Some(Rule::Sol),
        b"soli" => Some(Rule::Soli),
        b"del" => Some(Rule::Del),
        _ => subproof_rule_of(word),
    }
}

/// The kind of conclusion that a word begins.
#[tactic(auto, unfolding(crate::specs::Conclusions::conclusion_kind_of))]
pub(crate) fn conclusion_kind_of(word: &[u8]) -> Option<ConclusionKind>
    ensures { result ≡ conclusions.conclusion_kind_of word.now }
{
    if word == b"NONE".as_slice() {
        Some(ConclusionKind::Nothing)
    } else if word == b"SAT".as_slice() {
        Some(ConclusionKind::Sat)
    } else if word == b"UNSAT".as_slice() {
        Some(ConclusionKind::Unsat)
    } else if word == b"BOUNDS".as_slice() {
        Some(ConclusionKind::Bounds)
    } else {
        None
    }
}
