//! Where a step may stand: outside blocks, in a block, or in a goal of one.
//!
//! A checker would have to refuse a step in a wrong place, and what is open is told by the lines before alone. So that is
//! a matter of the text: `sol` in a block, or `end` outside one, is no line of the grammar.

ghost use Rattle.std.specs.Prelude.{◌≡◌};
ghost use Rattle.proof_text.specs.Spells as spells;

use super::keyword::Rule;
use super::line::Section;

/// Whether a step of a rule may stand at a section, `numbered` being whether an integer stands behind the rule's own word: an id
/// stands behind the `end` of a goal alone.
pub(crate) fn may_stand(rule: Rule, section: Section, numbered: bool) -> bool
    ensures { result ≡ spells.may_stand rule section numbered }
{
    match rule {
        Rule::Pol | Rule::Rup => {
            matches!(section, Section::Step | Section::Block | Section::Goal)
        }
        Rule::Red | Rule::Sol | Rule::Soli | Rule::Del => matches!(section, Section::Step),
        Rule::Goal => matches!(section, Section::Block),
        Rule::End => match section {
            Section::Goal => true,
            Section::Block => !numbered,
            _ => false,
        },
    }
}
