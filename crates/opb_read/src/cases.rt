//! The definitions computed on small texts, each the contract of a function that does nothing. The expected problems and
//! codes are those of the OPB format (Roussel and Manquinho), written by hand.

ghost use Rattle.std.specs.Prelude.{◌≡◌, pos, neg_ℤ, Some, None, [], ◌∷◌, ◌++◌, codes};
ghost use Rattle.pb_text.specs.Lexeme.{lexemes};
ghost use Rattle.opb_read.specs.Cases.{at_least, equal, negated, plain, problem, spelled};
ghost use Rattle.opb_read.specs.FaultCodes.{code_at};

use super::fault::OpbCode;
use super::spot::Spot;

/// Texts that spell problems: terms as they are written, a variable however often; names numbered in order of first occurrence,
/// the objective's first; an equality as one; comments, white space and signs count for nothing by themselves.
#[tactic(auto, unfolding(crate::specs::Spells::problem_of, pb_text::specs::Number::integer_size, pb_text::specs::Number::integer_value, pb_text::specs::Lexeme::lexemes, pb_text::specs::Lexeme::lexemes_from, pb_text::specs::Lexeme::kind_of, pb_text::specs::Lexeme::kind_of_word, pb_text::specs::Word::is_integer, pb_text::specs::Word::is_literal, pb_text::specs::Word::is_misspelt, pb_text::specs::Name::is_name))]
pub fn texts_spell_problems()
    ensures empty { spelled [] ≡ problem [] None [] }
    ensures comment_alone { spelled (codes "* #variable= 1 #constraint= 1" ++ 13 ∷ 10 ∷ 9 ∷ 32 ∷ []) ≡
        problem [] None [] }
    ensures dense { spelled (codes "min:+1 x1;+1 x1>=1;") ≡
        problem (codes "x1" ∷ []) (Some (plain (pos 1) 0 ∷ [])) (at_least (plain (pos 1) 0 ∷ []) (pos 1) ∷ []) }
    ensures equality { spelled (codes "2 x1 2 x2 = 1 ;") ≡
        problem (codes "x1" ∷ codes "x2" ∷ []) None (equal (plain (pos 2) 0 ∷ plain (pos 2) 1 ∷ []) (pos 1) ∷ []) }
    ensures repeated { spelled (codes "-2 x1 3 x2 -2 x1 >= -1 ;") ≡
        problem (codes "x1" ∷ codes "x2" ∷ []) None (at_least (plain (neg_ℤ (pos 2)) 0 ∷ plain (pos 3) 1 ∷ plain (neg_ℤ (pos 2)) 0 ∷ []) (neg_ℤ (pos 1)) ∷ []) }
    ensures opposite { spelled (codes "1 x1 1 ~x1 >= 1 ;") ≡
        problem (codes "x1" ∷ []) None (at_least (plain (pos 1) 0 ∷ negated (pos 1) 0 ∷ []) (pos 1) ∷ []) }
    ensures numbered { spelled (codes "min: 1 zz ; 1 bb 1 zz >= 0 ; 1 aa -1 bb = 0 ;") ≡
        problem (codes "zz" ∷ codes "bb" ∷ codes "aa" ∷ []) (Some (plain (pos 1) 0 ∷ [])) (at_least (plain (pos 1) 1 ∷ plain (pos 1) 0 ∷ []) (pos 0) ∷ equal (plain (pos 1) 2 ∷ plain (neg_ℤ (pos 1)) 1 ∷ []) (pos 0) ∷ []) }
    ensures zero_counts { spelled (codes "0 x1 >= 0 ;") ≡
        problem (codes "x1" ∷ []) None (at_least (plain (pos 0) 0 ∷ []) (pos 0) ∷ []) }
    ensures empty_sums { spelled (codes "min: ; >= 1 ;") ≡ problem [] (Some []) (at_least [] (pos 1) ∷ []) }
    ensures words_as_names { spelled (codes "1 min 1 max >= 1 ;") ≡
        problem (codes "min" ∷ codes "max" ∷ []) None (at_least (plain (pos 1) 0 ∷ plain (pos 1) 1 ∷ []) (pos 1) ∷ []) }
    ensures two_lines { spelled (codes "1 x1" ++ 10 ∷ codes "* x9 ;" ++ 10 ∷ codes ">= 1 ;") ≡
        problem (codes "x1" ∷ []) None (at_least (plain (pos 1) 0 ∷ []) (pos 1) ∷ []) }
    ensures case_counts { spelled (codes "1 xa 1 xA >= 1 ;") ≡
        problem (codes "xa" ∷ codes "xA" ∷ []) None (at_least (plain (pos 1) 0 ∷ plain (pos 1) 1 ∷ []) (pos 1) ∷ []) }
{}

/// Texts that spell nothing: a name of one byte, a missing coefficient, relation or `;`, a late or second objective, a constant or
/// a maximum, a sign or `~` apart from its word, `<=`, an empty statement.
#[tactic(auto, unfolding(crate::specs::Spells::problem_of, pb_text::specs::Number::integer_size, pb_text::specs::Number::integer_value, pb_text::specs::Lexeme::lexemes, pb_text::specs::Lexeme::lexemes_from, pb_text::specs::Lexeme::kind_of, pb_text::specs::Lexeme::kind_of_word, pb_text::specs::Word::is_integer, pb_text::specs::Word::is_literal, pb_text::specs::Word::is_misspelt, pb_text::specs::Name::is_name))]
pub fn texts_spell_nothing()
    ensures one_byte_name { spelled (codes "1 x >= 1 ;") ≡ None }
    ensures no_coefficient { spelled (codes "x1 >= 1 ;") ≡ None }
    ensures no_coefficient_later { spelled (codes "1 x1 x2 >= 1 ;") ≡ None }
    ensures no_relation { spelled (codes "1 x1 ;") ≡ None }
    ensures two_in_one { spelled (codes "1 x1 >= 1 1 x2 >= 1 ;") ≡ None }
    ensures not_closed { spelled (codes "1 x1 >= 1") ≡ None }
    ensures objective_late { spelled (codes "1 x1 >= 1 ; min: 1 x1 ;") ≡ None }
    ensures two_objectives { spelled (codes "min: 1 x1 ; min: 1 x1 ;") ≡ None }
    ensures constant { spelled (codes "min: 1 x1 3 ;") ≡ None }
    ensures sign_alone { spelled (codes "+ 3 x1 >= 1 ;") ≡ None }
    ensures tilde_alone { spelled (codes "1 ~ x1 >= 1 ;") ≡ None }
    ensures maximum { spelled (codes "max: 1 x1 ;") ≡ None }
    ensures at_most { spelled (codes "1 x1 <= 1 ;") ≡ None }
    ensures no_statement { spelled (codes "1 x1 >= 1 ; ;") ≡ None }
{}

/// Codes at spots: a token is told by where it stands, and not by itself.
#[tactic(auto, unfolding(pb_text::specs::Lexeme::lexemes, pb_text::specs::Lexeme::lexemes_from, pb_text::specs::Lexeme::kind_of, pb_text::specs::Lexeme::kind_of_word, pb_text::specs::Word::is_integer, pb_text::specs::Word::is_literal, pb_text::specs::Word::is_misspelt, pb_text::specs::Name::is_name))]
pub fn codes_by_spot()
    ensures bare_coefficient { code_at Spot.Coefficient (lexemes (codes "<= 1 ;")) ≡ OpbCode.BadToken }
    ensures behind_a_literal { code_at Spot.Literal (lexemes (codes "<= 1 ;")) ≡ OpbCode.UnsupportedForm }
    ensures literal_as_right_side { code_at Spot.Relation (lexemes (codes "x1 ;")) ≡ OpbCode.BadToken }
    ensures product { code_at Spot.ObjectiveLiteral (lexemes (codes "x1 ;")) ≡ OpbCode.UnsupportedForm }
    ensures constant { code_at Spot.ObjectiveCoefficient (lexemes (codes "; ")) ≡ OpbCode.UnsupportedForm }
    ensures late { code_at Spot.Start (lexemes (codes "min: ;")) ≡ OpbCode.ObjectiveLate }
    ensures no_mark { code_at Spot.Start (lexemes (codes "min ;")) ≡ OpbCode.BadToken }
    ensures weight { code_at Spot.Start (lexemes (codes "[1] 1 x1 >= 1 ;")) ≡ OpbCode.UnsupportedForm }
    ensures misspelt { code_at Spot.Start (lexemes (codes "x ;")) ≡ OpbCode.BadName }
    ensures the_end { code_at Spot.Relation (lexemes []) ≡ OpbCode.NoSemicolon }
{}
