//! The definitions computed on small texts, each the contract of a function that does nothing. The expected values are
//! the formats' (the OPB format of Roussel and Manquinho, the VeriPB proof format), written by hand, so that a definition
//! that goes wrong is refused here and not only where the code still follows it.

ghost use Rattle.std.specs.Prelude.{◌≡◌, [], ◌∷◌, ◌++◌, pos, neg_ℤ, codes};
ghost use Rattle.pb_text.specs.Lexeme.{lexemes};
ghost use Rattle.pb_text.specs.Number.{integer_value};
ghost use Rattle.pb_text.specs.TokensOf.{kinds_of, lines_of, starts_of, texts_of};
ghost use Rattle.pb_text.specs.declared.kind.Kind.TheVariants.{Symbol, Stray, Integer, Literal, Misspelt, Other};
ghost use Rattle.pb_text.specs.declared.kind.Symbol.TheVariants.{Semicolon, Colon, AtLeast, AtMost, Equals, Arrow};

/// Symbols part words, and what white space parts is no symbol; `->` is none where `=` follows.
pub fn texts_are_parted()
    ensures arrow { texts_of (lexemes (codes "x1->x2")) ≡ codes "x1" ∷ codes "->" ∷ codes "x2" ∷ [] }
    ensures no_arrow { texts_of (lexemes (codes "x1->=x2")) ≡ codes "x1-" ∷ codes ">=" ∷ codes "x2" ∷ [] }
    ensures parted { texts_of (lexemes (codes "- > < =")) ≡ codes "-" ∷ codes ">" ∷ codes "<" ∷ codes "=" ∷ [] }
    ensures symbols { texts_of (lexemes (codes ">==<<=->->=")) ≡
        codes ">=" ∷ codes "=" ∷ codes "<" ∷ codes "<=" ∷ codes "->" ∷ codes "-" ∷ codes ">=" ∷ [] }
    ensures dense { texts_of (lexemes (codes "min:+1 x1;")) ≡ codes "min" ∷ codes ":" ∷ codes "+1" ∷ codes "x1" ∷ codes ";" ∷ [] }
    ensures white { texts_of (lexemes (codes " " ++ 9 ∷ 13 ∷ 10 ∷ [])) ≡ [] }
{}

/// Tokens start where they stand; a line ends at each LF, that of a comment line too, and at no CR.
pub fn tokens_are_placed()
    ensures starts { starts_of (lexemes (codes "min:+1 x1>=1;")) ≡ 0 ∷ 3 ∷ 4 ∷ 7 ∷ 9 ∷ 11 ∷ 12 ∷ [] }
    ensures lines { lines_of (lexemes (codes "a" ++ 10 ∷ codes "b" ++ 13 ∷ codes "c" ++ 10 ∷ 10 ∷ codes "d")) ≡ 1 ∷ 2 ∷ 2 ∷ 4 ∷ [] }
    ensures comment { lines_of (lexemes (codes "* a >= b" ++ 10 ∷ codes " " ++ 9 ∷ codes "* c" ++ 10 ∷ codes "x1 * y1")) ≡ 3 ∷ 3 ∷ 3 ∷ [] }
{}

/// A comment begins behind spaces and tabs alone, and ends at its line's LF.
pub fn comments_are_lines()
    ensures no_comment { texts_of (lexemes (13 ∷ codes "* x1")) ≡ codes "*" ∷ codes "x1" ∷ [] }
    ensures to_the_end { texts_of (lexemes (codes "* a" ++ 13 ∷ codes "b" ++ 13 ∷ 10 ∷ codes "c")) ≡ codes "c" ∷ [] }
    ensures inside { texts_of (lexemes (codes "x1 * y1")) ≡ codes "x1" ∷ codes "*" ∷ codes "y1" ∷ [] }
{}

/// What a word is by its bytes.
pub fn words_have_kinds()
    ensures symbols { kinds_of (lexemes (codes "; : >= <= = -> < >")) ≡
        Symbol Semicolon ∷ Symbol Colon ∷ Symbol AtLeast ∷ Symbol AtMost ∷ Symbol Equals ∷ Symbol Arrow ∷ Stray ∷ Stray ∷ [] }
    ensures integers { kinds_of (lexemes (codes "0 +1 -1 -0 007 + - +-1 1x 1.5")) ≡
        Integer ∷ Integer ∷ Integer ∷ Integer ∷ Integer ∷ Other ∷ Other ∷ Other ∷ Other ∷ Other ∷ [] }
    ensures names { kinds_of (lexemes (codes "x1 ~x1 _a __ x-[]{}^_ x ~ ~x x1+2 ~~x1 * [1]")) ≡
        Literal ∷ Literal ∷ Literal ∷ Literal ∷ Literal ∷ Misspelt ∷ Misspelt ∷ Misspelt ∷ Misspelt ∷ Misspelt ∷ Other ∷ Other ∷ [] }
{}

/// The numbers that words write.
pub fn words_have_numbers()
    ensures plain { integer_value (codes "+0123") ≡ pos 123 }
    ensures negative { integer_value (codes "-1329227995784915872903807060280344577") ≡ neg_ℤ (pos 1329227995784915872903807060280344577) }
    ensures zero { integer_value (codes "-0") ≡ pos 0 }
{}
