//! Texts with their tokens, and what words say.

use pb_text::{Kind, Lookahead, NumFault, Symbol, Tokens, as_literal, end_line, integer};

const TEXT: &[u8] = b"* a comment ;\n \t* and one more\nmin:+1 x1;\r\n-3 ~x1>=1 -> <";

/// The tokens of the text: the kind of each, the line on which it stands, and where it begins.
const TOKENS: [(Kind, u64, usize); 11] = [
    (Kind::Literal, 3, 31),
    (Kind::Symbol(Symbol::Colon), 3, 34),
    (Kind::Integer, 3, 35),
    (Kind::Literal, 3, 38),
    (Kind::Symbol(Symbol::Semicolon), 3, 40),
    (Kind::Integer, 4, 43),
    (Kind::Literal, 4, 46),
    (Kind::Symbol(Symbol::AtLeast), 4, 49),
    (Kind::Integer, 4, 51),
    (Kind::Symbol(Symbol::Arrow), 4, 53),
    (Kind::Stray, 4, 56),
];

#[test]
fn a_text_has_these_tokens(rt: HostRuntime) {
    let mut tokens = Tokens::new(TEXT);
    for (kind, line, start) in TOKENS {
        let token = tokens.next().expect(&rt, "a token");
        assert!(&rt; token.kind == kind, "the kind at {start}");
        assert_eq!(&rt; token.line, line);
        assert_eq!(&rt; token.start, start);
    }
    assert!(&rt; tokens.next().is_none());
    assert!(&rt; tokens.next().is_none());
    assert_eq!(&rt; end_line(b"1\n\n2"), 3);
}

#[test]
fn they_are_seen_ahead(rt: HostRuntime) {
    let mut ahead = Lookahead::new(TEXT);
    for (kind, line, start) in TOKENS {
        assert!(&rt; ahead.kind() == Some(kind), "the kind ahead at {start}");
        assert_eq!(&rt; ahead.line(TEXT), line);
        assert!(&rt; ahead.take().is_some());
    }
    assert!(&rt; ahead.next().is_none());
    assert!(&rt; ahead.take().is_none());
    assert_eq!(&rt; ahead.line(TEXT), 4);
}

#[test]
fn two_tokens_are_in_sight(rt: HostRuntime) {
    let mut ahead = Lookahead::new(b"min: ;");
    assert!(&rt; ahead.kind_after() == Some(Kind::Symbol(Symbol::Colon)));
    ahead.advance();
    assert!(&rt; ahead.kind() == Some(Kind::Symbol(Symbol::Colon)));
    assert!(&rt; ahead.after().is_some());
    ahead.advance();
    assert!(&rt; ahead.after().is_none());
    assert!(&rt; ahead.kind_after().is_none());
}

#[test]
fn literals_say_this(rt: HostRuntime) {
    let mut literals = Tokens::new(b"~x12 y_ x");
    let wanted: [(bool, &'static [u8]); 2] = [(true, b"x12"), (false, b"y_")];
    for (negated, name) in wanted {
        let literal = as_literal(literals.next().expect(&rt, "a token")).expect(&rt, "a literal");
        assert!(&rt; literal.negated == negated);
        assert!(&rt; literal.name == name);
    }
    assert!(&rt; as_literal(literals.next().expect(&rt, "a token")).is_none());
}

#[test]
fn integers_say_this(rt: HostRuntime) {
    let mut numbers = Tokens::new(
        b"-0 +007 -1329227995784915872903807060280344576 1329227995784915872903807060280344577 + 000000000000000000000000000000000000000000000000000000000000000042",
    );
    let wanted = [
        Ok(0),
        Ok(7),
        Ok(-1329227995784915872903807060280344576),
        Err(NumFault::NumberTooLarge),
        Err(NumFault::NotNumber),
        Ok(42),
    ];
    for number in wanted {
        assert!(&rt; integer(numbers.next().expect(&rt, "a token")) == number);
    }
}

#[test]
fn expected_numbers_are_passed(rt: HostRuntime) {
    let mut tokens = Tokens::new(b"7 -12 +0 8x 9");
    for wanted in [Some(7), Some(-12), Some(0), None] {
        assert!(&rt; tokens.take_number() == wanted);
    }
    // What was not passed is still there.
    tokens.pass();
    assert!(&rt; tokens.take_number() == Some(9));
}

#[test]
fn expected_literals_are_passed(rt: HostRuntime) {
    let mut tokens = Tokens::new(b"~x12 y_ 3");
    let wanted: [(bool, &'static [u8]); 2] = [(true, b"x12"), (false, b"y_")];
    for (negated, name) in wanted {
        let read = tokens.take_literal().expect(&rt, "a literal");
        assert!(&rt; read.literal.negated == negated);
        assert!(&rt; read.literal.name == name);
    }
    assert!(&rt; tokens.take_literal().is_none());
}

#[test]
fn an_expected_byte_is_passed(rt: HostRuntime) {
    let mut tokens = Tokens::new(b" +\td dd;");
    assert!(&rt; !tokens.takes_byte(b'*'));
    assert!(&rt; tokens.takes_byte(b'+'));
    assert!(&rt; tokens.takes_byte(b'd'));
    assert!(&rt; !tokens.takes_byte(b'd'));
}
