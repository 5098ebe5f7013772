//! What a printed answer says: the values of its `o` lines, and the solution of its `v` line.

use super::plain::PlainProblem;
use std::alloc::{AllocError, Global};

/// Takes down one word of a `v` line, x7 or -x7. False where it is none, or names a variable a second time.
fn take_word(values: &mut [Option<bool>], word: &str) -> bool {
    let (name, value) = match word.strip_prefix("-") {
        Some(name) => (name, false),
        None => (word, true),
    };
    let Some(number) = name.strip_prefix("x") else {
        return false;
    };
    let Ok(place) = number.parse::<usize>() else {
        return false;
    };
    if place >= values.len() || values[place].is_some() {
        return false;
    }
    values[place] = Some(value);
    true
}

/// Takes down the words of a `v` line. False where one is no word of it.
fn take_words(values: &mut [Option<bool>], words: &str) -> bool {
    for word in words.split_whitespace() {
        if !take_word(values, word) {
            return false;
        }
    }
    true
}

/// What the words of a `v` line are worth for a problem of so many variables; none where they are no solution of it, or do not name
/// just its variables, each once.
pub(crate) fn worth_of_words(
    alloc: Global,
    problem: &PlainProblem,
    words: &str,
    variables: usize,
) -> Result<Option<i64>, AllocError> {
    let mut given = vec![in alloc; None; variables]?;
    if !take_words(given.as_mut_slice(), words) {
        return Ok(None);
    }
    let mut values = Vec::new(alloc);
    for (place, value) in given.iter().enumerate() {
        if value.is_some() != problem.has(place) {
            return Ok(None);
        }
        values.push(matches!(value, Some(true)))?;
    }
    Ok(problem.worth(values.as_slice()))
}

/// Whether these are `o` lines alone, whose values fall to a least one.
pub(crate) fn fall_to(lines: &str, least: i64) -> bool {
    let mut last = None;
    for line in lines.lines() {
        let Some(number) = line.strip_prefix("o ") else {
            return false;
        };
        let Ok(value) = number.parse::<i64>() else {
            return false;
        };
        if matches!(last, Some(before) if before <= value) {
            return false;
        }
        last = Some(value);
    }
    last == Some(least)
}
