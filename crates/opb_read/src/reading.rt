//! Reading a whole problem file.

ghost use Rattle.std.specs.Prelude.{◌≡◌, IfOk, IfErr};
ghost use Rattle.linear.specs.Limits.{IsWithin};
ghost use Rattle.opb_read.specs.Spells.{Spells};
ghost use Rattle.opb_read.specs.Faults.{Denies};
ghost use Rattle.opb_read.specs.FaultLine.{IsFaultAt};

use super::fault::{OpbCode, OpbFault};
use super::reader::Reader;
use linear::Problem;
use pb_text::Lookahead;
use std::alloc::Global;

/// Reads a problem file in the linear OPB format of Roussel and Manquinho: at most one objective `min: <sum> ;` and
/// then constraints `<sum> >= <integer> ;` or `<sum> = <integer> ;`.
///
/// A sum is a list, which may be empty, of integers and literals in turn. The sizes are limited: `LARGEST_INTEGER`,
/// `MOST_TERMS` of a statement, `MOST_VARIABLES` and `MOST_CONSTRAINTS` of `linear`. Variables are numbered from 0 in order
/// of first occurrence.
///
/// Reading goes from left to right, and the first token that cannot stand in its place gives the fault, with its line;
/// the end of the text counts as a token. Codes 1 to 6 come only where the text spells no problem, 7 and 8 only where it
/// spells none within the limits. All before the fault's token is within the limits and can go on to a problem; with that
/// token it can go on to none, and its code of 1 to 6 is the one that the table of faults gives at the spot to which the
/// tokens before it lead (`code_at`). With the token of a 7 or 8 it can go on to a problem, but to none within the limits:
/// a 7 is an integer that is too large, an 8 makes the terms of a statement, the variables or the constraints too many.
///
/// A refused growth is `OutOfMemory`, with the line of the token where it came: the literal whose name or term found no room,
/// or the `;` of the statement that found none. That a growth was refused no clause can say.
pub fn read(alloc: Global, text: &[u8]) -> Result<Problem, OpbFault>
    ensures spells { IfOk result (λ p. Spells text.now p) }
    ensures within { IfOk result (λ p. IsWithin p) }
    ensures denies { IfErr result (λ f. Denies f.code text.now) }
    ensures line { IfErr result (λ f. IsFaultAt text.now f.code f.line) }
{
    let mut reader = Reader::new(alloc, text);
    match reader.read(alloc) {
        Ok(()) => {
            let names = reader.variables.into_names();
            Ok(Problem::new(names, reader.objective, reader.constraints))
        }
        Err(code) => {
            let line = Lookahead::over(&reader.left).line(text);
            Err(OpbFault { line, code })
        }
    }
}
