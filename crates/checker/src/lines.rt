//! Lines that both programs print: what is wrong with a text and where, and the values of an assignment.
//!
//! A planner's script reads the solver's `v` line and the checker's with the same eyes, so they are written by the same
//! code.

ghost use Rattle.std.specs.Prelude.{◌≡◌, ◌<◌, [], IfOk, OnOk, length, slice_index_or};
ghost use Rattle.checker.specs.Printed.{with_assignment, with_fault, with_value, with_values};

use itoa::Buffer;
use linear::{Assignment, Names, Var};
use std::alloc::{AllocError, Global};

/// A line of what is wrong, and where: `WHAT line L code C Name`.
pub fn fault_text(
    alloc: Global,
    what: &[u8],
    line: u64,
    number: u8,
    name: &str,
) -> Result<Vec<u8>, AllocError>
    ensures { IfOk result (λ text. text.items ≡ with_fault what.now line number name.now) }
{
    let mut out = Vec::from_slice(alloc, what)?;
    let mut buffer = Buffer::new();
    out.extend_from_slice(b" line ")?;
    out.extend_from_slice(buffer.format(line).as_bytes())?;
    out.extend_from_slice(b" code ")?;
    out.extend_from_slice(buffer.format(number).as_bytes())?;
    out.extend_from_slice(b" ")?;
    out.extend_from_slice(name.as_bytes())?;
    out.extend_from_slice(b"\n")?;
    Ok(out)
}

/// The `v` line: `v`, then for each variable in the order of the table a space and its name, with `-` before it where
/// the variable is false.
pub fn write_value_line(
    out: &mut Vec<u8>,
    names: &Names,
    values: &Assignment,
) -> Result<(), AllocError>
    requires { length names.now ≡ length values.now }
    ensures { OnOk result (out.new.items ≡ with_assignment out.old.items names.now values.now) }
{
    out.extend_from_slice(b"v")?;
    write_values(out, names, values)?;
    out.extend_from_slice(b"\n")
}

/// The variables' names, each by its value.
fn write_values(out: &mut Vec<u8>, names: &Names, values: &Assignment) -> Result<(), AllocError>
    requires { length names.now ≡ length values.now }
    ensures { OnOk result (out.new.items ≡ with_values out.old.items names.now values.now) }
{
    // That the numbers of a table's names fit into 32 bits is known by its type; this makes it known here.
    names.reveal();
    for (number, value) in values.as_slice().iter().enumerate() {
        write_value(out, names, Var(number as u32), *value)?;
    }
    Ok(())
}

/// A variable's name, with `-` before it where the variable is false.
fn write_value(out: &mut Vec<u8>, names: &Names, var: Var, value: bool) -> Result<(), AllocError>
    requires { var.0 < length names.now }
    ensures { OnOk result (out.new.items ≡ with_value out.old.items (slice_index_or names.now (var.0) []) value) }
{
    let sign = if value {
        b" ".as_slice()
    } else {
        b" -".as_slice()
    };
    out.extend_from_slice(sign)?;
    match names.get(var) {
        Some(name) => out.extend_from_slice(name),
        None => Ok(()),
    }
}
