//! A solution that is handed out: a value for each variable of the file, by its name, and what was improved to on the way.

ghost use Rattle.std.specs.Prelude.{◌≡◌, length};

use linear::{Assignment, Names};
use std::marker::Model;

/// Values of the file's variables, in the order of their first occurrence, and the values of the objective on the way there,
/// each less than the one before; none where there is no objective. There are as many values as names.
#[derive(Drop)]
pub struct Solution {
    names: Names,
    values: Assignment,
    improved: Vec<i128>,
}

impl Model for Solution {
    ghost use Rattle.std.specs.Prelude.{◌≡◌, length};
    ghost use Rattle.pb_main.specs.Solution.{NamedValues};

    ghost Value = { NamedValues };

    ghost view = { λ s. record { names = s.names; values = s.values; improved = s.improved.items } };

    ghost invariant = { λ s. length s.names ≡ length s.values };
}

impl Solution {
    /// These values of these variables.
    pub(crate) fn new(names: Names, values: Assignment, improved: Vec<i128>) -> Self
        requires { length names ≡ length values }
        ensures { result ≡ record { names = names; values = values; improved = improved.items } }
    {
        Solution {
            names,
            values,
            improved,
        }
    }

    /// The names of the file's variables.
    pub fn names(&self) -> &Names
        ensures names { result.now ≡ self.now.names }
        ensures as_many { length self.now.names ≡ length self.now.values }
    {
        &self.names
    }

    /// Their values.
    pub fn values(&self) -> &Assignment
        ensures { result.now ≡ self.now.values }
    {
        &self.values
    }

    /// What the improving solutions were worth, each less than the one before.
    pub fn improved(&self) -> &[i128]
        ensures { result.now ≡ self.now.improved }
    {
        self.improved.as_slice()
    }
}
