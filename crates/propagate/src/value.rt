//! What the literals that are taken as true say of a variable.

ghost use Rattle.std.specs.Prelude.{◌≡◌, ◌↔◌, IsTrue};
ghost use Rattle.propagate.specs.Values.{makes_true, value_given};

use linear::Lit;

/// The value of a variable at a time.
#[derive(Clone, Copy, Debug, PartialEq, Eq)]
pub enum Value {
    True,
    False,
    /// Neither decided nor forced.
    Free,
}

impl Value {
    /// The value that makes a literal true.
    pub(crate) fn given_by(literal: Lit) -> Value
        ensures { result ≡ value_given literal }
    {
        if literal.negated {
            Value::False
        } else {
            Value::True
        }
    }

    /// Whether a literal is true where its variable has the value.
    pub(crate) fn makes_true(self, literal: Lit) -> bool
        ensures { result ≡ makes_true self literal.negated }
    {
        self == Value::given_by(literal)
    }

    /// Whether it is none.
    pub(crate) fn is_free(self) -> bool
        ensures { IsTrue result ↔ (self ≡ Value.Free) }
    {
        matches!(self, Value::Free)
    }
}
