//! The stack of a `pol` line: its operands, and what each item but an id does to them.
//!
//! The theory (`proof_rules`) says of lists of constraints what an item does. Here stands how that is done fast: a
//! cited constraint is lent and not copied, what the line made is changed where it stands, and a sum of many constraints is added up in
//! an accumulator. Nothing of that shows in a contract: to the layer above, a stack is the list of its constraints. What an id means is
//! left to that layer, since it takes the live constraints to say so; it puts on the stack what the id stands for.
#![tactic(auto)]

mod operand;
mod pile;
mod stack;

pub use accumulate::Accumulator;
pub use operand::Operand;
pub use stack::Stack;
