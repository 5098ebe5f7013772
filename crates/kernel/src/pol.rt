//! `pol`: cutting planes in postfix (Cook, Coullard and Turán's rules on the normal form; the VeriPB proof format). The
//! items are run from left to right over a stack; what a whole line adds is copied only where it is one cited
//! constraint. The kernel lends its accumulator to the stack for the time of a step. Who has derived a constraint already hands it over,
//! and nothing is run a second time.

ghost use Rattle.std.specs.Prelude.{◌≡◌, [], IfOk, IfErr, OnOk, OnErr, Some};
ghost use Rattle.proof_rules.specs.Expression.{IsPostfixOf};
ghost use Rattle.proof_rules.specs.Running.{AppliesItem};
ghost use Rattle.proof_rules.specs.Fault.{OrMemory, IsItemFault, IsIdFault, IsWritingFault, IsPolFault};
ghost use Rattle.proof_rules.specs.Legal.{Adds, LegalPol};
ghost use Rattle.proof_rules.specs.State.{HasRoom};
ghost use Rattle.database.specs.Database.{found};
ghost use Rattle.kernel.specs.Derived.{IsDerived};

use super::kernel::{Applied, Kernel};
use database::Database;
use linear::Integer;
use normal_form::Normal;
use pol_stack::{Accumulator, Operand, Stack};
use proof_rules::StepFault;
use proof_steps::Item;
use propagate::Propagator;
use std::alloc::Global;
use std::mem::replace;

impl<'a, P: Propagator> Kernel<'a, P> {
    /// Adds the value of the expression that the items write.
    pub(crate) fn pol(&mut self, items: &[Item]) -> Result<Applied, StepFault>
        ensures problem { self.new.problem ≡ self.old.problem }
        ensures ok { OnOk result (LegalPol self.old.state items.now self.new.state) }
        ensures id { IfOk result (λ applied. applied.id ≡ Some self.old.state.next) }
        ensures fault { IfErr result (λ f. OrMemory f (IsPolFault self.old.state items.now f)) }
        ensures err { OnErr result (self.new ≡ self.old) }
    {
        let value = evaluate(self.allocator, &self.database, &mut self.sum, items)?;
        self.add_derived(value)
    }

    /// Adds a constraint that is known to be the value of an expression over the live ones, as an analysis that wrote the expression
    /// knows it: what the `pol` step of its items does, but for running them. `TooManyIds` comes where no id is left, and every refusal
    /// leaves the kernel as before.
    pub fn add_derived(&mut self, value: Normal) -> Result<Applied, StepFault>
        requires derived { IsDerived self.old.state value }
        ensures problem { self.new.problem ≡ self.old.problem }
        ensures ok { OnOk result (Adds value self.old.state self.new.state) }
        ensures id { IfOk result (λ applied. applied.id ≡ Some self.old.state.next) }
        ensures fault { IfErr result (λ f. OrMemory f ((f ≡ StepFault.TooManyIds) × (HasRoom self.old.state → ⊥))) }
        ensures err { OnErr result (self.new ≡ self.old) }
    {
        if !self.database.has_room() {
            return Err(StepFault::TooManyIds);
        }
        self.add(value)
    }
}

/// The value of the one expression that the items write. The items are judged from left to right; for one item a dead
/// id comes first, then too few constraints on the stack, then a factor below 1, then a result that is too large; at
/// the end not exactly one constraint is left.
fn evaluate<P: Propagator>(
    alloc: Global,
    database: &Database<P>,
    sum: &mut Accumulator,
    items: &[Item],
) -> Result<Normal, StepFault>
    ensures value { IfOk result (IsPostfixOf (found database.now) items.now) }
    ensures fault { IfErr result (λ f. OrMemory f (IsWritingFault (found database.now) items.now f)) }
{
    let mut stack = Stack::new(alloc, replace(sum, Accumulator::new(alloc)));
    let value = run(alloc, database, &mut stack, items);
    *sum = stack.into_accumulator();
    value
}

/// Runs the items over an empty stack.
fn run<'a, P: Propagator>(
    alloc: Global,
    database: &'a Database<P>,
    stack: &mut Stack<'a>,
    items: &[Item],
) -> Result<Normal, StepFault>
    requires { stack.old ≡ [] }
    ensures value { IfOk result (IsPostfixOf (found database.now) items.now) }
    ensures fault { IfErr result (λ f. OrMemory f (IsWritingFault (found database.now) items.now f)) }
{
    for item in items {
        apply_item(alloc, database, stack, *item)?;
    }
    stack.only(alloc)
}

/// What one item does to the stack.
fn apply_item<'a, P: Propagator>(
    alloc: Global,
    database: &'a Database<P>,
    stack: &mut Stack<'a>,
    item: Item,
) -> Result<(), StepFault>
    ensures ok { OnOk result (AppliesItem (found database.now) item stack.old stack.new) }
    ensures fault { IfErr result (λ f. OrMemory f (IsItemFault (found database.now) item stack.old f)) }
{
    match item {
        Item::Id(id) => cite(database, stack, id),
        Item::Axiom(literal) => Ok(stack.push_axiom(alloc, literal)?),
        Item::Add => stack.add_top_two(alloc),
        Item::Multiply(factor) => stack.multiply_top(alloc, factor),
        Item::Divide(divisor) => stack.divide_top(alloc, divisor),
        Item::Saturate => stack.saturate_top(alloc),
        Item::Weaken(var) => stack.weaken_top(alloc, var),
    }
}

fn cite<'a, P: Propagator>(
    database: &'a Database<P>,
    stack: &mut Stack<'a>,
    id: Integer,
) -> Result<(), StepFault>
    ensures ok { OnOk result (AppliesItem (found database.now) (Item.Id id) stack.old stack.new) }
    ensures fault { IfErr result (λ f. OrMemory f (IsIdFault (found database.now) id f)) }
{
    let Some(constraint) = database.find(id) else {
        return Err(StepFault::DeadId);
    };
    stack.push(Operand::Live(constraint))?;
    Ok(())
}
