//! What a relaxation answers, beside whole numbers that are summed up exactly and the best of all assignments.

use super::made::{Numbers, normal, problem, terms_of, variable};
use super::plain::{PlainProblem, add_multiple, at, greatest, product, sizes};
use linear::{Integer, Lit};
use normal_form::CutFault;
use relaxation::{End, Limits, Relaxation, Row, Source, whole_multipliers};
use std::alloc::{AllocError, Global};
use std::process::Abort;

/// How many problems are made.
const PROBLEMS: u32 = 2_000;

/// Of 6,000 calls so many end in each way at least.
const ENOUGH: u32 = 400;

/// So few reach their limits, or are not borne out: fixed point is rough.
const FEW: u32 = 20;

/// What no call here comes near, but where it goes round.
const AMPLE: Limits = Limits {
    steps: 2_000,
    work: 1 << 40,
};

/// What came of all calls.
#[derive(Clone, Copy, Debug, PartialEq, Eq)]
struct Tally {
    infeasible: u32,
    cut_off: u32,
    values: u32,
    forcing: u32,
    limit: u32,
    /// Ends that the exact sum does not bear out.
    failed: u32,
    /// Points that cost more than their bound says, beyond what is allowed for rounding.
    apart: u32,
}

impl Tally {
    /// Counts an end that the exact sum does not bear out.
    fn fail_if(&mut self, has_failed: bool) {
        if has_failed {
            self.failed = self.failed.saturating_add(1);
        }
    }
}

/// A call that ended, beside what is fixed: the best of all assignments, and what it asked for at most.
#[derive(Drop)]
struct Call<'a> {
    problem: &'a PlainProblem,
    relaxation: &'a Relaxation,
    fixed: &'a [Option<bool>],
    optimum: Option<i128>,
    upper: Option<Integer>,
}

/// The exact sum of some rows times whole numbers: `sum of coefficients >= right`, and how often the costs are in it.
#[derive(Debug, Drop)]
struct ExactSum {
    coefficients: Vec<i128>,
    right: i128,
    of_costs: i128,
}

/// Sums up by the multipliers of the last call, the greatest of them `2^bits`. The improving constraint asks for at most `upper`.
fn sum_up(
    alloc: Global,
    problem: &PlainProblem,
    relaxation: &Relaxation,
    bits: u32,
    upper: i128,
) -> Result<ExactSum, AllocError> {
    let mut coefficients = vec![in alloc; 0; problem.count]?;
    let mut right: i128 = 0;
    let mut of_costs: i128 = 0;
    for multiplier in &whole_multipliers(alloc, relaxation.multipliers(), bits.min(52))? {
        let factor = i128::from(multiplier.factor);
        match multiplier.source {
            Source::Row(Row(place)) => {
                if let Some(row) = problem.rows.get(place) {
                    add_multiple(
                        coefficients.as_mut_slice(),
                        factor,
                        row.coefficients.as_slice(),
                    );
                    right = right.saturating_add(factor.saturating_mul(row.right));
                }
            }
            Source::Improving => {
                of_costs = factor;
                let costs = problem.costs.as_slice();
                add_multiple(coefficients.as_mut_slice(), factor.saturating_neg(), costs);
                right = right.saturating_sub(factor.saturating_mul(upper));
            }
        }
    }
    Ok(ExactSum {
        coefficients,
        right,
        of_costs,
    })
}

impl ExactSum {
    /// What the sum has more than the right side where it is greatest.
    fn slack(&self, fixed: &[Option<bool>]) -> i128 {
        greatest(self.coefficients.as_slice(), fixed).saturating_sub(self.right)
    }

    /// Whether it is false, or false as soon as some variable that is not fixed takes one of its values.
    fn says_something(&self, fixed: &[Option<bool>]) -> bool {
        let slack = self.slack(fixed);
        slack < 0
            || self.coefficients.iter().zip(fixed.iter()).any(|(coefficient, value)| value.is_none()
                && coefficient.saturating_abs() > slack)
    }
}

/// The relaxation of a problem.
fn relaxation_of(alloc: Global, problem: &PlainProblem) -> Result<Relaxation, CutFault> {
    let mut relaxation = Relaxation::new(alloc, problem.count)?;
    let terms = terms_of(alloc, problem.costs.as_slice())?;
    relaxation.set_cost(terms.as_slice())?;
    for row in &problem.rows {
        let constraint = normal(alloc, row)?;
        relaxation.add_row(&constraint)?;
    }
    Ok(relaxation)
}

/// Fixes some variables, and frees the others.
fn fix(
    alloc: Global,
    relaxation: &mut Relaxation,
    numbers: &mut Numbers,
    count: usize,
) -> Result<Vec<Option<bool>>, AllocError> {
    let mut fixed = Vec::with_capacity(alloc, count)?;
    for place in 0..count {
        let var = variable(place);
        let value = match numbers.below(14) {
            0 => Some(true),
            1 => Some(false),
            _ => None,
        };
        match value {
            Some(value) => relaxation.fix(Lit {
                var,
                negated: !value,
            }),
            None => relaxation.free(var),
        }
        fixed.push(value)?;
    }
    Ok(fixed)
}

/// The values at the point of the last call, in units of `2^-32`.
fn point_of(alloc: Global, relaxation: &Relaxation, count: usize) -> Result<Vec<i128>, AllocError> {
    let mut point = Vec::with_capacity(alloc, count)?;
    for place in 0..count {
        point.push(i128::from(relaxation.value(variable(place)).units()))?;
    }
    Ok(point)
}

/// Whether a point is about between 0 and 1, has the values that are fixed, and satisfies the rows, about.
fn is_feasible(problem: &PlainProblem, point: &[i128], fixed: &[Option<bool>]) -> bool {
    let one: i128 = 1 << 32;
    let within = point.iter().zip(fixed.iter()).all(|(x, value)| {
        let (low, high) = match value {
            Some(true) => (one, one),
            Some(false) => (0, 0),
            None => (0, one),
        };
        *x >= low.saturating_sub(1 << 21) && *x <= high.saturating_add(1 << 21)
    });
    within
        && problem.rows.iter().all(|row| {
            let all = sizes(row.coefficients.as_slice());
            let there = product(row.coefficients.as_slice(), point);
            let lacks = row.right.saturating_mul(one).saturating_sub(there);
            lacks <= all.saturating_add(1).saturating_mul(1 << 22)
        })
}

impl Call<'_> {
    /// The exact sum by its multipliers, the greatest of them `2^bits`. The improving constraint asks for at most `upper`.
    fn sum(&self, alloc: Global, bits: u32, upper: i128) -> Result<ExactSum, AllocError> {
        sum_up(alloc, self.problem, self.relaxation, bits, upper)
    }

    /// Whether what the multipliers prove of every point is about what this one costs, and no more than the best of all assignments.
    fn is_about_its_bound(&self, rt: &impl Abort, point: &[i128], sum: &ExactSum) -> bool {
        let bound = sum.slack(self.fixed).saturating_neg();
        let times = sum.of_costs;
        assert!(rt; times > 0);
        assert!(rt;
            self.optimum
                .is_none_or(|best| bound <= best.saturating_mul(times))
        );
        let costs = self.problem.costs.as_slice();
        let there = product(costs, point).saturating_mul(times);
        let apart = bound.saturating_mul(1 << 32).saturating_sub(there);
        let allowed = times.saturating_mul(sizes(costs)).saturating_mul(1 << 23);
        apart.saturating_abs() <= allowed
    }

    /// Looks at the values of a point: they satisfy all, and what they cost is about the bound.
    fn look_at_point(
        &self,
        rt: &impl Abort,
        alloc: Global,
        point: &[i128],
    ) -> Result<bool, AllocError> {
        assert!(rt; is_feasible(self.problem, point, self.fixed));
        if sizes(self.problem.costs.as_slice()) == 0 {
            return Ok(true);
        }
        assert!(rt;
            self.optimum
                .is_none_or(|best| self.relaxation.bound() <= best)
        );
        let sum = self.sum(alloc, 32, 0)?;
        Ok(self.is_about_its_bound(rt, point, &sum))
    }

    /// Looks at a call that ended with values.
    fn look_at_values(&self, rt: &impl Abort, alloc: Global) -> Result<bool, AllocError> {
        let point = point_of(alloc, self.relaxation, self.problem.count)?;
        self.look_at_point(rt, alloc, point.as_slice())
    }

    /// What the sum of its multipliers has more than its right side at most, where the improving constraint asks for at most `upper`.
    fn slack(&self, alloc: Global, bits: u32, upper: i128) -> Result<i128, AllocError> {
        Ok(self.sum(alloc, bits, upper)?.slack(self.fixed))
    }

    /// Whether the sum of its multipliers is false.
    fn is_false(&self, alloc: Global, upper: i128) -> Result<bool, AllocError> {
        let rough = self.slack(alloc, 20, upper)?;
        let fine = self.slack(alloc, 32, upper)?;
        Ok(rough < 0 || fine < 0)
    }

    /// Whether a literal is forced that the exact sum does not bear out.
    fn forces_wrongly(&self, alloc: Global, upper: i128) -> Result<bool, AllocError> {
        let sum = self.sum(alloc, 32, upper)?;
        Ok(!sum.says_something(self.fixed))
    }

    /// Looks at how it ended.
    fn look_at(
        &self,
        rt: &impl Abort,
        alloc: Global,
        end: End,
        tally: &mut Tally,
    ) -> Result<(), AllocError> {
        let most = self.upper.unwrap_or(0);
        match end {
            End::Infeasible => {
                tally.infeasible = tally.infeasible.saturating_add(1);
                let is_false = self.is_false(alloc, 0)?;
                assert!(rt; !is_false || self.optimum.is_none());
                tally.fail_if(!is_false);
            }
            End::CutOff => {
                tally.cut_off = tally.cut_off.saturating_add(1);
                let is_false = self.is_false(alloc, most)?;
                assert!(rt; !is_false || self.optimum.is_none_or(|best| best > most));
                tally.fail_if(!is_false);
            }
            End::Values => {
                tally.values = tally.values.saturating_add(1);
                if !self.look_at_values(rt, alloc)? {
                    tally.apart = tally.apart.saturating_add(1);
                }
                if self.relaxation.forces_a_literal() {
                    tally.forcing = tally.forcing.saturating_add(1);
                    tally.fail_if(self.forces_wrongly(alloc, most)?);
                }
            }
            End::Limit => tally.limit = tally.limit.saturating_add(1),
        }
        Ok(())
    }
}

/// An upper bound near the optimum, or none.
fn upper_of(numbers: &mut Numbers, optimum: Option<i128>) -> Option<Integer> {
    match optimum {
        Some(best) if !numbers.once_in(3) => {
            let below = i128::from(numbers.below(4));
            Some(best.saturating_add(1).saturating_sub(below))
        }
        _ => None,
    }
}

/// Fixes some variables and asks a relaxation once, and looks at what it answers.
fn ask(
    rt: &impl Abort,
    alloc: Global,
    problem: &PlainProblem,
    relaxation: &mut Relaxation,
    numbers: &mut Numbers,
    tally: &mut Tally,
) -> Result<(), AllocError> {
    let fixed = fix(alloc, relaxation, numbers, problem.count)?;
    let fixed = fixed.as_slice();
    let optimum = problem.optimum(alloc, fixed)?;
    let upper = upper_of(numbers, optimum);
    let end = relaxation.solve(upper, AMPLE)?;
    let call = Call {
        problem,
        relaxation,
        fixed,
        optimum,
        upper,
    };
    call.look_at(rt, alloc, end, tally)
}

#[test]
fn answers_of_random_relaxations(rt: HostRuntime) {
    let alloc = rt.alloc();
    let mut numbers = Numbers::new(1);
    let mut tally = Tally {
        infeasible: 0,
        cut_off: 0,
        values: 0,
        forcing: 0,
        limit: 0,
        failed: 0,
        apart: 0,
    };
    for _ in 0..PROBLEMS {
        let problem = problem(alloc, &mut numbers).expect(&rt, "memory");
        let mut relaxation = relaxation_of(alloc, &problem).expect(&rt, "a relaxation");
        for _ in 0..3 {
            ask(
                &rt,
                alloc,
                &problem,
                &mut relaxation,
                &mut numbers,
                &mut tally,
            )
            .expect(&rt, "memory");
        }
    }
    assert!(&rt; tally.infeasible > ENOUGH && tally.cut_off > ENOUGH && tally.values > ENOUGH);
    assert!(&rt; tally.forcing > ENOUGH);
    assert!(&rt;
        tally.limit < FEW && tally.failed < FEW && tally.apart < FEW,
        "{tally:?}"
    );
}
