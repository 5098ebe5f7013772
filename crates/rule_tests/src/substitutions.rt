//! Constraints, assignments and objectives under substitutions, and covering.

ghost use Rattle.std.specs.Prelude.{◌≡◌, IfOk, IfSome};
ghost use Rattle.substitution.specs.Cases.{swap, to_plain};

use super::support::{NOT, Written, X, at_least, is, not_x};
use linear::{Assignment, Lit, Var};
use normal_form::Normal;
use opb_read::read;
use std::alloc::{AllocError, Global};
use substitution::{Image, Substitution, apply, compose, covers, objective_goal};

fn to(var: u32) -> Image
    ensures { result ≡ to_plain var }
{
    Image::Lit(Lit {
        var: Var(var),
        negated: false,
    })
}

fn images(alloc: Global, given: &[(Var, Image)]) -> Result<Option<Substitution>, AllocError>
    ensures { IfOk result (λ made. IfSome made (λ s. s ≡ given.now)) }
{
    Substitution::new(alloc, Vec::from_slice(alloc, given)?)
}

/// x1 -> x2 x2 -> x1
fn swapped(alloc: Global) -> Result<Option<Substitution>, AllocError>
    ensures { IfOk result (λ made. IfSome made (λ s. s ≡ swap)) }
{
    images(alloc, &[(Var(1), to(2)), (Var(2), to(1))])
}

const FIRST: Image = Image::Lit(Lit {
    var: Var(1),
    negated: false,
});

const NOT_FIRST: Image = Image::Lit(Lit {
    var: Var(1),
    negated: true,
});

const SECOND: Image = Image::Lit(Lit {
    var: Var(2),
    negated: false,
});

/// Images and their opposites.
const OPPOSITES: [(Image, Image); 4] = [
    (FIRST, NOT_FIRST),
    (NOT_FIRST, FIRST),
    (Image::Zero, Image::One),
    (Image::One, Image::Zero),
];

#[test]
fn images_of_a_swap(rt: HostRuntime) {
    let alloc = rt.alloc();
    let swapped = swapped(alloc)
        .expect(&rt, "memory")
        .expect(&rt, "a substitution");
    assert_eq!(&rt; swapped.as_slice().len(), 2);
    assert!(&rt; swapped.image_of(Var(1)) == to(2));
    assert!(&rt; swapped.image_of(Var(3)) == to(3));
    assert!(&rt; swapped.image_of_literal(not_x(2)) == Image::Lit(not_x(1)));
}

#[test]
fn no_variable_twice(rt: HostRuntime) {
    let twice = [
        (Var(1), Image::Zero),
        (Var(2), Image::One),
        (Var(1), Image::Zero),
    ];
    assert!(&rt; images(rt.alloc(), &twice).expect(&rt, "memory").is_none());
}

/// Each of so many variables with the next one as its image, and the last one with the first.
fn rotation(alloc: Global, count: u32) -> Result<Vec<(Var, Image)>, AllocError> {
    let mut images = Vec::new(alloc);
    for number in 0..count {
        images.push((Var(number), to((number + 1) % count)))?;
    }
    Ok(images)
}

/// Whether a rotation gives each of its variables the image that it should, and another one itself.
fn rotates(alloc: Global, count: u32) -> Result<bool, AllocError> {
    let Some(rotation) = Substitution::new(alloc, rotation(alloc, count)?)? else {
        return Ok(false);
    };
    for number in 0..count {
        if rotation.image_of(Var(number)) != to((number + 1) % count) {
            return Ok(false);
        }
    }
    Ok(rotation.image_of(Var(count)) == to(count))
}

/// So many variables with one of them twice.
fn with_first_again(alloc: Global, count: u32) -> Result<Option<Substitution>, AllocError> {
    let mut images = rotation(alloc, count)?;
    images.push((Var(0), Image::Zero))?;
    Substitution::new(alloc, images)
}

/// Numbers of variables with images: some are passed over, and more are looked up in a table.
const COUNTS: [u32; 5] = [1, 7, 8, 9, 40];

#[test]
fn few_images_and_many(rt: HostRuntime) {
    for count in &COUNTS {
        assert!(&rt;
            rotates(rt.alloc(), *count).expect(&rt, "memory"),
            "{count}"
        );
    }
}

#[test]
fn no_variable_twice_among_few_and_many(rt: HostRuntime) {
    for count in &COUNTS {
        let made = with_first_again(rt.alloc(), *count).expect(&rt, "memory");
        assert!(&rt; made.is_none(), "{count}");
    }
}

#[test]
fn opposites_of_images(rt: HostRuntime) {
    for (image, opposite) in &OPPOSITES {
        assert!(&rt; image.opposite() == *opposite);
    }
}

/// 1 x1 1 ~x2 >= 1 under a substitution.
#[derive(Clone, Copy)]
struct ImageRow {
    images: &'static [(Var, Image)],
    under: &'static [Written],
    degree: u128,
}

const UNDER: [ImageRow; 6] = [
    // all images at once: one after the other would give `>= 0`
    ImageRow {
        images: &[(Var(1), SECOND), (Var(2), FIRST)],
        under: &[(1, NOT, 1), (1, X, 2)],
        degree: 1,
    },
    ImageRow {
        images: &[(Var(1), Image::Zero)],
        under: &[(1, NOT, 2)],
        degree: 1,
    },
    ImageRow {
        images: &[(Var(2), Image::Zero)],
        under: &[(1, X, 1)],
        degree: 0,
    },
    // images that meet
    ImageRow {
        images: &[(Var(1), SECOND)],
        under: &[],
        degree: 0,
    },
    ImageRow {
        images: &[(Var(2), NOT_FIRST)],
        under: &[(2, X, 1)],
        degree: 1,
    },
    // a variable that does not occur
    ImageRow {
        images: &[(Var(5), Image::One)],
        under: &[(1, X, 1), (1, NOT, 2)],
        degree: 1,
    },
];

#[test]
fn constraints_under_substitutions(rt: HostRuntime) {
    let alloc = rt.alloc();
    let constraint = at_least(alloc, &[(1, X, 1), (1, NOT, 2)], 1).expect(&rt, "a constraint");
    for row in &UNDER {
        let substitution = images(alloc, row.images)
            .expect(&rt, "memory")
            .expect(&rt, "a substitution");
        let under = apply(alloc, &constraint, &substitution).expect(&rt, "memory");
        assert!(&rt; is(&under, row.under, row.degree));
    }
}

#[test]
fn assignments_after_a_swap(rt: HostRuntime) {
    let swapped = swapped(rt.alloc())
        .expect(&rt, "memory")
        .expect(&rt, "a substitution");
    let values = Vec::from_slice(rt.alloc(), &[false, true, false]).expect(&rt, "memory");
    let assignment = Assignment::from_vec(values);
    let after = compose(rt.alloc(), &assignment, &swapped).expect(&rt, "memory");
    assert!(&rt; after.as_slice() == [false, false, true].as_slice());
}

/// Two constraints, and whether the first covers the second.
#[derive(Clone, Copy)]
struct CoverRow {
    first: &'static [Written],
    first_degree: i128,
    second: &'static [Written],
    second_degree: i128,
    covers: bool,
}

const COVERS: [CoverRow; 6] = [
    // 1 x1 1 x2 1 x3 >= 2 covers itself, and 1 x1 1 x2 >= 1
    CoverRow {
        first: &[(1, X, 1), (1, X, 2), (1, X, 3)],
        first_degree: 2,
        second: &[(1, X, 1), (1, X, 2), (1, X, 3)],
        second_degree: 2,
        covers: true,
    },
    CoverRow {
        first: &[(1, X, 1), (1, X, 2), (1, X, 3)],
        first_degree: 2,
        second: &[(1, X, 1), (1, X, 2)],
        second_degree: 1,
        covers: true,
    },
    // and is not covered by it, nor is twice as much
    CoverRow {
        first: &[(1, X, 1), (1, X, 2)],
        first_degree: 1,
        second: &[(1, X, 1), (1, X, 2), (1, X, 3)],
        second_degree: 2,
        covers: false,
    },
    CoverRow {
        first: &[(1, X, 1), (1, X, 2)],
        first_degree: 1,
        second: &[(2, X, 1), (2, X, 2)],
        second_degree: 2,
        covers: false,
    },
    // the opposite literal does not count
    CoverRow {
        first: &[(1, X, 1)],
        first_degree: 1,
        second: &[(1, NOT, 1)],
        second_degree: 1,
        covers: false,
    },
    // a contradiction covers everything of no higher degree
    CoverRow {
        first: &[],
        first_degree: 1,
        second: &[(5, X, 3)],
        second_degree: 1,
        covers: true,
    },
];

#[test]
fn covering(rt: HostRuntime) {
    let alloc = rt.alloc();
    for row in &COVERS {
        let first = at_least(alloc, row.first, row.first_degree).expect(&rt, "a constraint");
        let second = at_least(alloc, row.second, row.second_degree).expect(&rt, "a constraint");
        assert_eq!(&rt; covers(&first, &second), row.covers);
    }
}

/// An objective, the image of its first variable, and what must be shown.
#[derive(Clone, Copy)]
struct GoalRow {
    problem: &'static [u8],
    image: Image,
    goal: &'static [Written],
    degree: u128,
}

/// What a problem's objective asks for under an image of its first variable.
fn goal_of(alloc: Global, text: &[u8], image: Image) -> Option<Normal> {
    let problem = read(alloc, text).ok()?;
    let substitution = images(alloc, &[(Var(0), image)]).ok()??;
    objective_goal(alloc, &problem, &substitution).ok()?
}

const GOALS: [GoalRow; 4] = [
    // 1 x1 less 1 is at least 0
    GoalRow {
        problem: b"min: 1 x1 ;",
        image: Image::One,
        goal: &[(1, X, 0)],
        degree: 1,
    },
    GoalRow {
        problem: b"min: 1 x1 ;",
        image: Image::Zero,
        goal: &[(1, X, 0)],
        degree: 0,
    },
    // 3 x1 2 x2 less 5 x2
    GoalRow {
        problem: b"min: 3 x1 2 x2 ;",
        image: FIRST,
        goal: &[(3, X, 0), (3, NOT, 1)],
        degree: 3,
    },
    GoalRow {
        problem: b"min: ;",
        image: Image::One,
        goal: &[],
        degree: 0,
    },
];

#[test]
fn objectives(rt: HostRuntime) {
    let alloc = rt.alloc();
    for row in &GOALS {
        let goal = goal_of(alloc, row.problem, row.image).expect(&rt, "a goal");
        assert!(&rt; is(&goal, row.goal, row.degree));
    }
}

#[test]
fn no_goal_without_an_objective(rt: HostRuntime) {
    let alloc = rt.alloc();
    let without = read(alloc, b"1 x1 >= 0 ;".as_slice()).expect(&rt, "a problem");
    let swapped = swapped(alloc)
        .expect(&rt, "memory")
        .expect(&rt, "a substitution");
    let goal = objective_goal(alloc, &without, &swapped).expect(&rt, "memory");
    assert!(&rt; goal.is_none());
}
