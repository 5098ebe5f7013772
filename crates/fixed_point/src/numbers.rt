//! Vectors of numbers to which multiples of others are added.
//!
//! A number is rounded at each product (`Fixed`), or is a sum that keeps products whole and is rounded at its end (`Sum`).

use super::entry::Entry;
use super::fixed::Fixed;

/// A number to which products are added; its default is 0.
pub trait Number: Copy + Default {
    /// The number with a product added to it: a `Fixed` is rounded, and put to the nearest one where it is too large; a `Sum` is exact.
    fn plus_product(self, left: Fixed, right: Fixed) -> Self;
}

/// The number at a place, 0 where there is no such place.
pub fn number_at<N: Number>(numbers: &[N], place: usize) -> N {
    match numbers.get(place) {
        Some(number) => *number,
        None => N::default(),
    }
}

/// Puts a number at a place; nothing changes where there is no such place.
pub fn put_number<N: Number>(numbers: &mut [N], place: usize, number: N) {
    if place < numbers.len() {
        numbers[place] = number;
    }
}

/// Adds a product to the number at a place, if there is such a place.
#[inline(always)]
fn add_product<N: Number>(numbers: &mut [N], place: usize, left: Fixed, right: Fixed) {
    if place < numbers.len() {
        numbers[place] = numbers[place].plus_product(left, right);
    }
}

/// Adds a vector, times a factor, to the numbers at its places. Entries at places that are not there are left out.
pub fn add_multiple<N: Number>(numbers: &mut [N], factor: Fixed, entries: &[Entry]) {
    for entry in entries {
        add_product(numbers, entry.place, factor, entry.value);
    }
}
