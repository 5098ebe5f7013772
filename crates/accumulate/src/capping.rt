//! Capping the cells of an array of net coefficients, which is what saturation does to them.
//!
//! Only the cells of marked variables are looked at: of all that are in the sum, or of those alone that may be above the degree, since
//! they were changed after the others were capped. A variable that is marked twice is capped twice, which changes nothing
//! more.

ghost use Rattle.std.specs.Prelude.{◌≡◌, ◌<◌, ◌≤◌, ℕ, List, pos, unsigned_abs, length, slice_index_or, slice_set};
ghost use Rattle.normal_form.specs.Normal.{largest_sum};
ghost use Rattle.accumulate.specs.Nets.{AreCapped, IsMarked, IsMarkedAbove, capped, sizes};

use super::tidying::tidy;

/// A net coefficient of at most this size, on the same side of 0.
fn capped(net: i128, most: u128) -> i128
    requires { unsigned_abs net ≤ largest_sum }
    ensures { result ≡ capped most net }
{
    if net.unsigned_abs() <= most {
        net
    } else if net < 0 {
        -(most as i128)
    } else {
        most as i128
    }
}

/// Caps one cell; the sum of the sizes then.
fn cap_cell(nets: &mut Vec<i128>, sum: u128, place: usize, most: u128) -> u128
    requires place { place < length nets.old.items }
    requires sum { sum ≡ sizes nets.old.items }
    requires small { sum ≤ largest_sum }
    ensures cell { nets.new.items ≡ slice_set nets.old.items place (capped most (slice_index_or nets.old.items place (pos 0))) }
    ensures sum { result ≡ sizes nets.new.items }
    ensures less { result ≤ sum }
    ensures marks { (level : ℕ) (marks : List ℕ) → IsMarkedAbove level marks nets.old.items → IsMarkedAbove level marks nets.new.items }
{
    let before = nets[place];
    let after = capped(before, most);
    nets[place] = after;
    sum - before.unsigned_abs() + after.unsigned_abs()
}

/// Caps all cells, of which those that are greater are marked; the sum of the sizes then.
fn cap(nets: &mut Vec<i128>, marks: &Vec<u32>, sum: u128, most: u128) -> u128
    requires marks { IsMarkedAbove most marks.now.items nets.old.items }
    requires sum { sum ≡ sizes nets.old.items }
    requires small { sum ≤ largest_sum }
    ensures capped { AreCapped most nets.old.items nets.new.items }
    ensures marks { (level : ℕ) (marks : List ℕ) → IsMarkedAbove level marks nets.old.items → IsMarkedAbove level marks nets.new.items }
    ensures sum { result ≡ sizes nets.new.items }
    ensures less { result ≤ sum }
{
    let mut all = sum;
    for var in marks {
        all = cap_cell(nets, all, *var as usize, most);
    }
    all
}

/// Caps all cells, where those that are above the level were marked lately: so where the level is no higher, only they are looked at.
/// Else the marks are tidied first, as far as there is memory for that.
pub(crate) fn cap_all(
    nets: &mut Vec<i128>,
    touched: &mut Vec<u32>,
    recent: &Vec<u32>,
    level: u128,
    sum: u128,
    most: u128,
) -> u128
    requires touched { IsMarked touched.old.items nets.old.items }
    requires recent { IsMarkedAbove level recent.now.items nets.old.items }
    requires sum { sum ≡ sizes nets.old.items }
    requires small { sum ≤ largest_sum }
    ensures capped { AreCapped most nets.old.items nets.new.items }
    ensures marks { IsMarked touched.new.items nets.new.items }
    ensures sum { result ≡ sizes nets.new.items }
    ensures less { result ≤ sum }
{
    if level <= most {
        cap(nets, recent, sum, most)
    } else {
        let _ = tidy(touched, nets);
        cap(nets, touched, sum, most)
    }
}
