//! What a conflict taught.

use linear::Seq;
use normal_form::Normal;
use proof_steps::Item;

/// A constraint that a conflict taught, the items of the `pol` line whose value it is, and the least level that was found under
/// whose literals it has negative slack or forces a literal.
#[derive(Debug, Drop)]
pub struct Learned {
    pub items: Seq<Item>,
    pub constraint: Normal,
    pub level: u32,
}
