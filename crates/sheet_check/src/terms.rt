// The terms of a count.
use check_words::{CountRule, Places};
use fixed_place::Omega;
use lot_order::Lots;

/// How a count went of which a text is held to be the sheet.
#[derive(Debug, Drop)]
pub struct Terms {
    pub lots: Lots,
    pub rule: CountRule,
    pub places: Places,
    /// In units of the sheet's last place.
    pub omega: Omega,
}
