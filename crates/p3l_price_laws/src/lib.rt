//! The law that joins prices and linked nets: in virtual time no price of a net that was linked for a
//! tree is too large to be counted.
#![tactic(auto)]

ghost use Rattle.p3l_price_laws.specs.Prices.{EveryLinkedPriceIsSmall};

/// The prices of a linked net are small, so that every sum of them is counted exactly.
pub fn linked_nets_have_small_prices()
    ensures { EveryLinkedPriceIsSmall }
{}
