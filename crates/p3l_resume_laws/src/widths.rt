// Laws of the widths of typed nets.

ghost use Rattle.p3l_resume_laws.specs.Widths.{EveryLinkedNetCarriesItsWidths, EveryWidthIsSmall};

/// Each channel of a typed net carries few words, so that those of its tokens can be counted in 32
/// bits.
pub fn every_width_is_small()
    ensures { EveryWidthIsSmall }
{}

/// The channels of a linked net that is typed carry the words and tags that are surveyed for its tree
/// and counts.
pub fn every_linked_net_carries_its_widths()
    ensures { EveryLinkedNetCarriesItsWidths }
{}
