//! What holds of every list of attentive acts on a link.

ghost use Rattle.attentive_links.specs.Laws.{LeadByHappenings, NoneAfterItsEnd, TakenInOrder};

/// Acts lead the client where the happenings that they tell do.
pub fn lead_by_happenings()
    ensures { LeadByHappenings }
{}

/// No act is made once the client has an end.
pub fn none_after_its_end()
    ensures { NoneAfterItsEnd }
{}

/// The bytes that the link took are a prefix of what the client sent.
pub fn taken_in_order()
    ensures { TakenInOrder }
{}
