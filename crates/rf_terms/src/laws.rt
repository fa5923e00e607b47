//! The law that the rule table is in order.

ghost use Rattle.rf_terms.specs.Laws.{KindLaws};

/// Every kind stands in the table and has two to four small coefficients; spacing alone has no victim; a kind's text is
/// its own; and what a kind asks has a place among the numbers of a profile.
pub fn kinds_keep_their_laws()
    ensures { KindLaws }
{}
