//! Laws over all texts, each the contract of a function that does nothing.
ghost use Rattle.ds2_token.specs.Laws.{OneListStands, OneRefusalIsFirst, NoRefusalBesideTokens, EveryTextIsRead};

/// Two token lists that stand for one text are equal.
pub fn one_list_stands()
    ensures { OneListStands }
{}

/// Two refusals that are the first in one text are equal.
pub fn one_refusal_is_first()
    ensures { OneRefusalIsFirst }
{}

/// A text for which tokens stand has no refusal.
pub fn no_refusal_beside_tokens()
    ensures { NoRefusalBesideTokens }
{}

/// Each text has tokens that stand for it or a first refusal.
pub fn every_text_is_read()
    ensures { EveryTextIsRead }
{}
