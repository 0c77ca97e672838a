//! Laws of items. Each function has a law as its contract and an empty body.
ghost use Rattle.type_words.specs.Laws.{HiddenStaysHidden, SecretsAreHidden};

/// An element that its type marks as secret has no item, and what is inside is hidden.
pub fn secrets_are_hidden()
    ensures { SecretsAreHidden }
{}

/// Where elements are hidden, none has an item, and what is inside and after it is hidden as well.
pub fn hidden_stays_hidden()
    ensures { HiddenStaysHidden }
{}
