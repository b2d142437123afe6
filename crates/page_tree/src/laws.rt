// What holds of every printed page.
ghost use Rattle.page_tree.specs.Laws.{TextsReadBack, TextsArePlain, ElementsNest};

/// Reading the entities of a text gives the text, no text holds a character of the markup, and elements
/// nest and close. The call does nothing.
pub fn page_laws()
    ensures texts { TextsReadBack }
    ensures plain { TextsArePlain }
    ensures elements { ElementsNest }
{}
