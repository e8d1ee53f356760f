//! The laws of the definitions that the contracts cite. Each function does nothing: its contract is the law.

ghost use Rattle.yew_text.specs.Laws.{WordLaws, FieldLaws};
ghost use Rattle.yew_text.specs.GrammarLaws.{GrammarLaws};

/// The words of a text by its first bytes: a line feed, other white space, or a word.
pub fn word_laws()
    ensures { WordLaws }
{}

/// The fields of a text by its first bytes, and that lines without a field have no word, and the other way round.
pub fn field_laws()
    ensures { FieldLaws }
{}

/// Files that are lists of numbers: such a file is whole or has one first offence, and never both.
pub fn grammar_laws()
    ensures { GrammarLaws }
{}
