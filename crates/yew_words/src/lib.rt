//! The plan that the words of a command line make.
//!
//! `read_words` judges the words from left to right. It answers the plan exactly where the words are one, and else the
//! first offending word, by its place and kind. Any list of any words is judged, and no memory is taken.
#![tactic(auto)]

ghost use Rattle.std.specs.Prelude.{List};
ghost use Rattle.yew_words.specs.Word.{Word};
ghost use Rattle.yew_words.specs.Laws.{HasOneAnswer};

mod making;
mod plan;
mod read;
mod settings;
mod table;
#[cfg(test)]
mod tests;
mod value;

pub use plan::{Job, Made, Plan, Skeleton, Usage, UsageKind};
pub use read::read_words;

/// Any words have exactly one plan and no offending word, or exactly one first offending word, of one kind, and no plan.
pub fn one_answer()
    ensures { (words : List Word) → HasOneAnswer words }
{}
