//! The words that the grammar knows, as the rows of two tables: the options, and the jobs.

ghost use Rattle.std.specs.Prelude.{◌≡◌};
ghost use Rattle.yew_words.specs.Kept.{is_kept};
ghost use Rattle.yew_words.specs.Table.{option_row, option_word, every_option, takes, suits, is_for, sizes, named};
ghost use Rattle.yew_words.specs.Table.{problem_row, problem_word, every_problem, made_row, made_word, every_made, job_row, required};
ghost use Rattle.yew_words.specs.Table.{coordination_word, every_coordination};

use crate::plan::{Job, Made};
use crate::settings::Settings;

/// A problem whose tree is searched.
#[derive(Clone, Copy)]
pub enum Problem {
    Knapsack,
    Tsp,
    Subgraph,
    Semigroups,
    Flow,
}

/// A skeleton without its number.
#[derive(Clone, Copy)]
pub enum Coordination {
    Sequential,
    Depth,
    Budget,
    Steal,
    Ordered,
}

/// What the first two words say.
#[derive(Clone, Copy)]
pub enum Head {
    Search(Problem, Coordination),
    Make(Made),
}

/// An option, whose name begins with two dashes.
#[derive(Clone, Copy)]
pub enum OptionName {
    Workers,
    Depth,
    Budget,
    Chunk,
    Target,
    Gap,
    Genus,
    Near,
    Span,
    Report,
    Audit,
    Seed,
    Size,
    Solve,
}

/// What follows an option's name.
#[derive(Clone, Copy)]
pub enum Takes {
    Nothing,
    /// The word `one` or the word `all`.
    OneOrAll,
    /// A number from the first to the second, both included.
    Number(u64, u64),
}

/// An option's row, for the first words of a command line.
#[derive(Clone, Copy)]
struct Row {
    word: &'static str,
    follows: Takes,
    /// Whether the option is for these first words.
    suits: bool,
    /// The options that must not have been given before it.
    excluded_by: &'static [OptionName],
}

/// A job's row.
#[derive(Clone, Copy)]
pub struct JobRow {
    /// The first word of a search, or the second behind `make`.
    word: &'static str,
    /// How many file names follow.
    pub files: usize,
    /// The options that may not be absent.
    needs: &'static [OptionName],
    /// The options of which one stands in for these.
    instead: &'static [OptionName],
    /// The job of the plan.
    pub job: Job,
}

const PROBLEMS: [Problem; 5] = [
    Problem::Knapsack,
    Problem::Tsp,
    Problem::Subgraph,
    Problem::Semigroups,
    Problem::Flow,
];

const COORDINATIONS: [Coordination; 5] = [
    Coordination::Sequential,
    Coordination::Depth,
    Coordination::Budget,
    Coordination::Steal,
    Coordination::Ordered,
];

const MADES: [Made; 3] = [Made::Knapsack, Made::Tsp, Made::Lad];

const OPTIONS: &[OptionName] = &[
    OptionName::Workers,
    OptionName::Depth,
    OptionName::Budget,
    OptionName::Chunk,
    OptionName::Target,
    OptionName::Gap,
    OptionName::Genus,
    OptionName::Near,
    OptionName::Span,
    OptionName::Report,
    OptionName::Audit,
    OptionName::Seed,
    OptionName::Size,
    OptionName::Solve,
];

/// How many options there are.
pub const OPTION_COUNT: usize = OPTIONS.len();

impl OptionName {
    /// The option's row, for these first words.
    fn row(self, head: Head) -> Row
        ensures word { result.word.now ≡ (option_row self).word }
        ensures follows { result.follows ≡ (option_row self).follows head }
        ensures suits { result.suits ≡ (option_row self).suits head }
        ensures excluded_by { result.excluded_by.now ≡ (option_row self).excluded_by }
    {
        match self {
            OptionName::Workers => Row {
                word: "--workers",
                follows: Takes::Number(1, 64),
                suits: !matches!(
                    head,
                    Head::Search(_, Coordination::Sequential) | Head::Make(_)
                ),
                excluded_by: &[],
            },
            OptionName::Depth => Row {
                word: "--depth",
                follows: Takes::Number(1, 255),
                suits: matches!(
                    head,
                    Head::Search(_, Coordination::Depth | Coordination::Ordered)
                ),
                excluded_by: &[],
            },
            OptionName::Budget => Row {
                word: "--budget",
                follows: Takes::Number(1, 0xffff_ffff),
                suits: matches!(head, Head::Search(_, Coordination::Budget)),
                excluded_by: &[],
            },
            OptionName::Chunk => Row {
                word: "--chunk",
                follows: Takes::OneOrAll,
                suits: matches!(head, Head::Search(_, Coordination::Steal)),
                excluded_by: &[],
            },
            OptionName::Target => Row {
                word: "--target",
                follows: Takes::Number(0, (1 << 40) - 2),
                suits: matches!(head, Head::Search(Problem::Knapsack, _)),
                excluded_by: &[OptionName::Gap],
            },
            OptionName::Gap => Row {
                word: "--gap",
                follows: Takes::Number(0, (1 << 40) - 2),
                suits: matches!(
                    head,
                    Head::Search(
                        Problem::Knapsack | Problem::Tsp | Problem::Flow,
                        Coordination::Sequential
                            | Coordination::Depth
                            | Coordination::Budget
                            | Coordination::Steal
                    )
                ),
                excluded_by: &[OptionName::Target],
            },
            OptionName::Genus => Row {
                word: "--genus",
                follows: Takes::Number(0, 40),
                suits: matches!(head, Head::Search(Problem::Semigroups, _)),
                excluded_by: &[],
            },
            OptionName::Near => Row {
                word: "--near",
                follows: Takes::Nothing,
                suits: matches!(head, Head::Search(Problem::Tsp, _)),
                excluded_by: &[],
            },
            OptionName::Span => Row {
                word: "--span",
                follows: Takes::Nothing,
                suits: matches!(head, Head::Search(Problem::Tsp, _)),
                excluded_by: &[],
            },
            OptionName::Report => Row {
                word: "--report",
                follows: Takes::Nothing,
                suits: matches!(head, Head::Search(_, _)),
                excluded_by: &[],
            },
            OptionName::Audit => Row {
                word: "--audit",
                follows: Takes::Nothing,
                suits: matches!(head, Head::Search(_, _)),
                excluded_by: &[],
            },
            OptionName::Seed => Row {
                word: "--seed",
                follows: Takes::Number(0, u64::MAX),
                suits: matches!(head, Head::Make(_)),
                excluded_by: &[],
            },
            OptionName::Size => Row {
                word: "--size",
                follows: sizes(head),
                suits: matches!(head, Head::Make(_)),
                excluded_by: &[],
            },
            OptionName::Solve => Row {
                word: "--solve",
                follows: Takes::Nothing,
                suits: matches!(head, Head::Make(Made::Knapsack | Made::Tsp)),
                excluded_by: &[],
            },
        }
    }

    /// The option that a word names.
    pub fn named(word: &str, head: Head) -> Option<OptionName>
        ensures { result ≡ named option_word every_option word.now }
    {
        OPTIONS
            .iter()
            .copied()
            .find(|option| option.row(head).word == word)
    }

    /// What follows the option's name.
    pub fn follows(self, head: Head) -> Takes
        ensures { result ≡ takes head self }
    {
        self.row(head).follows
    }

    /// Whether the option is for the job and skeleton of the first words.
    pub fn suits(self, head: Head) -> bool
        ensures { result ≡ suits head self }
    {
        self.row(head).suits
    }

    /// Whether the option may stand with these first words, behind the options that were given so far.
    pub fn is_for(self, head: Head, given: &Settings) -> bool
        ensures { result ≡ is_for head (is_kept given.now) self }
    {
        let row = self.row(head);
        row.suits && !given.has_any(row.excluded_by)
    }
}

/// The sizes of what can be made.
fn sizes(head: Head) -> Takes
    ensures { result ≡ sizes head }
{
    match head {
        Head::Make(Made::Knapsack) => Takes::Number(1, 256),
        Head::Make(Made::Tsp) => Takes::Number(2, 60),
        Head::Make(Made::Lad) => Takes::Number(0, 1024),
        Head::Search(_, _) => Takes::Nothing,
    }
}

impl Problem {
    fn row(self) -> JobRow
        ensures word { result.word.now ≡ (problem_row self).word }
        ensures files { result.files ≡ (problem_row self).files }
        ensures needs { result.needs.now ≡ (problem_row self).needs }
        ensures instead { result.instead.now ≡ (problem_row self).instead }
        ensures job { result.job ≡ (problem_row self).job }
    {
        match self {
            Problem::Knapsack => JobRow {
                word: "knapsack",
                files: 1,
                needs: &[],
                instead: &[],
                job: Job::Knapsack,
            },
            Problem::Tsp => JobRow {
                word: "tsp",
                files: 1,
                needs: &[],
                instead: &[],
                job: Job::Tsp,
            },
            Problem::Subgraph => JobRow {
                word: "subgraph",
                files: 2,
                needs: &[],
                instead: &[],
                job: Job::Subgraph,
            },
            Problem::Semigroups => JobRow {
                word: "semigroups",
                files: 0,
                needs: &[OptionName::Genus],
                instead: &[],
                job: Job::Semigroups,
            },
            Problem::Flow => JobRow {
                word: "flow",
                files: 1,
                needs: &[],
                instead: &[],
                job: Job::Flow,
            },
        }
    }

    /// The problem that a word names.
    pub fn named(word: &str) -> Option<Problem>
        ensures { result ≡ named problem_word every_problem word.now }
    {
        PROBLEMS
            .iter()
            .copied()
            .find(|problem| problem.row().word == word)
    }
}

impl Made {
    fn row(self) -> JobRow
        ensures word { result.word.now ≡ (made_row self).word }
        ensures files { result.files ≡ (made_row self).files }
        ensures needs { result.needs.now ≡ (made_row self).needs }
        ensures instead { result.instead.now ≡ (made_row self).instead }
        ensures job { result.job ≡ (made_row self).job }
    {
        JobRow {
            word: match self {
                Made::Knapsack => "knapsack",
                Made::Tsp => "tsp",
                Made::Lad => "lad",
            },
            files: 0,
            needs: &[OptionName::Seed, OptionName::Size],
            instead: &[],
            job: Job::Make(self),
        }
    }
}

/// What is made where this word follows `make`.
pub fn made_named(word: &str) -> Option<Made>
    ensures { result ≡ named made_word every_made word.now }
{
    MADES.iter().copied().find(|made| made.row().word == word)
}

impl Coordination {
    fn word(self) -> &'static str
        ensures { result.now ≡ coordination_word self }
    {
        match self {
            Coordination::Sequential => "sequential",
            Coordination::Depth => "depth",
            Coordination::Budget => "budget",
            Coordination::Steal => "steal",
            Coordination::Ordered => "ordered",
        }
    }

    /// The skeleton that a word names.
    pub fn named(word: &str) -> Option<Coordination>
        ensures { result ≡ named coordination_word every_coordination word.now }
    {
        COORDINATIONS
            .iter()
            .copied()
            .find(|coordination| coordination.word() == word)
    }
}

impl Head {
    /// The row of the job.
    pub fn row(self) -> JobRow
        ensures files { result.files ≡ (job_row self).files }
        ensures needs { result.needs.now ≡ (job_row self).needs }
        ensures instead { result.instead.now ≡ (job_row self).instead }
        ensures job { result.job ≡ (job_row self).job }
    {
        match self {
            Head::Search(problem, _) => problem.row(),
            Head::Make(made) => made.row(),
        }
    }

    /// The options that may not be absent where these were given.
    pub fn required(self, given: &Settings) -> &'static [OptionName]
        ensures { result.now ≡ required self (is_kept given.now) }
    {
        let row = self.row();
        if given.has_any(row.instead) {
            &[]
        } else {
            row.needs
        }
    }
}
