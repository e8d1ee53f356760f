//! The plan of words that are in order.

ghost use Rattle.std.specs.Prelude.{◌≡◌, unwrap_or};
ghost use Rattle.yew_words.specs.Word.{texts};
ghost use Rattle.yew_words.specs.Table.{takes};
ghost use Rattle.yew_words.specs.Plans.{planned, plan_of, skeleton_of, workers_of, number_said, number_or};
ghost use Rattle.yew_words.specs.Kept.{kept_at, AreKept, IsNarrow};

use crate::plan::{Plan, Skeleton};
use crate::settings::Settings;
use crate::table::{Coordination, Head, OptionName};

/// The plan of the first two words, the files' names and the options.
pub fn make_plan<'a>(head: Head, files: &'a [String], settings: &Settings) -> Plan<'a>
    requires { AreKept head settings.now }
    ensures { planned result ≡ plan_of head (texts files.now) (kept_at settings.now) }
{
    Plan {
        job: head.row().job,
        skeleton: skeleton(head, settings),
        files,
        workers: workers(head, settings),
        target: settings.number(OptionName::Target),
        gap: settings.number(OptionName::Gap),
        genus: number(head, settings, OptionName::Genus, 0),
        near: settings.is_given(OptionName::Near),
        span: settings.is_given(OptionName::Span),
        audit: settings.is_given(OptionName::Audit),
        report: settings.is_given(OptionName::Report),
        seed: settings.number(OptionName::Seed).unwrap_or(0),
        size: number(head, settings, OptionName::Size, 0),
        solve: settings.is_given(OptionName::Solve),
    }
}

/// The skeleton with its number.
fn skeleton(head: Head, settings: &Settings) -> Skeleton
    requires { AreKept head settings.now }
    ensures { result ≡ skeleton_of head (kept_at settings.now) }
{
    match head {
        Head::Search(_, coordination) => match coordination {
            Coordination::Sequential => Skeleton::Sequential,
            Coordination::Depth => Skeleton::Depth(number(head, settings, OptionName::Depth, 2)),
            Coordination::Budget => {
                Skeleton::Budget(settings.number(OptionName::Budget).unwrap_or(1000))
            }
            Coordination::Steal => Skeleton::Steal {
                all: settings.is_all(OptionName::Chunk),
            },
            Coordination::Ordered => {
                Skeleton::Ordered(number(head, settings, OptionName::Depth, 2))
            }
        },
        Head::Make(_) => Skeleton::Sequential,
    }
}

/// The number of workers.
fn workers(head: Head, settings: &Settings) -> u32
    requires { AreKept head settings.now }
    ensures { result ≡ workers_of head (kept_at settings.now) }
{
    if OptionName::Workers.suits(head) {
        number(head, settings, OptionName::Workers, 4)
    } else {
        1
    }
}

/// The number that was given with an option whose numbers are below 2^32, or else this one.
fn number(head: Head, settings: &Settings, name: OptionName, absent: u32) -> u32
    requires kept { AreKept head settings.now }
    requires narrow { IsNarrow (takes head name) }
    ensures { result ≡ number_or (kept_at settings.now) name absent }
{
    match settings.number(name) {
        Some(number) => number as u32,
        None => absent,
    }
}
