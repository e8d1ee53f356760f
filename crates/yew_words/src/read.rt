//! The reader: it judges the words from left to right, each once.

ghost use Rattle.std.specs.Prelude.{◌≡◌, ℕ, ◌<◌, List, ◌∷◌, ◌++◌, IfOk, IfErr, IsOkAnd, Err, codes, string_bytes};
ghost use Rattle.std.specs.List.{list_all};
ghost use Rattle.yew_words.specs.declared.plan.UsageKind.{UsageKind};
ghost use Rattle.yew_words.specs.Word.{texts};
ghost use Rattle.yew_words.specs.Table.{problem_word, head_words, required};
ghost use Rattle.yew_words.specs.Plans.{Planned, planned, PlanOf, AreFiles};
ghost use Rattle.yew_words.specs.Ranges.{IsWithin};
ghost use Rattle.yew_words.specs.Offences.{Offending};
ghost use Rattle.yew_words.specs.Kept.{is_kept, NamesOption, RefusesName, TakesSetting, RefusesSetting, ReadsSettings};

use crate::making::make_plan;
use crate::plan::{Plan, Usage, UsageKind};
use crate::settings::Settings;
use crate::table::{Coordination, Head, OptionName, Problem, made_named};
use crate::value::{Value, is_file_name, read_value};

/// Reads the words of a command line, without the program's name.
///
/// The first word is a job. A search is followed by a skeleton, `make` by what is made; then come the files' names, as
/// many as the job has; then options in any order, each at most once.
///
/// # Errors
///
/// The first offending word from the left, by its place from 1, and its kind of fault. A required option is looked for
/// after the last word. There is no other error, and no memory is taken.
pub fn read_words<'a>(words: &'a [String]) -> Result<Plan<'a>, Usage>
    ensures plan { IfOk result (λ plan. PlanOf (texts words.now) (planned plan)) }
    ensures offence { IfErr result (λ usage. Offending (texts words.now) usage.place usage.kind) }

    // Each field of a plan is in its range.
    ensures within { IfOk result (λ plan. IsWithin (planned plan)) }

    // Both are answered wherever they hold.
    ensures each_plan { (plan : Planned) → PlanOf (texts words.now) plan →
        IsOkAnd result (λ answered. planned answered ≡ plan) }
    ensures each_offence { (place : ℕ) (kind : UsageKind) → Offending (texts words.now) place kind →
        result ≡ Err (record { place = place; kind = kind }) }
{
    let (head, rest) = read_head(words)?;
    let (files, rest) = read_files(head, rest)?;
    let settings = read_options(head, files, rest)?;
    Ok(make_plan(head, files, &settings))
}

/// Reads the first two words, and gives the words behind them.
fn read_head(words: &[String]) -> Result<(Head, &[String]), Usage>
    ensures head { IfOk result (λ read. texts words.now ≡ head_words read.0 ++ texts read.1.now) }
    ensures offence { IfErr result (λ usage. Offending (texts words.now) usage.place usage.kind) }
{
    let Some((first, rest)) = words.split_first() else {
        return Err(Usage {
            place: 1,
            kind: UsageKind::Missing,
        });
    };
    match Problem::named(first) {
        Some(problem) => read_coordination(problem, rest),
        None if first.as_str() == "make" => read_made(rest),
        None => Err(Usage {
            place: 1,
            kind: UsageKind::Unknown,
        }),
    }
}

/// Reads the second word of a search.
fn read_coordination(problem: Problem, words: &[String]) -> Result<(Head, &[String]), Usage>
    ensures head { IfOk result (λ read.
        problem_word problem ∷ texts words.now ≡ head_words read.0 ++ texts read.1.now) }
    ensures offence { IfErr result (λ usage.
        Offending (problem_word problem ∷ texts words.now) usage.place usage.kind) }
{
    let Some((second, rest)) = words.split_first() else {
        return Err(Usage {
            place: 2,
            kind: UsageKind::Missing,
        });
    };
    match Coordination::named(second) {
        Some(coordination) => Ok((Head::Search(problem, coordination), rest)),
        None => Err(Usage {
            place: 2,
            kind: UsageKind::Unknown,
        }),
    }
}

/// Reads the second word after `make`.
fn read_made(words: &[String]) -> Result<(Head, &[String]), Usage>
    ensures head { IfOk result (λ read.
        codes "make" ∷ texts words.now ≡ head_words read.0 ++ texts read.1.now) }
    ensures offence { IfErr result (λ usage.
        Offending (codes "make" ∷ texts words.now) usage.place usage.kind) }
{
    let Some((second, rest)) = words.split_first() else {
        return Err(Usage {
            place: 2,
            kind: UsageKind::Missing,
        });
    };
    match made_named(second) {
        Some(made) => Ok((Head::Make(made), rest)),
        None => Err(Usage {
            place: 2,
            kind: UsageKind::Unknown,
        }),
    }
}

/// Reads the files' names, and gives them and the words behind them.
fn read_files<'a>(head: Head, words: &'a [String]) -> Result<(&'a [String], &'a [String]), Usage>
    ensures files { IfOk result (λ read.
        AreFiles head (texts read.0.now) × (texts words.now ≡ texts read.0.now ++ texts read.1.now)) }
    ensures offence { IfErr result (λ usage.
        Offending (head_words head ++ texts words.now) usage.place usage.kind) }
{
    let count = head.row().files;
    for index in 0..count {
        let place = 3 + index as u32;
        let Some(word) = words.get(index) else {
            return Err(Usage {
                place,
                kind: UsageKind::Missing,
            });
        };
        if !is_file_name(word) {
            return Err(Usage {
                place,
                kind: UsageKind::NotFile,
            });
        }
    }
    Ok(words.split_at(count))
}

/// Reads the options to the end of the words.
fn read_options(head: Head, files: &[String], words: &[String]) -> Result<Settings, Usage>
    requires { AreFiles head (texts files.now) }
    ensures settings { IfOk result (ReadsSettings head (texts words.now)) }
    ensures offence { IfErr result (λ usage.
        Offending (head_words head ++ texts files.now ++ texts words.now) usage.place usage.kind) }
{
    let mut settings = Settings::new();
    let mut rest = words;
    let mut place = 3 + files.len() as u32;
    while let Some((word, behind)) = rest.split_first() {
        let (name, value, left) = read_option(head, &settings, word, behind, place)?;
        settings.insert(name, value);
        place += (rest.len() - left.len()) as u32;
        rest = left;
    }
    if !has_required(head, &settings) {
        return Err(Usage {
            place,
            kind: UsageKind::Missing,
        });
    }
    Ok(settings)
}

/// Whether no required option is absent.
fn has_required(head: Head, settings: &Settings) -> bool
    ensures { result ≡ list_all (is_kept settings.now) (required head (is_kept settings.now)) }
{
    settings.has_all(head.required(settings))
}

/// Reads an option, whose name is at this place, and its value; and gives the words behind them.
fn read_option<'a>(
    head: Head,
    settings: &Settings,
    word: &String,
    behind: &'a [String],
    place: u32,
) -> Result<(OptionName, Value, &'a [String]), Usage>
    requires { place < 64 }
    ensures option { IfOk result (λ read.
        TakesSetting head settings.now (string_bytes word.now ∷ texts behind.now) read.0 read.1 (texts read.2.now)) }
    ensures offence { IfErr result (λ usage.
        RefusesSetting head settings.now place (string_bytes word.now ∷ texts behind.now) usage.place usage.kind) }
{
    let name = read_name(head, settings, word).map_err(|kind| Usage { place, kind })?;
    let place = place + 1;
    let (value, rest) = read_value(name.follows(head), behind).map_err(|kind| Usage {
        place,
        kind,
    })?;
    Ok((name, value, rest))
}

/// The option that the word names: one that is for the job and skeleton, and was not given before.
fn read_name(head: Head, settings: &Settings, word: &str) -> Result<OptionName, UsageKind>
    ensures option { IfOk result (NamesOption head settings.now word.now) }
    ensures offence { IfErr result (RefusesName head settings.now word.now) }
{
    let Some(name) = OptionName::named(word, head) else {
        return Err(UsageKind::Unknown);
    };
    if !name.is_for(head, settings) {
        return Err(UsageKind::NotHere);
    }
    if settings.is_given(name) {
        return Err(UsageKind::Repeated);
    }
    Ok(name)
}
