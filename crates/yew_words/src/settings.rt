//! The options that were given, each with its value.

ghost use Rattle.std.specs.Prelude.{◌≡◌, None, Some, length, slice_set};
ghost use Rattle.std.specs.List.{list_all, list_any};
ghost use Rattle.yew_words.specs.Kept.{kept_at, index_of, is_kept};
ghost use Rattle.yew_words.specs.Plans.{number_said, all_said};
ghost use Rattle.yew_words.specs.declared.table.OptionName.{OptionName};

use crate::table::{OPTION_COUNT, OptionName};
use crate::value::Value;

/// A place for each option's value, by the option's number in the table.
#[derive(Clone, Copy)]
pub struct Settings {
    values: [Option<Value>; OPTION_COUNT],
}

impl Settings {
    /// No option is given.
    pub fn new() -> Self
        ensures count { length result.values ≡ OPTION_COUNT }
        ensures empty { (name : OptionName) → kept_at result name ≡ None }
    {
        Settings {
            values: [None; OPTION_COUNT],
        }
    }

    /// The option is given, with this value.
    pub fn insert(&mut self, name: OptionName, value: Value)
        ensures { self.new.values ≡ slice_set self.old.values (index_of name) (Some value) }
    {
        self.values[name as usize] = Some(value);
    }

    fn get(&self, name: OptionName) -> Option<Value>
        ensures { result ≡ kept_at self.now name }
    {
        self.values[name as usize]
    }

    /// Whether the option was given.
    pub fn is_given(&self, name: OptionName) -> bool
        ensures { result ≡ is_kept self.now name }
    {
        self.get(name).is_some()
    }

    /// Whether one of these options was given.
    pub fn has_any(&self, names: &[OptionName]) -> bool
        ensures { result ≡ list_any (is_kept self.now) names.now }
    {
        names.iter().any(|name| self.is_given(*name))
    }

    /// Whether each of these options was given.
    pub fn has_all(&self, names: &[OptionName]) -> bool
        ensures { result ≡ list_all (is_kept self.now) names.now }
    {
        names.iter().all(|name| self.is_given(*name))
    }

    /// The number that was given.
    pub fn number(&self, name: OptionName) -> Option<u64>
        ensures { result ≡ number_said (kept_at self.now name) }
    {
        match self.get(name) {
            Some(Value::Number(number)) => Some(number),
            _ => None,
        }
    }

    /// Whether the word `all` was given.
    pub fn is_all(&self, name: OptionName) -> bool
        ensures { result ≡ all_said (kept_at self.now name) }
    {
        match self.get(name) {
            Some(Value::OneOrAll { all }) => all,
            _ => false,
        }
    }
}
