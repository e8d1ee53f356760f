//! An audited text that was read.

ghost use Rattle.std.specs.Prelude.{◌≡◌, map};
ghost use Rattle.yew_log.specs.Entries.{entry_notes};

use std::marker::Model;
use yew_log::Entry;

/// An audited text: the bytes of its head, which stand before the audit, and the logs of the workers, that of worker 1
/// first.
#[derive(Drop)]
pub struct AuditFile {
    head: Vec<u8>,
    logs: Vec<Vec<Entry>>,
}

impl Model for AuditFile {
    ghost use Rattle.std.specs.Prelude.{map};
    ghost use Rattle.yew_log.specs.Entries.{entry_notes};
    ghost use Rattle.yew_check.specs.Files.{AuditValue};

    ghost Value = { AuditValue };

    ghost view = { λ a. record { head = a.head.items; logs = map (λ log. entry_notes log.items) a.logs.items } };
}

impl AuditFile {
    /// A text of this head and these logs.
    pub fn new(head: Vec<u8>, logs: Vec<Vec<Entry>>) -> AuditFile
        ensures { result ≡ record { head = head.items; logs = map (λ log. entry_notes log.items) logs.items } }
    {
        AuditFile { head, logs }
    }

    /// The bytes before the audit.
    pub fn head(&self) -> &[u8]
        ensures { result.now ≡ self.now.head }
    {
        self.head.as_slice()
    }

    /// The logs of the workers, that of worker 1 first.
    pub fn logs(&self) -> &[Vec<Entry>]
        ensures { map (λ log. entry_notes log.items) result.now ≡ self.now.logs }
    {
        self.logs.as_slice()
    }
}
