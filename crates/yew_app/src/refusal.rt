//! Why a run does not answer: its status, and the line that says so.

ghost use Rattle.std.specs.Prelude.{◌≡◌, ◌≤◌, [], ◌∷◌, OnOk, OnErr, codes, length, flat_map};
ghost use Rattle.yew_io.specs.Faults.{Rose};
ghost use Rattle.yew_io.specs.Sink.{Appends, AppendsPrefix};
ghost use Rattle.yew_app.specs.Refusals.{NotInGrammar, FullAudit, fault_line, line_of, status_of, usage_words, text_words};
ghost use Rattle.yew_app.specs.Reasons.{reason_of, piece_text};

use itoa::Buffer;
use yew_io::{Failed, Sink, write_whole};
use yew_text::{TextFault, TextKind};
use yew_words::{Usage, UsageKind};

/// Why a run does not answer. Names are those of the words.
#[derive(Clone, Copy)]
pub enum Refusal<'a> {
    /// A word offends.
    Usage(Usage),
    /// The shelf failed at this file.
    ReadFault(&'a str),
    /// The file is not in its grammar.
    NotInGrammar(&'a str, TextFault),
    /// The file has more bytes than the limit.
    TooLong(&'a str),
    /// A number of the file is past its limit.
    TooLarge {
        name: &'a str,
        number: u64,
        limit: u64,
    },
    /// The sink of the answer failed.
    WriteFault,
    /// Memory ran out.
    Memory,
    /// The audit of a worker has no room for the next entry: the entries it has, and their numbers.
    AuditFull {
        worker: u32,
        entries: u64,
        numbers: u64,
    },
    /// The tasks of a frontier have more numbers than there are.
    TaskPastLimit {
        number: u64,
    },
}

/// A piece of a line.
#[derive(Clone, Copy)]
enum Piece<'a> {
    Text(&'static str),
    Name(&'a str),
    Number(u64),
}

impl<'a> Refusal<'a> {
    ghost use Rattle.yew_app.specs.Refusals.{status_of};
    ghost use Rattle.yew_app.specs.Reasons.{reason_of};

    /// The status that a run with this refusal ends with.
    pub(crate) fn status(self) -> u8
        ensures { result ≡ status_of (reason_of self.entry) }
    {
        match self {
            Refusal::Usage(_) => 1,
            Refusal::ReadFault(_) => 2,
            Refusal::NotInGrammar(_, _) => 3,
            Refusal::TooLong(_) | Refusal::TooLarge { .. } => 4,
            Refusal::AuditFull { .. } | Refusal::TaskPastLimit { .. } => 4,
            Refusal::WriteFault => 5,
            Refusal::Memory => 6,
        }
    }
}

/// The words for the kind of an offence in the command line.
fn usage_text(kind: UsageKind) -> &'static str
    ensures { result.now ≡ usage_words kind }
{
    match kind {
        UsageKind::Missing => "missing",
        UsageKind::Unknown => "unknown",
        UsageKind::NotFile => "not a file name",
        UsageKind::Repeated => "repeated",
        UsageKind::NotNumber => "not a number",
        UsageKind::OutOfRange => "out of range",
        UsageKind::NotHere => "not here",
    }
}

/// The words for the kind of an offence in a file.
fn fault_text(kind: TextKind) -> &'static str
    ensures { result.now ≡ text_words kind }
{
    match kind {
        TextKind::NotNumber => "not a number",
        TextKind::TooBig => "number too big",
        TextKind::EndsEarly => "ends early",
        TextKind::Surplus => "surplus",
        TextKind::BadLine => "bad line",
    }
}

/// The pieces of a line that says this text.
fn text_line<'a>(text: &'static str) -> [Piece<'a>; 8]
    ensures text { flat_map piece_text result ≡ line_of (codes "yew: " ∷ text.now ∷ []) }
    ensures count { length result ≡ 8 }
{
    let none = Piece::Text("");
    let start = Piece::Text("yew: ");
    let said = Piece::Text(text);
    let end = Piece::Text("\n");
    [start, said, end, none, none, none, none, none]
}

/// The pieces of a line that says this text of a file.
fn name_line<'a>(name: &'a str, text: &'static str) -> [Piece<'a>; 8]
    ensures text { flat_map piece_text result ≡ line_of (codes "yew: " ∷ name.now ∷ text.now ∷ []) }
    ensures count { length result ≡ 8 }
{
    let none = Piece::Text("");
    let start = Piece::Text("yew: ");
    let said = Piece::Text(text);
    let end = Piece::Text("\n");
    [start, Piece::Name(name), said, end, none, none, none, none]
}

/// The pieces of the line of an offence in a file.
fn grammar_line<'a>(name: &'a str, fault: TextFault) -> [Piece<'a>; 8]
    ensures text { flat_map piece_text result ≡ fault_line (NotInGrammar name.now fault.line fault.kind) }
    ensures count { length result ≡ 8 }
{
    [
        Piece::Text("yew: "),
        Piece::Name(name),
        Piece::Text(": line "),
        Piece::Number(fault.line),
        Piece::Text(": "),
        Piece::Text(fault_text(fault.kind)),
        Piece::Text("\n"),
        Piece::Text(""),
    ]
}

/// The pieces of the line of a full audit.
fn full_line<'a>(worker: u32, entries: u64, numbers: u64) -> [Piece<'a>; 8]
    ensures text { flat_map piece_text result ≡ fault_line (FullAudit worker entries numbers) }
    ensures count { length result ≡ 8 }
{
    [
        Piece::Text("yew: worker "),
        Piece::Number(worker as u64),
        Piece::Text(": audit full at "),
        Piece::Number(entries),
        Piece::Text(" entries and "),
        Piece::Number(numbers),
        Piece::Text(" numbers"),
        Piece::Text("\n"),
    ]
}

/// The pieces of the line of a refusal.
fn pieces_of<'a>(refusal: Refusal<'a>) -> [Piece<'a>; 8]
    ensures text { flat_map piece_text result ≡ fault_line (reason_of refusal.entry) }
    ensures count { length result ≡ 8 }
{
    let none = Piece::Text("");
    let start = Piece::Text("yew: ");
    let end = Piece::Text("\n");
    let colon = Piece::Text(": ");
    match refusal {
        Refusal::Usage(usage) => {
            let word = Piece::Text("word ");
            let place = Piece::Number(usage.place as u64);
            let kind = Piece::Text(usage_text(usage.kind));
            [start, word, place, colon, kind, end, none, none]
        }
        Refusal::ReadFault(name) => name_line(name, ": read fault"),
        Refusal::NotInGrammar(name, fault) => grammar_line(name, fault),
        Refusal::TooLong(name) => name_line(name, ": longer than 16777216 bytes"),
        Refusal::TooLarge {
            name,
            number,
            limit,
        } => {
            let file = Piece::Name(name);
            let number = Piece::Number(number);
            let past = Piece::Text(" is past ");
            let limit = Piece::Number(limit);
            [start, file, colon, number, past, limit, end, none]
        }
        Refusal::WriteFault => text_line("write fault"),
        Refusal::Memory => text_line("out of memory"),
        Refusal::AuditFull {
            worker,
            entries,
            numbers,
        } => full_line(worker, entries, numbers),
        Refusal::TaskPastLimit { number } => {
            let task = Piece::Text("yew: task number ");
            let past = Piece::Text(" is past the limit");
            [
                task,
                Piece::Number(number),
                past,
                end,
                none,
                none,
                none,
                none,
            ]
        }
    }
}

/// Writes one piece. It takes no memory.
fn write_piece<E: Sink>(sink: &mut E, piece: Piece) -> Result<(), Failed>
    ensures whole { OnOk result (Appends (E.written sink.old) (piece_text piece.entry) (E.written sink.new)) }
    ensures prefix { OnErr result (AppendsPrefix (E.written sink.old) (piece_text piece.entry) (E.written sink.new)) }
    ensures counted { E.faults sink.old ≤ E.faults sink.new }
    ensures cause { OnErr result (Rose (E.faults sink.old) (E.faults sink.new)) }
{
    match piece {
        Piece::Text(text) => write_whole(sink, text.as_bytes()),
        Piece::Name(name) => write_whole(sink, name.as_bytes()),
        Piece::Number(number) => {
            let mut digits = Buffer::new();
            write_whole(sink, digits.format(number).as_bytes())
        }
    }
}

/// Writes the line of a refusal, or a prefix of it where the sink fails. It takes no memory.
pub(crate) fn write_fault_line<E: Sink>(sink: &mut E, refusal: Refusal) -> Result<(), Failed>
    ensures whole { OnOk result (Appends (E.written sink.old) (fault_line (reason_of refusal.entry)) (E.written sink.new)) }
    ensures prefix { OnErr result (AppendsPrefix (E.written sink.old) (fault_line (reason_of refusal.entry)) (E.written sink.new)) }
    ensures counted { E.faults sink.old ≤ E.faults sink.new }
    ensures cause { OnErr result (Rose (E.faults sink.old) (E.faults sink.new)) }
{
    let pieces = pieces_of(refusal);
    for piece in &pieces {
        match write_piece(sink, *piece) {
            Ok(()) => {}
            Err(Failed) => return Err(Failed),
        }
    }
    Ok(())
}
