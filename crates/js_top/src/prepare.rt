//! The report of a command, made whole before anything is written.

ghost use Rattle.std.specs.Prelude.{
  ◌≡◌,
  ◌≤◌,
  ℕ,
  [],
  ◌∷◌,
  ◌++◌,
  true,
  IfOk,
  OnErr,
  Some,
  is_none,
  option_map,
  codes,
  decimal,
  encode_utf8_all,
  string_bytes,
};
ghost use Rattle.families.specs.Families.{greatest};
ghost use Rattle.js_gen.specs.KindView.{kind_view};
ghost use Rattle.js_words.specs.Commands.{command};
ghost use Rattle.js_words.specs.CommandView.{command_view};
ghost use Rattle.js_words.specs.PlainWords.{Plain, is_plain, words_of, meant};
ghost use Rattle.js_words.specs.Ranges.{IsInRange};
ghost use Rattle.js_input.specs.OrderOfFiles.{BeginsInOrder};
ghost use Rattle.js_commands.specs.IncludeOutcome.{second_file};
ghost use Rattle.js_commands.specs.IncludeSaying.{answer_view};
ghost use Rattle.js_top.specs.Names.{file_names, files_of};
ghost use Rattle.js_top.specs.Report as R;
ghost use Rattle.js_top.specs.Report.{
  answer_report,
  printed,
  IsReportOf,
  IsComparedReport,
  IsValidReport,
  IsCheckReport,
  IsNormReport,
  IsGenReport,
};
ghost use Rattle.js_commands.specs.FileVerdicts.{SameOrRose};
ghost use Rattle.js_top.specs.Preparing.{
  AsJudged,
  CountsOf,
  CountsRefused,
  PreparedSays,
  ReportSays,
  ReportSaysBy,
  IsReadToReport,
  IsReadOf,
  IsUnrejectedReport,
  IsUnrejectedOf,
  IsNoReadFault,
  IsPrintable,
  report_of,
};
ghost use Rattle.js_top.specs.declared.status.Status.TheVariants.{Other, Refused};

use crate::finding::answer_text;
use crate::status::Status;
use crate::summary::summary_text;
use js_commands::{
    Checking, FamilyInclusion, Inclusion, Listing, Validation, Verdict, check_files,
    compare_family, compare_files, list_table, validate,
};
use js_doc::{Memory, Str};
use js_gen::GenKind;
use js_outside::Shelf;
use js_par::{Gate, Workers};
use js_report::refusal_line;
use js_words::{Command, WordsFault, read_words};
use std::alloc::Global;
use std::thread::Threads;

/// What is to be written, and the status that it comes with. The first two take no memory.
#[derive(Drop)]
pub(crate) enum Prepared {
    /// The words are no command.
    Usage,

    /// A file couldn't be read.
    ReadFault,

    /// The bytes of a report, and its status.
    Made(Vec<u8>, Status),
}

impl Prepared {
    pub(crate) fn text(&self) -> &[u8]
        ensures { result.now ≡ (report_of self.now).text }
    {
        match self {
            Prepared::Usage => b"usage\n",
            Prepared::ReadFault => b"readfault\n",
            Prepared::Made(text, _) => text.as_slice(),
        }
    }

    pub(crate) fn status(&self) -> Status
        ensures { result ≡ (report_of self.now).status }
    {
        match self {
            Prepared::Usage => Status::Usage,
            Prepared::ReadFault => Status::ReadFault,
            Prepared::Made(_, status) => *status,
        }
    }
}

/// The report of the words over the shelf's files.
pub(crate) fn prepare<R: Threads + Sync, G: Gate + Sync, H: Shelf>(
    rt: &R,
    alloc: Global,
    words: &[Str],
    gate: &G,
    shelf: &mut H,
) -> Result<Prepared, Memory>
    ensures told { H.told shelf.new ≡ H.told shelf.old }
    ensures says { IfOk result (PreparedSays (H.told shelf.old) words.now (H.faults shelf.old) (H.faults shelf.new)) }
    ensures memory { OnErr result (CountsRefused (command words.now) (H.faults shelf.old) (H.faults shelf.new)) }
    ensures read { IfOk result (λ p. IsReadOf (H.told shelf.old) (command words.now) (H.left shelf.new)
        (report_of p)) }
    ensures unrejected { IfOk result (λ p. IsUnrejectedOf (H.told shelf.old) (command words.now)
        (H.is_begun shelf.new) (H.left shelf.new) (H.begun shelf.old) (H.begun shelf.new) (report_of p)) }
    ensures plain { IfOk result (λ x. (p : Plain) → is_plain p ≡ true → words.now ≡ words_of p
        → command words.now ≡ Some (meant p)) }
    ensures fileless { file_names words.now ≡ [] → H.faults shelf.new ≡ H.faults shelf.old }
    ensures made { file_names words.now ≡ [] → IfOk result IsNoReadFault }
    ensures begun { BeginsInOrder (H.told shelf.old) (file_names words.now) (H.begun shelf.old) (H.begun shelf.new) }
{
    match read_words(alloc, words) {
        Ok(command) => prepare_command(rt, alloc, gate, shelf, &command),
        Err(WordsFault::Usage) => Ok(Prepared::Usage),
        Err(WordsFault::Memory) => Err(Memory),
    }
}

/// The report of a command. The search, or the entries of a certificate, go to as many workers as it has.
fn prepare_command<R: Threads + Sync, G: Gate + Sync, H: Shelf>(
    rt: &R,
    alloc: Global,
    gate: &G,
    shelf: &mut H,
    command: &Command,
) -> Result<Prepared, Memory>
    requires { IsInRange (command_view command.now) }
    ensures told { H.told shelf.new ≡ H.told shelf.old }
    ensures says { IfOk result (ReportSaysBy (CountsOf (Some (command_view command.now)))
        (IsReportOf (H.told shelf.old) (Some (command_view command.now))) (H.faults shelf.old)
        (H.faults shelf.new)) }
    ensures memory { OnErr result (CountsRefused (Some (command_view command.now)) (H.faults shelf.old)
        (H.faults shelf.new)) }
    ensures read { IfOk result (λ p. IsReadOf (H.told shelf.old) (Some (command_view command.now)) (H.left shelf.new)
        (report_of p)) }
    ensures unrejected { IfOk result (λ p. IsUnrejectedOf (H.told shelf.old) (Some (command_view command.now))
        (H.is_begun shelf.new) (H.left shelf.new) (H.begun shelf.old) (H.begun shelf.new) (report_of p)) }
    ensures fileless { files_of (Some (command_view command.now)) ≡ [] → H.faults shelf.new ≡ H.faults shelf.old }
    ensures made { files_of (Some (command_view command.now)) ≡ [] → IfOk result IsNoReadFault }
    ensures begun { BeginsInOrder (H.told shelf.old) (files_of (Some (command_view command.now)))
        (H.begun shelf.old) (H.begun shelf.new) }
{
    match command {
        Command::Sat(schema, count) => {
            let workers = Workers::new(rt, gate, *count);
            prepare_compared(&workers, alloc, shelf, schema, None)
        }
        Command::Include(first, second, count) => {
            let workers = Workers::new(rt, gate, *count);
            prepare_compared(&workers, alloc, shelf, first, Some(second))
        }
        Command::Valid(schema, document) => prepare_valid(alloc, shelf, schema, document),
        Command::Check(first, second, certificate, count) => {
            let workers = Workers::new(rt, gate, *count);
            prepare_check(&workers, alloc, shelf, first, second, certificate)
        }
        Command::Norm(schema) => prepare_norm(alloc, shelf, schema),
        Command::Gen(kind, number, count) => {
            let workers = Workers::new(rt, gate, *count);
            prepare_gen(&workers, alloc, *kind, *number)
        }
    }
}

/// The report of `include`, where the second file is read only where the first was, and without one that of `sat`.
fn prepare_compared<R: Threads + Sync, G: Gate + Sync, H: Shelf>(
    workers: &Workers<'_, R, G>,
    alloc: Global,
    shelf: &mut H,
    first: &Str,
    second: Option<&Str>,
) -> Result<Prepared, Memory>
    ensures told { H.told shelf.new ≡ H.told shelf.old }
    ensures says { IfOk result (ReportSays
        (IsComparedReport (H.told shelf.old) first.now (option_map (λ s. s.now) second.entry)) (H.faults shelf.old)
        (H.faults shelf.new)) }
    ensures memory { OnErr result (H.faults shelf.new ≡ H.faults shelf.old) }
    ensures begun { BeginsInOrder (H.told shelf.old)
        (encode_utf8_all first.now ∷ second_file (option_map (λ s. s.now) second.entry)) (H.begun shelf.old)
        (H.begun shelf.new) }
{
    match compare_files(workers, alloc, shelf, first, second)? {
        Inclusion::Decided(verdict) => answered(alloc, verdict, is_sat(second)),
        Inclusion::FirstRefused(words) => refused(alloc, "first", words),
        Inclusion::SecondRefused(words) => refused(alloc, "second", words),
        Inclusion::ReadFault => Ok(Prepared::ReadFault),
    }
}

/// The report of `valid`: the document is read only where the schema is one.
fn prepare_valid<H: Shelf>(
    alloc: Global,
    shelf: &mut H,
    schema: &Str,
    document: &Str,
) -> Result<Prepared, Memory>
    ensures told { H.told shelf.new ≡ H.told shelf.old }
    ensures says { IfOk result (ReportSays (IsValidReport (H.told shelf.old) schema.now document.now)
        (H.faults shelf.old) (H.faults shelf.new)) }
    ensures memory { OnErr result (H.faults shelf.new ≡ H.faults shelf.old) }
    ensures begun { BeginsInOrder (H.told shelf.old) (encode_utf8_all schema.now ∷ encode_utf8_all document.now ∷ [])
        (H.begun shelf.old) (H.begun shelf.new) }
{
    match validate(alloc, shelf, schema, document)? {
        Validation::Valid => made(alloc, "valid\n", Status::Done),
        Validation::Invalid => made(alloc, "invalid\n", Status::Other),
        Validation::SchemaRefused(words) => refused(alloc, "first", words),
        Validation::DocumentRefused(words) => refused(alloc, "document", words),
        Validation::ReadFault => Ok(Prepared::ReadFault),
    }
}

/// The report of `check`: the certificate is judged only where both schemas are read.
fn prepare_check<R: Threads + Sync, G: Gate + Sync, H: Shelf>(
    workers: &Workers<'_, R, G>,
    alloc: Global,
    shelf: &mut H,
    first: &Str,
    second: &Str,
    certificate: &Str,
) -> Result<Prepared, Memory>
    ensures told { H.told shelf.new ≡ H.told shelf.old }
    ensures says { IfOk result (ReportSaysBy (AsJudged workers.now.count)
        (IsCheckReport (H.told shelf.old) first.now second.now certificate.now) (H.faults shelf.old)
        (H.faults shelf.new)) }
    ensures memory { OnErr result (SameOrRose workers.now.count (H.faults shelf.old) (H.faults shelf.new)) }
    ensures read { IfOk result (λ p. IsReadToReport (H.told shelf.old) certificate.now workers.now.count
        (H.left shelf.new) (report_of p)) }
    ensures unrejected { IfOk result (λ p. IsUnrejectedReport (H.told shelf.old) first.now second.now certificate.now
        (H.is_begun shelf.new) (H.left shelf.new) (H.begun shelf.old) (H.begun shelf.new) (report_of p)) }
    ensures begun { BeginsInOrder (H.told shelf.old)
        (encode_utf8_all first.now ∷ encode_utf8_all second.now ∷ encode_utf8_all certificate.now ∷ [])
        (H.begun shelf.old) (H.begun shelf.new) }
{
    match check_files(workers, alloc, shelf, first, second, certificate)? {
        Checking::Accepted => made(alloc, "accepted\n", Status::Done),
        Checking::Rejected(line, rule) => rejected(alloc, line, rule),
        Checking::FirstRefused(words) => refused(alloc, "first", words),
        Checking::SecondRefused(words) => refused(alloc, "second", words),
        Checking::TooLong => made(alloc, "refused certificate toolong\n", Status::Refused),
        Checking::ReadFault => Ok(Prepared::ReadFault),
    }
}

/// The report of `norm`.
fn prepare_norm<H: Shelf>(alloc: Global, shelf: &mut H, schema: &Str) -> Result<Prepared, Memory>
    ensures told { H.told shelf.new ≡ H.told shelf.old }
    ensures says { IfOk result (ReportSays (IsNormReport (H.told shelf.old) schema.now) (H.faults shelf.old)
        (H.faults shelf.new)) }
    ensures memory { OnErr result (H.faults shelf.new ≡ H.faults shelf.old) }
    ensures begun { BeginsInOrder (H.told shelf.old) (encode_utf8_all schema.now ∷ []) (H.begun shelf.old)
        (H.begun shelf.new) }
{
    match list_table(alloc, shelf, schema)? {
        Listing::Text(text) => Ok(Prepared::Made(text.into_bytes(), Status::Done)),
        Listing::Refused(words) => refused(alloc, "first", words),
        Listing::ReadFault => Ok(Prepared::ReadFault),
    }
}

/// The report of `gen`, for which no file is read.
fn prepare_gen<R: Threads + Sync, G: Gate + Sync>(
    workers: &Workers<'_, R, G>,
    alloc: Global,
    kind: GenKind,
    number: u32,
) -> Result<Prepared, Memory>
    requires least { 1 ≤ number }
    requires most { number ≤ greatest (kind_view kind) }
    ensures says { (faults : ℕ) → IfOk result (ReportSays (IsGenReport (kind_view kind) number) faults faults) }
    ensures made { IfOk result IsNoReadFault }
{
    match compare_family(workers, alloc, kind, number)? {
        FamilyInclusion::Decided(decided) => {
            let (text, finding) = summary_text(alloc, kind, number, &decided)?;
            Ok(Prepared::Made(text, finding.status(false)))
        }
        FamilyInclusion::FirstRefused(words) => refused(alloc, "first", words),
        FamilyInclusion::SecondRefused(words) => refused(alloc, "second", words),
    }
}

fn made(alloc: Global, text: &str, status: Status) -> Result<Prepared, Memory>
    ensures { IfOk result (λ p. report_of p ≡ record { text = text.now; status = status }) }
{
    let bytes = String::from_str(alloc, text)?.into_bytes();
    Ok(Prepared::Made(bytes, status))
}

fn rejected(alloc: Global, line: u64, rule: u8) -> Result<Prepared, Memory>
    ensures { IfOk result
        (λ p. report_of p ≡ printed (codes "rejected " ++ decimal line ++ 32 ∷ decimal rule) Other) }
{
    let text = format!(in alloc; "rejected {line} {rule}\n")?;
    Ok(Prepared::Made(text.into_bytes(), Status::Other))
}

fn refused(alloc: Global, role: &str, words: String) -> Result<Prepared, Memory>
    ensures { IfOk result
        (λ p. report_of p ≡ printed (codes "refused " ++ role.now ++ 32 ∷ string_bytes words) Refused) }
{
    let text = refusal_line(alloc, role, words.as_str())?;
    Ok(Prepared::Made(text.into_bytes(), Status::Refused))
}

/// Without a second file a document is looked for.
fn is_sat(second: Option<&Str>) -> bool
    ensures { result ≡ is_none (option_map (λ s. s.now) second.entry) }
{
    match second {
        Some(_) => false,
        None => true,
    }
}

fn answered(alloc: Global, verdict: Verdict, is_sat: bool) -> Result<Prepared, Memory>
    requires { IsPrintable (answer_view verdict) }
    ensures report { IfOk result (λ p. report_of p ≡ answer_report is_sat (answer_view verdict)) }
    ensures read { IfOk result (λ p. R.IsReadBack (answer_view verdict) (report_of p).text) }
{
    let (text, finding) = answer_text(alloc, verdict)?;
    Ok(Prepared::Made(text, finding.status(is_sat)))
}
