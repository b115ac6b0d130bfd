//! The command that clap's matches name.

ghost use Rattle.std.specs.Prelude.{◌≡◌, IfErr, IfOk, None, Some, option_map, chars};
ghost use Rattle.clap.specs.Words as W;
ghost use Rattle.js_words.specs.Commands as C;
ghost use Rattle.js_gen.specs.KindView.{kind_view};
ghost use Rattle.js_words.specs.CommandView.{command_view};

use crate::kind::kind_of;
use crate::numbers::number_in;
use crate::words::{Command, WordsFault};
use clap::ArgMatches;
use js_doc::Str;
use js_gen::GenKind;
use std::alloc::Global;

/// The command that the matches name.
pub(crate) fn of_matches(alloc: Global, matches: &ArgMatches<'_>) -> Result<Command, WordsFault>
    ensures ok { IfOk result (λ c. C.matched (W.subcommand_rows_of matches.now) ≡ Some (command_view c)) }
    ensures usage { IfErr result (λ e. e ≡ WordsFault.Usage → C.matched (W.subcommand_rows_of matches.now) ≡ None) }
{
    match matches.subcommand() {
        Some((word, inner)) => of_subcommand(alloc, word, inner),
        None => Err(WordsFault::Usage),
    }
}

fn of_subcommand(alloc: Global, word: &str, inner: &ArgMatches<'_>) -> Result<Command, WordsFault>
    ensures ok { IfOk result (λ c. C.named word.now (W.rows_of (W.found_of inner.now)) ≡ Some (command_view c)) }
    ensures usage { IfErr result (λ e. e ≡ WordsFault.Usage
        → C.named word.now (W.rows_of (W.found_of inner.now)) ≡ None) }
{
    if word == "sat" {
        sat_of(alloc, inner)
    } else if word == "include" {
        include_of(alloc, inner)
    } else if word == "valid" {
        valid_of(alloc, inner)
    } else if word == "check" {
        check_of(alloc, inner)
    } else if word == "norm" {
        norm_of(alloc, inner)
    } else if word == "gen" {
        gen_of(inner)
    } else {
        Err(WordsFault::Usage)
    }
}

fn sat_of(alloc: Global, inner: &ArgMatches<'_>) -> Result<Command, WordsFault>
    ensures ok { IfOk result (λ c. C.sat_in (W.rows_of (W.found_of inner.now)) ≡ Some (command_view c)) }
    ensures usage { IfErr result (λ e. e ≡ WordsFault.Usage → C.sat_in (W.rows_of (W.found_of inner.now)) ≡ None) }
{
    let first = text_of(inner, "first");
    let workers = workers_of(inner);
    match (first, workers) {
        (Some(first), Some(workers)) => sat(alloc, first, workers),
        _ => Err(WordsFault::Usage),
    }
}

fn sat(alloc: Global, first: &str, workers: u32) -> Result<Command, WordsFault>
    ensures ok { IfOk result (λ c. command_view c ≡ C.Sat (chars first.now) workers) }
    ensures err { IfErr result (λ e. e ≡ WordsFault.Memory) }
{
    let first = Str::from_text(alloc, first)?;
    Ok(Command::Sat(first, workers))
}

fn include_of(alloc: Global, inner: &ArgMatches<'_>) -> Result<Command, WordsFault>
    ensures ok { IfOk result (λ c. C.include_in (W.rows_of (W.found_of inner.now)) ≡ Some (command_view c)) }
    ensures usage { IfErr result (λ e. e ≡ WordsFault.Usage → C.include_in (W.rows_of (W.found_of inner.now)) ≡ None) }
{
    let first = text_of(inner, "first");
    let second = text_of(inner, "second");
    let workers = workers_of(inner);
    match (first, second, workers) {
        (Some(first), Some(second), Some(workers)) => include(alloc, first, second, workers),
        _ => Err(WordsFault::Usage),
    }
}

fn include(alloc: Global, first: &str, second: &str, workers: u32) -> Result<Command, WordsFault>
    ensures ok { IfOk result (λ c. command_view c ≡ C.Include (chars first.now) (chars second.now) workers) }
    ensures err { IfErr result (λ e. e ≡ WordsFault.Memory) }
{
    let first = Str::from_text(alloc, first)?;
    let second = Str::from_text(alloc, second)?;
    Ok(Command::Include(first, second, workers))
}

fn valid_of(alloc: Global, inner: &ArgMatches<'_>) -> Result<Command, WordsFault>
    ensures ok { IfOk result (λ c. C.valid_in (W.rows_of (W.found_of inner.now)) ≡ Some (command_view c)) }
    ensures usage { IfErr result (λ e. e ≡ WordsFault.Usage → C.valid_in (W.rows_of (W.found_of inner.now)) ≡ None) }
{
    let first = text_of(inner, "first");
    let document = text_of(inner, "document");
    match (first, document) {
        (Some(first), Some(document)) => valid(alloc, first, document),
        _ => Err(WordsFault::Usage),
    }
}

fn valid(alloc: Global, first: &str, document: &str) -> Result<Command, WordsFault>
    ensures ok { IfOk result (λ c. command_view c ≡ C.Valid (chars first.now) (chars document.now)) }
    ensures err { IfErr result (λ e. e ≡ WordsFault.Memory) }
{
    let first = Str::from_text(alloc, first)?;
    let document = Str::from_text(alloc, document)?;
    Ok(Command::Valid(first, document))
}

fn check_of(alloc: Global, inner: &ArgMatches<'_>) -> Result<Command, WordsFault>
    ensures ok { IfOk result (λ c. C.check_in (W.rows_of (W.found_of inner.now)) ≡ Some (command_view c)) }
    ensures usage { IfErr result (λ e. e ≡ WordsFault.Usage → C.check_in (W.rows_of (W.found_of inner.now)) ≡ None) }
{
    let first = text_of(inner, "first");
    let second = text_of(inner, "second");
    let certificate = text_of(inner, "certificate");
    let workers = workers_of(inner);
    match (first, second, certificate, workers) {
        (Some(first), Some(second), Some(certificate), Some(workers)) => check(
            alloc,
            first,
            second,
            certificate,
            workers,
        ),
        _ => Err(WordsFault::Usage),
    }
}

fn check(
    alloc: Global,
    first: &str,
    second: &str,
    certificate: &str,
    workers: u32,
) -> Result<Command, WordsFault>
    ensures ok { IfOk result (λ c. command_view c
        ≡ C.Check (chars first.now) (chars second.now) (chars certificate.now) workers) }
    ensures err { IfErr result (λ e. e ≡ WordsFault.Memory) }
{
    let first = Str::from_text(alloc, first)?;
    let second = Str::from_text(alloc, second)?;
    let certificate = Str::from_text(alloc, certificate)?;
    Ok(Command::Check(first, second, certificate, workers))
}

fn norm_of(alloc: Global, inner: &ArgMatches<'_>) -> Result<Command, WordsFault>
    ensures ok { IfOk result (λ c. C.norm_in (W.rows_of (W.found_of inner.now)) ≡ Some (command_view c)) }
    ensures usage { IfErr result (λ e. e ≡ WordsFault.Usage → C.norm_in (W.rows_of (W.found_of inner.now)) ≡ None) }
{
    let first = text_of(inner, "first");
    match first {
        Some(first) => norm(alloc, first),
        _ => Err(WordsFault::Usage),
    }
}

fn norm(alloc: Global, first: &str) -> Result<Command, WordsFault>
    ensures ok { IfOk result (λ c. command_view c ≡ C.Norm (chars first.now)) }
    ensures err { IfErr result (λ e. e ≡ WordsFault.Memory) }
{
    let first = Str::from_text(alloc, first)?;
    Ok(Command::Norm(first))
}

fn gen_of(inner: &ArgMatches<'_>) -> Result<Command, WordsFault>
    ensures ok { IfOk result (λ c. C.gen_in (W.rows_of (W.found_of inner.now)) ≡ Some (command_view c)) }
    ensures usage { IfErr result (λ e. e ≡ WordsFault.Usage → C.gen_in (W.rows_of (W.found_of inner.now)) ≡ None) }
{
    let kind = text_of(inner, "kind");
    let number = text_of(inner, "number");
    let workers = workers_of(inner);
    match (kind, number) {
        (Some(kind), Some(number)) => gen_to(kind_of(kind), number, workers),
        _ => Err(WordsFault::Usage),
    }
}

fn gen_to(kind: Option<GenKind>, number: &str, workers: Option<u32>) -> Result<Command, WordsFault>
    ensures ok { IfOk result (λ c. C.gen_to (option_map kind_view kind) number.now workers ≡ Some (command_view c)) }
    ensures usage { IfErr result (λ e. e ≡ WordsFault.Usage
        → C.gen_to (option_map kind_view kind) number.now workers ≡ None) }
{
    let Some(kind) = kind else {
        return Err(WordsFault::Usage);
    };
    match (number_in(number, 1, kind.greatest()), workers) {
        (Some(number), Some(workers)) => Ok(Command::Gen(kind, number, workers)),
        _ => Err(WordsFault::Usage),
    }
}

fn workers_of(inner: &ArgMatches<'_>) -> Option<u32>
    ensures { result ≡ C.workers_in (W.rows_of (W.found_of inner.now)) }
{
    match text_of(inner, "workers") {
        Some(text) => number_in(text, 1, 64),
        None => None,
    }
}

/// The first text that the words give to `id`, or its default.
fn text_of<'m>(inner: &ArgMatches<'m>, id: &str) -> Option<&'m str>
    ensures { option_map (λ s. s.now) result ≡ W.first_of id.now (W.rows_of (W.found_of inner.now)) }
{
    inner.get_str(id)
}
