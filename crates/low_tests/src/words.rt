//! Words, and what they come to.

use js_doc::Str;
use js_words::{Command, WordsFault, read_words};
use std::alloc::Global;
use std::test::Fail;

/// What the words come to, as one text: the names and the numbers.
fn told(alloc: Global, words: &[&str]) -> Result<String, Fail> {
    let mut list = Vec::new(alloc);
    for word in words {
        list.push(Str::from_text(alloc, word)?)?;
    }
    match read_words(alloc, list.as_slice()) {
        Ok(command) => told_of(alloc, &command),
        Err(WordsFault::Usage) => Ok(String::from_str(alloc, "usage")?),
        Err(WordsFault::Memory) => Ok(String::from_str(alloc, "memory")?),
    }
}

fn told_of(alloc: Global, command: &Command) -> Result<String, Fail> {
    Ok(match command {
        Command::Sat(first, workers) => format!(in alloc; "sat {} {workers}", first.as_text())?,
        Command::Include(first, second, workers) => {
            format!(in alloc;
                "include {} {} {workers}",
                first.as_text(),
                second.as_text()
            )?
        }
        Command::Valid(first, document) => {
            format!(in alloc; "valid {} {}", first.as_text(), document.as_text())?
        }
        Command::Check(first, second, certificate, workers) => {
            let names = format!(in alloc; "{} {}", first.as_text(), second.as_text())?;
            format!(in alloc; "check {names} {} {workers}", certificate.as_text())?
        }
        Command::Norm(first) => format!(in alloc; "norm {}", first.as_text())?,
        Command::Gen(kind, number, workers) => {
            format!(in alloc; "gen {} {number} {workers}", kind.as_word())?
        }
    })
}

#[test]
fn each_command_is_taken(rt: HostRuntime) -> Result<(), Fail> {
    let alloc = rt.alloc();
    assert_eq!(rt;
        told(alloc, ["sat", "a", "--workers=7"].as_slice())?.as_str(),
        "sat a 7"
    );
    assert_eq!(rt;
        told(alloc, ["include", "a", "é"].as_slice())?.as_str(),
        "include a é 1"
    );
    assert_eq!(rt;
        told(alloc, ["valid", "a", "d"].as_slice())?.as_str(),
        "valid a d"
    );
    assert_eq!(rt;
        told(
            alloc,
            ["check", "a", "b", "c", "--workers", "64"].as_slice()
        )?
        .as_str(),
        "check a b c 64"
    );
    assert_eq!(rt; told(alloc, ["norm", "a"].as_slice())?.as_str(), "norm a");
    assert_eq!(rt;
        told(alloc, ["gen", "patterns", "8"].as_slice())?.as_str(),
        "gen patterns 8 1"
    );
    Ok(())
}

#[test]
fn other_words_are_refused(rt: HostRuntime) -> Result<(), Fail> {
    let alloc = rt.alloc();
    assert_eq!(rt; told(alloc, [].as_slice())?.as_str(), "usage");
    assert_eq!(rt; told(alloc, ["frob"].as_slice())?.as_str(), "usage");
    assert_eq!(rt; told(alloc, ["include", "a"].as_slice())?.as_str(), "usage");
    assert_eq!(rt;
        told(alloc, ["gen", "patterns", "9"].as_slice())?.as_str(),
        "usage"
    );
    Ok(())
}

#[test]
fn other_numbers_are_refused(rt: HostRuntime) -> Result<(), Fail> {
    let alloc = rt.alloc();
    for number in [
        "0",
        "65",
        "007",
        "+4",
        "-4",
        "4.0",
        "",
        "x",
        "99999999999999999999",
    ] {
        assert_eq!(rt;
            told(alloc, ["sat", "a", "--workers", number].as_slice())?.as_str(),
            "usage"
        );
    }
    Ok(())
}
