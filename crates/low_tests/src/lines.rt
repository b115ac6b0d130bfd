//! A line of each form with its text, texts that are nearly lines, and bytes cut in every way.

use js_algebra::{JsonKind, Pos, Signed, SignedList};
use js_lines::{
    CertEnd, CertLine, CertLines, LineFault, LineReader, NumberList, ShortEntry, ShortEntryList,
    Version, append_line, cert_text, write_line,
};
use std::alloc::{AllocError, Global};
use std::test::Fail;

/// A line of each form, each kind and each end.
const EACH: &str = "certificate 1
goals 2
goal +0 -12
goal
entry 0
at null
at boolean
at number
at string
at array
at object
rule +0
rule -4294967295
clash 7
kind -3
count
bool
number
string 3
row 1 2
row
least 0 1 1
array
object 6 1
cap 1 1 0 1
cap 0
split
member 0 goal 0
member 10 clash
index 1 clash
tail 0 goal 1
short - clash goal 4294967295
short
end
";

#[test]
fn text_of_a_certificate(rt: HostRuntime) -> Result<(), Fail> {
    let alloc = rt.alloc();
    let goal = SignedList::from_vec(vec![in alloc; Signed::plus(Pos(0)), Signed::minus(Pos(12))]?);
    let entries = vec![in alloc; ShortEntry::Kept, ShortEntry::Clash, ShortEntry::Goal(9)]?;
    let lines = vec![in alloc;
        CertLine::Certificate(Version::One),
        CertLine::Goal(goal),
        CertLine::At(JsonKind::Text),
        CertLine::Clash(Pos(7)),
        CertLine::Kind(Signed::minus(Pos(3))),
        CertLine::Cap(4, NumberList::from_vec(vec![in alloc; 0, 65536]?)),
        CertLine::Tail(2, CertEnd::Goal(10)),
        CertLine::Short(ShortEntryList::from_vec(entries)),
        CertLine::End,
    ]?;
    let text = cert_text(alloc, &CertLines::from_vec(lines))?;
    let wanted =
        "certificate 1\ngoal +0 -12\nat string\nclash 7\nkind -3\ncap 4 0 65536\ntail 2 goal 10\n\
                  short - clash goal 9\nend\n";
    assert_eq!(rt; text.as_slice(), wanted.as_bytes());
    let line = write_line(alloc, &CertLine::Rule(Signed::minus(Pos(4294967295))))?;
    assert_eq!(rt; line.as_slice(), b"rule -4294967295\n".as_slice());
    Ok(())
}

/// The text of the lines that bytes are read as, in pieces of some length.
fn read_back(alloc: Global, text: &[u8], step: usize) -> Result<Vec<u8>, LineFault> {
    let mut reader = LineReader::new(alloc);
    let mut out = String::new(alloc);
    let mut rest = text;
    for _turn in 0..1_000u64 {
        let piece = rest.get(..step).unwrap_or(rest);
        let count = reader.feed(piece)?;
        if let Some(line) = reader.next_line() {
            append_line(&mut out, &line)?;
        }
        rest = rest.get(count..).unwrap_or(b"");
    }
    reader.finish()?;
    Ok(out.into_bytes())
}

/// How long the pieces are.
const STEPS: [usize; 4] = [1, 2, 7, 1_000];

const TEXTS: [&str; 5] = [EACH, "", "goal\n", "goals 4294967295\n", "clash 0\nend\n"];

#[test]
fn texts_and_their_lines(rt: HostRuntime) -> Result<(), Fail> {
    let alloc = rt.alloc();
    for text in TEXTS {
        for step in STEPS {
            let again = read_back(alloc, text.as_bytes(), step)?;
            assert_eq!(rt; again.as_slice(), text.as_bytes());
        }
    }
    Ok(())
}

/// Texts that aren't lines, and what is wrong with each.
const FAULTS: [(&str, LineFault); 36] = [
    ("end", LineFault::Unfinished),
    ("end\ngoal +0 -2\nru", LineFault::Unfinished),
    ("\n", LineFault::NotALine(1)),
    ("end\n\n", LineFault::NotALine(2)),
    ("end\r\n", LineFault::NotALine(1)),
    ("goals 01\nend", LineFault::NotALine(1)),
    ("goals 4294967296\n", LineFault::NotALine(1)),
    ("goals  1\n", LineFault::NotALine(1)),
    ("goals \n", LineFault::NotALine(1)),
    ("goals\n", LineFault::NotALine(1)),
    ("goal \n", LineFault::NotALine(1)),
    ("goal +1 \n", LineFault::NotALine(1)),
    ("goal  +1\n", LineFault::NotALine(1)),
    ("end\nend\nrule 1\n", LineFault::NotALine(3)),
    ("at text\n", LineFault::NotALine(1)),
    ("certificate 2\n", LineFault::NotALine(1)),
    ("kind -\n", LineFault::NotALine(1)),
    ("clash +1\n", LineFault::NotALine(1)),
    ("entry 1 2\n", LineFault::NotALine(1)),
    ("count 1\n", LineFault::NotALine(1)),
    (" end\n", LineFault::NotALine(1)),
    ("row 1 02\n", LineFault::NotALine(1)),
    ("least 1 \n", LineFault::NotALine(1)),
    ("cap\n", LineFault::NotALine(1)),
    ("cap 0 +1\n", LineFault::NotALine(1)),
    ("object 6\n", LineFault::NotALine(1)),
    ("object 6 1 1\n", LineFault::NotALine(1)),
    ("member 0\n", LineFault::NotALine(1)),
    ("member 0 goal\n", LineFault::NotALine(1)),
    ("member 0 goal 1 2\n", LineFault::NotALine(1)),
    ("index clash\n", LineFault::NotALine(1)),
    ("tail 0 -\n", LineFault::NotALine(1)),
    ("short goal\n", LineFault::NotALine(1)),
    ("short 0\n", LineFault::NotALine(1)),
    ("short -  -\n", LineFault::NotALine(1)),
    ("keep 0\n", LineFault::NotALine(1)),
];

#[test]
fn texts_with_a_fault(rt: HostRuntime) -> Result<(), Fail> {
    let alloc = rt.alloc();
    for (text, fault) in FAULTS {
        for step in STEPS {
            match read_back(alloc, text.as_bytes(), step) {
                Ok(_) => assert!(rt; false, "{text:?} was read"),
                Err(found) => assert!(rt; found == fault, "{text:?}: {found:?}"),
            }
        }
    }
    Ok(())
}

fn nines(alloc: Global, count: usize) -> Result<Vec<u8>, AllocError> {
    vec![in alloc; b'9'; count]
}

#[test]
fn long_lines(rt: HostRuntime) -> Result<(), Fail> {
    let alloc = rt.alloc();
    for step in [4_096, 2_000_000] {
        let mut text = nines(alloc, 1_048_576)?;
        let found = read_back(alloc, text.as_slice(), step).err();
        assert!(rt; found == Some(LineFault::Unfinished));
        text.push(b'\n')?;
        let found = read_back(alloc, text.as_slice(), step).err();
        assert!(rt; found == Some(LineFault::NotALine(1)));
        let longer = nines(alloc, 1_048_577)?;
        let found = read_back(alloc, longer.as_slice(), step).err();
        assert!(rt; found == Some(LineFault::LineTooLong(1)));
    }
    Ok(())
}
