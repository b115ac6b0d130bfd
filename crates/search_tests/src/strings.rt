//! Words of sets of four literals: a pattern, one listed word, and two bounds.

ghost use Rattle.std.specs.Prelude.{◌≡◌, IfOk, length, true};
ghost use Rattle.js_algebra.specs.View.{are_in_table};

use js_algebra::{
    BranchId, Core, JsonKind, Node, NodeList, Pattern, Pos, RankList, Signed, SignedList,
};
use js_automaton::AutoFault;
use js_doc::{Str, StrList};
use js_kept_automaton::KeptAutomaton;
use js_pattern::read_pattern;
use js_strings::{string_alternatives, string_words};
use js_tableau::Branch;
use std::alloc::Global;
use std::test::Fail;

fn table(alloc: Global, pattern: &str, word: &str, low: u64, high: u64) -> Result<Core, Fail>
    ensures { IfOk result (λ core. length core.positions ≡ 4) }
{
    let Ok(re) = read_pattern(alloc, pattern) else {
        return Err("no pattern")?;
    };
    let source = Str::from_text(alloc, pattern)?;
    let words = StrList::from_vec(vec![in alloc; Str::from_text(alloc, word)?]?);
    let nodes = vec![in alloc;
        Node::Match(Pattern { source, re }),
        Node::Words(words),
        Node::LengthMin(low),
        Node::LengthMax(high),
    ]?;
    let ranks = vec![in alloc; 0, 0, 0, 0]?;
    Ok(Core::make(alloc, NodeList::from_vec(nodes), RankList::from_vec(ranks))?)
}

/// The word that is found, or why there is none.
fn answer(alloc: Global, core: &Core, set: SignedList) -> Result<Str, Fail>
    requires { are_in_table core.now.positions set ≡ true }
{
    answer_by(alloc, core, set, &mut KeptAutomaton::new())
}

/// The same with what was kept of other sets, which changes nothing.
fn answer_by(
    alloc: Global,
    core: &Core,
    set: SignedList,
    kept: &mut KeptAutomaton,
) -> Result<Str, Fail>
    requires { are_in_table core.now.positions set ≡ true }
{
    let id = BranchId {
        kind: JsonKind::Text,
        number: 0,
    };
    let branch = Branch { id, set };
    let leaf = match string_alternatives(alloc, core, &branch, kept) {
        Ok(leaf) => leaf,
        Err(AutoFault::LimitStates) => return Ok(Str::from_text(alloc, "states")?),
        Err(_) => return Err("another fault")?,
    };
    if leaf.alternatives.as_slice().is_empty() {
        return Ok(Str::from_text(alloc, "none")?);
    }
    let words = string_words(alloc, core, &branch, 0, 1)?;
    let word = words.as_slice().first().ok_or("no word")?;
    Ok(word.copy(alloc)?)
}

#[test]
fn all_four(rt: HostRuntime) -> Result<(), Fail> {
    // The pattern, not that word, and both bounds. A script that tries all short words in order gave what is wanted.
    let cases = [
        ("^a+$", "b", 4, 2, "none"),
        ("^a+$", "b", 4, 0, "none"),
        ("b", "b", 0, 6, "ab"),
        ("b", "b", 0, 0, "none"),
        ("^(?:ab|c)*$", "", 0, 3, "c"),
        ("^(?:ab|c)*$", "abab", 4, 1, "none"),
        ("[bc]{2}", "bb", 0, 3, "bc"),
        ("[bc]{2}", "b", 2, 1, "none"),
        ("^[^a]{2,3}$", "bb", 0, 1, "none"),
        ("^[^a]{2,3}$", "bb", 2, 1, "none"),
        ("-.*a", "b", 0, 1, "none"),
        ("-.*a", "-a", 0, 1, "none"),
        ("a|^$", "b", 0, 6, ""),
        ("a|^$", "b", 0, 1, ""),
        ("^(?:a?b){2}$", "bb", 0, 3, "abb"),
        ("^(?:a?b){2}$", "bb", 1, 3, "abb"),
        ("c$", "c", 0, 2, "ac"),
        ("c$", "c", 1, 6, "ac"),
        ("^.{3}$", "aaa", 0, 2, "none"),
        ("^a*b?c+$", "c", 1, 3, "ac"),
        ("^a*b?c+$", "c", 0, 3, "ac"),
        ("(?:ba){1,2}-?$", "ba", 0, 0, "none"),
        ("(?:ba){1,2}-?$", "ba", 0, 6, "aba"),
    ];
    for (pattern, word, low, high, wanted) in cases {
        let core = table(rt.alloc(), pattern, word, low, high)?;
        let set = vec![in rt.alloc();
            Signed::plus(Pos(0)),
            Signed::minus(Pos(1)),
            Signed::plus(Pos(2)),
            Signed::plus(Pos(3)),
        ]?;
        let found = answer(rt.alloc(), &core, SignedList::from_vec(set))?;
        assert_eq!(rt; found.as_text(), wanted);
    }
    Ok(())
}

/// All words with these digits have eight characters or more.
#[test]
fn digits(rt: HostRuntime) -> Result<(), Fail> {
    let cases = [(8, "000-0000"), (7, "none")];
    for (high, wanted) in cases {
        let core = table(rt.alloc(), r"\d{3}-\d{4}", "b", 0, high)?;
        let set = vec![in rt.alloc(); Signed::plus(Pos(0)), Signed::plus(Pos(3))]?;
        let found = answer(rt.alloc(), &core, SignedList::from_vec(set))?;
        assert_eq!(rt; found.as_text(), wanted);
    }
    Ok(())
}

#[test]
fn by_one_literal(rt: HostRuntime) -> Result<(), Fail> {
    let core = table(rt.alloc(), "^[0-9]{3}-[0-9]{4}$", "ab", 0, 2)?;
    let cases = [
        (Signed::plus(Pos(0)), "000-0000"),
        (Signed::minus(Pos(0)), ""),
        (Signed::plus(Pos(1)), "ab"),
        (Signed::plus(Pos(2)), ""),
        (Signed::minus(Pos(2)), "none"),
        (Signed::plus(Pos(3)), ""),
        (Signed::minus(Pos(3)), "aaa"),
    ];
    for (literal, wanted) in cases {
        let set = vec![in rt.alloc(); literal]?;
        let found = answer(rt.alloc(), &core, SignedList::from_vec(set))?;
        assert_eq!(rt; found.as_text(), wanted);
    }
    Ok(())
}

#[test]
fn most_states(rt: HostRuntime) -> Result<(), Fail> {
    let longest = table(rt.alloc(), "a", "a", 65_535, 65_536)?;
    let set = vec![in rt.alloc(); Signed::plus(Pos(2))]?;
    let found = answer(rt.alloc(), &longest, SignedList::from_vec(set))?;
    assert_eq!(rt; found.as_text().len(), 65_535);
    for c in found.as_text().chars() {
        assert_eq!(rt; c, 'a');
    }
    let longer = table(rt.alloc(), "a", "a", 65_536, 65_536)?;
    let set = vec![in rt.alloc(); Signed::plus(Pos(2))]?;
    let limit = answer(rt.alloc(), &longer, SignedList::from_vec(set))?;
    assert_eq!(rt; limit.as_text(), "states");
    Ok(())
}
