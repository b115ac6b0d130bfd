//! Branches over one table: members by name and by pattern, names that have to be there or mustn't, bounds of the count
//! and names that a position allows; and the first names of cells. What is wanted was worked out by hand.

ghost use Rattle.std.specs.Prelude.{◌≡◌, IfOk, length, true};
ghost use Rattle.js_algebra.specs.View.{are_in_table};
ghost use Rattle.js_objects.specs.Steps.{IsOfNames};

use js_algebra::{
    BranchId, Core, JsonKind, KindList, NameSet, Node, NodeList, Pattern, PatternList, Pos,
    RankList, Signed, SignedList,
};
use js_automaton::Automaton;
use js_cells::Cells;
use js_doc::{Memory, Str, StrList};
use js_expansion::{Alternative, Leaf, Slot};
use js_kept_automaton::KeptAutomaton;
use js_objects::{ObjectFault, name_automaton, object_alternatives, object_words};
use js_pattern::read_pattern;
use js_tableau::Branch;
use std::alloc::Global;
use std::test::Fail;

fn pattern(alloc: Global, text: &str) -> Result<Pattern, Fail> {
    let Ok(re) = read_pattern(alloc, text) else {
        return Err("no pattern")?;
    };
    let source = Str::from_text(alloc, text)?;
    Ok(Pattern { source, re })
}

/// Null, a string, the word a and nothing; what holds of the values of a and b, and nothing of others; names that are
/// there; what holds of the values of names with an a and with a b; that each name is a; counts; long names; that each
/// name is a or b, and three members; and what holds of the values of names that begin with a and that end with b.
fn table(alloc: Global) -> Result<Core, Fail>
    ensures { IfOk result (λ core. length core.positions ≡ 25) }
{
    let null = KindList::from_vec(vec![in alloc; JsonKind::Null]?);
    let text = KindList::from_vec(vec![in alloc; JsonKind::Text]?);
    let word = StrList::from_vec(vec![in alloc; Str::from_text(alloc, "a")?]?);
    let names = vec![in alloc; Str::from_text(alloc, "a")?, Str::from_text(alloc, "b")?]?;
    let two = vec![in alloc; Str::from_text(alloc, "a")?, Str::from_text(alloc, "b")?]?;
    let others = NameSet::Others(
        StrList::from_vec(names),
        PatternList::from_vec(Vec::new(alloc)),
    );
    let nodes = vec![in alloc;
        Node::Types(null),
        Node::Types(text),
        Node::Words(word),
        Node::False,
        Node::MembersOf(NameSet::Named(Str::from_text(alloc, "a")?), Pos(0)),
        Node::MembersOf(NameSet::Named(Str::from_text(alloc, "b")?), Pos(1)),
        Node::MembersOf(others, Pos(3)),
        Node::Has(Str::from_text(alloc, "a")?),
        Node::Has(Str::from_text(alloc, "b")?),
        Node::Has(Str::from_text(alloc, "c")?),
        Node::Has(Str::from_text(alloc, "ab")?),
        Node::MembersOf(NameSet::Matching(pattern(alloc, "a")?), Pos(0)),
        Node::MembersOf(NameSet::Matching(pattern(alloc, "b")?), Pos(1)),
        Node::NamesIn(Pos(2)),
        Node::PropsMax(1),
        Node::PropsMin(2),
        Node::PropsMin(65_536),
        Node::PropsMin(65_537),
        Node::LengthMin(65_536),
        Node::NamesIn(Pos(18)),
        Node::Words(StrList::from_vec(two)),
        Node::NamesIn(Pos(20)),
        Node::PropsMin(3),
        Node::MembersOf(NameSet::Matching(pattern(alloc, "^a")?), Pos(0)),
        Node::MembersOf(NameSet::Matching(pattern(alloc, "b$")?), Pos(0)),
    ]?;
    let ranks = vec![in alloc;
        0, 0, 0, 0, 0, 0, 0, 0, 0, 0, 0, 0, 0, 0, 0, 0, 0, 0, 0, 0, 0, 0, 0, 0, 0,
    ]?;
    Ok(Core::make(alloc, NodeList::from_vec(nodes), RankList::from_vec(ranks))?)
}

/// The branch of these positions, as far as they are in the table.
fn branch(alloc: Global, core: &Core, plus: &[u32], minus: &[u32]) -> Result<Branch, Fail>
    ensures { IfOk result (λ b. are_in_table core.now.positions b.set ≡ true) }
{
    let mut set = Vec::new(alloc);
    for p in plus {
        if *p < core.len() {
            set.push(Signed::plus(Pos(*p)))?;
        }
    }
    for p in minus {
        if *p < core.len() {
            set.push(Signed::minus(Pos(*p)))?;
        }
    }
    let id = BranchId {
        kind: JsonKind::Object,
        number: 3,
    };
    Ok(Branch {
        id,
        set: SignedList::from_vec(set),
    })
}

fn answer(
    alloc: Global,
    core: &Core,
    plus: &[u32],
    minus: &[u32],
) -> Result<Result<Leaf, ObjectFault>, Fail> {
    let branch = branch(alloc, core, plus, minus)?;
    Ok(object_alternatives(alloc, core, &branch, &mut KeptAutomaton::new()))
}

/// For each alternative: the slot and the positions of each member, those with minus from 100 on; the need; and the
/// slot, the positions and the room of each filler.
fn numbers(alloc: Global, alternatives: &[Alternative]) -> Result<Vec<u32>, Memory> {
    let mut all = Vec::new(alloc);
    for alternative in alternatives {
        all.push(1_000_000)?;
        for member in alternative.members.as_slice() {
            all.push(slot(member.slot))?;
            add_positions(member.goal.as_slice(), &mut all)?;
        }
        all.push(alternative.need)?;
        for filler in alternative.fillers.as_slice() {
            all.push(slot(filler.slot))?;
            add_positions(filler.goal.as_slice(), &mut all)?;
            all.push(filler.room)?;
        }
    }
    Ok(all)
}

fn add_positions(goal: &[Signed], all: &mut Vec<u32>) -> Result<(), Memory> {
    for x in goal {
        all.push(if x.plus {
            x.pos.0
        } else {
            100 + x.pos.0.min(100)
        })?;
    }
    Ok(())
}

/// The cell and the number of a name.
fn slot(slot: Slot) -> u32 {
    match slot {
        Slot::Name(cell, k) if cell < 10 && k < 10 => 1_000 + 10 * cell + k,
        _ => 0,
    }
}

struct Case {
    plus: &'static [u32],
    minus: &'static [u32],
    numbers: &'static [u32],
}

const CASES: [Case; 17] = [
    // A closed object, in which a has to be: b is the other member.
    Case {
        plus: &[4, 5, 6, 7, 15],
        minus: &[],
        numbers: &[1_000_000, 1_010, 0, 1, 1_020, 1, 1],
    },
    // One with a further name.
    Case {
        plus: &[4, 5, 6, 9],
        minus: &[],
        numbers: &[],
    },
    // Both patterns match the name.
    Case {
        plus: &[10, 11, 12],
        minus: &[],
        numbers: &[1_000_000, 1_030, 0, 1, 0],
    },
    // The name that has to be there is none that may be.
    Case {
        plus: &[8, 13],
        minus: &[],
        numbers: &[],
    },
    // The one name that may be there, and one member more.
    Case {
        plus: &[7, 13, 15],
        minus: &[],
        numbers: &[1_000_000, 1_010, 1],
    },
    // The member a serves two demands.
    Case {
        plus: &[7],
        minus: &[4],
        numbers: &[1_000_000, 1_010, 100, 0],
    },
    // Members with an a, with a b and with both serve two demands in five ways.
    Case {
        plus: &[],
        minus: &[11, 12],
        numbers: &[
            1_000_000, 1_010, 100, 1_020, 101, 0, 1_000_000, 1_010, 100, 1_030, 101, 0, 1_000_000,
            1_030, 100, 101, 0, 1_000_000, 1_030, 100, 1_020, 101, 0, 1_000_000, 1_030, 100, 1_031,
            101, 0,
        ],
    },
    // Fillers of three cells.
    Case {
        plus: &[4, 5, 15],
        minus: &[],
        numbers: &[1_000_000, 2, 1_000, 65_537, 1_010, 0, 1, 1_020, 1, 1],
    },
    // Bounds that cross, of which the lower one is too large.
    Case {
        plus: &[14, 17],
        minus: &[],
        numbers: &[],
    },
    Case {
        plus: &[],
        minus: &[],
        numbers: &[1_000_000, 0],
    },
    Case {
        plus: &[16],
        minus: &[],
        numbers: &[1_000_000, 65_536, 1_000, 65_537],
    },
    // Some name isn't a.
    Case {
        plus: &[],
        minus: &[13],
        numbers: &[1_000_000, 1_000, 0],
    },
    // No member a, and two others.
    Case {
        plus: &[15],
        minus: &[7],
        numbers: &[1_000_000, 2, 1_000, 65_537],
    },
    // More than one member.
    Case {
        plus: &[7],
        minus: &[14],
        numbers: &[1_000_000, 1_010, 1, 1_000, 65_537],
    },
    // Two members, and fewer than two.
    Case {
        plus: &[7, 8],
        minus: &[15],
        numbers: &[],
    },
    // Three members, and two names that may be there: there is no room for the need.
    Case {
        plus: &[21, 22],
        minus: &[],
        numbers: &[1_000_000, 3, 1_010, 2],
    },
    // One member at most, which serves both demands.
    Case {
        plus: &[14],
        minus: &[23, 24],
        numbers: &[1_000_000, 1_030, 100, 0],
    },
];

#[test]
fn branches(rt: HostRuntime) -> Result<(), Fail> {
    let core = table(rt.alloc())?;
    for case in &CASES {
        let leaf = answer(rt.alloc(), &core, case.plus, case.minus)?
            .ok()
            .ok_or("a limit")?;
        let told = numbers(rt.alloc(), leaf.alternatives.as_slice())?;
        assert!(rt; told.as_slice() == case.numbers);
    }
    Ok(())
}

#[test]
fn limits(rt: HostRuntime) -> Result<(), Fail> {
    let core = table(rt.alloc())?;
    let counts = answer(rt.alloc(), &core, &[17], &[])?;
    assert!(rt; matches!(counts, Err(ObjectFault::LimitCounts)));
    let states = answer(rt.alloc(), &core, &[19], &[])?;
    assert!(rt; matches!(states, Err(ObjectFault::LimitStates)));
    // Sixteen demands are served by one member or by up to sixteen, in more ways than may be listed.
    let same = [
        11, 11, 11, 11, 11, 11, 11, 11, 11, 11, 11, 11, 11, 11, 11, 11,
    ];
    let plans = answer(rt.alloc(), &core, &[], &same)?;
    assert!(rt; matches!(plans, Err(ObjectFault::LimitPlans)));
    Ok(())
}

/// As many names of a cell as requested, where it has them.
fn names(
    alloc: Global,
    core: &Core,
    branch: &Branch,
    cell: u32,
    count: u32,
) -> Result<StrList, Fail>
    requires { are_in_table core.now.positions branch.now.set ≡ true }
{
    let set = branch.set.as_slice();
    let mut kept = KeptAutomaton::new();
    match name_automaton(alloc, core, set, &mut kept) {
        Ok(automaton) => names_of(alloc, core, branch, automaton, cell, count),
        Err(_) => Err("no automaton")?,
    }
}

/// The same by the automaton of the names.
fn names_of(
    alloc: Global,
    core: &Core,
    branch: &Branch,
    automaton: &Automaton,
    cell: u32,
    count: u32,
) -> Result<StrList, Fail>
    requires in_table { are_in_table core.now.positions branch.now.set ≡ true }
    requires automaton { IsOfNames core.now.positions branch.now.set automaton.now }
{
    let set = branch.set.as_slice();
    let cells = Cells::new(alloc, core, set, automaton)?;
    if cell >= cells.len() {
        return Err("no such cell")?;
    }
    let most = cells.capacity(alloc, cell)?;
    if count > most {
        return Err("fewer names")?;
    }
    Ok(object_words(alloc, core, branch, cell, count)?)
}

#[test]
fn first_names(rt: HostRuntime) -> Result<(), Fail> {
    let core = table(rt.alloc())?;
    let none: &[u32] = &[];
    // Names with an a and a b; names that are neither a nor b; the names a and b; and those that begin with a and end
    // with b.
    let cases = [
        (
            none,
            [11, 12].as_slice(),
            3,
            4,
            ["ab", "ba", "aab", "aba"].as_slice(),
        ),
        ([4, 5].as_slice(), none, 0, 3, ["", "c", "d"].as_slice()),
        ([21, 22].as_slice(), none, 1, 2, ["a", "b"].as_slice()),
        (
            [14].as_slice(),
            [23, 24].as_slice(),
            3,
            1,
            ["ab"].as_slice(),
        ),
    ];
    for (plus, minus, cell, count, wanted) in cases {
        let branch = branch(rt.alloc(), &core, plus, minus)?;
        let words = names(rt.alloc(), &core, &branch, cell, count)?;
        assert!(rt; words.as_slice().len() == wanted.len());
        for (word, text) in words.as_slice().iter().zip(wanted) {
            assert_eq!(rt; word.as_text(), *text);
        }
    }
    Ok(())
}
