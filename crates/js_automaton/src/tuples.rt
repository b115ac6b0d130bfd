//! States of words for a list of atoms, taken on by classes of characters.

ghost use Rattle.std.specs.Prelude.{◌≡◌, ◌≤◌, true, length, map, IfOk};
ghost use Rattle.std.specs.Option.{ForSome};
ghost use Rattle.state_laws.specs.Flow.{next_state};
ghost use Rattle.js_nfa.specs.View.{tree_of, state_view};
ghost use Rattle.js_nfa.specs.Columns.{IsFollow};
ghost use Rattle.word_states.specs.Classes.{class_firsts, dividers};
ghost use Rattle.word_states.specs.WordState.{greatest_least};
ghost use Rattle.js_automaton.specs.Parts.{are_placed, atoms_made};
ghost use Rattle.js_automaton.specs.Trie.{AreEnds, edges_of, listed};
ghost use Rattle.js_automaton.specs.ClassView.{AreClasses, first_of};

use crate::classes::{Class, classes, firsts};
use crate::fault::AutoFault;
use crate::gather::{PAST, count_all, longer, longest};
use crate::part::Part;
use crate::parts::{ends_of, parts_of, trie_of, with_columns};
use crate::state::TupleState;
use crate::trie::Trie;
use indexmap::IndexSet;
use js_doc::Memory;
use js_nfa::{Atom, Nfa, PatternState};
use js_pattern::CharSet;
use js_pattern_positions::PositionSet;
use std::alloc::Global;

/// The classes of characters and the states of words for a list of atoms. Contracts see the atoms, by `atoms_of`.
#[derive(Drop)]
pub struct Tuples {
    parts: Vec<Part>,
    patterns: Vec<Nfa>,
    trie: Trie,
    ends: IndexSet<(usize, usize)>,
    classes: Vec<Class>,
    longest: u128,
    ghost places: { are_placed 0 parts.items (length patterns.items) ≡ true },
    ghost nodes: { trie.edges.keys ≡ edges_of (listed (atoms_made patterns.items parts.items)) },
    ghost found: { AreEnds (atoms_made patterns.items parts.items) ends.keys },
    ghost firsts: { map first_of classes.items ≡ class_firsts (atoms_made patterns.items parts.items) },
    ghost sets: { AreClasses (dividers (atoms_made patterns.items parts.items)) classes.items },
    ghost few: { length classes.items ≤ 1024 },
    ghost greatest: { longest ≡ greatest_least (atoms_made patterns.items parts.items) },
}

impl Tuples {
    ghost use Rattle.std.specs.Prelude.{◌<◌, ◌+◌, ◌⊎◌, [], ◌∷◌, ◌++◌, ℕ, List, true, false, get_or, IfOk, IfErr, IfSome, OnOk, IsTrue, ◌↔◌};
    ghost use Rattle.std.specs.List.{list_any};
    ghost use Rattle.std.specs.Option.{option_map_or};
    ghost use Rattle.word_states.specs.WordState.{word_state};
    ghost use Rattle.patterns.specs.CharSet.{has};
    ghost use Rattle.patterns.specs.Tree.{empty};
    ghost use Rattle.word_states.specs.Atom.{Match, LengthMin, is_true};
    ghost use Rattle.word_states.specs.Classes.{are_alike, class_count, is_in_class};
    ghost use Rattle.js_nfa.specs.AtomView.{atom_view};
    ghost use Rattle.js_nfa.specs.View.{tree_of};
    ghost use Rattle.js_automaton.specs.Trie.{same_edge};
    ghost use Rattle.js_automaton.specs.Tuple.{IsStateOf, pattern_states};
    ghost use Rattle.word_states.specs.AtomPositions.{positions_of};
    ghost use Rattle.js_automaton.specs.Told.{matches_in};
    ghost use Rattle.js_automaton.specs.TuplesView.{atoms_of};
    ghost use Rattle.js_automaton.specs.Follows.{AreFollows};

    /// The classes and states of these atoms. The limit on positions is looked at before that on classes.
    pub fn new(alloc: Global, atoms: &[Atom]) -> Result<Tuples, AutoFault>
        ensures atoms { IfOk result (λ t. atoms_of t ≡ map atom_view atoms.now) }
        ensures positions { OnOk result (positions_of (map atom_view atoms.now) ≤ 16384) }
        ensures classes { OnOk result (class_count (map atom_view atoms.now) ≤ 1024) }
        ensures limit_positions { IfErr result (λ fault. fault ≡ AutoFault.LimitPositions
            → 16384 < positions_of (map atom_view atoms.now)) }
        ensures limit_classes { IfErr result (λ fault. fault ≡ AutoFault.LimitClasses
            → (positions_of (map atom_view atoms.now) ≤ 16384) × (1024 < class_count (map atom_view atoms.now))) }
        ensures only { IfErr result (λ fault. (fault ≡ AutoFault.LimitPositions) ⊎ (fault ≡ AutoFault.LimitClasses)
            ⊎ (fault ≡ AutoFault.Memory)) }
    {
        if count_all(atoms) == PAST {
            return Err(AutoFault::LimitPositions);
        }
        let classes = classes(alloc, atoms)?;
        let (patterns, parts) = parts_of(alloc, atoms)?;
        let trie = trie_of(alloc, &parts)?;
        let ends = ends_of(alloc, &trie, &parts)?;
        let longest = longest(atoms);
        Ok(Tuples {
            parts,
            patterns,
            trie,
            ends,
            classes,
            longest,
        })
    }

    /// The same, ready to go on by `follows` and `step_by` from many states. For a pattern and the classes, where both
    /// are many, it makes what `Nfa::with_columns` does.
    pub(crate) fn with_columns(self, alloc: Global) -> Result<Tuples, Memory>
        ensures { IfOk result (λ t. atoms_of t ≡ atoms_of self) }
    {
        let firsts = firsts(alloc, &self.classes)?;
        let patterns = with_columns(alloc, self.patterns, &firsts)?;
        Ok(Tuples {
            parts: self.parts,
            patterns,
            trie: self.trie,
            ends: self.ends,
            classes: self.classes,
            longest: self.longest,
        })
    }

    /// The number of classes.
    pub fn classes(&self) -> u32
        ensures { result ≡ class_count (atoms_of self.now) }
    {
        self.classes.len() as u32
    }

    /// The characters of a class.
    pub fn class_set(&self, class: u32) -> &CharSet
        requires { class < class_count (atoms_of self.now) }
        ensures { (c : ℕ) → has result.now c ≡ is_in_class (atoms_of self.now) class c }
    {
        &self.classes[class as usize].set
    }

    /// The state of the empty word.
    pub fn start(&self, alloc: Global) -> Result<TupleState, Memory>
        ensures { IfOk result (λ s. IsStateOf (atoms_of self.now) s []) }
    {
        let mut patterns = Vec::with_capacity(alloc, self.patterns.len())?;
        for nfa in &self.patterns {
            patterns.push(nfa.first_state(alloc)?)?;
        }
        Ok(TupleState {
            is_empty: true,
            patterns,
            node: Some(0),
            length: 0,
        })
    }

    /// The state after one more character of a class.
    pub fn step(&self, alloc: Global, state: &TupleState, class: u32) -> Result<TupleState, Memory>
        requires class { class < class_count (atoms_of self.now) }
        requires made { (w : List ℕ) × IsStateOf (atoms_of self.now) state.now w }
        ensures { IfOk result (λ s. (w : List ℕ) (c : ℕ) → IsStateOf (atoms_of self.now) state.now w
            → is_in_class (atoms_of self.now) class c ≡ true → IsStateOf (atoms_of self.now) s (w ++ c ∷ [])) }
    {
        let c = self.classes[class as usize].first;
        let mut patterns = Vec::with_capacity(alloc, self.patterns.len())?;
        for (i, nfa) in self.patterns.iter().enumerate() {
            patterns.push(nfa.next_state(alloc, &state.patterns[i], state.is_empty, c)?)?;
        }
        Ok(self.state_after(state, patterns, c))
    }

    /// What may follow the state in each pattern, where `with_columns` spares a walk for each class.
    pub(crate) fn follows(
        &self,
        alloc: Global,
        state: &TupleState,
    ) -> Result<Vec<Option<PositionSet>>, Memory>
        requires { (w : List ℕ) × IsStateOf (atoms_of self.now) state.now w }
        ensures { IfOk result (λ follows. AreFollows self.now.patterns.items state.now.patterns.items follows.items) }
    {
        let mut follows = Vec::with_capacity(alloc, self.patterns.len())?;
        for (i, nfa) in self.patterns.iter().enumerate() {
            follows.push(nfa.follow(alloc, &state.patterns[i])?)?;
        }
        Ok(follows)
    }

    /// `step` by what may follow the state, which is the same for each class.
    pub(crate) fn step_by(
        &self,
        alloc: Global,
        state: &TupleState,
        follows: &[Option<PositionSet>],
        class: u32,
    ) -> Result<TupleState, Memory>
        requires class { class < class_count (atoms_of self.now) }
        requires made { (w : List ℕ) × IsStateOf (atoms_of self.now) state.now w }
        requires follows { AreFollows self.now.patterns.items state.now.patterns.items follows.now }
        ensures { IfOk result (λ s. (w : List ℕ) (c : ℕ) → IsStateOf (atoms_of self.now) state.now w
            → is_in_class (atoms_of self.now) class c ≡ true → IsStateOf (atoms_of self.now) s (w ++ c ∷ [])) }
    {
        let c = self.classes[class as usize].first;
        let mut patterns = Vec::with_capacity(alloc, self.patterns.len())?;
        for (i, nfa) in self.patterns.iter().enumerate() {
            let place = Place {
                first: state.is_empty,
                class: class as usize,
                character: c,
            };
            patterns.push(next_of(alloc, nfa, &state.patterns[i], &follows[i], place)?)?;
        }
        Ok(self.state_after(state, patterns, c))
    }

    /// The state after one more character, whose states of patterns are these.
    fn state_after(&self, state: &TupleState, patterns: Vec<PatternState>, c: char) -> TupleState
        ensures { (w : List ℕ) (d : ℕ) → IsStateOf (atoms_of self.now) state.now w
            → map state_view patterns.items ≡ pattern_states (atoms_of self.now) (w ++ c ∷ [])
            → are_alike (dividers (atoms_of self.now)) c d ≡ true
            → IsStateOf (atoms_of self.now) result (w ++ d ∷ []) }
    {
        let node = self.trie.child_of(state.node, c);
        let length = longer(state.length, self.longest);
        TupleState {
            is_empty: false,
            patterns,
            node,
            length,
        }
    }

    /// Whether an atom is true of the words with that state.
    pub fn truth(&self, state: &TupleState, atom: usize) -> bool
        requires atom { atom < length (atoms_of self.now) }
        requires made { (w : List ℕ) × IsStateOf (atoms_of self.now) state.now w }
        ensures { (w : List ℕ) → IsStateOf (atoms_of self.now) state.now w
            → result ≡ is_true (get_or (atoms_of self.now) atom (LengthMin 0)) w }
    {
        match &self.parts[atom] {
            Part::Match(place) => {
                self.patterns[*place].is_accepted(&state.patterns[*place], state.is_empty)
            }
            Part::Words(_) => self.leads_to(state.node, atom),
            Part::Length(least) => *least <= state.length,
        }
    }

    /// The place of an atom's pattern among the patterns.
    pub(crate) fn place_of(&self, atom: usize) -> Option<usize>
        requires { atom < length (atoms_of self.now) }
        ensures { IfSome result (λ place. (place < length self.now.patterns.items)
            × (get_or (atoms_of self.now) atom (LengthMin 0)
            ≡ Match (get_or (map tree_of self.now.patterns.items) place empty))) }
    {
        match &self.parts[atom] {
            Part::Match(place) => Some(*place),
            _ => None,
        }
    }

    /// How many patterns there are.
    pub(crate) fn count_patterns(&self) -> usize
        ensures { result ≡ length self.now.patterns.items }
    {
        self.patterns.len()
    }

    /// Appends whether each pattern matches in the words with that state.
    pub(crate) fn tell(&self, state: &TupleState, told: &mut PositionSet)
        requires made { (w : List ℕ) × IsStateOf (atoms_of self.now) state.now w }
        requires room { length told.old.flags + length self.now.patterns.items ≤ told.old.room }
        ensures told { (w : List ℕ) → IsStateOf (atoms_of self.now) state.now w
            → told.new.flags ≡ told.old.flags ++ matches_in (map tree_of self.now.patterns.items) w }
        ensures room { told.new.room ≡ told.old.room }
    {
        for (place, nfa) in self.patterns.iter().enumerate() {
            told.push(nfa.is_accepted(&state.patterns[place], state.is_empty));
        }
    }

    /// Whether a word of that atom leads to the node.
    fn leads_to(&self, node: Option<usize>, atom: usize) -> bool
        ensures { result ≡ option_map_or (λ n. list_any (same_edge (n, atom)) self.now.ends.keys) node false }
    {
        match node {
            Some(node) => self.ends.contains(&(node, atom)),
            None => false,
        }
    }

    /// Whether two states are the same. It costs a look at each of their parts.
    pub fn same(&self, x: &TupleState, y: &TupleState) -> bool
        requires first { (v : List ℕ) × IsStateOf (atoms_of self.now) x.now v }
        requires second { (w : List ℕ) × IsStateOf (atoms_of self.now) y.now w }
        ensures { (v w : List ℕ) → IsStateOf (atoms_of self.now) x.now v → IsStateOf (atoms_of self.now) y.now w
            → (IsTrue result ↔ (word_state (atoms_of self.now) v ≡ word_state (atoms_of self.now) w)) }
    {
        x == y
    }
}

/// The next character: whether it is the word's first, its class, and which it is.
#[derive(Clone, Copy)]
struct Place {
    first: bool,
    class: usize,
    character: char,
}

/// The state of a pattern after one more character, by what may follow the state where the word isn't empty.
fn next_of(
    alloc: Global,
    nfa: &Nfa,
    state: &PatternState,
    follows: &Option<PositionSet>,
    place: Place,
) -> Result<PatternState, Memory>
    requires { ForSome follows.now (IsFollow (tree_of nfa.now) (state_view state.now)) }
    ensures { IfOk result (λ s. state_view s
        ≡ next_state (tree_of nfa.now) place.first place.character (state_view state.now)) }
{
    if place.first {
        nfa.next_state(alloc, state, place.first, place.character)
    } else {
        nfa.next_state_by(alloc, state, follows, place.class, place.character)
    }
}
