//! The rows that were mentioned, with their states.
//!
//! A row's word is that of the row that first named it, with the first character of a class. So the words follow from
//! the steps that are kept, and no word is kept.

ghost use Rattle.std.specs.Prelude.{◌<◌, ◌≤◌, length};
ghost use Rattle.js_automaton.specs.TuplesView.{atoms_of};
ghost use Rattle.js_check_rows.specs.Mentions.{AreMade, AreMade-prop};

use crate::fault::RowFault;
use crate::mention::{Mention, Step};
use js_automaton::Tuples;
use std::alloc::Global;

/// The first so many of `count` rows, each as its state.
#[derive(Drop)]
pub(crate) struct Mentions {
    pub(crate) tuples: Tuples,
    pub(crate) count: u32,
    pub(crate) list: Vec<Mention>,
    ghost made: { AreMade (atoms_of tuples) list.items } by { AreMade-prop (atoms_of tuples) list.items },
    ghost begun: { 0 < length list.items },
    ghost few: { length list.items ≤ count },
    ghost small: { count < 4294967296 },
}

impl Mentions {
    ghost use Rattle.std.specs.Prelude.{◌≡◌, ◌<◌, ◌≤◌, ◌++◌, ◌∷◌, [], ℕ, take, length, get_or, Ok, OnOk, IfOk, IfErr};
    ghost use Rattle.word_states.specs.Classes.{class_count, class_firsts};
    ghost use Rattle.word_states.specs.WordState.{have_same_state};
    ghost use Rattle.verdicts.specs.RowLines.{target, targets, extend, begin_table};
    ghost use Rattle.js_check_rows.specs.MentionsView.{atoms_in, words_in};
    ghost use Rattle.js_check_rows.specs.Taking.{ClassTells, LineTells};

    /// The row of the empty word.
    pub(crate) fn new(alloc: Global, tuples: Tuples, count: u32) -> Result<Mentions, RowFault>
        requires { 0 < count }
        ensures tuples { IfOk result (λ m. m.tuples ≡ tuples) }
        ensures count { IfOk result (λ m. m.count ≡ count) }
        ensures words { IfOk result (λ m. words_in m ≡ begin_table.words) }
        ensures only { IfErr result (λ fault. fault ≡ RowFault.Memory) }
    {
        let state = tuples.start(alloc)?;
        let mut list = Vec::new(alloc);
        list.push(Mention { state, step: None })?;
        Ok(Mentions {
            tuples,
            count,
            list,
        })
    }

    /// Goes from a row by each class, and compares where it leads to with the targets.
    ///
    /// After a fault further rows may have been mentioned.
    pub(crate) fn follow(&mut self, alloc: Global, row: u32, line: &[u32]) -> Result<(), RowFault>
        requires row { row < length self.old.list.items }
        requires width { length line.now ≡ class_count (atoms_in self.old) }
        ensures tuples { self.new.tuples ≡ self.old.tuples }
        ensures count { self.new.count ≡ self.old.count }
        ensures grown { take (length self.old.list.items) self.new.list.items ≡ self.old.list.items }
        ensures within { OnOk result ((k : ℕ) → get_or line.now k 0 < length self.new.list.items) }
        ensures right { OnOk result (targets (have_same_state (atoms_in self.old)) (extend (atoms_in self.old)) []
            self.old.count (words_in self.old)
            (extend (atoms_in self.old) (get_or (words_in self.old) row [])) line.now ≡ Ok (words_in self.new)) }
        ensures wrong { IfErr result (λ fault. LineTells (atoms_in self.old) self.old.count (words_in self.old)
            (extend (atoms_in self.old) (get_or (words_in self.old) row [])) line.now fault) }
    {
        for class in 0..self.tuples.classes() {
            match self.follow_class(alloc, row, class, line[class as usize]) {
                Ok(()) => {}
                Err(fault) => return Err(fault),
            }
        }
        Ok(())
    }

    /// Goes from a row by a class. The target is a row with the state that is met, or it is the next number, which then
    /// names that state.
    fn follow_class(
        &mut self,
        alloc: Global,
        row: u32,
        class: u32,
        number: u32,
    ) -> Result<(), RowFault>
        requires row { row < length self.old.list.items }
        requires class { class < class_count (atoms_in self.old) }
        ensures tuples { self.new.tuples ≡ self.old.tuples }
        ensures count { self.new.count ≡ self.old.count }
        ensures grown { take (length self.old.list.items) self.new.list.items ≡ self.old.list.items }
        ensures within { OnOk result (number < length self.new.list.items) }
        ensures right { OnOk result (target (have_same_state (atoms_in self.old)) (extend (atoms_in self.old)) []
            self.old.count (words_in self.old)
            (get_or (words_in self.old) row [] ++ get_or (class_firsts (atoms_in self.old)) class 0 ∷ []) number
            ≡ Ok (words_in self.new)) }
        ensures wrong { IfErr result (λ fault. ClassTells class
            (target (have_same_state (atoms_in self.old)) (extend (atoms_in self.old)) []
            self.old.count (words_in self.old)
            (get_or (words_in self.old) row [] ++ get_or (class_firsts (atoms_in self.old)) class 0 ∷ []) number)
            fault) }
    {
        let state = self
            .tuples
            .step(alloc, &self.list[row as usize].state, class)?;
        let known = self.list.len();
        if (number as usize) < known {
            if self.tuples.same(&state, &self.list[number as usize].state) {
                return Ok(());
            }
            return Err(RowFault::Step(class));
        }
        if number as usize != known || number >= self.count {
            return Err(RowFault::Step(class));
        }
        let step = Some(Step { row, class });
        self.list.push(Mention { state, step })?;
        Ok(())
    }

    /// How many there are.
    pub(crate) fn len(&self) -> u32
        ensures { result ≡ length self.now.list.items }
    {
        self.list.len() as u32
    }

    /// Leaves the first so many rows.
    pub(crate) fn keep_first(&mut self, count: u32)
        requires begun { 0 < count }
        ensures tuples { self.new.tuples ≡ self.old.tuples }
        ensures count { self.new.count ≡ self.old.count }
        ensures list { self.new.list.items ≡ take count self.old.list.items }
    {
        self.list.truncate(count as usize);
    }
}
