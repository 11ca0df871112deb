//! The label cache: recent searches for labels, each with its answer.

ghost use Rattle.std.specs.Prelude.{◌≡◌, ◌≤◌, List, [], length, map, IsTrue, Option};
ghost use Rattle.h41_labels.specs.KeptAnswers.{Answers, Finds, IsRight, after_search};
ghost use Rattle.h41_labels.specs.KeptAnswers.{answer_of, most_answers, with_answer};
ghost use Rattle.h41_labels.specs.private.Slots.{mark_beside};
ghost use Rattle.h41_labels.specs.declared.search.Search.TheVariants.{Global, Local};
ghost use Rattle.h41_program.specs.ProgramLines.{AnswersOf};
ghost use Rattle.h41_program.specs.Searches.{AnswersLocal, named_in, position_of};
ghost use Rattle.h41_ram.specs.RegisterMap.{RegisterMap, is_sound};

use crate::search::{KeptAnswer, Search};
use arrayvec::ArrayVec;
use h41_codes::{Parameter, Text};
use h41_program::global;
use h41_program::laws::{lists_are_determined, one_list};
use h41_ram::Ram;
use h41_walk::local;
use std::marker::Model;

/// The most answers that the label cache stores, 64. The number is this project's choice.
const MOST: usize = 64;

/// A list of at most 64 recent searches for labels with their answers, the oldest first. An answer can also be that
/// there is no such label.
#[derive(Drop)]
pub struct LabelCache {
    /// The answers, one in each slot. If all 64 slots are used, the next answer replaces the oldest one.
    slots: ArrayVec<KeptAnswer, MOST>,
    /// A number for each search, in the slot of its answer. These numbers are compared before the searches, because
    /// they differ for most pairs of searches.
    marks: ArrayVec<u32, MOST>,
    /// The index, 0 to 63, of the slot with the oldest answer, or 0 if the cache is empty.
    oldest: usize,
}

impl Model for LabelCache {
    ghost use Rattle.std.specs.Prelude.{List};
    ghost use Rattle.h41_labels.specs.declared.search.KeptAnswer.{KeptAnswer as Kept};
    ghost use Rattle.h41_labels.specs.private.Slots.{IsRing, in_turn};

    ghost Value = { List Kept };

    ghost view = { λ cache. in_turn cache.oldest cache.slots.items };

    ghost invariant = { λ cache. IsRing cache.slots.items cache.marks.items cache.oldest };
}

impl LabelCache {
    /// Returns a label cache without answers, which is right for any memory: it has no answer that is out of date.
    pub fn new() -> Self
        ensures none { result ≡ [] }
        ensures right { (memory : RegisterMap) → IsRight result memory }
    {
        LabelCache {
            slots: ArrayVec::new(),
            marks: ArrayVec::new(),
            oldest: 0,
        }
    }

    /// Returns the position (a byte of program memory, counted from 0) of the local label that a search for `LBL n`
    /// from the position `at` finds, or `None` if there is no such label. n is the number of `label`. The answer is the
    /// cached one if there is one. Otherwise it is that of `h41_walk::local`, and the cache stores it. Memory must
    /// be sound.
    pub fn local<const REGS: usize>(
        &mut self,
        ram: &Ram<REGS>,
        at: u16,
        label: Parameter,
    ) -> Option<u16>
        requires { IsTrue (is_sound ram.now.registers) }
        ensures answer { Answers ram.now.registers self.old (Local at label) result }
        ensures kept { self.new ≡ after_search (Local at label) result self.old }
        ensures most { length self.new ≤ most_answers }

        // If each cached answer is what its search finds in this memory, so is the result, and so are all cached answers afterwards.
        ensures found { IsRight self.old ram.now.registers
            → AnswersLocal ram.now.registers at label result }
        ensures right { IsRight self.old ram.now.registers → IsRight self.new ram.now.registers }
    {
        self.answer(ram, &Search::Local(at, label))
    }

    /// Returns the position (a byte of program memory, counted from 0) of the last global label with the name `name`,
    /// or `None` if there is no such label. The answer is the cached one if there is one. Otherwise it is that of
    /// `h41_program::global`, and the cache stores it. Memory must be sound.
    pub fn global<const REGS: usize>(&mut self, ram: &Ram<REGS>, name: Text<15>) -> Option<u16>
        requires { IsTrue (is_sound ram.now.registers) }
        ensures answer { Answers ram.now.registers self.old (Global name) result }
        ensures kept { self.new ≡ after_search (Global name) result self.old }
        ensures most { length self.new ≤ most_answers }
        ensures found { IsRight self.old ram.now.registers
            → AnswersOf (λ lines. position_of (named_in name lines)) ram.now.registers 0 result }
        ensures right { IsRight self.old ram.now.registers → IsRight self.new ram.now.registers }
    {
        self.answer(ram, &Search::Global(name))
    }

    /// Returns the cached answer of a search for the local label `LBL n` from the position `at`, with the number n of
    /// `label`, or `None` if the cache has none. Does not read program memory. `Some(None)` means that there is no such
    /// label; otherwise the answer is the position of the label, a byte of program memory.
    pub fn kept_local(&self, at: u16, label: Parameter) -> Option<Option<u16>>
        ensures { result ≡ answer_of (Local at label) self.now }
    {
        self.kept(&Search::Local(at, label))
    }

    /// Returns the cached answer of a search for the global label with the name `name`, or `None` if the cache has
    /// none. Does not read program memory. `Some(None)` means that there is no such label; otherwise the answer is the
    /// position of the label, a byte of program memory.
    pub fn kept_global(&self, name: Text<15>) -> Option<Option<u16>>
        ensures { result ≡ answer_of (Global name) self.now }
    {
        self.kept(&Search::Global(name))
    }

    /// Removes all answers from the label cache. Callers do this if the program may have changed, because the answers
    /// may then be out of date.
    pub fn forget(&mut self)
        ensures none { self.new ≡ [] }
        ensures right { (memory : RegisterMap) → IsRight self.new memory }
    {
        self.slots.clear();
        self.marks.clear();
        self.oldest = 0;
    }

    /// Returns the cached answer of a search for a label. If there is none, searches program memory and stores the
    /// answer in the cache.
    fn answer<const REGS: usize>(&mut self, ram: &Ram<REGS>, search: &Search) -> Option<u16>
        requires { IsTrue (is_sound ram.now.registers) }
        ensures answer { Answers ram.now.registers self.old search.now result }
        ensures kept { self.new ≡ after_search search.now result self.old }
        ensures most { length self.new ≤ most_answers }
        ensures found { IsRight self.old ram.now.registers
            → Finds ram.now.registers search.now result }
        ensures right { IsRight self.old ram.now.registers → IsRight self.new ram.now.registers }
    {
        match self.kept(search) {
            Some(answer) => answer,
            None => {
                let answer = found(ram, search);
                self.keep(*search, answer);
                answer
            }
        }
    }

    /// Returns the cached answer of a search for a label, or `None` if the cache has none. `Some(None)` means that
    /// there is no such label.
    fn kept(&self, search: &Search) -> Option<Option<u16>>
        ensures value { result ≡ answer_of search.now self.now }
        ensures most { length self.now ≤ most_answers }
    {
        let slots = self.slots.as_slice();
        let marks = self.marks.as_slice();
        match kept_among(&slots[self.oldest..], &marks[self.oldest..], search) {
            Some(answer) => Some(answer),
            None => kept_among(&slots[..self.oldest], &marks[..self.oldest], search),
        }
    }

    /// Appends the answer of a search for a label to the cache. If there are already 64 answers, the oldest is removed.
    fn keep(&mut self, search: Search, answer: Option<u16>)
        ensures { self.new ≡ with_answer search answer self.old }
    {
        let mark = search.mark();
        let kept = KeptAnswer { search, answer };
        if self.slots.is_full() {
            self.slots[self.oldest] = kept;
            self.marks[self.oldest] = mark;
            self.oldest = (self.oldest + 1) % MOST;
        } else {
            self.slots.push(kept);
            self.marks.push(mark);
        }
    }
}

/// Returns the first answer among `slots` whose search for a label is the same as `search`, or `None` if there is none.
/// `marks` are the numbers (`Search::mark`) of the searches in `slots`.
#[inline(always)]
fn kept_among(slots: &[KeptAnswer], marks: &[u32], search: &Search) -> Option<Option<u16>>
    requires { marks.now ≡ map mark_beside slots.now }
    ensures { result ≡ answer_of search.now slots.now }
{
    let mark = search.mark();
    for (index, other) in marks.iter().enumerate() {
        if *other == mark && search.is(&slots[index].search) {
            return Some(slots[index].answer);
        }
    }
    None
}

/// Returns what a search for a label finds in program memory, without the label cache: the position of the label, or
/// `None` if there is no such label.
fn found<const REGS: usize>(ram: &Ram<REGS>, search: &Search) -> Option<u16>
    requires { IsTrue (is_sound ram.now.registers) }
    ensures { Finds ram.now.registers search.now result }
{
    one_list();
    lists_are_determined();
    match search {
        Search::Local(at, label) => local(ram, *at, *label),
        Search::Global(name) => global(ram, name.characters()),
    }
}
