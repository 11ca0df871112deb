//! The state of keystroke programs that is not in memory: the position, the return addresses, stack lift, and the label
//! cache.
ghost use Rattle.std.specs.Prelude.{◌≡◌, [], IsTrue, Some};
ghost use Rattle.h41_positions.specs.LabelledMachine.{local_search};
ghost use Rattle.h41_positions.specs.FocalState.{at_line_00, at_position, halted_at, start};
ghost use Rattle.h41_labels.specs.KeptAnswers.{Finds, IsRight, KeepsSearch};
ghost use Rattle.h41_labels.specs.declared.search.Search.TheVariants.{Global};
ghost use Rattle.h41_positions.specs.Positions.{LocalFrom};
ghost use Rattle.h41_ram.specs.RegisterMap.{is_sound};

use crate::position::Position;
use crate::positions::{byte_found, local};
use arrayvec::ArrayVec;
use h41_codes::{Parameter, Text};
use h41_labels::LabelCache;
use h41_pages::Pages;
use h41_ram::Ram;
use std::marker::Model;

/// The most return addresses of subroutines that are kept, as on a calculator.
pub const RETURNS: usize = 6;

/// The state of keystroke programs that is not in memory: the position of the next line, the return addresses, the
/// label cache, and stack lift.
#[derive(Drop)]
pub struct Focal {
    /// The position of the next line.
    pub position: Position,
    /// Whether the calculator is at line 00, the place before the program's first line. `position` is then the start of the program.
    pub is_at_line_00: bool,
    /// The return addresses of subroutines, at most 6. The newest is the last.
    pub returns: ArrayVec<Position, RETURNS>,
    /// Whether stack lift is on, so that the next number that is entered lifts the stack.
    pub lift: bool,
    /// The label cache: recent searches for labels with their answers.
    labels: LabelCache,
}

impl Model for Focal {
    ghost use Rattle.h41_positions.specs.LabelledMachine.{LabelledFocal};

    ghost Value = { LabelledFocal };

    ghost view = { λ focal. record {
      state = record {
        position = focal.position;
        at_line_00 = focal.is_at_line_00;
        returns = focal.returns.items;
        lift = focal.lift;
      };
      labels = focal.labels;
    } };
}

impl Focal {
    /// Returns the initial state: line 00 of the first program, no return addresses, stack lift on, and an empty label cache.
    pub fn new() -> Self
        ensures state { result.state ≡ start }
        ensures labels { result.labels ≡ [] }
    {
        Focal {
            position: Position::default(),
            is_at_line_00: true,
            returns: ArrayVec::new(),
            lift: true,
            labels: LabelCache::new(),
        }
    }

    /// Returns the label cache: recent searches for labels, with their answers.
    pub fn cache(&self) -> &LabelCache
        ensures { result.now ≡ self.now.labels }
    {
        &self.labels
    }

    /// Empties the label cache. Everything else is unchanged.
    pub fn forget_labels(&mut self)
        ensures labels { self.new.labels ≡ [] }
        ensures state { self.new.state ≡ self.old.state }
    {
        self.labels.forget();
    }

    /// Moves to the line at a position. The return addresses, stack lift and the label cache are unchanged.
    pub fn go_to(&mut self, position: Position)
        ensures state { self.new.state ≡ at_position position self.old.state }
        ensures labels { self.new.labels ≡ self.old.labels }
    {
        self.position = position;
        self.is_at_line_00 = false;
    }

    /// Moves to line 00 of the program that begins at a position. The return addresses, stack lift and the label cache are unchanged.
    pub fn go_to_line_00(&mut self, start: Position)
        ensures state { self.new.state ≡ at_line_00 start self.old.state }
        ensures labels { self.new.labels ≡ self.old.labels }
    {
        self.position = start;
        self.is_at_line_00 = true;
    }

    /// Moves to line 00 of the program that begins at a position, and clears all return addresses. Stack lift and the
    /// label cache are unchanged.
    pub fn halt_at(&mut self, start: Position)
        ensures state { self.new.state ≡ halted_at start self.old.state }
        ensures labels { self.new.labels ≡ self.old.labels }
    {
        self.go_to_line_00(start);
        self.returns.clear();
    }

    /// Returns the position of the `LBL n` that a search from this position finds, or `None` if there is none. In
    /// memory the answer is the cached one if there is one; otherwise the search is made and its answer is stored in
    /// the label cache. In a page the search is always made. Memory must be sound (`Ram::is_sound`), and the answers in
    /// the cache must be those of searches in this memory.
    pub fn local<const REGS: usize>(
        &mut self,
        ram: &Ram<REGS>,
        pages: &Pages,
        from: Position,
        label: Parameter,
    ) -> Option<Position>
        requires sound { IsTrue (is_sound ram.now.registers) }
        requires right { IsRight self.old.labels ram.now.registers }
        ensures found { LocalFrom label pages.now ram.now.registers from result }
        ensures kept { KeepsSearch ram.now.registers (local_search from label)
            self.old.labels self.new.labels }
        ensures state { self.new.state ≡ self.old.state }
    {
        match from {
            Position::Memory(byte) => byte_found(self.labels.local(ram, byte, label)),
            Position::Page(_) => local(ram, pages, from, label),
        }
    }

    /// Returns the index of the byte of program memory at which the last `LBL` with this name begins, or `None` if
    /// there is none. The answer is the cached one if there is one; otherwise the search is made and its answer is
    /// stored in the label cache. Memory must be sound (`Ram::is_sound`), and the answers in the cache must be those of
    /// searches in this memory.
    pub fn global<const REGS: usize>(&mut self, ram: &Ram<REGS>, name: Text<15>) -> Option<u16>
        requires sound { IsTrue (is_sound ram.now.registers) }
        requires right { IsRight self.old.labels ram.now.registers }
        ensures found { Finds ram.now.registers (Global name) result }
        ensures kept { KeepsSearch ram.now.registers (Some (Global name))
            self.old.labels self.new.labels }
        ensures state { self.new.state ≡ self.old.state }
    {
        self.labels.global(ram, name)
    }
}
