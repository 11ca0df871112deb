//! Executes the words that compute with a field of the registers A, B and C.

ghost use Rattle.std.specs.Prelude.{◌≡◌, ◌≤◌, false, OnOk, OnErr};
ghost use Rattle.std.specs.Result.{result_err};
ghost use Rattle.h41_pages.specs.Addresses.{first_address};
ghost use Rattle.h41_arith.specs.DigitRule.{base_of};
ghost use Rattle.h41_nut.specs.Arithmetic.{Operates, OperatesOn, base_number};
ghost use Rattle.h41_nut.specs.Arrivals.{refusal_to_go_on, gone_on, next_address};

use crate::base::Base;
use crate::cpu::Cpu;
use crate::refusal::WordRefusal;
use h41_arith::{
    add, copy, dec, differs, exchange, inc, less, neg, neg1, nonzero, shift_left, shift_right, sub,
};
use h41_digits::{Reg, Span};
use h41_fields::{Field, span};
use h41_words::Operation;

impl Cpu {
    /// Executes a word that performs `operation` on a field of A, B and C in the current base. Returns SystemRom (08),
    /// and changes nothing, if the next address is 0000. The function does not depend on the size of memory; it is
    /// generic so that each loop over words contains its own inlined copy.
    #[inline(always)]
    pub(crate) fn arithmetic<const REGS: usize>(
        &mut self,
        operation: Operation,
        field: Field,
    ) -> Result<(), WordRefusal>
        requires { first_address ≤ self.old.pc }
        ensures refusal { result_err result ≡ refusal_to_go_on self.old }
        ensures operates { OnOk result (OperatesOn operation field (gone_on self.old) self.new) }
        ensures unchanged { OnErr result (self.new ≡ self.old) }
        ensures place { OnOk result (self.new.pc ≡ next_address self.old) }
    {
        let next = self.following()?;
        let places = span(field, self.p, self.q, self.active);
        match self.base {
            Base::Hexadecimal => self.operate::<false>(operation, places),
            Base::Decimal => self.operate::<true>(operation, places),
        }
        self.pc = next;
        Ok(())
    }

    /// Performs an operation on the digits of A, B and C in a span of positions, in base 10 if `DEC` is true, otherwise
    /// in base 16. The result sets the carry; the carry before it has no effect.
    #[inline(always)]
    fn operate<const DEC: bool>(&mut self, operation: Operation, span: Span)
        requires base { base_of DEC ≡ base_number self.old.base }
        ensures { Operates operation span.lo span.hi (record self.old { carry = false }) self.new }
    {
        match operation {
            Operation::ClearA => (self.a, self.carry) = copy(self.a, Reg::zero(), span),
            Operation::ClearB => (self.b, self.carry) = copy(self.b, Reg::zero(), span),
            Operation::ClearC => (self.c, self.carry) = copy(self.c, Reg::zero(), span),
            Operation::ExchangeAB => {
                (self.a, self.b) = exchange(self.a, self.b, span);
                self.carry = false;
            }
            Operation::AToB => (self.b, self.carry) = copy(self.b, self.a, span),
            Operation::ExchangeAC => {
                (self.a, self.c) = exchange(self.a, self.c, span);
                self.carry = false;
            }
            Operation::BToC => (self.c, self.carry) = copy(self.c, self.b, span),
            Operation::ExchangeBC => {
                (self.b, self.c) = exchange(self.b, self.c, span);
                self.carry = false;
            }
            Operation::CToA => (self.a, self.carry) = copy(self.a, self.c, span),
            Operation::AddBToA => (self.a, self.carry) = add::<DEC>(
                self.a, self.a, self.b, false, span,
            ),
            Operation::AddCToA => (self.a, self.carry) = add::<DEC>(
                self.a, self.a, self.c, false, span,
            ),
            Operation::IncrementA => (self.a, self.carry) = inc::<DEC>(self.a, self.a, span),
            Operation::SubtractBFromA => (self.a, self.carry) = sub::<DEC>(
                self.a, self.a, self.b, false, span,
            ),
            Operation::DecrementA => (self.a, self.carry) = dec::<DEC>(self.a, self.a, span),
            Operation::SubtractCFromA => (self.a, self.carry) = sub::<DEC>(
                self.a, self.a, self.c, false, span,
            ),
            Operation::DoubleC => (self.c, self.carry) = add::<DEC>(
                self.c, self.c, self.c, false, span,
            ),
            Operation::AddAToC => (self.c, self.carry) = add::<DEC>(
                self.c, self.a, self.c, false, span,
            ),
            Operation::IncrementC => (self.c, self.carry) = inc::<DEC>(self.c, self.c, span),
            Operation::SubtractCFromAToC => (self.c, self.carry) = sub::<DEC>(
                self.c, self.a, self.c, false, span,
            ),
            Operation::DecrementC => (self.c, self.carry) = dec::<DEC>(self.c, self.c, span),
            Operation::NegateC => (self.c, self.carry) = neg::<DEC>(self.c, self.c, span),
            Operation::ComplementC => (self.c, self.carry) = neg1::<DEC>(self.c, self.c, span),
            Operation::TestBNonzero => self.carry = nonzero(self.b, span),
            Operation::TestCNonzero => self.carry = nonzero(self.c, span),
            Operation::TestALessThanC => self.carry = less(self.a, self.c, span),
            Operation::TestALessThanB => self.carry = less(self.a, self.b, span),
            Operation::TestANonzero => self.carry = nonzero(self.a, span),
            Operation::TestADiffersFromC => self.carry = differs(self.a, self.c, span),
            Operation::ShiftRightA => (self.a, self.carry) = shift_right(self.a, self.a, span),
            Operation::ShiftRightB => (self.b, self.carry) = shift_right(self.b, self.b, span),
            Operation::ShiftRightC => (self.c, self.carry) = shift_right(self.c, self.c, span),
            Operation::ShiftLeftA => (self.a, self.carry) = shift_left(self.a, self.a, span),
        }
    }
}
