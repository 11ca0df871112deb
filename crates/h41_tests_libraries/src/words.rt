//! Tests of h41_words: rows, words and lengths in the instruction set of HP's Nut processor.

use crate::judge::wants;
use h41_fields::Field;
use h41_words::{
    BlockRegister, Condition, DigitPlace, Displacement, LoadedDigit, LongJumpKind, Operation,
    ReadRegister, Row, SecondWord, StatusBit, Word, length, row, word,
};
use std::test::Fail;

#[test]
fn rows_words_and_lengths(rt: HostRuntime) -> Result<(), Fail> {
    let rows = [
        (0x000, Row::Nop, 1),
        (
            0x222,
            Row::Arithmetic(Operation::IncrementC, Field::AtPointer),
            1,
        ),
        (0x0EE, Row::Arithmetic(Operation::ExchangeBC, Field::All), 1),
        (0x041, Row::LongJump(0x10), 2),
        (
            0x3FB,
            Row::ShortJump(Condition::NoCarry, Displacement::new(-1)),
            1,
        ),
        (
            0x00F,
            Row::ShortJump(Condition::Carry, Displacement::new(1)),
            1,
        ),
        (0x388, Row::SetStatus(StatusBit::new(0)), 1),
        (0x39C, Row::SetPointer(DigitPlace::new(0)), 1),
        (0x03C, Row::RotateRight(DigitPlace::new(3)), 1),
        (0x250, Row::LoadDigit(LoadedDigit::new(9)), 1),
        (0x028, Row::Write(BlockRegister::new(0)), 1),
        (0x078, Row::Read(ReadRegister::new(1)), 1),
        (0x038, Row::ReadData, 1),
        (0x130, Row::LoadImmediate, 2),
        (0x270, Row::SelectRegister, 1),
        (0x3E0, Row::Return, 1),
    ];
    for (number, expected, words) in rows {
        let place = Word::new(number).ok_or("a word is up to 3FF")?;
        let is_row = row(place) == expected && word(expected).number() == number;
        let holds = is_row && place.number() == number && length(place) == words;
        assert!(rt; holds, "{number:03X}");
    }
    wants(&rt, "400", Word::new(0x400).is_none());
    Ok(())
}

#[test]
fn second_words(rt: HostRuntime) -> Result<(), Fail> {
    let number = 0x0E6;
    let word = Word::new(number).ok_or("a word is up to 3FF")?;
    let second = SecondWord {
        condition: Condition::NoCarry,
        kind: LongJumpKind::Go,
        high_byte: 0x39,
    };
    wants(&rt, "the second word 0E6", SecondWord::of(word) == second);
    wants(&rt, "its number", second.word().number() == number);
    Ok(())
}
