//! Test of h41_dis: a listing whose addresses continue at 0000 after FFFF, which no deck prints.

use crate::judge::wants;
use h41_dis::listing;
use h41_words::Word;
use std::alloc::Global;
use std::test::Fail;

/// Returns the words with these numbers. Fails if a number is above 3FF (hexadecimal), because a word has ten bits.
fn words(alloc: Global, numbers: &[u16]) -> Result<Vec<Word>, Fail> {
    let mut words = Vec::new(alloc);
    for number in numbers {
        words.push(Word::new(*number).ok_or("a word has ten bits")?)?;
    }
    Ok(words)
}

#[test]
fn columns_and_a_cut_word(rt: HostRuntime) -> Result<(), Fail> {
    let words = words(rt.alloc(), &[0x041, 0x203, 0x3E0, 0x130])?;
    let text = listing(rt.alloc(), words.as_slice(), 0xFFFD)?;
    let wanted = "FFFD  041 203  ?C GO 8010\nFFFF  3E0      RTN\n0000  130      CON 130\n";
    wants(&rt, "columns and a cut word", text.as_str() == wanted);
    Ok(())
}
