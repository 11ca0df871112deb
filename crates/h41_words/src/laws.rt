//! Laws of words. Each law is the contract of a function with an empty body.

ghost use Rattle.h41_words.specs.SecondWord.{SaidByWord, WordOfSecond};
ghost use Rattle.h41_words.specs.WordTable.{WordOfRow, OneWordOfRow};

/// States that the table of words is one-to-one: the row (meaning) that the table has for a word belongs to this word,
/// and each row is that of exactly one word.
pub fn word_table_round_trip()
    ensures word { WordOfRow }
    ensures row { OneWordOfRow }
{}

/// States that the second words of jumps by address are one-to-one with their meanings: each word has one meaning as a
/// second word, and each meaning is that of exactly one word.
pub fn second_word_round_trip()
    ensures word { SaidByWord }
    ensures second { WordOfSecond }
{}
