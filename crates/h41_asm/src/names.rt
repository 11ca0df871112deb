//! Names of addresses in a source: labels (`name:`), and references to labels (`:name`).

ghost use Rattle.std.specs.Prelude.{◌≡◌};
ghost use Rattle.std.specs.List.{list_all};
ghost use Rattle.std.specs.Option.{option_map};
ghost use Rattle.h41_asm.specs.SourceLines.{is_letter, is_name, is_name_byte, label_in};
ghost use Rattle.h41_asm.specs.SourceLines.{reference_in};

/// The greatest number of bytes of a label's name after its first letter.
const MOST_BEHIND: usize = 11;

/// Returns whether a byte is an ASCII letter, in upper or lower case.
fn is_letter(byte: u8) -> bool
    ensures { result ≡ is_letter byte }
{
    matches!(byte, b'A'..=b'Z' | b'a'..=b'z')
}

/// Returns whether a byte can follow the first letter of a label's name: whether it is a letter, a digit or `_`.
fn is_name_byte(byte: u8) -> bool
    ensures { result ≡ is_name_byte byte }
{
    is_letter(byte) || matches!(byte, b'0'..=b'9' | b'_')
}

/// Returns whether each of the bytes can follow the first letter of a label's name: whether each is a letter, a digit
/// or `_`.
fn are_name_bytes(bytes: &[u8]) -> bool
    ensures { result ≡ list_all is_name_byte bytes.now }
{
    bytes.iter().all(|byte| is_name_byte(*byte))
}

/// Returns whether a word of a source line is the name of a label: a letter, and up to eleven letters, digits or `_`.
fn is_name(word: &[u8]) -> bool
    ensures { result ≡ is_name word.now }
{
    match word.split_first() {
        Some((first, behind)) => {
            is_letter(*first) && are_name_bytes(behind) && behind.len() <= MOST_BEHIND
        }
        None => false,
    }
}

/// Returns the label's name in a word `name:` of a source line, or `None` for any other word. A name is a letter, and
/// up to eleven letters, digits or `_`.
#[inline(always)]
pub(crate) fn label_in(word: &[u8]) -> Option<&[u8]>
    ensures { option_map (λ name. name.now) result ≡ label_in word.now }
{
    let (last, name) = word.split_last()?;
    if *last == b':' && is_name(name) {
        Some(name)
    } else {
        None
    }
}

/// Returns the label's name in a word `:name`, which refers to the label, or `None` for any other word. A name is a
/// letter, and up to eleven letters, digits or `_`.
#[inline(always)]
pub(crate) fn reference_in(word: &[u8]) -> Option<&[u8]>
    ensures { option_map (λ name. name.now) result ≡ reference_in word.now }
{
    let (first, name) = word.split_first()?;
    if *first == b':' && is_name(name) {
        Some(name)
    } else {
        None
    }
}
