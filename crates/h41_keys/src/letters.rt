//! Texts of letters that are typed one by one.
ghost use Rattle.std.specs.Prelude.{◌≡◌, ◌<◌, ◌≤◌, ◌++◌, ◌∷◌, [], IsSome, IfSome, ◌↔◌, length};
ghost use Rattle.h41_keys.specs.NumberTyping as spec;

use h41_codes::Text;

/// Returns a text of letters with one more letter at its end, or `None` if the text already has `MOST` letters.
pub(crate) fn with_letter<const MOST: usize>(text: &[u8], letter: u8) -> Option<Text<MOST>>
    requires { MOST < 16 }
    ensures room { IsSome result ↔ (length text.now < MOST) }
    ensures value { IfSome result (λ longer. longer ≡ text.now ++ letter ∷ []) }
{
    let count = text.len();
    if count >= MOST {
        return None;
    }
    let mut cells = [0; 16];
    cells[..count].copy_from_slice(text);
    cells[count] = letter;
    Text::new(&cells[..count + 1])
}

/// Returns a text of letters without its last letter. An empty text remains empty.
pub(crate) fn without_last<const MOST: usize>(text: &[u8]) -> Text<MOST>
    requires { length text.now ≤ MOST }
    ensures { result ≡ spec.without_last text.now }
{
    match Text::new(&text[..text.len().saturating_sub(1)]) {
        Some(shorter) => shorter,
        None => unreachable!(),
    }
}
