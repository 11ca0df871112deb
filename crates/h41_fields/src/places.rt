//! Computes which places of a register, 0 to 13, a field consists of for given pointers.

ghost use Rattle.std.specs.Prelude.{◌≡◌, ◌<◌, ◌≤◌, true};
ghost use Rattle.h41_fields.specs.Field.{is_pointed, places, from_to, first_place, last_place};

use crate::field::{Field, Pointer};
use h41_digits::{PLACES, Span};

/// The leftmost place of a register, 13.
const LAST_PLACE: usize = PLACES - 1;

/// The mask of each field, by its field number 0 to 7: four bits for each place, F inside the field and 0 outside. The
/// entry is 0 for a field that depends on the pointers.
static MASKS: [u64; 8] = [
    0,
    0xFFF,
    0,
    0xFF_FFFF_FFFF_FFFF,
    0,
    0xF00,
    0xF_FFFF_FFFF_F000,
    0xF0_0000_0000_0000,
];

/// The first (rightmost) and the last (leftmost) place of each field, by its field number 0 to 7. The entry is unused
/// for a field that depends on the pointers.
static ENDS: [(usize, usize); 8] = [
    (0, 0),
    (0, 2),
    (0, 0),
    (0, LAST_PLACE),
    (0, 0),
    (2, 2),
    (3, 12),
    (LAST_PLACE, LAST_PLACE),
];

/// Returns the places of a register that belong to a field, as a span. `p` and `q` are the places, 0 to 13, that the
/// pointers P and Q name; `active` is the pointer that is selected.
#[inline(always)]
pub fn span(field: Field, p: usize, q: usize, active: Pointer) -> Span
    requires p_in_register { p < 14 }
    requires q_in_register { q < 14 }
    ensures first { result.lo ≡ first_place field p q active }
    ensures last { result.hi ≡ last_place field p q active }
    ensures each { places field p q active ≡ from_to result.lo result.hi }
{
    let mask = MASKS[field as usize];
    if mask == 0 {
        let (lo, hi) = pointed_places(field, p, q, active);
        Span::new(lo, hi)
    } else {
        let (lo, hi) = ENDS[field as usize];
        Span { lo, hi, mask }
    }
}

/// Returns the first and the last place, 0 to 13, of a field that depends on the pointers: `@R`, `R<` or `P-Q`. `p` and
/// `q` are the places that P and Q name, `active` is the pointer that is selected. This function is never inlined, so
/// that the other fields do not wait for the pointers.
#[cold]
#[inline(never)]
fn pointed_places(field: Field, p: usize, q: usize, active: Pointer) -> (usize, usize)
    requires p_in_register { p < 14 }
    requires q_in_register { q < 14 }
    requires pointed { is_pointed field ≡ true }
    ensures first { result.0 ≡ first_place field p q active }
    ensures last { result.1 ≡ last_place field p q active }
    ensures each { places field p q active ≡ from_to result.0 result.1 }
    ensures ordered { result.0 ≤ result.1 }
    ensures in_register { result.1 < 14 }
{
    let pointer = match active {
        Pointer::P => p,
        Pointer::Q => q,
    };
    match field {
        Field::AtPointer => (pointer, pointer),
        Field::PToQ => (p, if p > q { LAST_PLACE } else { q }),
        _to_pointer => (0, pointer),
    }
}
