//! Tests of h41_fields: the digits of a register that each field contains, and those that masks select.

use h41_fields::{Field, Pointer, Span, span};

#[test]
fn fields_at_pointers(rt: HostRuntime) {
    let rows = [
        (Field::PToQ, 10, 3, Pointer::P, (10, 13)),
        (Field::PToQ, 3, 10, Pointer::P, (3, 10)),
        (Field::PToQ, 7, 7, Pointer::Q, (7, 7)),
        (Field::ToPointer, 13, 0, Pointer::P, (0, 13)),
        (Field::ToPointer, 13, 4, Pointer::Q, (0, 4)),
        (Field::AtPointer, 2, 9, Pointer::Q, (9, 9)),
        (Field::All, 5, 5, Pointer::P, (0, 13)),
        (Field::SignAndExponent, 5, 5, Pointer::P, (0, 2)),
        (Field::ExponentSign, 5, 5, Pointer::P, (2, 2)),
        (Field::Mantissa, 5, 5, Pointer::P, (3, 12)),
        (Field::MantissaSign, 5, 5, Pointer::P, (13, 13)),
    ];
    for (field, p, q, active, (lo, hi)) in rows {
        assert!(rt; p < 14 && q < 14);
        let places = span(field, p, q, active);
        let holds = places.lo == lo && places.hi == hi;
        assert!(rt; holds, "{field:?} at P={p}, Q={q}");
    }
}

#[test]
fn places_of_a_mask(rt: HostRuntime) {
    let rows: [(u64, (usize, usize)); 8] = [
        (0xF, (0, 0)),
        (0xFF0, (1, 2)),
        (0xF0_0000_0000_0000, (13, 13)),
        (0xFF_FFFF_FFFF_FFFF, (0, 13)),
        (0, (0, 13)),
        (0xF0F, (0, 13)),
        (0x7, (0, 13)),
        (0xF00_0000_0000_0000, (0, 13)),
    ];
    for (mask, (lo, hi)) in rows {
        let places = Span::from_mask(mask);
        let holds = places.lo == lo && places.hi == hi;
        assert!(rt; holds, "{mask:X}");
    }
}
