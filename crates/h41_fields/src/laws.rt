//! Laws of fields. Each law is the contract of a function with an empty body.

ghost use Rattle.h41_fields.specs.FieldLaws.{PlacesAreOrdered};

/// States that the first (rightmost) place of a field is never above its last (leftmost) place, whatever the pointers
/// are.
pub fn places_are_ordered()
    ensures { PlacesAreOrdered }
{}
