//! What the definitions mean, for all values: each function's contract is a law, and its body is
//! empty.

ghost use Rattle.std.specs.Prelude.{◌≡◌, ℕ, ◌+◌, ◌<◌, Bool, true, false, List, length, slice_get, Some, None, Ok, ◌↔◌};
ghost use Rattle.container_header.specs.declared.header.Header.{Header};
ghost use Rattle.container_header.specs.Conditions.{layout_faults, first_failing, reading};
ghost use Rattle.container_header.specs.Sound.{IsSoundHeader, IsHeaderOf};

/// The condition that is named fails, and none before it does.
pub fn named_condition_is_the_first()
    ensures { (tests : List Bool) (k : ℕ) → (first_failing 1 tests ≡ Some (k + 1))
        ↔ ((slice_get tests k ≡ Some true) × ((i : ℕ) → i < k → slice_get tests i ≡ Some false)) }
{}

/// No condition of the layout fails exactly where the header is sound.
pub fn no_condition_fails_where_sound()
    ensures { (header : Header) (image_length : ℕ) → (first_failing 1 (layout_faults header image_length) ≡ None)
        ↔ IsSoundHeader header image_length }
{}

/// An image's header is read exactly where it is sound.
pub fn read_exactly_where_sound()
    ensures { (image : List ℕ) (header : Header) → (reading image ≡ Ok header) ↔ IsHeaderOf header image }
{}
