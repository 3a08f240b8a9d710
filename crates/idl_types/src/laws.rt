//! What numbers are shown along the spots of a program.

ghost use Rattle.std.specs.Prelude.{◌≡◌, ◌<◌, ℕ, List, length, slice_get, Option, Some};
ghost use Rattle.std.specs.List.{range_with_len};
ghost use Rattle.idl_include.specs.Program.{Program};
ghost use Rattle.idl_include.specs.Numbering.{typedefs_of, structs_of, services_of};
ghost use Rattle.idl_include.specs.Spots.{Spotted, Spot, spots_of};
ghost use Rattle.idl_types.specs.SpotNumbers.{typedef_shown, struct_shown, service_shown, numbers_shown};

/// Along the spots of a program the definitions of a kind come by number from 0, each once.
pub fn definitions_come_by_number()
    ensures typedefs { (program : Program) → numbers_shown typedef_shown (spots_of program) ≡ range_with_len 0 (length (typedefs_of program)) }
    ensures structs { (program : Program) → numbers_shown struct_shown (spots_of program) ≡ range_with_len 0 (length (structs_of program)) }
    ensures services { (program : Program) → numbers_shown service_shown (spots_of program) ≡ range_with_len 0 (length (services_of program)) }
{}

/// Where numbers come from 0, each once, one that is shown before another is less, and each is shown somewhere.
pub fn numbers_rise_along_spots()
    ensures rises { (shown : Spotted → Option ℕ) (count : ℕ) (spots : List Spot) → numbers_shown shown spots ≡ range_with_len 0 count
        → (p q : ℕ) (s t : Spot) (j k : ℕ) → p < q → slice_get spots p ≡ Some s → slice_get spots q ≡ Some t
        → shown s.shows ≡ Some j → shown t.shows ≡ Some k → j < k }
    ensures found { (shown : Spotted → Option ℕ) (count : ℕ) (spots : List Spot) → numbers_shown shown spots ≡ range_with_len 0 count
        → (k : ℕ) → k < count → (p : ℕ) × (s : Spot) × (slice_get spots p ≡ Some s) × (shown s.shows ≡ Some k) }
{}
