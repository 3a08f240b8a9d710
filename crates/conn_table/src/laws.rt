//! Laws of a table, each the contract of a function that does nothing.

ghost use Rattle.std.specs.Prelude.{◌≡◌, ℕ, ◌+◌, suc, IsSome, Some, None, List, length};
ghost use Rattle.conn_table.specs.declared.places.Slot.{Slot};
ghost use Rattle.conn_table.specs.Table.{size_given, sizes_given};
ghost use Rattle.conn_table.specs.Slots.{slot_in, with_slot, with_added, without_number, HaveRisingNumbers};

/// What is put in the place of a connection, or added, is found under its number, and nothing is changed of any other.
pub fn a_change_is_of_one_connection()
    ensures put { (new : Slot) (slots : List Slot) → IsSome (slot_in new.number slots) → slot_in new.number (with_slot new slots) ≡ Some new }
    ensures others { (new : Slot) (x : ℕ) (slots : List Slot) → (new.number ≡ x → ⊥) → slot_in x (with_slot new slots) ≡ slot_in x slots }
    ensures added { (new : Slot) (slots : List Slot) → slot_in new.number slots ≡ None → slot_in new.number (with_added new slots) ≡ Some new }
    ensures as_before { (new : Slot) (x : ℕ) (slots : List Slot) → (new.number ≡ x → ⊥) → slot_in x (with_added new slots) ≡ slot_in x slots }
    ensures left { (c x : ℕ) (slots : List Slot) → (c ≡ x → ⊥) → slot_in x (without_number c slots) ≡ slot_in x slots }
{}

/// Numbers that rise go on to rise, and what is taken out of them is gone.
pub fn numbers_rise()
    ensures put { (new : Slot) (slots : List Slot) → HaveRisingNumbers slots → HaveRisingNumbers (with_slot new slots) }
    ensures added { (new : Slot) (slots : List Slot) → HaveRisingNumbers slots → slot_in new.number slots ≡ None → HaveRisingNumbers (with_added new slots) }
    ensures left { (c : ℕ) (slots : List Slot) → HaveRisingNumbers slots → HaveRisingNumbers (without_number c slots) }
    ensures gone { (c : ℕ) (slots : List Slot) → HaveRisingNumbers slots → slot_in c (without_number c slots) ≡ None }
{}

/// How many there are, and the sum of their sizes, after each change.
pub fn changes_are_counted()
    ensures put { (new : Slot) (slots : List Slot) → length (with_slot new slots) ≡ length slots }
    ensures added { (new : Slot) (slots : List Slot) → length (with_added new slots) ≡ suc (length slots) }
    ensures left { (c : ℕ) (slots : List Slot) → IsSome (slot_in c slots) → suc (length (without_number c slots)) ≡ length slots }
    ensures size_put { (new old : Slot) (slots : List Slot) → slot_in new.number slots ≡ Some old
        → sizes_given (with_slot new slots) + size_given old.size ≡ sizes_given slots + size_given new.size }
    ensures size_added { (new : Slot) (slots : List Slot) → sizes_given (with_added new slots) ≡ size_given new.size + sizes_given slots }
    ensures size_left { (c : ℕ) (old : Slot) (slots : List Slot) → slot_in c slots ≡ Some old → size_given old.size + sizes_given (without_number c slots) ≡ sizes_given slots }
{}
