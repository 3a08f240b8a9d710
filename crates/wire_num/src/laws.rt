//! What holds of all numbers.

ghost use Rattle.std.specs.Prelude.{◌≡◌, ◌<◌, ◌≤◌, ◌^◌, ◌↔◌, ℕ, ℤ, List, length, take, FitsSigned, Err};
ghost use Rattle.std.specs.Int.{w8, w16, w32, w64, w128};
ghost use Rattle.wire_num.specs.Decoding.{decode_byte, decode_unsigned, decode_signed};
ghost use Rattle.wire_num.specs.Encoded.{Decodes};
ghost use Rattle.wire_num.specs.Fixed.{IsByte, IsUnsigned, IsSigned};
ghost use Rattle.wire_num.specs.LowFirst.{decode_low_first, IsLowFirst};
ghost use Rattle.wire_num.specs.Varint.{decode_varint, HaveNoLast, IsVarint, varint_bytes};
ghost use Rattle.wire_num.specs.Zigzag.{zigzag, unzigzag};
ghost use Rattle.wire_num.specs.declared.fault.NumFault.TheVariants.{Short, LongVarint};

/// What is put is decoded again, whatever follows; what is decoded is exactly what stands in front; a shorter front is Short.
pub fn fixed_numbers_are_decoded()
    ensures byte { Decodes decode_byte IsByte }
    ensures i8 { Decodes (decode_signed w8) (IsSigned w8) }
    ensures i16 { Decodes (decode_signed w16) (IsSigned w16) }
    ensures i32 { Decodes (decode_signed w32) (IsSigned w32) }
    ensures i64 { Decodes (decode_signed w64) (IsSigned w64) }
    ensures be64 { Decodes (decode_unsigned w64) (IsUnsigned w64) }
    ensures be128 { Decodes (decode_unsigned w128) (IsUnsigned w128) }
    ensures le64 { Decodes (decode_low_first w64) (IsLowFirst w64) }
{}

/// Each encoding of a varint is decoded, the shortest and every longer one, whatever follows; what is decoded is exactly what
/// stands in front; a shorter front is Short.
pub fn varints_are_decoded()
    ensures varint32 { Decodes (decode_varint w32) (IsVarint w32) }
    ensures varint64 { Decodes (decode_varint w64) (IsVarint w64) }
{}

/// What is put of a varint is an encoding of it, and none is shorter.
pub fn written_varints_are_shortest()
    ensures encoding32 { (number : ℕ) → number < 2 ^ 32 → IsVarint w32 number (varint_bytes w32 number) }
    ensures encoding64 { (number : ℕ) → number < 2 ^ 64 → IsVarint w64 number (varint_bytes w64 number) }
    ensures shortest32 { (number : ℕ) (bytes : List ℕ) → IsVarint w32 number bytes → length (varint_bytes w32 number) ≤ length bytes }
    ensures shortest64 { (number : ℕ) (bytes : List ℕ) → IsVarint w64 number bytes → length (varint_bytes w64 number) ≤ length bytes }
{}

/// A varint is Short exactly where fewer than 5 (10) bytes are there and none ends it, and LongVarint exactly where at least so
/// many are there and none of the first 5 (10) ends it.
pub fn varint_faults_are_exact()
    ensures short32 { (bytes : List ℕ) → (decode_varint w32 bytes ≡ Err Short) ↔ ((length bytes < 5) × HaveNoLast bytes) }
    ensures short64 { (bytes : List ℕ) → (decode_varint w64 bytes ≡ Err Short) ↔ ((length bytes < 10) × HaveNoLast bytes) }
    ensures long32 { (bytes : List ℕ) → (decode_varint w32 bytes ≡ Err LongVarint) ↔ ((5 ≤ length bytes) × HaveNoLast (take 5 bytes)) }
    ensures long64 { (bytes : List ℕ) → (decode_varint w64 bytes ≡ Err LongVarint) ↔ ((10 ≤ length bytes) × HaveNoLast (take 10 bytes)) }
{}

/// Each signed number comes back from its zigzag, and each unsigned one is the zigzag of one signed number, of the same width.
pub fn zigzag_goes_both_ways()
    ensures back { (number : ℤ) → unzigzag (zigzag number) ≡ number }
    ensures forth { (number : ℕ) → zigzag (unzigzag number) ≡ number }
    ensures fits32 { (number : ℤ) → FitsSigned w32 number ↔ (zigzag number < 2 ^ 32) }
    ensures fits64 { (number : ℤ) → FitsSigned w64 number ↔ (zigzag number < 2 ^ 64) }
{}
