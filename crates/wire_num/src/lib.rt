//! Numbers on the wire: decoded in front of bytes or at a place, and put to the end of a vector. It knows no message and no
//! protocol's layout, only how one number is encoded.
//!
//! ```
//! let mut bytes = Vec::new(alloc);
//! put_i16(&mut bytes, -2)?;
//! put_i32(&mut bytes, 7)?;
//! let (first, behind) = decode_i16(&bytes)?;      // -2, and the bytes of the 7
//! let (second, behind) = decode_i32(behind)?;     // 7, and no bytes
//! let (second, place) = i32_at(&bytes, 2)?;       // 7, and the place 6
//!
//! put_varint32(&mut bytes, zigzag32(-150))?;      // 0xab 0x02
//! let (number, place) = varint32_at(&bytes, 6)?;  // 299, and the place 8
//! let number = unzigzag32(number);                // -150
//! ```

#![tactic(auto)]

mod at;
mod decode;
mod fault;
mod laws;
mod put;
mod varint;
mod zigzag;

pub use at::{be64_at, i16_at, i32_at, i64_at, le64_at, u8_at, varint32_at, varint64_at};
pub use decode::{
    decode_be64, decode_be128, decode_bytes, decode_i8, decode_i16, decode_i32, decode_i64,
    decode_le64, decode_u8,
};
pub use fault::NumFault;
pub use laws::{
    fixed_numbers_are_decoded, varint_faults_are_exact, varints_are_decoded,
    written_varints_are_shortest, zigzag_goes_both_ways,
};
pub use put::{put_be64, put_be128, put_i16, put_i32, put_i64, put_le64, put_u8};
pub use varint::{decode_varint32, decode_varint64, put_varint32, put_varint64};
pub use zigzag::{unzigzag32, unzigzag64, zigzag32, zigzag64};
