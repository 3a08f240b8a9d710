//! Signed numbers as unsigned ones, those near 0 as small ones (Thrift compact protocol, 'Integer encoding').

ghost use Rattle.std.specs.Prelude.{◌≡◌};
ghost use Rattle.wire_num.specs.Zigzag.{zigzag, unzigzag};

/// The number as an unsigned one: 0, -1, 1, -2 as 0, 1, 2, 3.
pub fn zigzag32(number: i32) -> u32
    ensures { result ≡ zigzag number }
{
    if number < 0 {
        2 * (-(number + 1)) as u32 + 1
    } else {
        2 * number as u32
    }
}

/// The number that `zigzag32` gives as this one.
pub fn unzigzag32(number: u32) -> i32
    ensures { result ≡ unzigzag number }
{
    let half = (number / 2) as i32;
    if number % 2 == 0 { half } else { -1 - half }
}

/// The number as an unsigned one: 0, -1, 1, -2 as 0, 1, 2, 3.
pub fn zigzag64(number: i64) -> u64
    ensures { result ≡ zigzag number }
{
    if number < 0 {
        2 * (-(number + 1)) as u64 + 1
    } else {
        2 * number as u64
    }
}

/// The number that `zigzag64` gives as this one.
pub fn unzigzag64(number: u64) -> i64
    ensures { result ≡ unzigzag number }
{
    let half = (number / 2) as i64;
    if number % 2 == 0 { half } else { -1 - half }
}
