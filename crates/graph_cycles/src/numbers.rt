//! A number for each node, by its place.

/// The number at a place; the greatest where there is none.
pub(crate) fn at(numbers: &[u32], place: u32) -> u32 {
    match numbers.get(place as usize) {
        Some(number) => *number,
        None => u32::MAX,
    }
}

/// Another number at a place, if there is one.
pub(crate) fn put(numbers: &mut [u32], place: u32, number: u32) {
    if let Some(old) = numbers.get_mut(place as usize) {
        *old = number;
    }
}
