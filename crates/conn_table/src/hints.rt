//! Where a row is looked for before it is searched for.

use crate::places::Row;
use limits::MOST_CONNECTIONS;
use std::alloc::{AllocError, Global};

/// By the lowest bits of a number, a place among the rows. Nothing is claimed of it: who looks there sees whether it is that of the number.
#[derive(Drop)]
pub(crate) struct Hints {
    /// The places at which rows of such numbers came to stand last.
    places: Vec<usize>,
}

impl Hints {
    /// Takes memory for all.
    pub(crate) fn new(alloc: Global) -> Result<Hints, AllocError> {
        Ok(Hints {
            places: vec![in alloc; 0usize; MOST_CONNECTIONS]?,
        })
    }

    /// Where to look for this number first.
    pub(crate) fn of(&self, number: u32) -> usize {
        match self.places.get(slot_of(number)) {
            Some(&place) => place,
            None => 0,
        }
    }

    /// Takes note of the rows from this place on.
    pub(crate) fn note(&mut self, rows: &[Row], from: usize) {
        for place in from..rows.len() {
            if let Some(noted) = self.places.get_mut(slot_of(rows[place].number)) {
                *noted = place;
            }
        }
    }
}

/// Which of the places is that of a number.
fn slot_of(number: u32) -> usize {
    number as usize % MOST_CONNECTIONS
}
