//! An order of structs in which each stands behind those without which it has no finite value. Nothing is promised of it: who takes
//! it checks it.

use schema::{FieldDesc, Need as FieldNeed, StructDesc, StructKind as FieldsKind, TypeDesc};
use std::alloc::{AllocError, Global};

/// The rank of a struct that has none.
pub(crate) const UNRANKED: u32 = u32::MAX;

/// The search for ranks.
#[derive(Drop)]
struct Ranking {
    // Those with a field that waits for a struct.
    users: Vec<Vec<u32>>,
    // For how many structs one still waits.
    missing: Vec<u32>,
    // The place of a struct in the order.
    ranks: Vec<u32>,
    // Structs that wait for none, in order.
    order: Vec<u32>,
}

/// The struct for which a field of a list waits, if it is one.
fn struct_needed(list: FieldsKind, field: &FieldDesc) -> Option<u32> {
    let TypeDesc::Struct(number) = &field.kind else {
        return None;
    };
    match (list, field.need) {
        (FieldsKind::Union, _) | (_, FieldNeed::Required) => Some(*number),
        _ => None,
    }
}

/// For how many structs one waits at first: a union for one at most.
fn first_missing(one: &StructDesc) -> u32 {
    let mut count = 0u32;
    let mut is_free = one.fields.as_slice().is_empty();
    for field in one.fields.as_slice() {
        match struct_needed(one.kind, field) {
            Some(_) => count = count.wrapping_add(1),
            None => is_free = true,
        }
    }
    match one.kind {
        FieldsKind::Union if is_free => 0,
        FieldsKind::Union => 1,
        _ => count,
    }
}

impl Ranking {
    /// A struct that has no rank yet.
    fn add(&mut self, alloc: Global, one: &StructDesc) -> Result<(), AllocError> {
        self.users.push(Vec::new(alloc))?;
        self.missing.push(first_missing(one))?;
        self.ranks.push(UNRANKED)?;
        Ok(())
    }

    /// A struct is a user of those for which its fields wait.
    fn note_uses(&mut self, number: u32, one: &StructDesc) -> Result<(), AllocError> {
        for field in one.fields.as_slice() {
            if let Some(needed) = struct_needed(one.kind, field) {
                let place = needed as usize;
                if place < self.users.len() {
                    put_user(&mut self.users[place], number)?;
                }
            }
        }
        Ok(())
    }

    /// A struct that waits for none gets the next rank.
    fn rank(&mut self, number: u32) -> Result<(), AllocError> {
        let Ok(next) = u32::try_from(self.order.len()) else {
            return Err(AllocError);
        };
        if let Some(rank) = self.ranks.get_mut(number as usize) {
            if *rank == UNRANKED {
                *rank = next;
                self.order.push(number)?;
            }
        }
        Ok(())
    }

    /// The structs that wait for none at first.
    fn begin(&mut self) -> Result<(), AllocError> {
        for place in 0..self.missing.len() {
            let Ok(number) = u32::try_from(place) else {
                return Err(AllocError);
            };
            if number_at(self.missing.as_slice(), number) == 0 {
                self.rank(number)?;
            }
        }
        Ok(())
    }

    /// A struct waits for one less.
    fn release(&mut self, user: u32) -> Result<(), AllocError> {
        let mut left = 0u32;
        if let Some(missing) = self.missing.get_mut(user as usize) {
            left = missing.saturating_sub(1);
            *missing = left;
        }
        if left == 0 {
            self.rank(user)?;
        }
        Ok(())
    }

    /// The users of a struct that has a rank wait for one less.
    fn follow(&mut self, number: u32) -> Result<(), AllocError> {
        for at in 0..usize::MAX {
            match user_at(self.users.as_slice(), number, at) {
                Some(user) => self.release(user)?,
                None => return Ok(()),
            }
        }
        Ok(())
    }

    /// Makes room for so many structs.
    fn make_room(&mut self, count: usize) -> Result<(), AllocError> {
        self.users.reserve_exact(count)?;
        self.missing.reserve_exact(count)?;
        self.ranks.reserve_exact(count)?;
        self.order.reserve_exact(count)?;
        Ok(())
    }

    /// Follows each struct that has a rank, in order.
    fn finish(&mut self) -> Result<(), AllocError> {
        for at in 0..self.ranks.len() {
            match self.order.as_slice().get(at).copied() {
                Some(number) => self.follow(number)?,
                None => return Ok(()),
            }
        }
        Ok(())
    }

    /// Ranks these structs, where none has a rank.
    fn search(&mut self, alloc: Global, structs: &[StructDesc]) -> Result<(), AllocError> {
        self.make_room(structs.len())?;
        for one in structs {
            self.add(alloc, one)?;
        }
        for (number, one) in structs.iter().enumerate() {
            let Ok(number) = u32::try_from(number) else {
                return Err(AllocError);
            };
            self.note_uses(number, one)?;
        }
        self.begin()?;
        self.finish()
    }
}

/// Adds a user.
fn put_user(users: &mut Vec<u32>, user: u32) -> Result<(), AllocError> {
    users.push(user)?;
    Ok(())
}

/// The user of a struct at a place.
fn user_at(users: &[Vec<u32>], number: u32, place: usize) -> Option<u32> {
    match users.get(number as usize) {
        Some(row) => row.as_slice().get(place).copied(),
        None => None,
    }
}

/// The number at a place; 0 where there is none.
fn number_at(numbers: &[u32], place: u32) -> u32 {
    match numbers.get(place as usize) {
        Some(number) => *number,
        None => 0,
    }
}

/// The ranks of structs: places in an order in which each stands behind those that it needs, or [`UNRANKED`].
pub(crate) fn struct_ranks(alloc: Global, structs: &[StructDesc]) -> Result<Vec<u32>, AllocError> {
    let mut ranking = Ranking {
        users: Vec::new(alloc),
        missing: Vec::new(alloc),
        ranks: Vec::new(alloc),
        order: Vec::new(alloc),
    };
    ranking.search(alloc, structs)?;
    Ok(ranking.ranks)
}
