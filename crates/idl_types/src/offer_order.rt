//! An order of services in which parents come first, as far as there is one.

use std::alloc::{AllocError, Global};

/// The numbers of all services, each behind its parent where parents don't lead round. Nothing rests on it but time.
pub(crate) fn parents_first(
    alloc: Global,
    parents: &[Option<u32>],
) -> Result<Vec<u32>, AllocError> {
    let mut met = vec![in alloc; false; parents.len()]?;
    let mut order = Vec::new(alloc);
    for start in 0..parents.len() {
        let Ok(start) = u32::try_from(start) else {
            return Err(AllocError);
        };
        let way = unmet_way(alloc, parents, &mut met, start)?;
        for service in way.iter().rev() {
            order.push(*service)?;
        }
    }
    Ok(order)
}

/// A service, its parent and so on, up to one that was met before.
fn unmet_way(
    alloc: Global,
    parents: &[Option<u32>],
    met: &mut Vec<bool>,
    start: u32,
) -> Result<Vec<u32>, AllocError> {
    let mut way = Vec::new(alloc);
    let mut next = Some(start);
    for _ in 0..parents.len() {
        let Some(service) = next else {
            break;
        };
        if !meets(met, service) {
            break;
        }
        way.push(service)?;
        next = parents.get(service as usize).copied().flatten();
    }
    Ok(way)
}

/// Marks a service as met, and tells whether it wasn't met before.
fn meets(met: &mut Vec<bool>, service: u32) -> bool {
    match met.get_mut(service as usize) {
        Some(mark) => {
            let new = !*mark;
            *mark = true;
            new
        }
        None => false,
    }
}
