use fx_base::NoMemory;
use std::alloc::Global;

// The places on the way upward from one, up to the first that was seen. They are seen then.
fn climbed(
    alloc: Global,
    parents: &[Option<usize>],
    seen: &mut [bool],
    start: usize,
) -> Result<Vec<usize>, NoMemory> {
    let mut path = Vec::new(alloc);
    let mut up = Some(start);
    for _ in 0..parents.len() {
        match up {
            Some(place) if place < seen.len() && !seen[place] => {
                seen[place] = true;
                path.push(place)?;
                up = match parents.get(place) {
                    Some(next) => *next,
                    None => None,
                };
            }
            _ => return Ok(path),
        }
    }
    Ok(path)
}

/// All places, each behind that of its parent, where parents do not go in a circle; of places in a circle one stands before its parent.
/// It costs a step for each.
pub(crate) fn upper_first(
    alloc: Global,
    parents: &[Option<usize>],
) -> Result<Vec<usize>, NoMemory> {
    let mut order = Vec::with_capacity(alloc, parents.len())?;
    let mut seen = Vec::new(alloc);
    seen.resize(parents.len(), false)?;
    for start in 0..parents.len() {
        for place in climbed(alloc, parents, &mut seen, start)?.iter().rev() {
            order.push(*place)?;
        }
    }
    Ok(order)
}
