//! Rows of calls on an object.

use crate::again::Again;
use crate::tries::Tries;
use std::alloc::Global;

/// What rows call.
pub trait Called {
    /// Whether a call gives its answer. Where a request for memory was refused, the object is as it was before.
    fn holds(&mut self, alloc: Global, call: &str, wanted: &str) -> Result<bool, Again>;
}

/// Whether a row holds. When memory ran out it is called once more.
fn held<T: Called>(alloc: Global, tries: &Tries, object: &mut T, row: &str) -> bool {
    let Some((call, wanted)) = row.split_once(" =>") else {
        return false;
    };
    let wanted = wanted.strip_prefix(' ').unwrap_or(wanted);
    match object.holds(alloc, call, wanted) {
        Ok(holds) => holds,
        Err(Again) => {
            tries.count();
            object.holds(alloc, call, wanted) == Ok(true)
        }
    }
}

/// The first row that doesn't hold, if there is one. A row that begins with `#` says what the rows are.
pub fn differing<'a, T: Called + Drop>(
    alloc: Global,
    tries: &Tries,
    mut object: T,
    rows: &'a str,
) -> Option<&'a str> {
    for row in rows.lines() {
        if !row.starts_with('#') && !held(alloc, tries, &mut object, row) {
            return Some(row);
        }
    }
    None
}
