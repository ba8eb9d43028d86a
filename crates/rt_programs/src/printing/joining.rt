//! Lines below lines.

use rt_fault_lines::shown::Explanation;
use std::alloc::Global;

/// One text below another, of those that there are.
///
/// # Errors
///
/// There was no memory.
pub fn joined(alloc: Global, first: Option<String>, second: Option<String>) -> Explanation {
    match (first, second) {
        (Some(first), Some(second)) => Ok(Some(format!(in alloc; "{first}\n{second}")?)),
        (Some(first), None) => Ok(Some(first)),
        (None, second) => Ok(second),
    }
}
