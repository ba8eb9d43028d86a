//! Names that one slip makes of each other.

/// Whether one of two names of two letters or more becomes the other by one letter that is put in, left out or changed, or by two
/// neighbours that change places.
pub(crate) fn is_near(left: &[u8], right: &[u8]) -> bool {
    if left.len() < 2 || right.len() < 2 || left.len().abs_diff(right.len()) > 1 {
        return false;
    }
    let pairs = left.iter().zip(right);
    let same = pairs.take_while(|(left, right)| left == right).count();
    let left = left.get(same..).unwrap_or(b"");
    let right = right.get(same..).unwrap_or(b"");
    behind(left) == behind(right)
        || behind(left) == right
        || left == behind(right)
        || are_swapped(left, right)
}

/// What stands behind the first letter.
fn behind(name: &[u8]) -> &[u8] {
    match name {
        [_, rest @ ..] => rest,
        [] => name,
    }
}

/// Whether the first two letters are those of the other in the other order, and the rest is the same.
fn are_swapped(left: &[u8], right: &[u8]) -> bool {
    match (left, right) {
        ([first, second, left @ ..], [third, fourth, right @ ..]) => {
            first == fourth && second == third && left == right
        }
        _ => false,
    }
}
