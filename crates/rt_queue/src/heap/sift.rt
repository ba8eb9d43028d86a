//! The moves of entries in a heap, over its rows: `keys` by number, the number at each place in
//! `order`, and the place of each number in `places`. The moving entry is kept in a local, and
//! written where it ends.
ghost use Rattle.std.specs.Prelude.{◌≡◌, ℕ, ◌+◌, ◌-◌, ◌<◌, ◌≤◌, length, slice_index, slice_set, Some, None, MatchBool, MatchOption};
ghost use Rattle.rt_queue.specs.heap.HeapOrder.{above, IsLeaf, IsLeastBelow, IsOrdered, IsRising, IsSinking};
ghost use Rattle.rt_queue.specs.heap.IsHeap.{IsHeap};
ghost use Rattle.rt_queue.specs.Order.{NotAfter};
ghost use Rattle.rt_queue.specs.heap.Places.{entry_at, keys_in, AreInverse};

/// An entry: a key with its number.
type Entry = (u64, u32);

/// Puts a number in with a key, behind the `len` entries of the heap, and moves it up.
#[inline]
pub fn insert_entry(
    keys: &mut [u64],
    order: &mut [u32],
    places: &mut [u32],
    len: u32,
    number: u32,
    key: u64,
)
    requires heap { IsHeap keys.old order.old places.old len }
    requires below { number < length keys.old }
    requires absent { len ≤ slice_index places.old number }
    ensures heap { IsHeap keys.new order.new places.new (len + 1) }
    ensures inserted { keys_in keys.new places.new (len + 1)
        ≡ slice_set (keys_in keys.old places.old len) number (Some key) }
{
    keys[number as usize] = key;
    exchange(order, places, number, len);
    sift_up(keys, order, places, len);
}

/// Takes a number out of the `len` entries of the heap, and moves the last entry into its place, and
/// from there up or down.
#[inline]
pub fn remove_entry(keys: &[u64], order: &mut [u32], places: &mut [u32], len: u32, number: u32)
    requires heap { IsHeap keys.now order.old places.old len }
    requires below { number < length keys.now }
    requires present { slice_index places.old number < len }
    ensures heap { IsHeap keys.now order.new places.new (len - 1) }
    ensures removed { keys_in keys.now places.new (len - 1)
        ≡ slice_set (keys_in keys.now places.old len) number None }
{
    let last = len - 1;
    let place = places[number as usize];
    exchange(order, places, number, last);
    if place >= last {
        return;
    }
    let moved = entry(keys, order, place);
    if place > 0 && comes_before(moved, entry(keys, order, (place - 1) / 2)) {
        sift_up(keys, order, places, place);
    } else {
        sift_down(keys, order, places, place, last);
    }
}

/// Gives the number of the first of the `len` entries of the heap another key, and moves it down from there.
#[inline]
pub fn rekey_first(keys: &mut [u64], order: &mut [u32], places: &mut [u32], len: u32, key: u64)
    requires heap { IsHeap keys.old order.old places.old len }
    requires some { 0 < len }
    ensures heap { IsHeap keys.new order.new places.new len }
    ensures rekeyed { keys_in keys.new places.new len
        ≡ slice_set (keys_in keys.old places.old len) (slice_index order.old 0) (Some key) }
{
    keys[order[0] as usize] = key;
    sift_down(keys, order, places, 0, len);
}

/// Whether an entry comes before another.
#[inline]
pub fn comes_before(entry: Entry, other: Entry) -> bool
    ensures { MatchBool result (NotAfter entry other) (NotAfter other entry) }
{
    (entry.0 < other.0) | ((entry.0 == other.0) & (entry.1 < other.1))
}

/// The entry at a place.
#[inline]
pub fn entry(keys: &[u64], order: &[u32], place: u32) -> Entry
    requires place { place < length order.now }
    requires number { slice_index order.now place < length keys.now }
    ensures { result ≡ entry_at keys.now order.now place }
{
    let number = order[place as usize];
    (keys[number as usize], number)
}

/// Moves the entry at `from` up to where no entry above it comes after it.
#[inline]
fn sift_up(keys: &[u64], order: &mut [u32], places: &mut [u32], from: u32)
    requires within { from < length order.old }
    requires keyed { length keys.now ≡ length order.old }
    requires inverse { AreInverse order.old places.old }
    ensures inverse { AreInverse order.new places.new }
    ensures ordered { (len : ℕ) → IsRising (entry_at keys.now order.old) len from →
        IsOrdered (entry_at keys.now order.new) len }
    ensures present { (len : ℕ) → from < len →
        keys_in keys.now places.new len ≡ keys_in keys.now places.old len }
{
    let moving = entry(keys, order, from);
    let mut hole = from;
    while hole > 0 {
        let above = (hole - 1) / 2;
        let upper = entry(keys, order, above);
        if !comes_before(moving, upper) {
            break;
        }
        order[hole as usize] = upper.1;
        places[upper.1 as usize] = hole;
        hole = above;
    }
    order[hole as usize] = moving.1;
    places[moving.1 as usize] = hole;
}

/// Moves the entry at `from` down to where no entry below it, at a place below `len`, comes before
/// it.
#[inline]
fn sift_down(keys: &[u64], order: &mut [u32], places: &mut [u32], from: u32, len: u32)
    requires within { len ≤ length order.old }
    requires keyed { length keys.now ≡ length order.old }
    requires inverse { AreInverse order.old places.old }
    requires sinking { IsSinking (entry_at keys.now order.old) len from }
    ensures inverse { AreInverse order.new places.new }
    ensures ordered { IsOrdered (entry_at keys.now order.new) len }
    ensures present { keys_in keys.now places.new len ≡ keys_in keys.now places.old len }
{
    let moving = entry(keys, order, from);
    let mut hole = from;
    while let Some(below) = least_below(keys, order, hole, len) {
        let lower = entry(keys, order, below);
        if !comes_before(lower, moving) {
            break;
        }
        order[hole as usize] = lower.1;
        places[lower.1 as usize] = hole;
        hole = below;
    }
    order[hole as usize] = moving.1;
    places[moving.1 as usize] = hole;
}

/// The place, below `len`, of the first of the two entries right below a place.
#[inline]
fn least_below(keys: &[u64], order: &[u32], place: u32, len: u32) -> Option<u32>
    requires within { len ≤ length order.now }
    requires numbers { (below : ℕ) → 0 < below → below < len → above below ≡ place →
        slice_index order.now below < length keys.now }
    ensures { MatchOption result (IsLeaf len place)
        (λ least. IsLeastBelow (entry_at keys.now order.now) len place least) }
{
    if place >= len / 2 {
        return None;
    }
    let left = 2 * place + 1;
    let right = left + 1;
    if right >= len {
        return Some(left);
    }
    let is_right = comes_before(entry(keys, order, right), entry(keys, order, left));
    Some(left + u32::from(is_right))
}

/// Puts a number at a place, and the number that was there at the place where that one was.
#[inline]
fn exchange(order: &mut [u32], places: &mut [u32], number: u32, place: u32)
    requires number { number < length order.old }
    requires place { place < length order.old }
    requires inverse { AreInverse order.old places.old }
    ensures inverse { AreInverse order.new places.new }
    ensures order { let was = slice_index places.old number in
        order.new ≡ slice_set (slice_set order.old was (slice_index order.old place)) place number }
    ensures places { let was = slice_index places.old number in
        places.new ≡ slice_set (slice_set places.old (slice_index order.old place) was) number place }
{
    let was = places[number as usize];
    let other = order[place as usize];
    order[was as usize] = other;
    places[other as usize] = was;
    order[place as usize] = number;
    places[number as usize] = place;
}
