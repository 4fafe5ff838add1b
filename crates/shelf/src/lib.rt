// The shelf on which rows stand while they change: slots that do not move, and their order by rising key.
#![tactic(auto)]

ghost use Rattle.std.specs.Prelude.{◌≡◌, true, ◌∷◌, ◌++◌, ◌≤◌, suc, ◌-◌, ◌<◌, ◌^◌, length, get_or, take, drop, set};
ghost use Rattle.rows.specs.Rows.{rising};
ghost use Rattle.rows.specs.Spots.{spot};
ghost use Rattle.rows.specs.Room.{filled, used};
ghost use Rattle.shelf.specs.Shelf.{up_from, shelved, Shelf};

use rows::Row;
use std::cmp::Ordering;

// The order of a shelf on which nothing has moved: no more slots than two bytes tell apart.
pub fn number_slots(order: &mut [u16])
    requires { length order.old ≤ 2 ^ 16 }
    ensures { order.new ≡ up_from 0 (length order.old) }
{
    for (i, slot) in order.iter_mut().enumerate() {
        *slot = i as u16;
    }
}

// Where a key stands on a shelf (`Ok`), or would stand (`Err`). (By halving; rows mostly come by rising or falling key, so the last and the first one are looked at
// before.)
pub fn seek_slot(
    slots: &[Row],
    order: &[u16],
    n: usize,
    k: usize,
    row: &Row,
) -> Result<usize, usize>
    requires { Shelf slots.now order.now n × (rising k (shelved slots.now order.now n) ≡ true) }
    ensures { result ≡ spot k row.now (shelved slots.now order.now n) }
{
    let mut low = 0;
    let mut high = n;
    let mut probe = n.saturating_sub(1);
    let mut ends = true;
    'slots: while low < high {
        let slot = usize::from(order[probe]);
        match rows::compare(row, &slots[slot], k) {
            Ordering::Less => {
                high = probe;
            }
            Ordering::Equal => {
                return Ok(probe);
            }
            Ordering::Greater => {
                low = probe + 1;
            }
        }
        probe = if ends { low } else { low + ((high - low) >> 1) };
        ends = false;
    }
    Err(low)
}

// A row into the first free slot, which comes to place `at` of the order: the later ones move one further.
pub fn put_slot(slots: &mut [Row], order: &mut [u16], n: usize, at: usize, row: Row)
    requires { Shelf slots.old order.old n × (n < length slots.old) × (at ≤ n) }
    ensures { (slots.new ≡ set slots.old (get_or order.old n 0) row) × (order.new ≡ take at order.old ++ (get_or order.old n 0 ∷ (take (n - at) (drop at order.old) ++ drop (suc n) order.old))) }
{
    let slot = order[n];
    slots[usize::from(slot)] = row;
    for i in (at..n).rev() {
        order[i + 1] = order[i];
    }
    order[at] = slot;
}

// Another row into the slot at a place of the order.
pub fn set_slot(slots: &mut [Row], order: &[u16], n: usize, at: usize, row: Row)
    requires { Shelf slots.old order.now n × (at < n) }
    ensures { slots.new ≡ set slots.old (get_or order.now at 0) row }
{
    let slot = usize::from(order[at]);
    slots[slot] = row;
}

// The slot at a place of the order is free: the later ones move one back, and it comes behind the used ones.
pub fn free_slot(order: &mut [u16], n: usize, at: usize)
    requires { (at < n) × (n ≤ length order.old) }
    ensures { order.new ≡ take at order.old ++ (take (n - suc at) (drop (suc at) order.old) ++ (get_or order.old at 0 ∷ drop n order.old)) }
{
    let slot = order[at];
    for i in at + 1..n {
        order[i - 1] = order[i];
    }
    order[n - 1] = slot;
}

// The rows of a shelf by rising key into a list of its size, and zeros behind them. Behind the rows that the list had they stand already.
pub fn lay_out(slots: &[Row], order: &[u16], n: usize, list: &mut [Row])
    requires { Shelf slots.now order.now n × (length list.old ≡ length slots.now) × (list.old ≡ filled (length list.old) (used list.old)) }
    ensures { list.new ≡ filled (length list.old) (shelved slots.now order.now n) }
{
    let before = rows::count(&list[..]);
    for i in 0..n {
        let slot = usize::from(order[i]);
        let next = slots[slot];
        list[i] = next;
    }
    if n < before {
        rows::clear(&mut list[n..before]);
    }
}
