//! The end of the mailboxes: the slots of their closed table are emptied.
ghost use Rattle.std.specs.Prelude.{◌≡◌, ◌++◌, ℕ, true, false, take, OnOk, OnErr};
ghost use Rattle.std.specs.Mem.Slots.{IsFull, slots_items};
ghost use Rattle.yew_mail.specs.Closing.{tasks_in};

use atomic_table::Closed;
use std::alloc::Global;
use yew_laws::{Memory, Task};

// Appends what the slots have, in the order of the boxes, as long as memory lasts. Each slot is taken in any case,
// since only an empty table can be freed.
pub fn empty<N: Drop>(
    mut closed: Closed<Vec<Task<N>>, Global>,
    left: &mut Vec<Task<N>>,
) -> Result<(), Memory>
    requires { IsFull closed.slots }
    ensures ok { OnOk result (left.new.items ≡ left.old.items ++ tasks_in (slots_items closed.slots)) }
    ensures err { OnErr result ((count : ℕ) × (left.new.items ≡ left.old.items ++ tasks_in (take count (slots_items closed.slots)))) }
{
    let mut lasts = true;
    for slot in 0..closed.slot_count() {
        lasts = append(left, closed.take(slot), lasts);
    }
    closed.free();
    if lasts { Ok(()) } else { Err(Memory) }
}

// Appends these tasks where memory has lasted, and answers whether it still does.
fn append<N: Drop>(left: &mut Vec<Task<N>>, mut tasks: Vec<Task<N>>, lasts: bool) -> bool
    ensures appended { result ≡ true → (lasts ≡ true) × (left.new.items ≡ left.old.items ++ tasks.items) }
    ensures dropped { result ≡ false → left.new.items ≡ left.old.items }
{
    lasts && left.append(&mut tasks).is_ok()
}
