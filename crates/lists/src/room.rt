//! Vectors that have room, written in place, and those that are taken out of theirs.
ghost use Rattle.std.specs.Prelude.{◌≡◌, ◌+◌, ◌<◌, ◌≤◌, ◌++◌, ◌∷◌, [], OnOk, length, take, vec_capacity, vec_len};

use std::alloc::AllocError;
use std::mem::replace;

/// Adds the item at the end of a vector that has room for it.
pub fn push_within<T: Copy>(items: &mut Vec<T>, item: T)
    requires { vec_len items.old < vec_capacity items.old }
    ensures items { items.new.items ≡ items.old.items ++ item ∷ [] }
    ensures len { vec_len items.new ≡ vec_len items.old + 1 }
    ensures capacity { vec_capacity items.old ≤ vec_capacity items.new }
{
    let pushed = items.push(item).is_ok();
    prove!(pushed);
}

/// Makes the vector these items.
pub fn write_all<T: Copy>(items: &mut Vec<T>, from: &[T])
    requires { length from.now ≤ vec_capacity items.old }
    ensures items { items.new.items ≡ from.now }
    ensures len { vec_len items.new ≡ length from.now }
    ensures capacity { vec_capacity items.old ≤ vec_capacity items.new }
{
    items.clear();
    for item in from {
        push_within(items, *item);
    }
}

/// Makes the vector these items and one more.
pub fn write_items<T: Copy>(items: &mut Vec<T>, front: &[T], last: T)
    requires { length front.now < vec_capacity items.old }
    ensures items { items.new.items ≡ front.now ++ last ∷ [] }
    ensures len { vec_len items.new ≡ length front.now + 1 }
    ensures capacity { vec_capacity items.old ≤ vec_capacity items.new }
{
    write_all(items, front);
    push_within(items, last);
}

/// Writes these items and one more to the front of a line.
pub fn write_front<T: Copy>(line: &mut [T], front: &[T], last: T)
    requires { length front.now < length line.old }
    ensures { take (length front.now + 1) line.new ≡ front.now ++ last ∷ [] }
{
    let count = front.len();
    line[..count].copy_from_slice(front);
    line[count] = last;
}

/// Makes room for so many items in the list, which has none then. The error is want of memory.
pub fn make_room<T: Drop>(list: &mut Vec<T>, count: usize) -> Result<(), AllocError>
    ensures room { OnOk result (count ≤ vec_capacity list.new) }
    ensures none { list.new.items ≡ [] }
{
    list.clear();
    list.reserve_exact(count)
}

/// Takes the list out of its place, where a list with no item and no room is left.
pub fn take_list<T>(list: &mut Vec<T>) -> Vec<T>
    ensures taken { result ≡ list.old }
    ensures none { list.new.items ≡ [] }
{
    let alloc = *list.allocator();
    replace(list, Vec::new(alloc))
}
