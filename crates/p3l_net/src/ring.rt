// Rings that are known to have room, or an item. What can't be is said by `unreachable!`, so that
// no test of it is left.

ghost use Rattle.std.specs.Prelude.{◌≡◌, ◌<◌, [], ◌∷◌, ◌++◌, length, slice_get, Some};
ghost use Rattle.circular_buffer.specs.Buffer.{buffer};

use circular_buffer::HeapCircularBuffer;

/// Appends an item, for which there is room.
pub(crate) fn append<T: Drop>(ring: &mut HeapCircularBuffer<T>, item: T)
    requires { length ring.old.items < ring.old.capacity }
    ensures { ring.new ≡ buffer (ring.old.items ++ item ∷ []) ring.old.capacity }
{
    let Ok(()) = ring.try_push_back(item) else {
        unreachable!();
    };
}

/// Puts an item before the others, for which there is room.
pub(crate) fn prepend<T>(ring: &mut HeapCircularBuffer<T>, item: T)
    requires { length ring.old.items < ring.old.capacity }
    ensures { ring.new ≡ buffer (item ∷ ring.old.items) ring.old.capacity }
{
    ring.try_push_front(item).unwrap();
}

/// Takes the first item of a ring that has one.
pub(crate) fn take<T>(ring: &mut HeapCircularBuffer<T>) -> T
    requires { 0 < length ring.old.items }
    ensures items { ring.old.items ≡ result ∷ ring.new.items }
    ensures capacity { ring.new.capacity ≡ ring.old.capacity }
{
    let Some(item) = ring.pop_front() else {
        unreachable!();
    };
    item
}

/// The item at `index`, counted from the first.
pub(crate) fn nth<T>(ring: &HeapCircularBuffer<T>, index: usize) -> &T
    requires { index < length ring.now.items }
    ensures { slice_get ring.now.items index ≡ Some result.now }
{
    let Some(item) = ring.get(index) else {
        unreachable!();
    };
    item
}
