//! Lists in rising order.

ghost use Rattle.std.specs.Prelude.{◌≤◌, length};
ghost use Rattle.gopass_base.specs.Order.{IsSortedOnce};

/// The items in rising order, of those that are equal one.
pub fn in_order<T: Ord + Drop>(items: Vec<T>) -> Vec<T>
    ensures once { IsSortedOnce T.cmp T.eq items.items result.items }
    ensures few { length result.items ≤ length items.items }
{
    let mut sorted = items;
    sorted.sort_unstable();
    sorted.dedup();
    sorted
}
