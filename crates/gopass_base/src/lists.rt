//! Lists that grow, and lists once more.

ghost use Rattle.std.specs.Prelude.{◌≡◌, ◌++◌, ◌∷◌, [], IfOk, OnOk, OnErr};

use crate::NoMemory;
use std::alloc::Global;

/// Adds the item at the end. Nothing changes where there is no memory.
pub fn push<T: Drop>(items: &mut Vec<T>, item: T) -> Result<(), NoMemory>
    ensures added { OnOk result (items.new.items ≡ items.old.items ++ item ∷ []) }
    ensures same { OnErr result (items.new.items ≡ items.old.items) }
{
    items.push(item)?;
    Ok(())
}

/// The items once more, each a clone that is equal to it.
pub fn copies<T: Clone>(alloc: Global, items: &[T]) -> Result<Vec<T>, NoMemory>
    requires equal { (item clone : T) → T.is_clone item clone → clone ≡ item }
    ensures { IfOk result (λ copies. copies.items ≡ items.now) }
{
    Ok(items.to_vec(alloc)?)
}
