// Lists that grow by one element at a time, of which most stay short.
ghost use Rattle.std.specs.Prelude.{◌≡◌, [], ◌∷◌, ◌++◌, OnOk};

use std::alloc::AllocError;

/// Puts one more element at the end. A list of one element, or of two, has no room for more.
pub fn put_last<T: Drop>(list: &mut Vec<T>, last: T) -> Result<(), AllocError>
    ensures { OnOk result (list.new.items ≡ list.old.items ++ last ∷ []) }
{
    if list.len() < 2 && list.reserve_exact(1).is_err() {
        drop(last);
        return Err(AllocError);
    }
    list.push(last)?;
    Ok(())
}
