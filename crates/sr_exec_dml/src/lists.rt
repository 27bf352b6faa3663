ghost use Rattle.std.specs.Prelude.{◌≡◌, []};

/// A list without its items, with the memory that they stood in.
pub(crate) fn emptied<T: Drop>(list: Vec<T>) -> Vec<T>
    ensures empty { result.items ≡ [] }
{
    let mut list = list;
    list.clear();
    list
}
