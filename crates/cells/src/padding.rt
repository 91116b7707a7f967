// Items put into lent words or bytes in order, one behind the other, with zeros behind the last.
ghost use Rattle.std.specs.Prelude.{◌≡◌, length, get_or};
ghost use Rattle.cells.specs.Lists.{list_of};

// The items, or as many of them as are lent, and zeros behind.
pub fn put_padded<T: Copy>(out: &mut [T], items: &[T], zero: T)
    ensures { out.new ≡ list_of (λ k. get_or items.now k zero) (length out.old) }
{
    for (i, slot) in out.iter_mut().enumerate() {
        *slot = items.get(i).copied().unwrap_or(zero);
    }
}
