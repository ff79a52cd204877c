//! Whether two tables hold the same.
ghost use Rattle.std.specs.Prelude.{◌≡◌};
ghost use Rattle.std.specs.Cmp.Lexicographic.{pointwise};
ghost use Rattle.std.specs.FinMap.{entries};
ghost use Rattle.batch_core.specs.Same.{same_pair};

use wic_slab::Slab;

/// Whether the same ids are live in both tables, with equal values. Ids to come aren't compared.
pub(crate) fn same_pairs<T: Eq>(table: &Slab<T>, other: &Slab<T>) -> bool
    ensures { result
        ≡ pointwise (same_pair T.eq) (entries table.now.live) (entries other.now.live) }
{
    let mut left = table.iter();
    let mut right = other.iter();
    while let Some((id, value)) = left.next() {
        match right.next() {
            Some((other_id, other_value)) => {
                if id != other_id || value != other_value {
                    return false;
                }
            }
            None => return false,
        }
    }
    right.next().is_none()
}
