//! Lists of a fixed length, made by a closure.
ghost use Rattle.std.specs.Prelude.{◌≡◌, ◌+◌, ◌<◌, ◌∷◌, [], ◌++◌, List, Ok, Err, map, length, IfOk, IfErr};
ghost use Rattle.std.specs.List.{range_with_len};
ghost use Rattle.wic_vec.specs.ClosureRun.{ClosureRun};

use arrayvec::ArrayVec;

/// Calls `cb` on 0, 1, 2 and so on, once on each, in order, and returns the list of its `N` values. The first `Err` is
/// returned, and no call comes after it. It allocates nothing.
///
/// A port of `wasmtime_internal_core::array::array_try_from_fn`, with a full list in place of an array.
pub fn array_try_from_fn<E, T: Default + Drop, const N: usize, F: FnMut(usize) -> Result<T, E>>(
    mut cb: F,
) -> Result<ArrayVec<T, N>, E>
    requires { F.IsAlwaysCallable cb }
    ensures full { IfOk result (λ list. length list.items ≡ N) }
    ensures run { IfOk result (λ list. (last : F)
        × ClosureRun F.step cb (range_with_len 0 N) (map Ok list.items) last) }
    ensures first_error { IfErr result (λ e. (values : List T) × (last : F) × (length values < N)
        × ClosureRun F.step cb (range_with_len 0 (length values + 1)) (map Ok values ++ Err e ∷ [])
        last) }
{
    let mut list = ArrayVec::new();
    for i in 0..N {
        match cb(i) {
            Ok(value) => list.push(value),
            Err(error) => return Err(error),
        }
    }
    Ok(list)
}
