//! A caller of this crate, proved from its contracts alone.
ghost use Rattle.std.specs.Prelude.{◌≡◌, ◌⊎◌, ◌++◌, ◌∷◌, [], codes, slice_get, Some, IsTrue, IfOk, IfErr, is_some};
ghost use Rattle.std.specs.Fmt.{decimal};
ghost use Rattle.wic_error.specs.Error.{first_with, links, is_oom};
ghost use Rattle.wic_error.specs.declared.callers.Trouble.TheVariants.{Launching, NoDevice};

use crate::{Context, Error, Kind};
use std::alloc::Global;
use wic_base::OutOfMemory;
use wic_vec::TryString;

// What can go wrong with a launch.
#[derive(Clone, Copy)]
pub enum Trouble {
    Launching,
    NoDevice(u64),
}

impl Kind for Trouble {
    ghost number = { elim [ Launching ↦ 1 | NoDevice id ↦ 2 ] };

    ghost text = { elim [ Launching ↦ codes "aborting launch" | NoDevice id ↦ codes "no device " ++ decimal id ] };

    fn number(&self) -> u32 {
        match self {
            Trouble::Launching => 1,
            Trouble::NoDevice(_) => 2,
        }
    }

    fn push_text(&self, out: &mut TryString) -> Result<(), OutOfMemory> {
        match self {
            Trouble::Launching => out.push_str("aborting launch"),
            Trouble::NoDevice(id) => {
                out.push_str("no device ")?;
                out.push_decimal(*id)
            }
        }
    }
}

// The place of a device.
fn find(alloc: Global, devices: &[u64], id: u64) -> Result<usize, Error<Trouble>>
    ensures found { IfOk result (λ place. slice_get devices.now place ≡ Some id) }
    ensures missing { IfErr result (λ error.
        (error ≡ links (NoDevice id) []) ⊎ IsTrue (is_oom error)) }
{
    let place = devices.iter().position(|device| *device == id);
    place.context(alloc, Trouble::NoDevice(id))
}

// The same, and what it was for.
pub fn launch(alloc: Global, devices: &[u64], id: u64) -> Result<usize, Error<Trouble>>
    ensures found { IfOk result (λ place. slice_get devices.now place ≡ Some id) }
    ensures missing { IfErr result
        (λ error. (error ≡ links Launching (NoDevice id ∷ [])) ⊎ IsTrue (is_oom error)) }
{
    find(alloc, devices, id).context(alloc, Trouble::Launching)
}

// Looking for a kind asks nothing more of the links; they need no `Drop`.
pub fn tells<K: Kind>(error: &Error<K>, number: u32) -> bool
    ensures told { result ≡ is_some (first_with K.number number error.now) }
{
    error.is(number)
}

// One line that tells all of it.
pub fn told(alloc: Global, error: &Error<Trouble>, id: u64) -> Result<TryString, OutOfMemory>
    requires { error.now ≡ links Launching (NoDevice id ∷ []) }
    ensures told { IfOk result (λ text.
        text.bytes ≡ codes "aborting launch: no device " ++ decimal id) }
{
    error.line(alloc)
}
