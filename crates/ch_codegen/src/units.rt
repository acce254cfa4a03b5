//! The parts of a unit beside its code.

ghost use Rattle.std.specs.Prelude.{◌≡◌, IfOk};

use ch_affine::List;
use ch_nest::ArrayDecl;
use std::alloc::{AllocError, Global};

fn copied_array(alloc: Global, array: &ArrayDecl) -> Result<ArrayDecl, AllocError>
    ensures { IfOk result (λ copy. copy ≡ array.now) }
{
    let name = array.name.copied(alloc)?;
    let extents = List::from_slice(alloc, array.extents.as_slice())?;
    Ok(ArrayDecl { name, extents })
}

pub(crate) fn copied_arrays(
    alloc: Global,
    arrays: &[ArrayDecl],
) -> Result<List<ArrayDecl>, AllocError>
    ensures { IfOk result (λ copy. copy ≡ arrays.now) }
{
    let mut copy = List::with_capacity(alloc, arrays.len())?;
    for array in arrays {
        copy.push(copied_array(alloc, array)?)?;
    }
    Ok(copy)
}

pub(crate) fn copied_temps(
    alloc: Global,
    temps: &[List<u32>],
) -> Result<List<List<u32>>, AllocError>
    ensures { IfOk result (λ copy. copy ≡ temps.now) }
{
    let mut copy = List::with_capacity(alloc, temps.len())?;
    for extents in temps {
        copy.push(List::from_slice(alloc, extents.as_slice())?)?;
    }
    Ok(copy)
}
