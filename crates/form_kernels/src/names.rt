//! The names of a form's functions.

ghost use Rattle.std.specs.Prelude.{◌≡◌, IfOk};
ghost use Rattle.form_kernels.specs.Kernels.{plain_name, marked_name};

use itoa::Buffer;
use std::alloc::{AllocError, Global};

/// `ffc_NAME`, of the function for the cells whose marker the form doesn't name.
pub(crate) fn plain_name(alloc: Global, name: &[u8]) -> Result<Vec<u8>, AllocError>
    ensures { IfOk result (λ f. f.items ≡ plain_name name.now) }
{
    let mut function = Vec::from_slice(alloc, b"ffc_")?;
    function.extend_from_slice(name)?;
    Ok(function)
}

/// `ffmK_NAME`, of the function for the cells with marker K.
pub(crate) fn marked_name(alloc: Global, marker: u32, name: &[u8]) -> Result<Vec<u8>, AllocError>
    ensures { IfOk result (λ f. f.items ≡ marked_name marker name.now) }
{
    let mut function = Vec::from_slice(alloc, b"ffm")?;
    function.extend_from_slice(Buffer::new().format(marker).as_bytes())?;
    function.extend_from_slice(b"_")?;
    function.extend_from_slice(name)?;
    Ok(function)
}
