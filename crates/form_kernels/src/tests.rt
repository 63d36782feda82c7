//! Names that were written by hand.

use crate::names::{marked_name, plain_name};
use std::alloc::AllocError;

#[test]
fn names(rt: HostRuntime) -> Result<(), AllocError> {
    let alloc = rt.alloc();
    let plain: &[u8] = b"ffc_mass";
    assert!(rt; plain_name(alloc, b"mass")?.as_slice() == plain);
    let cases: [(u32, &[u8], &[u8]); 3] = [
        (0, b"a", b"ffm0_a"),
        (12, b"b_1", b"ffm12_b_1"),
        (4294967295, b"L", b"ffm4294967295_L"),
    ];
    for (marker, name, whole) in cases {
        assert!(rt; marked_name(alloc, marker, name)?.as_slice() == whole);
    }
    Ok(())
}
