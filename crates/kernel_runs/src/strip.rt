//! Slots at equal distances.

use c_unit::Array;

/// So many slots of an array, `step` apart, the first at `base`.
#[derive(Clone, Copy)]
pub struct Strip {
    pub array: Array,
    pub base: u32,
    pub step: u32,
    pub count: u32,
}
