// The statements of a kernel, and what holds them.

use ratio::Ratio;
use sqlite_items::Items;

/// The four arrays of a kernel: coordinates, coefficient values, temporaries and the local tensor.
#[derive(Clone, Copy)]
pub enum Array {
    X,
    W,
    T,
    A,
}

/// The slot number `base + steps[0]*i0 + .. + steps[3]*i3`, where i0 to i3 count the turns of the enclosing loops, the outermost first.
#[derive(Clone, Copy)]
pub struct Slot {
    pub base: u32,
    pub steps: [u32; 4],
}

/// A slot of one of the arrays.
#[derive(Clone, Copy)]
pub struct Place {
    pub array: Array,
    pub slot: Slot,
}

/// The steps that may pass: their exact result may need more than 127 bits.
#[derive(Clone, Copy, Debug, PartialEq, Eq)]
pub enum Op {
    Add,
    Sub,
    Mul,
}

/// A statement of a kernel: one `fr_` call, or a loop over statements.
#[cycle(statement)]
#[derive(Drop)]
pub enum CStmt {
    Set {
        to: Place,
        value: Ratio,
    },
    Copy {
        to: Place,
        arg: Place,
    },
    Abs {
        to: Place,
        arg: Place,
    },
    Inv {
        to: Place,
        arg: Place,
    },
    Add {
        to: Place,
        left: Place,
        right: Place,
    },
    Sub {
        to: Place,
        left: Place,
        right: Place,
    },
    Mul {
        to: Place,
        left: Place,
        right: Place,
    },
    /// Sets a slot to an item of a table.
    Load {
        to: Place,
        table: u32,
        at: Slot,
    },
    /// Runs its body `turns` times.
    For {
        turns: u32,
        body: Items<CStmt>,
    },
}

/// A function: its name, the sizes of its four arrays, its tables and its statements.
#[derive(Drop)]
pub struct CFun {
    pub name: Items<u8>,
    pub x: u32,
    pub w: u32,
    pub t: u32,
    pub a: u32,
    pub tables: Items<Items<Ratio>>,
    pub body: Items<CStmt>,
}

/// A unit of functions, in the order of its text.
#[derive(Drop)]
pub struct CUnit {
    pub funs: Items<CFun>,
}
