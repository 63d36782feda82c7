// The canonical text of a unit.

ghost use Rattle.std.specs.Prelude.{◌≡◌, ◌<◌, ◌++◌, ◌/◌, ◌%◌, ◌^◌, OnOk, OnErr, unsigned_abs, decimal};
ghost use Rattle.algebra.specs.LowestTerms.{top, bottom};
ghost use Rattle.ratio.specs.Value.{fraction_of};
ghost use Rattle.c_unit.specs.Meaning.{deeper as one_deeper};
ghost use Rattle.c_text.specs.Pieces.{text_of};
ghost use Rattle.c_text.specs.Appends.{Extends};
ghost use Rattle.c_text.specs.Parts.{part_bytes, parts_bytes, opening as opening_of, half_bytes, sign_bytes, call_bytes, test_bytes, inverse_bytes, load_bytes, header_bytes};
ghost use Rattle.c_text.specs.Layout.{canonical, step_pieces, steps_pieces, slot_pieces, place_pieces, value_pieces, parts_pieces, body_pieces, one_pieces, table_pieces, tables_pieces, items_pieces, more_items, fun_pieces, funs_pieces, enum_pieces, signature_pieces, slots_pieces, end_pieces, unit_pieces};

use c_unit::{Array, CFun, CStmt, CUnit, Place, Slot};
use itoa::Buffer;
use ratio::Ratio;
use sqlite_items::Items;
use std::alloc::AllocError;

/// A part of a text that is to be printed.
#[derive(Clone, Copy)]
enum Part<'a> {
    Text(&'a [u8]),
    Number(u64),
    Slot(Slot),
    Place(Place),
    Fraction(Ratio),
    /// The blanks at the front of a line inside this many loops.
    Indent(u32),
}

fn print_text(out: &mut Vec<u8>, text: &[u8]) -> Result<(), AllocError>
    ensures ok { OnOk result (out.new.items ≡ out.old.items ++ text.now) }
    ensures kept { OnErr result (Extends out.old.items out.new.items) }
{
    out.extend_from_slice(text)
}

fn print_number(out: &mut Vec<u8>, number: u64) -> Result<(), AllocError>
    ensures ok { OnOk result (out.new.items ≡ out.old.items ++ decimal number) }
    ensures kept { OnErr result (Extends out.old.items out.new.items) }
{
    let mut buffer = Buffer::new();
    print_text(out, buffer.format(number).as_bytes())
}

#[tactic(auto, unfolding(crate::specs::Layout::step_pieces))]
fn print_step(out: &mut Vec<u8>, depth: u64, step: u32) -> Result<(), AllocError>
    ensures ok { OnOk result (out.new.items ≡ out.old.items ++ text_of (step_pieces depth step)) }
    ensures kept { OnErr result (Extends out.old.items out.new.items) }
{
    if step == 0 {
        return Ok(());
    }
    print_text(out, b"+")?;
    print_number(out, step as u64)?;
    print_text(out, b"*i")?;
    print_number(out, depth)
}

#[tactic(auto, using(crate::proofs::Texts::text_steps))]
fn print_steps(out: &mut Vec<u8>, steps: [u32; 4]) -> Result<(), AllocError>
    ensures ok { OnOk result (out.new.items ≡ out.old.items ++ text_of (steps_pieces steps)) }
    ensures kept { OnErr result (Extends out.old.items out.new.items) }
{
    print_step(out, 0, steps[0])?;
    print_step(out, 1, steps[1])?;
    print_step(out, 2, steps[2])?;
    print_step(out, 3, steps[3])
}

#[tactic(auto, using(crate::proofs::Texts::text_slot))]
fn print_slot(out: &mut Vec<u8>, slot: Slot) -> Result<(), AllocError>
    ensures ok { OnOk result (out.new.items ≡ out.old.items ++ text_of (slot_pieces slot)) }
    ensures kept { OnErr result (Extends out.old.items out.new.items) }
{
    print_number(out, slot.base as u64)?;
    print_steps(out, slot.steps)
}

// `&`, the array and `[`
fn opening(array: Array) -> &'static [u8]
    ensures { result.now ≡ opening_of array }
{
    match array {
        Array::X => b"&X[",
        Array::W => b"&W[",
        Array::T => b"&T[",
        Array::A => b"&A[",
    }
}

#[tactic(auto, using(crate::proofs::Texts::text_place))]
fn print_place(out: &mut Vec<u8>, place: Place) -> Result<(), AllocError>
    ensures ok { OnOk result (out.new.items ≡ out.old.items ++ text_of (place_pieces place)) }
    ensures kept { OnErr result (Extends out.old.items out.new.items) }
{
    print_text(out, opening(place.array))?;
    print_slot(out, place.slot)?;
    print_text(out, b"]")
}

// A comma, and a number below 2^64 of a fraction.
fn print_half(out: &mut Vec<u8>, number: u64) -> Result<(), AllocError>
    ensures ok { OnOk result (out.new.items ≡ out.old.items ++ half_bytes number) }
    ensures kept { OnErr result (Extends out.old.items out.new.items) }
{
    print_text(out, b", ")?;
    print_number(out, number)?;
    print_text(out, b"u")
}

const WORD: u128 = 0x1_0000_0000_0000_0000;

// A part of a fraction as its two halves.
fn print_halves(out: &mut Vec<u8>, part: u128) -> Result<(), AllocError>
    ensures ok { OnOk result (out.new.items ≡ out.old.items ++ (half_bytes (part / 2 ^ 64) ++ half_bytes (part % 2 ^ 64))) }
    ensures kept { OnErr result (Extends out.old.items out.new.items) }
{
    print_half(out, (part / WORD) as u64)?;
    print_half(out, (part % WORD) as u64)
}

fn sign(number: i128) -> &'static [u8]
    ensures { result.now ≡ sign_bytes number }
{
    if number < 0 { b"1" } else { b"0" }
}

fn print_fraction(out: &mut Vec<u8>, value: Ratio) -> Result<(), AllocError>
    ensures ok { OnOk result (out.new.items ≡ out.old.items ++ text_of (value_pieces value)) }
    ensures kept { OnErr result (Extends out.old.items out.new.items) }
{
    let top = value.num();
    print_text(out, sign(top))?;
    print_halves(out, top.unsigned_abs())?;
    print_halves(out, value.den().unsigned_abs())
}

fn print_indent(out: &mut Vec<u8>, depth: u32) -> Result<(), AllocError>
    ensures ok { OnOk result (out.new.items ≡ out.old.items ++ part_bytes (Part.Indent depth)) }
    ensures kept { OnErr result (Extends out.old.items out.new.items) }
{
    print_text(out, b"  ")?;
    for _turn in 0..depth {
        print_text(out, b"  ")?;
    }
    Ok(())
}

fn print_part(out: &mut Vec<u8>, part: &Part) -> Result<(), AllocError>
    ensures ok { OnOk result (out.new.items ≡ out.old.items ++ part_bytes part.now) }
    ensures kept { OnErr result (Extends out.old.items out.new.items) }
{
    match part {
        Part::Text(text) => print_text(out, text),
        Part::Number(number) => print_number(out, *number),
        Part::Slot(slot) => print_slot(out, *slot),
        Part::Place(place) => print_place(out, *place),
        Part::Fraction(value) => print_fraction(out, *value),
        Part::Indent(depth) => print_indent(out, *depth),
    }
}

fn print_parts(out: &mut Vec<u8>, parts: &[Part]) -> Result<(), AllocError>
    ensures ok { OnOk result (out.new.items ≡ out.old.items ++ parts_bytes parts.now) }
    ensures kept { OnErr result (Extends out.old.items out.new.items) }
{
    for part in parts {
        print_part(out, part)?;
    }
    Ok(())
}

// Loops are nested at most four deep: a deeper one has no counter of its own.
fn deeper(depth: u32) -> u32
    ensures { result ≡ one_deeper depth }
{
    if depth < 4 { depth + 1 } else { depth }
}

// A line that calls a function.
fn print_call<'a>(
    out: &mut Vec<u8>,
    depth: u32,
    name: &'a [u8],
    to: Place,
    argument: Part<'a>,
) -> Result<(), AllocError>
    ensures ok { OnOk result (out.new.items ≡ out.old.items ++ call_bytes depth name.now to (part_bytes argument.entry)) }
    ensures kept { OnErr result (Extends out.old.items out.new.items) }
{
    print_parts(
        out,
        &[
            Part::Indent(depth),
            Part::Text(name),
            Part::Text(b"("),
            Part::Place(to),
            Part::Text(b", "),
            argument,
            Part::Text(b");\n"),
        ],
    )
}

// A line whose call ends the run where its step passes.
fn print_step_call(
    out: &mut Vec<u8>,
    depth: u32,
    name: &[u8],
    to: Place,
    left: Place,
    right: Place,
) -> Result<(), AllocError>
    ensures ok { OnOk result (out.new.items ≡ out.old.items ++ test_bytes depth name.now to left right) }
    ensures kept { OnErr result (Extends out.old.items out.new.items) }
{
    print_parts(
        out,
        &[
            Part::Indent(depth),
            Part::Text(b"if ("),
            Part::Text(name),
            Part::Text(b"("),
            Part::Place(to),
            Part::Text(b", "),
            Part::Place(left),
            Part::Text(b", "),
            Part::Place(right),
            Part::Text(b")) return 1;\n"),
        ],
    )
}

// A line whose call ends the run where it is of 0.
fn print_inverse(out: &mut Vec<u8>, depth: u32, to: Place, arg: Place) -> Result<(), AllocError>
    ensures ok { OnOk result (out.new.items ≡ out.old.items ++ inverse_bytes depth to arg) }
    ensures kept { OnErr result (Extends out.old.items out.new.items) }
{
    print_parts(
        out,
        &[
            Part::Indent(depth),
            Part::Text(b"if (fr_inv("),
            Part::Place(to),
            Part::Text(b", "),
            Part::Place(arg),
            Part::Text(b")) return 2;\n"),
        ],
    )
}

fn print_load(
    out: &mut Vec<u8>,
    depth: u32,
    to: Place,
    table: u32,
    at: Slot,
) -> Result<(), AllocError>
    ensures ok { OnOk result (out.new.items ≡ out.old.items ++ load_bytes depth to table at) }
    ensures kept { OnErr result (Extends out.old.items out.new.items) }
{
    print_parts(
        out,
        &[
            Part::Indent(depth),
            Part::Text(b"fr_load("),
            Part::Place(to),
            Part::Text(b", &K"),
            Part::Number(table as u64),
            Part::Text(b"["),
            Part::Slot(at),
            Part::Text(b"]);\n"),
        ],
    )
}

fn print_header(out: &mut Vec<u8>, depth: u32, turns: u32) -> Result<(), AllocError>
    ensures ok { OnOk result (out.new.items ≡ out.old.items ++ header_bytes depth turns) }
    ensures kept { OnErr result (Extends out.old.items out.new.items) }
{
    let counter = Part::Number(depth as u64);
    print_parts(
        out,
        &[
            Part::Indent(depth),
            Part::Text(b"for (int i"),
            counter,
            Part::Text(b" = 0; i"),
            counter,
            Part::Text(b" < "),
            Part::Number(turns as u64),
            Part::Text(b"; i"),
            counter,
            Part::Text(b"++) {\n"),
        ],
    )
}

#[cycle(printer)]
fn print_statement(out: &mut Vec<u8>, depth: u32, statement: &CStmt) -> Result<(), AllocError>
    ensures ok { OnOk result (out.new.items ≡ out.old.items ++ text_of (one_pieces depth statement.now)) }
    ensures kept { OnErr result (Extends out.old.items out.new.items) }
{
    match statement {
        CStmt::Set { to, value } => print_call(out, depth, b"fr_set", *to, Part::Fraction(*value)),
        CStmt::Copy { to, arg } => print_call(out, depth, b"fr_copy", *to, Part::Place(*arg)),
        CStmt::Abs { to, arg } => print_call(out, depth, b"fr_abs", *to, Part::Place(*arg)),
        CStmt::Inv { to, arg } => print_inverse(out, depth, *to, *arg),
        CStmt::Add { to, left, right } => print_step_call(
            out, depth, b"fr_add", *to, *left, *right,
        ),
        CStmt::Sub { to, left, right } => print_step_call(
            out, depth, b"fr_sub", *to, *left, *right,
        ),
        CStmt::Mul { to, left, right } => print_step_call(
            out, depth, b"fr_mul", *to, *left, *right,
        ),
        CStmt::Load { to, table, at } => print_load(out, depth, *to, *table, *at),
        CStmt::For { turns, body } => {
            print_header(out, depth, *turns)?;
            print_body(out, deeper(depth), body.as_slice())?;
            print_parts(out, &[Part::Indent(depth), Part::Text(b"}\n")])
        }
    }
}

#[cycle(printer)]
fn print_body(out: &mut Vec<u8>, depth: u32, body: &[CStmt]) -> Result<(), AllocError>
    ensures ok { OnOk result (out.new.items ≡ out.old.items ++ text_of (body_pieces depth body.now)) }
    ensures kept { OnErr result (Extends out.old.items out.new.items) }
{
    for statement in body {
        print_statement(out, depth, statement)?;
    }
    Ok(())
}

// The items of a table, each but the first behind a comma.
fn print_items(out: &mut Vec<u8>, items: &[Ratio]) -> Result<(), AllocError>
    ensures ok { OnOk result (out.new.items ≡ out.old.items ++ text_of (items_pieces items.now)) }
    ensures kept { OnErr result (Extends out.old.items out.new.items) }
{
    let Some((first, others)) = items.split_first() else {
        return Ok(());
    };
    print_parts(
        out,
        &[
            Part::Text(b" { "),
            Part::Fraction(*first),
            Part::Text(b" }"),
        ],
    )?;
    print_more_items(out, others)
}

fn print_more_items(out: &mut Vec<u8>, items: &[Ratio]) -> Result<(), AllocError>
    ensures ok { OnOk result (out.new.items ≡ out.old.items ++ text_of (more_items items.now)) }
    ensures kept { OnErr result (Extends out.old.items out.new.items) }
{
    for item in items {
        print_parts(
            out,
            &[
                Part::Text(b", { "),
                Part::Fraction(*item),
                Part::Text(b" }"),
            ],
        )?;
    }
    Ok(())
}

fn print_table(out: &mut Vec<u8>, number: usize, items: &[Ratio]) -> Result<(), AllocError>
    ensures ok { OnOk result (out.new.items ≡ out.old.items ++ text_of (table_pieces number items.now)) }
    ensures kept { OnErr result (Extends out.old.items out.new.items) }
{
    print_parts(
        out,
        &[
            Part::Text(b"  static const fr_lit K"),
            Part::Number(number as u64),
            Part::Text(b"["),
            Part::Number(items.len() as u64),
            Part::Text(b"] = {"),
        ],
    )?;
    print_items(out, items)?;
    print_text(out, b" };\n")
}

fn print_tables(out: &mut Vec<u8>, tables: &[Items<Ratio>]) -> Result<(), AllocError>
    ensures ok { OnOk result (out.new.items ≡ out.old.items ++ text_of (tables_pieces 0 tables.now)) }
    ensures kept { OnErr result (Extends out.old.items out.new.items) }
{
    for (number, table) in tables.iter().enumerate() {
        print_table(out, number, table.as_slice())?;
    }
    Ok(())
}

// The sizes of the four arrays.
fn print_enum(out: &mut Vec<u8>, fun: &CFun) -> Result<(), AllocError>
    ensures ok { OnOk result (out.new.items ≡ out.old.items ++ text_of (enum_pieces fun.now)) }
    ensures kept { OnErr result (Extends out.old.items out.new.items) }
{
    let name = Part::Text(fun.name.as_slice());
    print_parts(
        out,
        &[
            Part::Text(b"enum { "),
            name,
            Part::Text(b"_X = "),
            Part::Number(fun.x as u64),
            Part::Text(b", "),
            name,
            Part::Text(b"_W = "),
            Part::Number(fun.w as u64),
            Part::Text(b", "),
            name,
            Part::Text(b"_T = "),
            Part::Number(fun.t as u64),
            Part::Text(b", "),
            name,
            Part::Text(b"_A = "),
            Part::Number(fun.a as u64),
            Part::Text(b" };\n"),
        ],
    )
}

// The signature, and the slots of T and A.
fn print_opening(out: &mut Vec<u8>, fun: &CFun) -> Result<(), AllocError>
    ensures ok { OnOk result (out.new.items ≡ out.old.items ++ text_of (signature_pieces fun.now.name ++ slots_pieces fun.now)) }
    ensures kept { OnErr result (Extends out.old.items out.new.items) }
{
    let t = Part::Number(fun.t as u64);
    print_parts(
        out,
        &[
            Part::Text(b"int "),
            Part::Text(fun.name.as_slice()),
            Part::Text(b"(const fr *X, const fr *W, fr *A)\n{\n"),
            Part::Text(b"  fr T["),
            t,
            Part::Text(b"];\n"),
            Part::Text(b"  fr_clear(T, "),
            t,
            Part::Text(b");\n"),
            Part::Text(b"  fr_clear(A, "),
            Part::Number(fun.a as u64),
            Part::Text(b");\n"),
        ],
    )
}

fn print_function(out: &mut Vec<u8>, fun: &CFun) -> Result<(), AllocError>
    ensures ok { OnOk result (out.new.items ≡ out.old.items ++ text_of (fun_pieces fun.now)) }
    ensures kept { OnErr result (Extends out.old.items out.new.items) }
{
    print_enum(out, fun)?;
    print_opening(out, fun)?;
    print_tables(out, fun.tables.as_slice())?;
    print_body(out, 0, fun.body.as_slice())?;
    print_text(out, b"  return 0;\n}\n")
}

fn print_functions(out: &mut Vec<u8>, funs: &[CFun]) -> Result<(), AllocError>
    ensures ok { OnOk result (out.new.items ≡ out.old.items ++ text_of (funs_pieces funs.now)) }
    ensures kept { OnErr result (Extends out.old.items out.new.items) }
{
    for fun in funs {
        print_function(out, fun)?;
    }
    Ok(())
}

fn print_all(out: &mut Vec<u8>, unit: &CUnit) -> Result<(), AllocError>
    ensures ok { OnOk result (out.new.items ≡ out.old.items ++ canonical unit.now) }
    ensures kept { OnErr result (Extends out.old.items out.new.items) }
{
    print_text(out, b"#include \"fr.h\"\n")?;
    print_functions(out, unit.funs.as_slice())
}

/// Appends the canonical text of the unit. Where memory runs out, `out` holds what it held.
pub fn print_unit(unit: &CUnit, out: &mut Vec<u8>) -> Result<(), AllocError>
    ensures text { OnOk result (out.new.items ≡ out.old.items ++ canonical unit.now) }
    ensures kept { OnErr result (out.new.items ≡ out.old.items) }
{
    let before = out.len();
    if let Err(fault) = print_all(out, unit) {
        out.truncate(before);
        return Err(fault);
    }
    Ok(())
}
