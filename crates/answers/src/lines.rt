//! The line on err of each outcome. It is written part by part, so that it takes no memory.
ghost use Rattle.std.specs.Prelude.{◌≡◌, ◌≢◌, [], OnOk, OnErr};
ghost use Rattle.std.specs.List.{flat_map};
ghost use Rattle.ends.specs.Count.{Rises};
ghost use Rattle.ends.specs.Told.{appended, TakesPrefix};
ghost use Rattle.answers.specs.Lines.{part_text, line_of, spot_line, refusal_line, space_before, form_line, form_refusal, mesh_refusal, mesh_place, mesh_number, Says};

use crate::outcome::{FormName, Outcome, Spot};
use ends::sink::{Sink, SinkFault};
use itoa::Buffer;
use mesh_in::{MeshKind, MeshRefusal};
use ufl_read::{FormKind, FormRefusal};
use ufl_syntax::Span;

/// A part of a line.
#[derive(Clone, Copy)]
pub enum Part<'a> {
    Text(&'a str),
    /// Bytes of a file.
    Word(&'a [u8]),
    Number(u32),
}

fn put_part<S: Sink>(sink: &mut S, part: &Part<'_>) -> Result<(), SinkFault>
    ensures ok { OnOk result (S.written sink.new ≡ appended (S.written sink.old) (part_text part.now)) }
    ensures no_fault { OnOk result (S.faults sink.new ≡ S.faults sink.old) }
    ensures prefix { OnErr result (TakesPrefix (S.written sink.old) (S.written sink.new) (part_text part.now)) }
    ensures fault { OnErr result (Rises (S.faults sink.old) (S.faults sink.new)) }
{
    match part {
        Part::Text(text) => sink.put(text.as_bytes()),
        Part::Word(bytes) => sink.put(bytes),
        Part::Number(number) => sink.put(Buffer::new().format(*number).as_bytes()),
    }
}

// Puts the parts one after the other, up to the first fault.
fn put_line<S: Sink>(sink: &mut S, parts: &[Part<'_>]) -> Result<(), SinkFault>
    ensures ok { OnOk result (S.written sink.new ≡ appended (S.written sink.old) (flat_map part_text parts.now)) }
    ensures prefix { OnErr result
        (TakesPrefix (S.written sink.old) (S.written sink.new) (flat_map part_text parts.now)) }
    ensures fault { OnErr result (Rises (S.faults sink.old) (S.faults sink.new)) }
{
    for part in parts {
        put_part(sink, part)?;
    }
    Ok(())
}

fn form_refusal(kind: FormKind) -> &'static str
    ensures { result.now ≡ form_refusal kind }
{
    match kind {
        FormKind::TooLong => "1 TooLong",
        FormKind::Lex => "2 Lex",
        FormKind::Deep => "3 Deep",
        FormKind::Syntax => "4 Syntax",
        FormKind::Unsupported => "5 Unsupported",
        FormKind::UnknownName => "6 UnknownName",
        FormKind::Kind => "7 Kind",
        FormKind::Shape => "8 Shape",
        FormKind::FreeIndex => "9 FreeIndex",
        FormKind::NumberRange => "10 NumberRange",
        FormKind::Nodes => "11 Nodes",
        FormKind::Arity => "12 Arity",
        FormKind::Cost => "13 Cost",
        FormKind::Size => "14 Size",
        FormKind::NoForm => "15 NoForm",
        FormKind::Memory => "",
    }
}

fn mesh_refusal(kind: MeshKind) -> &'static str
    ensures { result.now ≡ mesh_refusal kind }
{
    match kind {
        MeshKind::TooLong => "1 TooLong",
        MeshKind::Lex => "2 Lex",
        MeshKind::Syntax => "3 Syntax",
        MeshKind::Count => "4 Count",
        MeshKind::VertexRange => "5 VertexRange",
        MeshKind::RepeatedVertex => "6 RepeatedVertex",
        MeshKind::WrongCell => "7 WrongCell",
        MeshKind::Degenerate => "8 Degenerate",
        MeshKind::TooManyEntries => "9 TooManyEntries",
        MeshKind::Memory => "",
    }
}

fn put_spot<E: Sink>(err: &mut E, spot: Spot) -> Result<(), SinkFault>
    ensures ok { OnOk result (E.written err.new ≡ appended (E.written err.old) (spot_line spot)) }
    ensures prefix { OnErr result (TakesPrefix (E.written err.old) (E.written err.new) (spot_line spot)) }
    ensures fault { OnErr result (Rises (E.faults err.old) (E.faults err.new)) }
{
    match spot {
        Spot::Cell { cell } => put_line(
            err,
            &[
                Part::Text("passed cell "),
                Part::Number(cell),
                Part::Text("\n"),
            ],
        ),
        Spot::Sum { row, col } => put_line(
            err,
            &[
                Part::Text("passed entry "),
                Part::Number(row),
                Part::Text(" "),
                Part::Number(col),
                Part::Text("\n"),
            ],
        ),
    }
}

// What stands before a word of this length.
fn space_before(len: u32) -> &'static str
    ensures { result.now ≡ space_before len }
{
    if len == 0 { "" } else { " " }
}

// The word of a refusal that names one comes last, behind a space.
fn put_form_refusal<'a, E: Sink>(
    err: &mut E,
    file: &'a [u8],
    line: u32,
    refusal: &'a str,
    word: Span,
) -> Result<(), SinkFault>
    ensures ok { OnOk result
        (E.written err.new ≡ appended (E.written err.old) (form_line file.now line refusal.now word)) }
    ensures prefix { OnErr result
        (TakesPrefix (E.written err.old) (E.written err.new) (form_line file.now line refusal.now word)) }
    ensures fault { OnErr result (Rises (E.faults err.old) (E.faults err.new)) }
{
    put_line(
        err,
        &[
            Part::Text("form line "),
            Part::Number(line),
            Part::Text(" refusal "),
            Part::Text(refusal),
            Part::Text(space_before(word.len)),
            Part::Word(word.text(file)),
            Part::Text("\n"),
        ],
    )
}

// Where a mesh is refused: a cell, or a line.
fn mesh_place(refusal: &MeshRefusal) -> (&'static str, u32)
    ensures place { result.0.now ≡ mesh_place refusal.now.kind }
    ensures number { result.1 ≡ mesh_number refusal.now.kind refusal.now }
{
    match refusal.kind {
        MeshKind::Degenerate => ("mesh cell ", refusal.cell),
        _ => ("mesh line ", refusal.line),
    }
}

fn put_refusal<'a, E: Sink>(
    err: &mut E,
    place: &'a str,
    number: u32,
    refusal: &'a str,
) -> Result<(), SinkFault>
    ensures ok { OnOk result
        (E.written err.new ≡ appended (E.written err.old) (refusal_line place.now number refusal.now)) }
    ensures prefix { OnErr result
        (TakesPrefix (E.written err.old) (E.written err.new) (refusal_line place.now number refusal.now)) }
    ensures fault { OnErr result (Rises (E.faults err.old) (E.faults err.new)) }
{
    put_line(
        err,
        &[
            Part::Text(place),
            Part::Number(number),
            Part::Text(" refusal "),
            Part::Text(refusal),
            Part::Text("\n"),
        ],
    )
}

fn put_read_fault<E: Sink>(err: &mut E, file: u8) -> Result<(), SinkFault>
    ensures ok { OnOk result (E.written err.new ≡ appended (E.written err.old) (line_of [] (Outcome.ReadFault file))) }
    ensures prefix { OnErr result
        (TakesPrefix (E.written err.old) (E.written err.new) (line_of [] (Outcome.ReadFault file))) }
    ensures fault { OnErr result (Rises (E.faults err.old) (E.faults err.new)) }
{
    put_line(
        err,
        &[
            Part::Text("read fault "),
            Part::Number(file as u32),
            Part::Text("\n"),
        ],
    )
}

// Puts the line of an outcome that has one.
fn put_refused<E: Sink>(err: &mut E, outcome: &Outcome, file: &[u8]) -> Result<(), SinkFault>
    requires { outcome.now ≢ Outcome.Done }
    ensures ok { OnOk result (E.written err.new ≡ appended (E.written err.old) (line_of file.now outcome.now)) }
    ensures prefix { OnErr result (TakesPrefix (E.written err.old) (E.written err.new) (line_of file.now outcome.now)) }
    ensures fault { OnErr result (Rises (E.faults err.old) (E.faults err.new)) }
{
    match *outcome {
        Outcome::Done => unreachable!(),
        Outcome::Usage => err.put(b"usage\n"),
        Outcome::Form(refusal) => {
            let FormRefusal {
                line,
                from,
                len,
                ..
            } = refusal;
            let word = Span { from, len };
            put_form_refusal(err, file, line, form_refusal(refusal.kind), word)
        }
        Outcome::NotYet(name) => {
            let FormName { line, from, len } = name;
            put_form_refusal(err, file, line, "16 NotYet", Span { from, len })
        }
        Outcome::Mesh(refusal) => {
            let (place, number) = mesh_place(&refusal);
            put_refusal(err, place, number, mesh_refusal(refusal.kind))
        }
        Outcome::Passed(spot) => put_spot(err, spot),
        Outcome::ReadFault(file) => put_read_fault(err, file),
        Outcome::WriteFault => err.put(b"write fault\n"),
        Outcome::Memory => err.put(b"memory\n"),
    }
}

/// Puts the line of an outcome other than `Done`; at a fault a prefix of it. The words of form refusals are those of
/// this file.
pub fn put_outcome<E: Sink>(err: &mut E, outcome: &Outcome, file: &[u8])
    ensures { Says file.now outcome.now (E.written err.old) (E.written err.new) (E.faults err.old) (E.faults err.new) }
{
    if *outcome != Outcome::Done {
        let _ = put_refused(err, outcome, file);
    }
}
