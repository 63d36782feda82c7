//! The program over any files and sinks.
ghost use Rattle.std.specs.Prelude.{◌≡◌, ◌≢◌, ◌↔◌, IfOk, IfErr};
ghost use Rattle.ends.specs.Count.{Rises};
ghost use Rattle.ffc.specs.Words.{HaveNoShape, texts};
ghost use Rattle.ffc.specs.Command.{words_of};
ghost use Rattle.ffc.specs.Inputs.{loads};
ghost use Rattle.ffc.specs.Answer.{AnswersFile, AnswersWords, CheckCause, FileCause, IsCheckText, Wrote, IsRefusal, IsCaused, IsComplete, SaysOf};

use crate::assemble::assemble;
use crate::command::{Command, read_command};
use crate::compile::compile;
use crate::inputs::load_form;
use answers::{Outcome, put_outcome};
use ends::files::Files;
use ends::sink::Sink;
use form_files::check_text;
use std::alloc::Global;

/// The lines of the forms that a file exports.
fn check(alloc: Global, file: &[u8]) -> Result<Vec<u8>, Outcome>
    ensures text { IfOk result (λ text. IsCheckText file.now text.items) }
    ensures cause { IfErr result (CheckCause file.now) }
{
    match check_text(alloc, file) {
        Ok(text) => Ok(text),
        Err(refusal) => Err(Outcome::from(refusal)),
    }
}

/// The text that a command asks for, of this form file.
fn answer_text<F: Files>(
    alloc: Global,
    files: &mut F,
    command: Command<'_>,
    file: &[u8],
) -> Result<Vec<u8>, Outcome>
    ensures text { IfOk result (λ text. AnswersFile (F.content files.old) command.entry file.now text.items) }
    ensures cause { IfErr result (FileCause (loads (F.content files.old) (F.faults files.old)
        (F.faults files.new) (F.last_failed files.new)) command.entry file.now) }
    ensures refused { IfErr result IsRefusal }
{
    match command {
        Command::Compile { .. } => compile(alloc, file),
        Command::Check { .. } => check(alloc, file),
        Command::Assemble { name, mesh, .. } => assemble(alloc, files, file, name, mesh),
    }
}

/// Does what a command asks of this form file, and puts the answer.
fn answer<F: Files, O: Sink>(
    alloc: Global,
    files: &mut F,
    command: Command<'_>,
    file: &[u8],
    out: &mut O,
) -> Outcome
    ensures cause { IsRefusal result → FileCause (loads (F.content files.old) (F.faults files.old)
        (F.faults files.new) (F.last_failed files.new)) command.entry file.now result }
    ensures usage { result ≢ Outcome.Usage }
    ensures write_fault { result ≡ Outcome.WriteFault → Rises (O.faults out.old) (O.faults out.new) }
    ensures wrote { Wrote result (O.written out.old) (O.written out.new)
        (AnswersFile (F.content files.old) command.entry file.now) }
{
    let text = match answer_text(alloc, files, command, file) {
        Ok(text) => text,
        Err(outcome) => return outcome,
    };
    match out.put(text.as_slice()) {
        Ok(()) => Outcome::Done,
        Err(_) => Outcome::WriteFault,
    }
}

/// Loads the form file, does what the command asks, and puts the line of the outcome.
fn run<F: Files, O: Sink, E: Sink>(
    alloc: Global,
    command: Command<'_>,
    files: &mut F,
    out: &mut O,
    err: &mut E,
) -> Outcome
    ensures usage { result ≢ Outcome.Usage }
    ensures cause { IsCaused (loads (F.content files.old) (F.faults files.old)
        (F.faults files.new) (F.last_failed files.new)) (words_of command.entry) result }
    ensures write_fault { result ≡ Outcome.WriteFault → Rises (O.faults out.old) (O.faults out.new) }
    ensures wrote { Wrote result (O.written out.old) (O.written out.new)
        (AnswersWords (F.content files.old) (words_of command.entry)) }
    ensures line { SaysOf (F.content files.old) (words_of command.entry) result
        (E.written err.old) (E.written err.new) (E.faults err.old) (E.faults err.new) }
{
    match load_form(alloc, files, command.form()) {
        Err(outcome) => {
            put_outcome(err, &outcome, &[]);
            outcome
        }
        Ok(file) => {
            let outcome = answer(alloc, files, command, file.as_slice(), out);
            put_outcome(err, &outcome, file.as_slice());
            outcome
        }
    }
}

/// Does what the words ask: the answer goes to `out` once it is whole, and the line of any other
/// outcome than `Done` to `err`.
///
/// Each refusal has its cause in what the files hold: that of a form in the text of its file alone, that of the mesh only
/// where the form is accepted, that of a cell or a sum only where both are. `complete` says that these causes are
/// all: where none of them holds and no fault was counted, the answer comes or memory is wanting.
pub fn program<F: Files, O: Sink, E: Sink>(
    alloc: Global,
    words: &[String],
    files: &mut F,
    out: &mut O,
    err: &mut E,
) -> Outcome
    ensures usage { (result ≡ Outcome.Usage) ↔ HaveNoShape (texts words.now) }
    ensures cause { IsCaused (loads (F.content files.old) (F.faults files.old)
        (F.faults files.new) (F.last_failed files.new)) (texts words.now) result }
    ensures write_fault { result ≡ Outcome.WriteFault → Rises (O.faults out.old) (O.faults out.new) }
    ensures wrote { Wrote result (O.written out.old) (O.written out.new)
        (AnswersWords (F.content files.old) (texts words.now)) }
    ensures complete { IsComplete (loads (F.content files.old) (F.faults files.old)
        (F.faults files.new) (F.last_failed files.new)) (texts words.now)
        (O.faults out.old) (O.faults out.new) result }
    ensures line { SaysOf (F.content files.old) (texts words.now) result
        (E.written err.old) (E.written err.new) (E.faults err.old) (E.faults err.new) }
{
    match read_command(words) {
        None => {
            put_outcome(err, &Outcome::Usage, &[]);
            Outcome::Usage
        }
        Some(command) => run(alloc, command, files, out, err),
    }
}
