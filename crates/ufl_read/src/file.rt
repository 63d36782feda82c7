// From the bytes of a form file to its statements.

ghost use Rattle.std.specs.Prelude.{◌≡◌, ◌<◌, ◌^◌, length, IfOk, IfErr, List};
ghost use Rattle.slices.specs.declared.toks.Tok.{Tok};
ghost use Rattle.slices.specs.FormTokens.{Scan, form_begins};
ghost use Rattle.ufl_syntax.specs.Classes.{lexemes};
ghost use Rattle.ufl_read.specs.Refusals.{IsFile, IsFormRefusal};

use crate::refusal::{FormKind, FormRefusal, refusal_of};
use crate::statements::read_statements;
use crate::tokens::Fault;
use slices::{FORM_LIMIT, FormToks, LexAt};
use sqlite_items::Items;
use std::alloc::{AllocError, Global};
use ufl_syntax::{Lexeme, Stmt};

// All tokens with their classes, and the place where no token starts, if there is one.
fn read_tokens(alloc: Global, text: &[u8]) -> Result<(Items<Lexeme>, Option<LexAt>), AllocError>
    requires { length text.now < 2 ^ 32 }
    ensures { IfOk result (λ r. (ts : List Tok) × Scan (form_begins text.now) ts r.1 × (r.0 ≡ lexemes ts)) }
{
    let mut tokens = FormToks::new(text);
    // A text has at most one token more than bytes. Only what is filled takes memory.
    let mut all = Items::from_vec(Vec::with_capacity(alloc, text.len() + 1)?);
    'all: loop {
        let Some(next) = tokens.next() else {
            return Ok((all, None));
        };
        match next {
            Err(lost) => return Ok((all, Some(lost))),
            Ok(token) => all.push(Lexeme::new(token))?,
        }
    }
}

/// The statements of a form file.
///
/// The refusal is `TooLong`, or that of the first token with which no list of statements begins; `Lex` where no token
/// starts behind tokens that can be gone on with.
pub fn read_file(alloc: Global, text: &[u8]) -> Result<Items<Stmt>, FormRefusal>
    ensures found { IfOk result (λ sts. IsFile text.now sts) }
    ensures refused { IfErr result (λ e. IsFormRefusal text.now e) }
{
    if text.len() > FORM_LIMIT as usize {
        return Err(FormRefusal::new(FormKind::TooLong, 0));
    }
    let (lexemes, lost) = read_tokens(alloc, text)?;
    let tokens = lexemes.as_slice();
    match read_statements(alloc, tokens) {
        Err(fault) => Err(refusal_of(tokens, fault, lost)),
        Ok(statements) => match lost {
            None => Ok(statements),
            Some(_) => Err(refusal_of(tokens, Fault::Short, lost)),
        },
    }
}

#[cfg(test)]
mod tests;
