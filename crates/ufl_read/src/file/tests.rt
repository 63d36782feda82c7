// Texts, each with its statements in short form or its refusal.

use super::*;
use crate::{Arg, AssignOp, Next, Post, Span, Syn};
use std::io::Write;
use std::test::Fail;

// Bytes behind those before; where memory ends, they are left out, and the comparison fails.
fn put(out: &mut Vec<u8>, bytes: &[u8]) {
    let _ = out.extend_from_slice(bytes);
}

// The bytes of a token.
fn put_token(out: &mut Vec<u8>, file: &[u8], token: Span) {
    let rest = file.get(token.from as usize..).unwrap_or(&[]);
    put(out, rest.get(..token.len as usize).unwrap_or(&[]));
}

// `(..)` is a tuple, `[..]` a list, `{..}` a chain and `<..>` a sign with its operand.
#[cycle(shown)]
fn show(out: &mut Vec<u8>, file: &[u8], value: &Syn, room: u32) {
    if room == 0 {
        return;
    }
    match value {
        Syn::Name(token) | Syn::Number(token) | Syn::Text(token) => put_token(out, file, *token),
        Syn::Tuple(_, items) => {
            put(out, b"(");
            show_items(out, file, items.as_slice(), room - 1);
            put(out, b")");
        }
        Syn::List(_, items) => {
            put(out, b"[");
            show_items(out, file, items.as_slice(), room - 1);
            put(out, b"]");
        }
        Syn::Sign(op, inner) => {
            put(out, b"<");
            put_token(out, file, *op);
            show(out, file, inner.get(), room - 1);
            put(out, b">");
        }
        Syn::Binary(first, chain) => {
            put(out, b"{");
            show(out, file, first.get(), room - 1);
            show_chain(out, file, chain.as_slice(), room - 1);
            put(out, b"}");
        }
        Syn::Postfix(first, all) => {
            put(out, b"{");
            show(out, file, first.get(), room - 1);
            show_posts(out, file, all.as_slice(), room - 1);
            put(out, b"}");
        }
    }
}

#[cycle(shown)]
fn show_items(out: &mut Vec<u8>, file: &[u8], items: &[Syn], room: u32) {
    if room == 0 {
        return;
    }
    for item in items {
        show(out, file, item, room - 1);
        put(out, b" ");
    }
}

#[cycle(shown)]
fn show_chain(out: &mut Vec<u8>, file: &[u8], chain: &[Next], room: u32) {
    if room == 0 {
        return;
    }
    for next in chain {
        put_token(out, file, next.op);
        show(out, file, &next.right, room - 1);
    }
}

#[cycle(shown)]
fn show_args(out: &mut Vec<u8>, file: &[u8], args: &[Arg], room: u32) {
    if room == 0 {
        return;
    }
    for arg in args {
        if let Some(name) = arg.name {
            put_token(out, file, name);
            put(out, b"=");
        }
        show(out, file, &arg.value, room - 1);
        put(out, b" ");
    }
}

#[cycle(shown)]
fn show_post(out: &mut Vec<u8>, file: &[u8], post: &Post, room: u32) {
    if room == 0 {
        return;
    }
    match post {
        Post::Call(_, args) => {
            put(out, b"(");
            show_args(out, file, args.as_slice(), room - 1);
            put(out, b")");
        }
        Post::Index(_, inner) => {
            put(out, b"[");
            show(out, file, inner.get(), room - 1);
            put(out, b"]");
        }
        Post::Attr(name) => {
            put(out, b".");
            put_token(out, file, *name);
        }
    }
}

#[cycle(shown)]
fn show_posts(out: &mut Vec<u8>, file: &[u8], all: &[Post], room: u32) {
    if room == 0 {
        return;
    }
    for post in all {
        show_post(out, file, post, room - 1);
    }
}

fn show_statement(out: &mut Vec<u8>, file: &[u8], statement: &Stmt) -> Result<(), Fail> {
    write!(out, "{}", statement.line)?;
    if statement.unpack {
        put(out, b" unpack");
    }
    for target in statement.targets.as_slice() {
        put(out, b" ");
        put_token(out, file, *target);
    }
    let sign = match statement.op {
        AssignOp::Set => " = ",
        AssignOp::Plus => " += ",
        AssignOp::Minus => " -= ",
        AssignOp::ImportAll => " import",
    };
    put(out, sign.as_bytes());
    if let Some(value) = &statement.value {
        show(out, file, value, 1000);
    }
    put(out, b";");
    Ok(())
}

fn show_file(alloc: Global, text: &[u8]) -> Result<Vec<u8>, Fail> {
    let mut out = Vec::new(alloc);
    match read_file(alloc, text) {
        Ok(statements) => {
            for statement in statements.as_slice() {
                show_statement(&mut out, text, statement)?;
            }
        }
        Err(refusal) => {
            write!(out, "{:?} {}", refusal.kind, refusal.line)?;
            if refusal.len > 0 {
                put(&mut out, b" ");
                let (from, len) = (refusal.from, refusal.len);
                put_token(&mut out, text, Span { from, len });
            }
        }
    }
    Ok(out)
}

// Statements and their lines.
const STATEMENTS: [(&str, &str); 12] = [
    ("", ""),
    ("\n\n# c\n  \t\n", ""),
    ("a = b\n", "1 a = b;"),
    ("a = b", "1 a = b;"),
    ("\n\na = b\nc = d", "3 a = b;4 c = d;"),
    ("from ufl import *\n", "1 import;"),
    ("ufl = from_", "1 ufl = from_;"),
    ("a, b = c", "1 unpack a b = c;"),
    ("x, = c", "1 unpack x = c;"),
    ("(x) = c", "1 x = c;"),
    ("(x, y,) = c", "1 unpack x y = c;"),
    ("a += b\na -= b", "1 a += b;2 a -= b;"),
];

// Values, by every rule of the grammar.
const VALUES: [(&str, &str); 23] = [
    ("a = 1 + 2 - 3", "1 a = {1+2-3};"),
    ("a = 1 + 2*3/4", "1 a = {1+{2*3/4}};"),
    ("a = -u**2", "1 a = <-{u**2}>;"),
    ("a = u**-2", "1 a = {u**<-2>};"),
    ("a = u**v**w", "1 a = {u**{v**w}};"),
    ("a = --u", "1 a = <-<-u>>;"),
    ("a = +u*-v", "1 a = {<+u>*<-v>};"),
    ("a = u - -v", "1 a = {u-<-v>};"),
    ("a = -u.T", "1 a = <-{u.T}>;"),
    ("a = u.T**2", "1 a = {{u.T}**2};"),
    ("a = f()", "1 a = {f()};"),
    ("a = f(x,)", "1 a = {f(x )};"),
    ("a = f(x, y=2*z, w)", "1 a = {f(x y={2*z} w )};"),
    ("a = f(x)(y)[z].n", "1 a = {f(x )(y )[z].n};"),
    ("a = (u.dx)(0)", "1 a = {u.dx(0 )};"),
    ("a = ((f(x))(y)[z]).n", "1 a = {f(x )(y )[z].n};"),
    ("a = (u + v).dx(0)", "1 a = {{u+v}.dx(0 )};"),
    ("a = u[i, j]", "1 a = {u[(i j )]};"),
    ("a = (u)", "1 a = u;"),
    ("a = (u,)", "1 a = (u );"),
    ("a = u,", "1 a = (u );"),
    ("a = (u, v), w", "1 a = ((u v ) w );"),
    ("a = []", "1 a = [];"),
];

// Strings, numbers, comments, and lines that are joined or end.
const BYTES: [(&str, &str); 13] = [
    ("a = [u,]", "1 a = [u ];"),
    ("a = [u, (v, w)]", "1 a = [u (v w ) ];"),
    ("a = '#', \"it's\"", "1 a = ('#' \"it's\" );"),
    ("a = 1..dx", "1 a = {1..dx};"),
    ("a = (b\n+ c)\n", "1 a = {b+c};"),
    ("a = [b,\n\nc]\nd = e", "1 a = [b c ];4 d = e;"),
    ("a = b \\\n+ c\n", "1 a = {b+c};"),
    ("a = b \\\r\n+ c\r\nd = e\r\n", "1 a = {b+c};3 d = e;"),
    ("\\\na = b", "2 a = b;"),
    ("a = b # c \\\nd = e", "1 a = b;2 d = e;"),
    ("a = (b # )\n)", "1 a = b;"),
    ("# \u{e9}\na = '\u{e9}'", "2 a = '\u{e9}';"),
    ("None = print", "1 None = print;"),
];

// Places where no token starts.
const NO_TOKEN: [(&str, &str); 10] = [
    ("a = b\\ \n", "Lex 1"),
    ("a = b\n\\", "Lex 2"),
    ("a = b \\# c\n+ d", "Lex 1"),
    ("a = b\n\\\r\rc = d", "Lex 2"),
    ("\na = (b\n$", "Lex 2"),
    ("a = 'b\n'", "Lex 1"),
    ("a = 'b\\n'", "Lex 1"),
    ("a = \u{c}b", "Lex 1"),
    ("\u{feff}a = b", "Lex 1"),
    ("a = \u{e9}", "Lex 1"),
];

// Tokens that can not stand where they do.
const REFUSED: [(&str, &str); 30] = [
    ("a = 1e1234", "Syntax 1"),
    ("a = 1e", "Syntax 1"),
    ("a = 1.dx", "Syntax 1"),
    ("a", "Syntax 1"),
    ("a = \n", "Syntax 1"),
    ("a = b\n= c", "Syntax 2"),
    ("a = b c", "Syntax 1"),
    ("a = ()", "Syntax 1"),
    ("a = (b\n\nc", "Syntax 1"),
    ("a = (b", "Syntax 1"),
    ("\na = f(b,\nc\n", "Syntax 2"),
    ("a =\n\n", "Syntax 1"),
    ("a = (b\n", "Syntax 1"),
    ("a = b)", "Syntax 1"),
    ("a = f(u.v=2)", "Syntax 1"),
    ("a = f((u)=2)", "Syntax 1"),
    ("from ufl import x", "Syntax 1"),
    ("from dolfin import *", "Syntax 1"),
    ("a[0] = c", "Syntax 1"),
    ("a, b += c", "Syntax 1"),
    ("a = b = c", "Syntax 1"),
    ("a = u.2", "Syntax 1"),
    ("a = u.(v)", "Syntax 1"),
    ("a = lambda x: x", "Unsupported 1 lambda"),
    ("import ufl", "Unsupported 1 import"),
    ("a = b\nfrom ufl from", "Unsupported 2 from"),
    ("a = x[0:1]", "Unsupported 1 :"),
    ("a = x[...]", "Unsupported 1 ..."),
    ("a = b not in c", "Unsupported 1 not"),
    ("a = (b,\nnonlocal)", "Unsupported 1 nonlocal"),
];

// The text of the first row that reads otherwise.
fn first_other<'a>(alloc: Global, rows: &[(&'a str, &'a str)]) -> Result<Option<&'a str>, Fail> {
    for (text, wanted) in rows {
        let shown = show_file(alloc, text.as_bytes())?;
        if shown.as_slice() != wanted.as_bytes() {
            return Ok(Some(*text));
        }
    }
    Ok(None)
}

#[test]
fn reads_or_refuses(rt: HostRuntime) -> Result<(), Fail> {
    assert_eq!(rt; first_other(rt.alloc(), &STATEMENTS)?, None);
    assert_eq!(rt; first_other(rt.alloc(), &VALUES)?, None);
    assert_eq!(rt; first_other(rt.alloc(), &BYTES)?, None);
    assert_eq!(rt; first_other(rt.alloc(), &NO_TOKEN)?, None);
    assert_eq!(rt; first_other(rt.alloc(), &REFUSED)?, None);
    Ok(())
}

// What opens, what stands inside, what closes, how often, and whether that is too deep.
const NESTED: [(&str, &str, &str, u32, bool); 26] = [
    ("(", "u", ")", 64, false),
    ("(", "u", ")", 65, true),
    ("[", "", "]", 64, false),
    ("[", "", "]", 65, true),
    ("f(", "u", ")", 64, false),
    ("f(", "u", ")", 65, true),
    ("-", "u", "", 64, false),
    ("-", "u", "", 65, true),
    ("u**", "u", "", 64, false),
    ("u**", "u", "", 65, true),
    ("(-", "u", ")", 32, false),
    ("(-u**", "-u", ")", 21, false),
    ("(-u**", "--u", ")", 21, true),
    ("(", "u-u", ")", 64, false),
    ("(", "u.(u)", ")", 64, true),
    ("-", "u.[u]", "", 64, true),
    ("-", "u.[u]", "", 63, false),
    ("-", "u*u.(u)", "", 64, false),
    ("-", "u-u.(u)", "", 64, false),
    ("-", "u.-u", "", 64, false),
    ("-", "u.**u", "", 64, false),
    ("(", "**u", ")", 64, false),
    ("(", "+u", ")", 64, true),
    ("(", "u**u", ")", 64, true),
    ("-u*", "u", "", 1000, false),
    ("(u)+", "u", "", 1000, false),
];

fn nested(
    alloc: Global,
    open: &str,
    inside: &str,
    close: &str,
    times: u32,
) -> Result<Vec<u8>, Fail> {
    let mut text = Vec::from_slice(alloc, b"a = ")?;
    for _ in 0..times {
        put(&mut text, open.as_bytes());
    }
    put(&mut text, inside.as_bytes());
    for _ in 0..times {
        put(&mut text, close.as_bytes());
    }
    Ok(text)
}

fn is_too_deep(alloc: Global, text: &[u8]) -> bool {
    match read_file(alloc, text) {
        Ok(_) => false,
        Err(refusal) => refusal.kind == FormKind::Deep,
    }
}

#[test]
fn counts_what_is_open(rt: HostRuntime) -> Result<(), Fail> {
    for (open, inside, close, times, wanted) in &NESTED {
        let text = nested(rt.alloc(), open, inside, close, *times)?;
        assert_eq!(rt; is_too_deep(rt.alloc(), text.as_slice()), *wanted);
    }
    Ok(())
}

#[test]
fn refuses_long_files(rt: HostRuntime) -> Result<(), Fail> {
    let mut text = nested(rt.alloc(), "", "b", "", 0)?;
    for _ in 5..FORM_LIMIT {
        put(&mut text, b" ");
    }
    assert!(rt; read_file(rt.alloc(), text.as_slice()).is_ok());
    put(&mut text, b" ");
    let shown = show_file(rt.alloc(), text.as_slice())?;
    assert_eq!(rt; shown.as_slice(), b"TooLong 0".as_slice());
    Ok(())
}
