//! Rows of files and what `check` says of them.

use crate::check_text;
use std::alloc::{AllocError, Global};
use ufl_read::{FormKind, FormRefusal};
use ufl_syntax::Span;

const INTERVAL: &str =
    "V = FiniteElement(\"Lagrange\", interval, 1)\nu = TrialFunction(V)\nv = TestFunction(V)\n";

const ELASTICITY: &str =
    "V = VectorElement(\"Lagrange\", triangle, 2)\nu = TrialFunction(V)\nv = TestFunction(V)\na = inner(sym(grad(u)), sym(grad(v)))*dx\n";

const CONVECTION: &str =
    "P = FiniteElement(\"Lagrange\", tetrahedron, 1)\nw = Coefficient(VectorElement(\"Lagrange\", tetrahedron, 1))\nu = TrialFunction(P)\nv = TestFunction(P)\na = dot(w, grad(u))*v*dx\n";

/// What stands before a statement, the statement, and what is printed.
const LINES: &[(&str, &str, &str)] = &[
    (INTERVAL, "a = u*v*dx", "form a rank 2 cost 4 size 384\n"),
    (
        "",
        "V = FiniteElement(\"Lagrange\", triangle, 1)\nu = TrialFunction(V)\nv = TestFunction(V)\na = inner(grad(u), grad(v))*dx",
        "form a rank 2 cost 72 size 20736\n",
    ),
    (
        "",
        "c1 = Constant(interval)\nc2 = Constant(interval)\nM = (c1 + c2)**20*dx",
        "form M rank 0 cost 1048576 size 1099511627776\n",
    ),
    (
        ELASTICITY,
        "",
        "form a rank 2 cost 2304 size 521838526464\n",
    ),
    (CONVECTION, "", "form a rank 2 cost 576 size 13271040\n"),
    (
        "",
        "c = Coefficient(TensorElement(\"DG\", triangle, 0))\ns = variable(c)\nM = diff(inner(s, s), s)[0, 0]*dx",
        "form M rank 0 cost 24 size 288\n",
    ),
    (
        "",
        "x = SpatialCoordinate(triangle)\nM = x[0]*x[1]*dx",
        "form M rank 0 cost 9 size 3456\n",
    ),
    (
        INTERVAL,
        "L = v*dx\na = u*v*dx\n",
        "form a rank 2 cost 4 size 384\nform L rank 1 cost 2 size 16\n",
    ),
];

/// Refused files: the kind, the line and the word.
const REFUSED: &[(&str, &str, FormKind, u32, &str)] = &[
    (INTERVAL, "a = u*v*dx + v*dx", FormKind::Arity, 4, "a"),
    (INTERVAL, "a = 10**38*u*v*dx", FormKind::Size, 4, "a"),
    (
        "",
        "c1 = Constant(interval)\nc2 = Constant(interval)\nM = (c1 + c2)**21*dx",
        FormKind::Cost,
        3,
        "M",
    ),
    ("", "", FormKind::NoForm, 0, ""),
    (INTERVAL, "a = u*w*dx", FormKind::UnknownName, 4, "w"),
    (INTERVAL, "a = u*v*dx)", FormKind::Syntax, 4, ""),
    (INTERVAL, "a = $", FormKind::Lex, 4, ""),
];

fn joined(alloc: Global, before: &str, statement: &str) -> Result<Vec<u8>, AllocError> {
    let mut text = Vec::new(alloc);
    text.extend_from_slice(before.as_bytes())?;
    text.extend_from_slice(statement.as_bytes())?;
    text.extend_from_slice(b"\n")?;
    Ok(text)
}

#[test]
fn checked_files(rt: HostRuntime) {
    for (before, statement, wanted) in LINES {
        let text = joined(rt.alloc(), before, statement).expect(&rt, "memory");
        match check_text(rt.alloc(), text.as_slice()) {
            Ok(lines) => assert_eq!(rt; lines.as_slice(), wanted.as_bytes()),
            Err(refusal) => panic!(rt; "{} is refused as {:?}", statement, refusal.kind),
        }
    }
}

#[test]
fn refused_files(rt: HostRuntime) {
    for (before, statement, kind, line, word) in REFUSED {
        let text = joined(rt.alloc(), before, statement).expect(&rt, "memory");
        match check_text(rt.alloc(), text.as_slice()) {
            Ok(_) => panic!(rt; "{} is taken", statement),
            Err(refusal) => {
                assert_eq!(rt; refusal.kind, *kind);
                assert_eq!(rt; refusal.line, *line);
                let FormRefusal { from, len, .. } = refusal;
                assert_eq!(rt; Span { from, len }.text(text.as_slice()), word.as_bytes());
            }
        }
    }
}
