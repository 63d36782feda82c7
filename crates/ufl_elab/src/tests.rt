//! The rules of form files, one row each: a text, and its refusal with its line and its word, or how many forms it
//! exports.

use crate::elaborate;
use std::alloc::Global;
use ufl_read::{FormKind, read_file};
use ufl_syntax::Span;

/// What stands before each text: a space, its functions, a coefficient, a vector function and a constant.
const BEFORE: &str =
    "P = FiniteElement(\"CG\", triangle, 1)\nV = VectorElement(P)\nu = TrialFunction(P)\nv = TestFunction(P)\nw = Coefficient(P)\nz = Coefficient(V)\nc = Constant(triangle)\nW = P * V\nm = Coefficient(W)\n";

/// The number of lines of `BEFORE`.
const LINES_BEFORE: u32 = 9;

/// An answer as a row has it.
#[derive(Drop)]
struct Found<'t> {
    kind: FormKind,
    line: u32,
    word: &'t [u8],
}

/// Rules of names, values, words, order and export.
/// A text, then a kind, the line behind those of `BEFORE` and a word; or `NoForm`, 0 and the number of forms.
const ROWS: &[(&str, FormKind, u32, &str)] = &[
    ("a = y", FormKind::UnknownName, 1, "y"),
    ("a = sqrt(u)", FormKind::Unsupported, 1, "sqrt"),
    ("sqrt += 1", FormKind::Unsupported, 1, "sqrt"),
    ("grad += 1", FormKind::Kind, 1, "grad"),
    ("y += 1", FormKind::UnknownName, 1, "y"),
    ("a = +dx", FormKind::Kind, 1, "+"),
    ("a = -V", FormKind::Kind, 1, "-"),
    ("a = u/v", FormKind::Unsupported, 1, "/"),
    ("a = (u*dx)/v", FormKind::Kind, 1, "/"),
    ("a = V/2", FormKind::Kind, 1, "/"),
    ("a = u**v", FormKind::Unsupported, 1, "**"),
    ("a = u**128", FormKind::Unsupported, 1, "**"),
    ("a = 2**-1", FormKind::Unsupported, 1, "**"),
    ("a = 2**128", FormKind::Unsupported, 1, "**"),
    ("a = 2**127", FormKind::NumberRange, 1, "**"),
    ("a = (u*dx)**2", FormKind::Kind, 1, "**"),
    ("a = 1/0", FormKind::NumberRange, 1, "/"),
    (
        "a = 170141183460469231731687303715884105728",
        FormKind::NumberRange,
        1,
        "170141183460469231731687303715884105728",
    ),
    ("a = z[2]", FormKind::Shape, 1, "["),
    ("a = z[-1]", FormKind::Shape, 1, "["),
    ("a = z[1/2]", FormKind::Kind, 1, "["),
    ("a = z[300]", FormKind::Shape, 1, "["),
    ("x = (1, 2)\na = x[0]", FormKind::Kind, 2, "["),
    ("a = z[[i]]", FormKind::Kind, 1, "["),
    ("a = grad(z)[(i, j), k]", FormKind::Kind, 1, "["),
    ("a = u.dx", FormKind::Kind, 1, "dx"),
    ("a = u.dx()", FormKind::Kind, 1, "dx"),
    ("a = (u.dx)(0)*dx", FormKind::NoForm, 0, "1"),
    ("a = u.foo", FormKind::Unsupported, 1, "foo"),
    ("a = V.foo(y)", FormKind::Unsupported, 1, "foo"),
    ("a = V.T", FormKind::Kind, 1, "T"),
    ("a = V.dx(y)", FormKind::UnknownName, 1, "y"),
    ("a = V.dx(0)", FormKind::Kind, 1, "dx"),
    ("a = u.dx(0, 5)", FormKind::Shape, 1, "dx"),
    (
        "a = FiniteElement(\"CG\", triangle, 1, foo=1)",
        FormKind::Unsupported,
        1,
        "foo",
    ),
    (
        "a = FiniteElement(foo=1)",
        FormKind::Kind,
        1,
        "FiniteElement",
    ),
    (
        "a = FiniteElement(\"CG\", triangle, 4, foo=1)",
        FormKind::Unsupported,
        1,
        "foo",
    ),
    (
        "a = FiniteElement(\"CG\", triangle, 4)",
        FormKind::Unsupported,
        1,
        "FiniteElement",
    ),
    (
        "a = FiniteElement(\"XX\", triangle, 1)",
        FormKind::Unsupported,
        1,
        "FiniteElement",
    ),
    (
        "a = FiniteElement(\"CG\", \"triangle\", u)",
        FormKind::Kind,
        1,
        "FiniteElement",
    ),
    (
        "a = FiniteElement(\"CG\", \"square\", 1)",
        FormKind::Kind,
        1,
        "FiniteElement",
    ),
    (
        "a = VectorElement(dim=2, P)\nb = VectorElement(P, dim=3)",
        FormKind::NoForm,
        0,
        "0",
    ),
    (
        "a = VectorElement(P, dim=0)",
        FormKind::Nodes,
        1,
        "VectorElement",
    ),
    (
        "a = VectorElement(P, dim=65)",
        FormKind::Nodes,
        1,
        "VectorElement",
    ),
    (
        "a = VectorElement(P, dim=-1)",
        FormKind::Kind,
        1,
        "VectorElement",
    ),
    (
        "a = VectorElement(P, dim=1/2)",
        FormKind::Kind,
        1,
        "VectorElement",
    ),
    (
        "a = VectorElement(P, dim=2, dim=2)",
        FormKind::Kind,
        1,
        "VectorElement",
    ),
    (
        "a = TensorElement(P, shape=(2, 3))",
        FormKind::NoForm,
        0,
        "0",
    ),
    (
        "a = TensorElement(P, shape=2)",
        FormKind::Kind,
        1,
        "TensorElement",
    ),
    (
        "a = TensorElement(P, shape=(2, 2, 2))",
        FormKind::Kind,
        1,
        "TensorElement",
    ),
    ("a = VectorElement(V)", FormKind::Kind, 1, "VectorElement"),
    ("a = MixedElement()", FormKind::Kind, 1, "MixedElement"),
    ("a = MixedElement([])", FormKind::Kind, 1, "MixedElement"),
    (
        "a = MixedElement((P, P))",
        FormKind::Kind,
        1,
        "MixedElement",
    ),
    (
        "a = MixedElement(P, [P])",
        FormKind::Kind,
        1,
        "MixedElement",
    ),
    ("a = MixedElement([P, V])", FormKind::NoForm, 0, "0"),
    ("a = split(w)", FormKind::Kind, 1, "split"),
    ("a, b = split(m)", FormKind::NoForm, 0, "0"),
    ("a, b, d = split(m)", FormKind::Kind, 1, "a"),
    ("a = split(-m)", FormKind::Kind, 1, "split"),
    ("a, b = split(+m)", FormKind::NoForm, 0, "0"),
    ("a, b = TestFunctions(W)", FormKind::NoForm, 0, "0"),
    ("a = TrialFunctions(V)", FormKind::Kind, 1, "TrialFunctions"),
    ("a = u(1)", FormKind::Kind, 1, "u"),
    ("a = (u)(1)", FormKind::Kind, 1, "u"),
    ("a = (u + v)(1)", FormKind::Kind, 1, "("),
    ("a = u(y)", FormKind::UnknownName, 1, "y"),
    ("a = u*dx()", FormKind::Unsupported, 1, "dx"),
    ("a = u*dx(1)", FormKind::NoForm, 0, "1"),
    ("a = u*dx(1)(2)", FormKind::Kind, 1, "("),
    ("n = dx\na = u*n(1/2)", FormKind::Kind, 2, "n"),
    ("a = u*dx(1/2)", FormKind::Kind, 1, "dx"),
    ("a = u*dx(-1)", FormKind::Kind, 1, "dx"),
    ("a = u*dx(4294967296)", FormKind::Kind, 1, "dx"),
    ("a = u*dx(4294967295)", FormKind::NoForm, 0, "1"),
    ("a = u*dx(1, 2)", FormKind::Unsupported, 1, "dx"),
    ("a = u*dx(\"x\")", FormKind::Unsupported, 1, "dx"),
    ("a = dx*u", FormKind::Kind, 1, "*"),
    ("a = u*(dx)", FormKind::NoForm, 0, "1"),
    ("a = 2*dx", FormKind::Kind, 1, "*"),
    ("a = V*dx", FormKind::Kind, 1, "*"),
    ("a = z*dx", FormKind::Shape, 1, "*"),
    ("a = z[i]*dx", FormKind::FreeIndex, 1, "*"),
    ("a = z*grad(z)", FormKind::Shape, 1, "*"),
    ("a = grad(z)*z", FormKind::NoForm, 0, "0"),
    ("a = u - z", FormKind::Shape, 1, "-"),
    ("a = u*dx - u", FormKind::Kind, 1, "-"),
    ("a = 1 + u*dx", FormKind::Kind, 1, "+"),
    ("a = u*dx + 1", FormKind::Kind, 1, "+"),
    ("a = 2*(u*dx)", FormKind::NoForm, 0, "1"),
    ("a = c*(u*dx)", FormKind::Kind, 1, "*"),
    ("a = diff(w**2, w)", FormKind::Kind, 1, "diff"),
    (
        "s = variable(w)\na = diff(s**2, s)*dx",
        FormKind::NoForm,
        0,
        "1",
    ),
    (
        "s = variable(w)\na = diff(s, +s)*dx",
        FormKind::NoForm,
        0,
        "1",
    ),
    (
        "s = variable(w)\na = diff(s, -s)",
        FormKind::Kind,
        2,
        "diff",
    ),
    ("a = variable(u)", FormKind::Kind, 1, "variable"),
    ("a = as_vector((1, 2))", FormKind::Kind, 1, "as_vector"),
    ("a = as_vector([1, 2])[0]*u*dx", FormKind::NoForm, 0, "1"),
    ("a = as_matrix([1, 2])", FormKind::Shape, 1, "as_matrix"),
    ("a = as_vector([u, z])", FormKind::Shape, 1, "as_vector"),
    ("a = as_vector([])", FormKind::Shape, 1, "as_vector"),
    (
        "a = as_tensor([[1, V], [1]])",
        FormKind::Kind,
        1,
        "as_tensor",
    ),
    (
        "a = as_tensor([V, [1, z]])",
        FormKind::Shape,
        1,
        "as_tensor",
    ),
    ("a = as_vector(z[i], i)", FormKind::NoForm, 0, "0"),
    (
        "a = as_vector(z[i], j)",
        FormKind::FreeIndex,
        1,
        "as_vector",
    ),
    ("a = as_vector(z, i)", FormKind::Shape, 1, "as_vector"),
    ("a = as_vector(z[i], 0)", FormKind::Kind, 1, "as_vector"),
    ("a = as_matrix(z[i], i)", FormKind::Shape, 1, "as_matrix"),
    ("a = Identity(0)", FormKind::Kind, 1, "Identity"),
    ("a = Identity(65)", FormKind::Kind, 1, "Identity"),
    ("a = u/Identity(2)[0, 0]", FormKind::Unsupported, 1, "/"),
    ("g = grad\na = g(2)", FormKind::Kind, 2, "g"),
    ("g = grad\na = dot(g(u), g(v))*dx", FormKind::NoForm, 0, "1"),
    ("a = grad()", FormKind::Kind, 1, "grad"),
    ("a = inner(u, v, u)", FormKind::Kind, 1, "inner"),
    ("a = inner(u, z)", FormKind::Shape, 1, "inner"),
    (
        "a = SpatialCoordinate(triangle)[0]*dx",
        FormKind::NoForm,
        0,
        "1",
    ),
    (
        "a = SpatialCoordinate(\"triangle\")[2]",
        FormKind::Shape,
        1,
        "[",
    ),
    (
        "a = SpatialCoordinate(P)",
        FormKind::Kind,
        1,
        "SpatialCoordinate",
    ),
    (
        "a = SpatialCoordinate()",
        FormKind::Kind,
        1,
        "SpatialCoordinate",
    ),
    (
        "x = SpatialCoordinate(triangle)\na, b = split(x)",
        FormKind::Kind,
        2,
        "split",
    ),
    ("a = lhs(u)", FormKind::Kind, 1, "lhs"),
    ("a, L = system(u*v*dx - w*v*dx)", FormKind::NoForm, 0, "2"),
    ("a = action(u*v*dx, w)", FormKind::NoForm, 0, "1"),
    ("a = action(w*dx, w)", FormKind::Kind, 1, "action"),
    ("a = action(u*v*dx, z)", FormKind::Kind, 1, "action"),
    ("a = adjoint(u)", FormKind::Kind, 1, "adjoint"),
    ("a = derivative(w**2*dx, w)", FormKind::NoForm, 0, "1"),
    (
        "a = derivative(w*u*v*dx, w)",
        FormKind::Kind,
        1,
        "derivative",
    ),
    ("a = derivative(c*dx, c)", FormKind::Kind, 1, "derivative"),
    ("a = derivative(w**2*dx, w, v)", FormKind::NoForm, 0, "1"),
    (
        "a = derivative(w**2*dx, w, z)",
        FormKind::Kind,
        1,
        "derivative",
    ),
    ("forms = []", FormKind::NoForm, 0, "0"),
    ("b = u*v*dx\nforms = [b]", FormKind::NoForm, 0, "1"),
    ("b = u*v*dx\nforms = ([b])", FormKind::NoForm, 0, "1"),
    ("b = u*v*dx\nforms = [b, b]", FormKind::Kind, 2, "forms"),
    ("forms = [u]", FormKind::Kind, 1, "forms"),
    ("forms = [u*v*dx]", FormKind::Kind, 1, "forms"),
    ("b = u*v*dx\n(forms) = [b]", FormKind::NoForm, 0, "1"),
    ("b = [u]\nforms = b\na = u*v*dx", FormKind::NoForm, 0, "1"),
    ("a = u*v*dx\nL = v*dx\nM = w*dx", FormKind::NoForm, 0, "3"),
    ("a = u*v*dx\na = 2", FormKind::NoForm, 0, "0"),
    ("a = u*v*dx\na += v*dx", FormKind::NoForm, 0, "1"),
    ("a = u*v*dx\na -= 1", FormKind::Kind, 2, "a"),
    ("x, y = (1, 2, 3)", FormKind::Kind, 1, "x"),
    ("x, = [1]\na = x*u*dx", FormKind::NoForm, 0, "1"),
    ("x, y = 1", FormKind::Kind, 1, "x"),
    ("a = u*v*dx\na = u[0]*dx", FormKind::Shape, 2, "["),
    ("a = (u +\n  y)", FormKind::UnknownName, 1, "y"),
    ("\n\na = y", FormKind::UnknownName, 3, "y"),
    ("b = 1\na = [u,\n 2, y]", FormKind::UnknownName, 2, "y"),
    ("b = u*v*dx\nforms = [b,\n  u]", FormKind::Kind, 2, "forms"),
    (
        "b = u*v*dx\nforms = [b, b]\nc = 1",
        FormKind::Kind,
        2,
        "forms",
    ),
    ("b = u*v*dx\nforms, = [b]", FormKind::NoForm, 0, "0"),
    (
        "b = u*v*dx\nforms = [b]\nforms = b",
        FormKind::NoForm,
        0,
        "1",
    ),
    (
        "b = u*v*dx\nforms = [b]\nforms = []",
        FormKind::NoForm,
        0,
        "0",
    ),
    ("b = u*v*dx\nforms = [b]\nb = 1", FormKind::Kind, 2, "forms"),
    (
        "x, x = (u*v*dx, 1)\nforms = [x]",
        FormKind::Kind,
        2,
        "forms",
    ),
    ("x, x = (1, u*v*dx)\nforms = [x]", FormKind::NoForm, 0, "1"),
    (
        "a = u*v*dx\nb = a\nforms = [a, b]",
        FormKind::NoForm,
        0,
        "2",
    ),
    ("(x, y) = [1, 2]\na = x*y*u*dx", FormKind::NoForm, 0, "1"),
    ("(x) = [1, 2]\na, b = x", FormKind::NoForm, 0, "0"),
    ("a = 1.5e-3*u*dx", FormKind::NoForm, 0, "1"),
    ("a = .5E+2*u*dx", FormKind::NoForm, 0, "1"),
    ("a = 1e127", FormKind::NumberRange, 1, "1e127"),
    ("a = 1e38", FormKind::NoForm, 0, "0"),
    ("a = 2e38", FormKind::NumberRange, 1, "2e38"),
];

/// A text: its front, a part that is repeated, how often, and its end; and its answer, as above.
const REPEATED: &[(&str, &str, u16, &str, FormKind, &str)] = &[
    ("x = (1", ", 1", 9_998, ")", FormKind::NoForm, "0"),
    ("x = (1", ", 1", 9_999, ")", FormKind::Nodes, ","),
    ("x = [1", ", 1", 9_998, "]", FormKind::NoForm, "0"),
    ("x = [1", ", 1", 9_999, "]", FormKind::Nodes, "["),
    ("x = 1\n", "x = (x,)\n", 127, "", FormKind::NoForm, "0"),
    ("x = 1\n", "x = (x,)\n", 128, "", FormKind::Nodes, ","),
    ("x = u\n", "x = -x\n", 127, "", FormKind::NoForm, "0"),
    ("x = u\n", "x = -x\n", 128, "", FormKind::Nodes, "-"),
    ("x = u\n", "x = x + x\n", 12, "", FormKind::NoForm, "0"),
    ("x = u\n", "x = x + x\n", 13, "", FormKind::Nodes, "+"),
    (
        "E = P\n",
        "E = MixedElement(E)\n",
        63,
        "",
        FormKind::NoForm,
        "0",
    ),
    (
        "E = P\n",
        "E = MixedElement(E)\n",
        64,
        "",
        FormKind::Nodes,
        "MixedElement",
    ),
    ("E = P\n", "E = E*P\n", 63, "", FormKind::NoForm, "0"),
    ("E = P\n", "E = E*P\n", 64, "", FormKind::Nodes, "*"),
    (
        "x = (1",
        ", 1",
        9_998,
        ")\na, b = (x, x)\n",
        FormKind::Nodes,
        ",",
    ),
    (
        "x = (1",
        ", 1",
        4_998,
        ")\na, b = (x, x)\n",
        FormKind::Nodes,
        ",",
    ),
    (
        "x = (1",
        ", 1",
        4_997,
        ")\na, b = (x, x)\n",
        FormKind::NoForm,
        "0",
    ),
];

/// The answer of a text.
fn answer_of(alloc: Global, text: &[u8]) -> Option<Found<'_>> {
    let Ok(sts) = read_file(alloc, text) else {
        return None;
    };
    match elaborate(alloc, text, sts.as_slice()) {
        Ok(program) => Some(Found {
            kind: FormKind::NoForm,
            line: 0,
            word: match program.forms.len() {
                0 => b"0",
                1 => b"1",
                2 => b"2",
                _ => b"3",
            },
        }),
        Err(refusal) => Some(Found {
            kind: refusal.kind,
            line: refusal.line.saturating_sub(LINES_BEFORE),
            word: Span {
                from: refusal.from,
                len: refusal.len,
            }
            .text(text),
        }),
    }
}

#[test]
fn each_rule_has_its_answer(rt: HostRuntime) {
    let alloc = rt.alloc();
    for (source, kind, line, word) in ROWS {
        let mut text = Vec::new(alloc);
        text.extend_from_slice(BEFORE.as_bytes())
            .expect(&rt, "memory");
        text.extend_from_slice(source.as_bytes())
            .expect(&rt, "memory");
        let found = answer_of(alloc, text.as_slice()).expect(&rt, source);
        let same = found.kind == *kind && found.line == *line && found.word == word.as_bytes();
        assert!(rt; same, "{}", source);
    }
}

#[test]
fn limits_are_where_they_are(rt: HostRuntime) {
    let alloc = rt.alloc();
    for (front, part, times, end, kind, word) in REPEATED {
        let mut text = Vec::new(alloc);
        text.extend_from_slice(BEFORE.as_bytes())
            .expect(&rt, "memory");
        text.extend_from_slice(front.as_bytes())
            .expect(&rt, "memory");
        for _ in 0..*times {
            text.extend_from_slice(part.as_bytes())
                .expect(&rt, "memory");
        }
        text.extend_from_slice(end.as_bytes()).expect(&rt, "memory");
        let found = answer_of(alloc, text.as_slice()).expect(&rt, front);
        let same = found.kind == *kind && found.word == word.as_bytes();
        assert!(rt; same, "{} {}", part, end);
    }
}

/// 99 names of 10,000 nodes each, the 9 of `BEFORE`, and one more of so many items: the nodes are 1,000,000 or one
/// more.
#[test]
fn names_have_a_million_nodes_at_most(rt: HostRuntime) {
    let alloc = rt.alloc();
    for (items, kind) in [(9_989u16, FormKind::NoForm), (9_990, FormKind::Nodes)] {
        let mut text = Vec::new(alloc);
        text.extend_from_slice(BEFORE.as_bytes())
            .expect(&rt, "memory");
        text.extend_from_slice(b"xaa = (1").expect(&rt, "memory");
        for _ in 0..9_998u16 {
            text.extend_from_slice(b", 1").expect(&rt, "memory");
        }
        text.extend_from_slice(b")\n").expect(&rt, "memory");
        for n in 1..99u8 {
            text.extend_from_slice(&[b'x', b'a' + n / 10, b'a' + n % 10])
                .expect(&rt, "memory");
            text.extend_from_slice(b" = xaa\n").expect(&rt, "memory");
        }
        text.extend_from_slice(b"y = (1").expect(&rt, "memory");
        for _ in 0..items {
            text.extend_from_slice(b", 1").expect(&rt, "memory");
        }
        text.extend_from_slice(b")\n").expect(&rt, "memory");
        let found = answer_of(alloc, text.as_slice()).expect(&rt, "read");
        assert!(rt; found.kind == kind);
    }
}
