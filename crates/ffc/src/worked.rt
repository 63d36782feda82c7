//! Worked values of forms: what `assemble` prints of them.
use crate::tests::assembled;
use std::alloc::{AllocError, Global};
use std::test::Fail;

/// A form file, the name of one of its forms, a mesh, and what is printed.
type Row<'a> = (&'a str, &'a str, &'a str, &'a str);

const TRIANGLE: &str = "mesh 1 triangle 3 1\n0 0\n1 0\n0 1\n0 1 2\n";

const LINE: &str = "mesh 1 interval 2 1\n0\n1\n0 1\n";

const STIFFNESS: &str = "V = FiniteElement(\"Lagrange\", triangle, 1)
u = TrialFunction(V)
v = TestFunction(V)
a = inner(grad(u), grad(v))*dx
";

const STIFFNESS_ROWS: &str = "form a rank 2 rows 3 columns 3
0 0 1
0 1 -1/2
0 2 -1/2
1 0 -1/2
1 1 1/2
2 0 -1/2
2 2 1/2
";

const SQUARE_ROWS: &str = "form a rank 2 rows 4 columns 4
0 0 1
0 1 -1/2
0 3 -1/2
1 0 -1/2
1 1 1
1 2 -1/2
2 1 -1/2
2 2 1
2 3 -1/2
3 0 -1/2
3 2 -1/2
3 3 1
";

// Stiffness in the plane: written in two ways, with the vertices in another order, on a square, and on no cells.
const PLANE: [Row<'static>; 5] = [
    (STIFFNESS, "a", TRIANGLE, STIFFNESS_ROWS),
    (
        "V = FiniteElement(\"Lagrange\", triangle, 1)
u = TrialFunction(V)
v = TestFunction(V)
a = u.dx(i)*v.dx(i)*dx
",
        "a",
        TRIANGLE,
        STIFFNESS_ROWS,
    ),
    (
        STIFFNESS,
        "a",
        "mesh 1 triangle 3 1\n0 0\n1 0\n0 1\n0 2 1\n",
        STIFFNESS_ROWS,
    ),
    (
        STIFFNESS,
        "a",
        "mesh 1 triangle 4 2\n0 0\n1 0\n1 1\n0 1\n0 1 2\n0 2 3\n",
        SQUARE_ROWS,
    ),
    (
        STIFFNESS,
        "a",
        "mesh 1 triangle 0 0\n",
        "form a rank 2 rows 0 columns 0\n",
    ),
];

// The mass form in space.
const MASS_IN_SPACE: &str = "form a rank 2 rows 4 columns 4
0 0 1/60
0 1 1/120
0 2 1/120
0 3 1/120
1 0 1/120
1 1 1/60
1 2 1/120
1 3 1/120
2 0 1/120
2 1 1/120
2 2 1/60
2 3 1/120
3 0 1/120
3 1 1/120
3 2 1/120
3 3 1/60
";

// Integrals of degree 3 on a square whose second cell begins at its last vertex.
const CUBIC: &str = "V = FiniteElement(\"Lagrange\", triangle, 3)
v = TestFunction(V)
L = v*dx
";

const CUBIC_ROWS: &str = "form L rank 1 rows 16 columns 1
0 0 1/30
1 0 1/60
2 0 1/30
3 0 1/60
4 0 3/80
5 0 3/80
6 0 3/40
7 0 3/40
8 0 3/80
9 0 3/80
10 0 3/80
11 0 3/80
12 0 3/80
13 0 3/80
14 0 9/40
15 0 9/40
";

// Rank 0, 1 and 2, each kind of cell, degrees 0 to 3, left and right sides, an adjoint, a tensor, the coordinate of
// space, and cells with markers.
const FORMS: [Row<'static>; 10] = [
    (
        "V = FiniteElement(\"Lagrange\", tetrahedron, 1)\nu = TrialFunction(V)\nv = TestFunction(V)\na = u*v*dx\n",
        "a",
        "mesh 1 tetrahedron 4 1\n0 0 0\n1 0 0\n0 1 0\n0 0 1\n0 1 2 3\n",
        MASS_IN_SPACE,
    ),
    (
        "V = FiniteElement(\"Lagrange\", interval, 2)\nu = TrialFunction(V)\nv = TestFunction(V)\na = u*v*dx\n",
        "a",
        LINE,
        "form a rank 2 rows 3 columns 3\n0 0 2/15\n0 1 -1/30\n0 2 1/15\n1 0 -1/30\n1 1 2/15\n1 2 1/15\n2 0 1/15\n2 1 1/15\n2 2 8/15\n",
    ),
    (
        CUBIC,
        "L",
        "mesh 1 triangle 4 2\n0 0\n1 0\n1 1\n0 1\n0 1 2\n2 3 0\n",
        CUBIC_ROWS,
    ),
    (
        "V = FiniteElement(\"Lagrange\", interval, 1)\nu = TrialFunction(V)\nv = TestFunction(V)\nF = (u*v - 3*v)*dx\nL = rhs(F)\n",
        "L",
        LINE,
        "form L rank 1 rows 2 columns 1\n0 0 3/2\n1 0 3/2\n",
    ),
    (
        "V = FiniteElement(\"Lagrange\", interval, 1)\nu = TrialFunction(V)\nv = TestFunction(V)\nF = (u*v - 3*v)*dx\na = lhs(F)\n",
        "a",
        LINE,
        "form a rank 2 rows 2 columns 2\n0 0 1/3\n0 1 1/6\n1 0 1/6\n1 1 1/3\n",
    ),
    (
        "V = FiniteElement(\"Lagrange\", interval, 1)\nu = TrialFunction(V)\nv = TestFunction(V)\nb = u.dx(0)*v*dx\na = adjoint(b)\n",
        "a",
        LINE,
        "form a rank 2 rows 2 columns 2\n0 0 -1/2\n0 1 -1/2\n1 0 1/2\n1 1 1/2\n",
    ),
    (
        "t = TestFunction(TensorElement(\"DG\", triangle, 0))\nL = inner(as_matrix([[1, 0], [0, 1]]) + as_tensor(Identity(2)[i, j], (j, i)), t)*dx\n",
        "L",
        TRIANGLE,
        "form L rank 1 rows 4 columns 1\n0 0 1\n3 0 1\n",
    ),
    (
        "x = SpatialCoordinate(interval)\nM = x[0]*x[0]*dx\n",
        "M",
        LINE,
        "form M rank 0 rows 1 columns 1\n0 0 1/3\n",
    ),
    (
        "x = SpatialCoordinate(triangle)\nM = x[0]*x[1]*dx\n",
        "M",
        TRIANGLE,
        "form M rank 0 rows 1 columns 1\n0 0 1/24\n",
    ),
    (
        "V = FiniteElement(\"Lagrange\", interval, 1)\nu = TrialFunction(V)\nv = TestFunction(V)\na = u*v*dx + u*v*dx(7)\n",
        "a",
        "mesh 2 interval 3 2\n0\n1\n2\n0 1 0\n1 2 7\n",
        "form a rank 2 rows 3 columns 3\n0 0 1/3\n0 1 1/6\n1 0 1/6\n1 1 1\n1 2 1/3\n2 1 1/3\n2 2 2/3\n",
    ),
];

const TAYLOR_HOOD: &str =
    "W = VectorElement(\"CG\", triangle, 2) * FiniteElement(\"CG\", triangle, 1)
(u, p) = TrialFunctions(W)
(v, q) = TestFunctions(W)
a = inner(grad(u), grad(v))*dx - div(v)*p*dx - q*div(u)*dx
";

// Lines that are printed of it on one triangle: those of the first component, and where the pressure meets it.
const TAYLOR_HOOD_LINES: [&str; 5] = ["0 0 1", "0 12 1/6", "12 0 1/6", "12 3 -1/6", "13 3 1/6"];

const STOKES_HEADER: &str = "form a rank 2 rows 15 columns 15";

// Refusals of meshes and of runs.
const REFUSED: [Row<'static>; 6] = [
    (
        STIFFNESS,
        "a",
        "mesh 1 triangle 3 1\n0 0\n1 1\n2 2\n0 1 2\n",
        "mesh cell 0 refusal 8 Degenerate\n",
    ),
    (
        STIFFNESS,
        "a",
        "mesh 1 triangle 3 1\n0 0\n1 0\n0 1\n0 1 3\n",
        "mesh line 5 refusal 5 VertexRange\n",
    ),
    (
        STIFFNESS,
        "a",
        "mesh 1 triangle 3 1\n0 0\n1 0\n0 1\n0 1 1\n",
        "mesh line 5 refusal 6 RepeatedVertex\n",
    ),
    (
        STIFFNESS,
        "a",
        "mesh 1 triangle 3 1\n0 0\n1 0\n0 1\n0 1",
        "mesh line 5 refusal 3 Syntax\n",
    ),
    (
        "V = FiniteElement(\"Lagrange\", triangle, 1)\nu = TrialFunction(V)\nv = TestFunction(V)\na = u*v*dx\n",
        "a",
        "mesh 1 triangle 3 1\n0 0\n1/1180591620717411303424 0\n0 1/1180591620717411303424\n0 1 2\n",
        "passed cell 0\n",
    ),
    (
        "V = FiniteElement(\"Lagrange\", interval, 1)\nw = Coefficient(V)\nv = TestFunction(V)\nL = w*v*dx\n",
        "L",
        LINE,
        "form line 4 refusal 16 NotYet L\n",
    ),
];

/// The number of the first row that is printed in another way.
fn first_wrong(alloc: Global, rows: &[Row<'_>]) -> Result<Option<usize>, AllocError> {
    for (k, (form, name, mesh, text)) in rows.iter().enumerate() {
        let printed = assembled(alloc, form, name, mesh)?;
        if printed.as_slice() != text.as_bytes() {
            return Ok(Some(k));
        }
    }
    Ok(None)
}

#[test]
fn stiffness_in_the_plane(rt: HostRuntime) -> Result<(), Fail> {
    assert_eq!(rt; first_wrong(rt.alloc(), &PLANE)?, None);
    Ok(())
}

#[test]
fn forms_of_each_rank(rt: HostRuntime) -> Result<(), Fail> {
    assert_eq!(rt; first_wrong(rt.alloc(), &FORMS)?, None);
    Ok(())
}

#[test]
fn no_values(rt: HostRuntime) -> Result<(), Fail> {
    assert_eq!(rt; first_wrong(rt.alloc(), &REFUSED)?, None);
    Ok(())
}

/// Is this a line of the text?
fn has_line(text: &[u8], line: &str) -> bool {
    for found in text.split(|byte| *byte == b'\n') {
        if found == line.as_bytes() {
            return true;
        }
    }
    false
}

#[test]
fn velocity_and_pressure(rt: HostRuntime) -> Result<(), Fail> {
    let text = assembled(rt.alloc(), TAYLOR_HOOD, "a", TRIANGLE)?;
    assert!(rt; has_line(text.as_slice(), STOKES_HEADER));
    for line in TAYLOR_HOOD_LINES {
        assert!(rt; has_line(text.as_slice(), line));
    }
    Ok(())
}
