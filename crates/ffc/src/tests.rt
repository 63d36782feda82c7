//! Runs of the program over files and sinks in memory.
use crate::program::program;
use answers::Outcome;
use c_run::{Machine, Ret};
use c_text::read_unit;
use ends::mem_files::{MemFile, MemFiles};
use ends::mem_sink::MemSink;
use ratio::Ratio;
use std::alloc::{AllocError, Global};
use std::test::Fail;

const MASS: &str = "V = FiniteElement(\"Lagrange\", interval, 1)
u = TrialFunction(V)
v = TestFunction(V)
a = u*v*dx
";

// The first three lines of a form, and the front of the fourth.
const OPENING: &str = "V = FiniteElement(\"Lagrange\", interval, 1)
u = TrialFunction(V)
v = TestFunction(V)
a = ";

const TWO: &str = "mesh 1 interval 2 1\n0\n2\n0 1\n";

// The text that docs/KERNEL_TEXT.md shows.
const UNIT: &str = "#include \"fr.h\"
enum { ffc_a_X = 2, ffc_a_W = 0, ffc_a_T = 36, ffc_a_A = 4 };
int ffc_a(const fr *X, const fr *W, fr *A)
{
  fr T[36];
  fr_clear(T, 36);
  fr_clear(A, 4);
  static const fr_lit K0[1] = { { 0, 0u, 1u, 0u, 3u } };
  if (fr_sub(&T[0], &X[1], &X[0])) return 1;
  fr_copy(&T[18], &T[0]);
  if (fr_inv(&T[19], &T[18])) return 2;
  fr_abs(&T[20], &T[18]);
  fr_copy(&T[21], &T[19]);
  fr_load(&T[32], &K0[0]);
  if (fr_mul(&T[35], &T[20], &T[32])) return 1;
  if (fr_add(&A[0], &A[0], &T[35])) return 1;
  fr_set(&T[32], 0, 0u, 1u, 0u, 2u);
  if (fr_mul(&T[32], &T[32], &T[35])) return 1;
  if (fr_add(&A[1], &A[1], &T[32])) return 1;
  fr_set(&T[32], 0, 0u, 1u, 0u, 2u);
  if (fr_mul(&T[32], &T[32], &T[35])) return 1;
  if (fr_add(&A[2], &A[2], &T[32])) return 1;
  if (fr_add(&A[3], &A[3], &T[35])) return 1;
  return 0;
}
";

const MATRIX: &str = "form a rank 2 rows 2 columns 2\n0 0 2/3\n0 1 1/3\n1 0 1/3\n1 1 2/3\n";

const ZEROS: &str = "form a rank 2 rows 2 columns 2\n";

const HALVES: &str = "form a rank 2 rows 2 columns 2\n0 0 1/3\n0 1 1/6\n1 0 1/6\n1 1 1/3\n";

const SIZE: &str = "form line 4 refusal 14 Size a\n";

const NO_FORM: &str = "form line 0 refusal 15 NoForm\n";

const SYNTAX_4: &str = "form line 4 refusal 4 Syntax\n";

const SYNTAX_5: &str = "form line 5 refusal 4 Syntax\n";

// What stands behind `a = `, what the program writes of it on the interval from 0 to 2, and its line on err.
const FACTORS: [(&str, &str, &str); 31] = [
    (
        "3*u*v*dx\n",
        "form a rank 2 rows 2 columns 2\n0 0 2\n0 1 1\n1 0 1\n1 1 2\n",
        "",
    ),
    ("0*u*v*dx\n", ZEROS, ""),
    ("0.0e-7*u*v*dx\n", ZEROS, ""),
    ("1.*u*v*dx\n", MATRIX, ""),
    (".5*u*v*dx\n", HALVES, ""),
    ("00.50*u*v*dx\n", HALVES, ""),
    (
        "1e3*u*v*dx\n",
        "form a rank 2 rows 2 columns 2\n0 0 2000/3\n0 1 1000/3\n1 0 1000/3\n1 1 2000/3\n",
        "",
    ),
    (
        "1e-3*u*v*dx\n",
        "form a rank 2 rows 2 columns 2\n0 0 1/1500\n0 1 1/3000\n1 0 1/3000\n1 1 1/1500\n",
        "",
    ),
    (
        "1E+02*u*v*dx\n",
        "form a rank 2 rows 2 columns 2\n0 0 200/3\n0 1 100/3\n1 0 100/3\n1 1 200/3\n",
        "",
    ),
    (
        "3301173438094347399730997930*u*v*dx\n",
        "form a rank 2 rows 2 columns 2\n0 0 6602346876188694799461995860/3\n0 1 3301173438094347399730997930/3\n1 0 3301173438094347399730997930/3\n1 1 6602346876188694799461995860/3\n",
        "",
    ),
    (
        "1e-27*u*v*dx\n",
        "form a rank 2 rows 2 columns 2\n0 0 1/1500000000000000000000000000\n0 1 1/3000000000000000000000000000\n1 0 1/3000000000000000000000000000\n1 1 1/1500000000000000000000000000\n",
        "",
    ),
    ("3301173438094347399730997931*u*v*dx\n", "", SIZE),
    ("1e-28*u*v*dx\n", "", SIZE),
    ("170141183460469231731687303715884105727*u*v*dx\n", "", SIZE),
    (
        "170141183460469231731687303715884105728*u*v*dx\n",
        "",
        "form line 4 refusal 10 NumberRange 170141183460469231731687303715884105728\n",
    ),
    ("3e1234*u*v*dx\n", "", SYNTAX_4),
    (
        "-3*u*v*dx\n",
        "form a rank 2 rows 2 columns 2\n0 0 -2\n0 1 -1\n1 0 -1\n1 1 -2\n",
        "",
    ),
    ("1/2*u*v*dx\n", HALVES, ""),
    ("1 *  u*v*dx # twice\n\n", MATRIX, ""),
    ("*u*v*dx\n", "", SYNTAX_4),
    ("1/6*3*u*v*dx", HALVES, ""),
    ("1*(u*v)*dx\n", MATRIX, ""),
    ("1*v*u*dx\n", MATRIX, ""),
    ("u*v*dx(1)\n", ZEROS, ""),
    (
        "-(u*v*dx)\n",
        "form a rank 2 rows 2 columns 2\n0 0 -2/3\n0 1 -1/3\n1 0 -1/3\n1 1 -2/3\n",
        "",
    ),
    (
        "u.dx(0)*v*dx\n",
        "form a rank 2 rows 2 columns 2\n0 0 -1/2\n0 1 1/2\n1 0 -1/2\n1 1 1/2\n",
        "",
    ),
    ("u*u*dx\n", "", "form line 4 refusal 12 Arity a\n"),
    ("u*w*dx\n", "", "form line 4 refusal 6 UnknownName w\n"),
    ("3\n*u*v*dx\n", "", SYNTAX_5),
    ("3*u*v*dx\nmore", "", SYNTAX_5),
    ("u*v*dx\na = u*v*dx\n", MATRIX, ""),
];

// A call of the program: its words, the files `form` and `mesh`, and the first put that fails.
#[derive(Clone, Copy)]
struct Call<'a> {
    words: &'a str,
    form: &'a str,
    mesh: &'a str,
    fail: Option<(u64, u32)>,
}

// What the call left: the status, and the bytes of out and err.
#[derive(Drop)]
struct Left {
    status: u8,
    out: MemSink,
    err: MemSink,
}

fn file(alloc: Global, name: &str, bytes: &str) -> Result<MemFile, AllocError> {
    Ok(MemFile {
        name: String::from_str(alloc, name)?,
        bytes: Vec::from_slice(alloc, bytes.as_bytes())?,
    })
}

fn words_of(alloc: Global, line: &str) -> Result<Vec<String>, AllocError> {
    let mut words = Vec::new(alloc);
    for word in line.split_whitespace() {
        words.push(String::from_str(alloc, word)?)?;
    }
    Ok(words)
}

fn run(alloc: Global, call: &Call<'_>) -> Result<Left, AllocError> {
    let mut list = Vec::new(alloc);
    list.push(file(alloc, "form", call.form)?)?;
    list.push(file(alloc, "mesh", call.mesh)?)?;
    let mut files = MemFiles::new(alloc, list, Vec::new(alloc));
    let mut fail = Vec::new(alloc);
    if let Some(put) = call.fail {
        fail.push(put)?;
    }
    let mut out = MemSink::new(alloc, 9999, fail)?;
    let mut err = MemSink::new(alloc, 9999, Vec::new(alloc))?;
    let words = words_of(alloc, call.words)?;
    let status = program(alloc, words.as_slice(), &mut files, &mut out, &mut err).status();
    Ok(Left { status, out, err })
}

#[test]
fn ends_as_the_worked_rows_say(rt: HostRuntime) -> Result<(), Fail> {
    let words = "assemble form a mesh -";
    let table = [
        (words, MASS, TWO, 0, MATRIX, ""),
        (
            words,
            MASS,
            "mesh 2 interval 2 1\n0\n2\n0 1 7\n",
            0,
            MATRIX,
            "",
        ),
        ("compile form", MASS, TWO, 0, UNIT, ""),
        ("compile none", MASS, TWO, 8, "", "read fault 1\n"),
        (
            "compile mesh",
            MASS,
            TWO,
            3,
            "",
            "form line 1 refusal 4 Syntax\n",
        ),
        (
            "check form",
            MASS,
            TWO,
            0,
            "form a rank 2 cost 4 size 384\n",
            "",
        ),
        ("check none", MASS, TWO, 8, "", "read fault 1\n"),
        ("check form form", MASS, TWO, 2, "", "usage\n"),
        ("compile", MASS, TWO, 2, "", "usage\n"),
        ("", MASS, TWO, 2, "", "usage\n"),
        ("assemble form a", MASS, TWO, 2, "", "usage\n"),
        ("assemble form b mesh -", MASS, TWO, 3, "", NO_FORM),
        ("assemble none a mesh -", MASS, TWO, 8, "", "read fault 1\n"),
        ("assemble form a none -", MASS, TWO, 8, "", "read fault 2\n"),
        (words, "", TWO, 3, "", NO_FORM),
        ("check form", "", TWO, 3, "", NO_FORM),
        ("compile form", "", TWO, 3, "", NO_FORM),
        (
            words,
            "V = FiniteElement(\"Lagrange\", interval, 1)\n",
            TWO,
            3,
            "",
            NO_FORM,
        ),
        (
            words,
            "V = FiniteElement(\"Lagrange\", interval, 1)\nu = TrialFunction(V)\nv = TestFunction(V)",
            TWO,
            3,
            "",
            NO_FORM,
        ),
        (
            words,
            "V = FiniteElement(\"Lagrange\", interval, 1)\nu = TrialFunction(V)\nv = TestFunction(V)\na = u*u*dx\n",
            TWO,
            3,
            "",
            "form line 4 refusal 12 Arity a\n",
        ),
        (
            words,
            MASS,
            "mesh 1 interval 2 1\n1\n1\n0 1\n",
            4,
            "",
            "mesh cell 0 refusal 8 Degenerate\n",
        ),
        (
            words,
            MASS,
            "mesh 1 interval 2 1\n0\n1/85070591730234615865843651857942052864\n0 1\n",
            7,
            "",
            "passed cell 0\n",
        ),
        (
            words,
            MASS,
            "mesh 1 interval 3 2\n-1/18446744073709551616\n0\n1/36472996377170786403\n0 1\n1 2\n",
            7,
            "",
            "passed entry 1 1\n",
        ),
        (
            words,
            MASS,
            "mesh 1 interval 2 1\n0\n2\n0 2\n",
            4,
            "",
            "mesh line 4 refusal 5 VertexRange\n",
        ),
        (
            words,
            MASS,
            "# flat\nmesh 1 triangle 0 0\n",
            4,
            "",
            "mesh line 2 refusal 7 WrongCell\n",
        ),
        (
            words,
            MASS,
            "\n # a\r\n\t\r\nmesh 1 tetrahedron 0 0",
            4,
            "",
            "mesh line 4 refusal 7 WrongCell\n",
        ),
        (
            words,
            MASS,
            "mesh 1 interval 1 0\n7\n",
            0,
            "form a rank 2 rows 0 columns 0\n",
            "",
        ),
    ];
    for (words, form, mesh, status, out, err) in table {
        let call = Call {
            words,
            form,
            mesh,
            fail: None,
        };
        let left = run(rt.alloc(), &call)?;
        assert_eq!(rt; left.out.bytes(), out.as_bytes());
        assert_eq!(rt; left.err.bytes(), err.as_bytes());
        assert_eq!(rt; left.status, status);
    }
    Ok(())
}

#[test]
fn a_fault_of_writing_leaves_a_prefix(rt: HostRuntime) -> Result<(), Fail> {
    let call = Call {
        words: "assemble form a mesh -",
        form: MASS,
        mesh: TWO,
        fail: Some((1, 10)),
    };
    let left = run(rt.alloc(), &call)?;
    assert_eq!(rt; left.out.bytes(), b"form a ran".as_slice());
    assert_eq!(rt; left.err.bytes(), b"write fault\n".as_slice());
    assert_eq!(rt; left.status, 9);
    Ok(())
}

// What `assemble` writes of the form on the interval from 0 to 2.
fn assemble(alloc: Global, form: &str) -> Result<Left, AllocError> {
    let call = Call {
        words: "assemble form a mesh -",
        form,
        mesh: TWO,
        fail: None,
    };
    run(alloc, &call)
}

/// What `assemble` writes of the form of a name on a mesh: on out, and then on err.
pub(crate) fn assembled(
    alloc: Global,
    form: &str,
    name: &str,
    mesh: &str,
) -> Result<Vec<u8>, AllocError> {
    let mut words = String::from_str(alloc, "assemble form ")?;
    words.push_str(name)?;
    words.push_str(" mesh -")?;
    let call = Call {
        words: words.as_str(),
        form,
        mesh,
        fail: None,
    };
    let left = run(alloc, &call)?;
    let mut text = Vec::from_slice(alloc, left.out.bytes())?;
    text.extend_from_slice(left.err.bytes())?;
    Ok(text)
}

fn form_text(alloc: Global, tail: &str) -> Result<String, AllocError> {
    let mut text = String::from_str(alloc, OPENING)?;
    text.push_str(tail)?;
    Ok(text)
}

#[test]
fn a_number_is_the_factor(rt: HostRuntime) -> Result<(), Fail> {
    for (tail, out, err) in FACTORS {
        let form = form_text(rt.alloc(), tail)?;
        let left = assemble(rt.alloc(), form.as_str())?;
        assert_eq!(rt; left.out.bytes(), out.as_bytes());
        assert_eq!(rt; left.err.bytes(), err.as_bytes());
    }
    Ok(())
}

// The factor `1.` with so many zeros behind it.
fn padded_form(alloc: Global, zeros: u32) -> Result<String, AllocError> {
    let mut text = form_text(alloc, "1.")?;
    for _ in 0..zeros {
        text.push('0')?;
    }
    text.push_str("*u*v*dx\n")?;
    Ok(text)
}

// A form of 262,144 bytes is accepted; one of 262,145, or of many more, is not.
#[test]
fn a_form_file_has_a_limit(rt: HostRuntime) -> Result<(), Fail> {
    let table = [
        (262_046, MATRIX, ""),
        (262_047, "", "form line 0 refusal 1 TooLong\n"),
        (524_288, "", "form line 0 refusal 1 TooLong\n"),
    ];
    for (zeros, out, err) in table {
        let form = padded_form(rt.alloc(), zeros)?;
        let left = assemble(rt.alloc(), form.as_str())?;
        assert_eq!(rt; left.out.bytes(), out.as_bytes());
        assert_eq!(rt; left.err.bytes(), err.as_bytes());
    }
    Ok(())
}

// What the function of a unit's text gives on an interval: its local tensor, or how the run ended.
fn local_tensor(alloc: Global, text: &[u8], ends: [i128; 2]) -> Result<Vec<u8>, Fail> {
    let read = match read_unit(alloc, text) {
        Ok(read) => read,
        Err(_) => return Ok(Vec::from_slice(alloc, b"refused")?),
    };
    let Some(function) = read.unit.funs.get(0) else {
        return Ok(Vec::new(alloc));
    };
    let (Some(first), Some(second)) = (Ratio::new(ends[0], 1), Ratio::new(ends[1], 1)) else {
        return Ok(Vec::new(alloc));
    };
    let mut machine = Machine::new(alloc, function)?;
    let mut tensor = vec![in alloc; Ratio::zero(); function.a as usize]?;
    let mut left = Vec::new(alloc);
    match machine.run(&[first, second], &[], tensor.as_mut_slice()) {
        Ret::Good => {
            for value in &tensor {
                value.write(&mut left)?;
                left.push(b' ')?;
            }
        }
        Ret::Zero { .. } => left.extend_from_slice(b"zero")?,
        Ret::Passed { .. } => left.extend_from_slice(b"passed")?,
    }
    Ok(left)
}

#[test]
fn the_printed_kernel_is_read_back_and_runs(rt: HostRuntime) -> Result<(), Fail> {
    let table = [
        ([0, 2], "2/3 1/3 1/3 2/3 "),
        ([2, 0], "2/3 1/3 1/3 2/3 "),
        ([1, 1], "zero"),
        ([i128::MIN + 1, i128::MAX], "passed"),
    ];
    for (ends, tensor) in table {
        let left = local_tensor(rt.alloc(), UNIT.as_bytes(), ends)?;
        assert_eq!(rt; left.as_slice(), tensor.as_bytes());
    }
    Ok(())
}

#[test]
fn the_printed_kernel_has_the_factor(rt: HostRuntime) -> Result<(), Fail> {
    let table = [
        ("3*u*v*dx\n", "2 1 1 2 "),
        ("0*u*v*dx\n", "0 0 0 0 "),
        ("1e-3*u*v*dx\n", "1/1500 1/3000 1/3000 1/1500 "),
    ];
    for (tail, tensor) in table {
        let form = form_text(rt.alloc(), tail)?;
        let call = Call {
            words: "compile form",
            form: form.as_str(),
            mesh: TWO,
            fail: None,
        };
        let printed = run(rt.alloc(), &call)?;
        let left = local_tensor(rt.alloc(), printed.out.bytes(), [0, 2])?;
        assert_eq!(rt; left.as_slice(), tensor.as_bytes());
    }
    Ok(())
}
