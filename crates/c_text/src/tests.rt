// Texts of kernels, and what becomes of them.

use crate::{KernelKind, KernelRefusal, print_unit, read_unit};
use std::alloc::{AllocError, Global};
use std::test::Fail;

const KERNEL: [&[u8]; 13] = [
    b"#include \"fr.h\"",
    b"enum { ffc_a_X = 2, ffc_a_W = 0, ffc_a_T = 2, ffc_a_A = 4 };",
    b"int ffc_a(const fr *X, const fr *W, fr *A)",
    b"{",
    b"  fr T[2];",
    b"  fr_clear(T, 2);",
    b"  fr_clear(A, 4);",
    b"  if (fr_sub(&T[0], &X[1], &X[0])) return 1;",
    b"  fr_set(&T[1], 0, 0u, 1u, 0u, 3u);",
    b"  if (fr_mul(&A[0], &T[0], &T[1])) return 1;",
    b"  if (fr_mul(&A[3], &T[0], &T[1])) return 1;",
    b"  return 0;",
    b"}",
];

const LOOPS: &[u8] = b"#include \"fr.h\"
enum { m_X = 0, m_W = 0, m_T = 4, m_A = 1 };
int m(const fr *X, const fr *W, fr *A)
{
  fr T[4];
  fr_clear(T, 4);
  fr_clear(A, 1);
  static const fr_lit K0[2] = { { 0, 0u, 1u, 0u, 3u }, { 0, 0u, 1u, 0u, 6u } };
  for (int i0 = 0; i0 < 2; i0++) {
    fr_load(&T[1+1*i0], &K0[0+1*i0]);
    for (int i1 = 0; i1 < 2; i1++) {
      fr_abs(&T[0+2*i0+1*i1], &T[3]);
    }
  }
  fr_copy(&A[0], &T[0]);
  if (fr_inv(&T[0], &T[1])) return 2;
  return 0;
}
";

// The kernel with another line, or with more behind it where the number is past the last.
fn kernel_with(alloc: Global, number: usize, line: &[u8]) -> Result<Vec<u8>, AllocError> {
    let mut text = Vec::new(alloc);
    for (at, own) in KERNEL.iter().enumerate() {
        text.extend_from_slice(if at + 1 == number { line } else { own })?;
        text.push(b'\n')?;
    }
    Ok(text)
}

const CASES: [(usize, &[u8], KernelKind, u32); 39] = [
    (
        11,
        b"  if (fr_mul(&A[4+1*i0], &T[0], &T[1])) return 1;",
        KernelKind::Slot,
        11,
    ),
    (
        11,
        b"  if (fr_mul(&A[3\n+\n1*i0], &T[0], &T[1])) return 1;",
        KernelKind::Syntax,
        12,
    ),
    (
        9,
        b"  for (int i0 = 0; i0 < 1; i0++) { fr_copy(&T[2+1*\ni0\n+1*i1], &X[0]); }",
        KernelKind::Slot,
        10,
    ),
    (
        9,
        b"  for (int i0 = 0; i0 < 1; i0++) { fr_copy(&T[1+1*\ni0\n+1*i1], &X[0]); }",
        KernelKind::Syntax,
        11,
    ),
    (
        9,
        b"  for (int i0 = 0; i0 < 1; i0++) { fr_copy(&T[2\n+1*\ni0], &X[0]); }",
        KernelKind::Slot,
        11,
    ),
    (
        11,
        b"  if (fr_mul(&A[4], &T[0], &T[1])) return 1;",
        KernelKind::Slot,
        11,
    ),
    (
        11,
        b"  if (fr_mul(&A[3+1*i0], &T[0], &T[1])) return 1;",
        KernelKind::Syntax,
        11,
    ),
    (
        11,
        b"  if (fr_mul(&X[1], &T[0], &T[1])) return 1;",
        KernelKind::Syntax,
        11,
    ),
    (
        9,
        b"  fr_set(&T[1], 0, 0u, 3u, 0u, 3u);",
        KernelKind::Bound,
        9,
    ),
    (
        9,
        b"  fr_set(&T[1], 1, 0u, 0u, 0u, 1u);",
        KernelKind::Bound,
        9,
    ),
    (
        9,
        b"  fr_set(&T[1], 0, 0u, 1u, 0u, 0u);",
        KernelKind::Bound,
        9,
    ),
    (
        9,
        b"  fr_set(&T[1], 0, 9223372036854775808u, 0u, 0u, 1u);",
        KernelKind::Bound,
        9,
    ),
    (
        9,
        b"  fr_set(&T[1], 0, 0u, 18446744073709551616u, 0u, 3u);",
        KernelKind::Syntax,
        9,
    ),
    (
        9,
        b"  fr_set(&T[1], 0, 0u, 1, 0u, 3u);",
        KernelKind::Syntax,
        9,
    ),
    (
        9,
        b"  fr_set(&T[01], 0, 0u, 1u, 0u, 3u);",
        KernelKind::Syntax,
        9,
    ),
    (9, b"  fr_set(&T[1], 0, 0u, 1u, @", KernelKind::Lex, 9),
    (9, b"  fr_load(&T[1], &K0[0]);", KernelKind::Syntax, 9),
    (
        9,
        b"  for (int i0 = 0; i0 < 0; i0++) { }",
        KernelKind::Bound,
        9,
    ),
    (
        9,
        b"  for (int i1 = 0; i1 < 2; i1++) { }",
        KernelKind::Syntax,
        9,
    ),
    (
        9,
        b"  for (int i0 = 0; i0 < 3; i0++) { fr_copy(&T[0+1*i0], &X[0]); }",
        KernelKind::Slot,
        9,
    ),
    (
        9,
        b"  for (int i0 = 0; i0 < 3; i0++) { fr_copy(&T[0+0*i0], &X[0]); }",
        KernelKind::Syntax,
        9,
    ),
    (
        9,
        b"  for (int i0 = 0; i0 < 67108863; i0++) { fr_copy(&T[0], &X[0]); }",
        KernelKind::Bound,
        13,
    ),
    (
        2,
        b"enum { ffc_a_X = 2, ffc_a_W = 0, ffc_a_T = 0, ffc_a_A = 4 };",
        KernelKind::Bound,
        2,
    ),
    (
        2,
        b"enum { ffc_a_X = 2, ffc_b_W = 0, ffc_a_T = 2, ffc_a_A = 4 };",
        KernelKind::Syntax,
        2,
    ),
    (
        2,
        b"enum { _X = 2, _W = 0, _T = 2, _A = 4 };",
        KernelKind::Syntax,
        2,
    ),
    (
        2,
        b"enum { ffc_a_X = 16777217, ffc_a_W = 0, ffc_a_T = 2, ffc_a_A = 4 };",
        KernelKind::Bound,
        2,
    ),
    (6, b"  fr_clear(T, 3);", KernelKind::Bound, 6),
    (
        7,
        b"  fr_clear(A, 4); static const fr_lit K0[2] = { { 0, 0u, 1u, 0u, 3u } };",
        KernelKind::Bound,
        7,
    ),
    (
        7,
        b"  fr_clear(A, 4); static const fr_lit K1[1] = { { 0, 0u, 1u, 0u, 3u } };",
        KernelKind::Syntax,
        7,
    ),
    (13, b"", KernelKind::Syntax, 13),
    (
        9,
        b"  for (int i0 = 0; i1 < 2; i0++) { }",
        KernelKind::Syntax,
        9,
    ),
    (
        9,
        b"  for (int i0 = 0; i0 < 2; i0++) { for (int i1 = 0; i1 < 2; i1++) { fr_copy(&T[0+1*i1+1*i0], &X[0]); } }",
        KernelKind::Syntax,
        9,
    ),
    (
        9,
        b"  for (int i0 = 0; i0 < 1; i0++) { for (int i1 = 0; i1 < 1; i1++) { for (int i2 = 0; i2 < 1; i2++) { for (int i3 = 0; i3 < 1; i3++) { for (int i4 = 0; i4 < 1; i4++) { } } } } }",
        KernelKind::Syntax,
        9,
    ),
    (
        7,
        b"  fr_clear(A, 4); static const fr_lit K0[0] = { };",
        KernelKind::Bound,
        7,
    ),
    (
        7,
        b"  fr_clear(A, 4); static const fr_lit K0[1] = { { 0, 0u, 2u, 0u, 4u } };",
        KernelKind::Bound,
        7,
    ),
    (
        7,
        b"  fr_clear(A, 4); static const fr_lit K0[1] = { { 0, 0u, 1u, 0u, 3u } }; fr_load(&T[0], &K0[1]);",
        KernelKind::Slot,
        7,
    ),
    (
        7,
        b"  fr_clear(A, 4); static const fr_lit K0[1] = { { 0, 0u, 1u, 0u, 3u } }; fr_load(&A[0], &K0[0]);",
        KernelKind::Syntax,
        7,
    ),
    (
        13,
        b"} enum { ffc_a_X = 2, ffc_a_W = 0, ffc_a_T = 2, ffc_a_A = 4 };",
        KernelKind::Bound,
        13,
    ),
    (1, b"#include <fr.h>", KernelKind::Syntax, 1),
];

#[test]
fn each_rule_broken_once(rt: HostRuntime) -> Result<(), Fail> {
    for (number, line, kind, fault) in CASES {
        let text = kernel_with(rt.alloc(), number, line)?;
        match read_unit(rt.alloc(), text.as_slice()) {
            Ok(_) => assert!(rt; false, "taken: {}", number),
            Err(refusal) => assert_eq!(rt; refusal, KernelRefusal { kind, line: fault }),
        }
    }
    assert!(rt; read_unit(rt.alloc(), b"").is_err());
    Ok(())
}

#[test]
fn texts_are_printed_back(rt: HostRuntime) -> Result<(), Fail> {
    let kernel = kernel_with(rt.alloc(), 0, b"")?;
    for text in [kernel.as_slice(), LOOPS] {
        match read_unit(rt.alloc(), text) {
            Err(refusal) => assert_eq!(rt;
                refusal,
                KernelRefusal {
                    kind: KernelKind::Memory,
                    line: 9999
                }
            ),
            Ok(read) => {
                let mut printed = Vec::new(rt.alloc());
                print_unit(&read.unit, &mut printed)?;
                assert_eq!(rt; printed.as_slice(), text);
            }
        }
    }
    Ok(())
}
