//! Values from outside, and each call once.

ghost use Rattle.std.specs.Prelude.{IfOk};
ghost use Rattle.poly_forms.specs.Form.{form_of, VariablesBelow};

use poly_forms::{CheckKind, DrawKind, Form, Forms, NoMemory, at, eval, roots_bound};
use tower_field::{B128, Tower};

fn element(n: u64) -> B128 {
    B128::join(n as u128, 0)
}

#[test]
fn values_and_roots(rt: HostRuntime) {
    let (zero, one) = (B128::ZERO, B128::ONE);
    // The square of 4 is 9.
    let cases: [(&[B128], B128, u128); 3] = [
        (&[one, zero, one], B128::join(4, 0), 8),
        (&[], B128::join(5, 0), 0),
        (&[B128::join(7, 0)], B128::join(9, 0), 7),
    ];
    for (coefficients, x, want) in cases {
        assert_eq!(rt; eval(coefficients, x).number(), want);
    }
    roots_bound(&[zero, one, one], &[zero, one]);
}

#[test]
fn values_between_values(rt: HostRuntime) {
    // The polynomial of the first is 1 + x².
    assert_eq!(rt;
        at(&[element(1), element(0), element(2)], element(4)).number(),
        8
    );
    assert_eq!(rt; at(&[element(7)], element(9)).number(), 7);
    let cubic = [element(3), element(1), element(4), element(1)];
    assert_eq!(rt; at(&cubic, element(0x10000)).number(), 0x7a0f0709);
    let most = [5, 9, 1, 3, 200, 17, 4, 6, 8, 77].map(element);
    let mut values = [B128::join(0xfedcba9876543210, 0x123456789abcdef0); 11];
    for i in 0..10 {
        values[i + 1] = most[i];
    }
    let want = 0x3654e7dff80e2564d46f45e7946e7c32;
    assert_eq!(rt; at(&values, element(0xfeed0000beef)).number(), want);
}

/// x1 · x1 · 5 + (an empty sum) + x0.
fn make_form(alloc: std::alloc::Global) -> Result<Form, NoMemory>
    ensures { IfOk result (λ form. VariablesBelow 2 (form_of form)) }
{
    let mut factors = Forms::new(alloc);
    factors.push(Form::Variable(1))?;
    factors.push(Form::Variable(1))?;
    factors.push(Form::Constant(element(5)))?;
    let mut terms = Forms::new(alloc);
    terms.push(Form::product(factors)?)?;
    terms.push(Form::sum(Forms::new(alloc))?)?;
    terms.push(Form::Variable(0))?;
    Form::sum(terms)
}

#[test]
fn forms(rt: HostRuntime) -> Result<(), NoMemory> {
    let form = make_form(rt.alloc())?;
    assert_eq!(rt; form.degree(), 2);
    // 4 · 4 is 9, and 9 · 5 is 3.
    assert_eq!(rt; form.eval(&[element(1), element(4)]).number(), 2);
    Ok(())
}

#[test]
fn names(rt: HostRuntime) {
    assert!(rt; DrawKind::PackCoordinate.name() == "pack-coordinate");
    assert!(rt; CheckKind::RoundSum.name() == "round-sum");
}
