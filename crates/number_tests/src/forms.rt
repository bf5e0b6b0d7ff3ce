use lin_form::{DEEPEST, Form, FormStop, Signed};
use std::alloc::Global;
use std::test::Fail;

/// `((x + 5) % 26) % 2`, or the remainder of its first by another number.
fn nested(alloc: Global) -> Result<Form, FormStop> {
    let mut parts = Vec::new(alloc);
    let form = Form::field(alloc, 0)?;
    parts.push(Signed { minus: false, form })?;
    let form = Form::number(alloc, 5)?;
    parts.push(Signed { minus: false, form })?;
    let sum = Form::of_sum(alloc, &parts)?;
    let first = sum.remainder(alloc, 26)?;
    first.remainder(alloc, 2)
}

/// `2147483647 * ((x % 4) % 2) + x % 2`.
fn wide_once_simpler(alloc: Global) -> Result<Form, FormStop> {
    let x = Form::field(alloc, 0)?;
    let twice = x.remainder(alloc, 4)?.remainder(alloc, 2)?;
    let first = twice.scaled(alloc, 2147483647)?;
    both(alloc, &first, &x.remainder(alloc, 2)?, false)
}

/// The first form and the second, or the second and the first.
fn both(alloc: Global, first: &Form, second: &Form, minus: bool) -> Result<Form, FormStop> {
    let mut parts = Vec::new(alloc);
    let form = first.copy(alloc)?;
    parts.push(Signed { minus: false, form })?;
    let form = second.copy(alloc)?;
    parts.push(Signed { minus, form })?;
    Form::of_sum(alloc, &parts)
}

/// A field's remainder by 2, that one's remainder and so on, so many in one another.
fn chain(alloc: Global, count: u32) -> Result<Form, FormStop> {
    let mut form = Form::field(alloc, 0)?;
    for _step in 0..count {
        form = form.into_remainder(alloc, 2)?;
    }
    Ok(form)
}

/// Three times a field's remainder by 2, of that the same and so on, so many in one another.
fn tower(alloc: Global, count: u32) -> Result<Form, FormStop> {
    let mut form = Form::field(alloc, 0)?;
    for _step in 0..count {
        form = form.into_remainder(alloc, 2)?.scaled(alloc, 3)?;
    }
    Ok(form)
}

/// The divisor of the first remainder, or 0.
fn first_divisor(form: &Form) -> u32 {
    match form.remainders().first() {
        Some(term) => term.divisor,
        None => 0,
    }
}

#[test]
fn evaluates_nested_remainders(rt: HostRuntime) -> Result<(), Fail> {
    let Ok(form) = nested(rt.alloc()) else {
        panic!(rt; "no form");
    };
    for (x, want) in [(-31i64, 0i128), (-5, 0), (0, 1), (20, 1), (i64::MAX, 0)] {
        let found = form.eval(&[x]);
        assert!(rt; found == want, "{x}: {found}");
    }
    Ok(())
}

#[test]
fn takes_remainders_of_constants(rt: HostRuntime) -> Result<(), Fail> {
    let minus_seven = Form::number(rt.alloc(), -7)?;
    let Ok(found) = minus_seven.remainder(rt.alloc(), 3) else {
        panic!(rt; "no form");
    };
    assert!(rt; found.constant() == 2);
    assert!(rt; found.fields().is_empty() && found.remainders().is_empty());
    Ok(())
}

#[test]
fn equal_in_any_order(rt: HostRuntime) -> Result<(), Fail> {
    let alloc = rt.alloc();
    let Ok(first) = Form::field(alloc, 1)?.remainder(alloc, 3) else {
        panic!(rt; "no form");
    };
    let Ok(second) = Form::field(alloc, 2)?.remainder(alloc, 5) else {
        panic!(rt; "no form");
    };
    let (Ok(one), Ok(other)) = (
        both(alloc, &first, &second, false),
        both(alloc, &second, &first, false),
    ) else {
        panic!(rt; "no form");
    };
    assert!(rt; one == other);
    assert!(rt; one != first);
    assert!(rt; first_divisor(&one) == 3 && first_divisor(&other) == 5);
    Ok(())
}

#[test]
fn merges_like_terms(rt: HostRuntime) -> Result<(), Fail> {
    let alloc = rt.alloc();
    let x = Form::field(alloc, 7)?;
    let (Ok(nothing), Ok(twice)) = (both(alloc, &x, &x, true), both(alloc, &x, &x, false)) else {
        panic!(rt; "no form");
    };
    assert!(rt; nothing == Form::number(alloc, 0)?);
    assert!(rt; twice.fields().len() == 1 && twice.eval(&[0, 0, 0, 0, 0, 0, 0, 21]) == 42);
    Ok(())
}

#[test]
fn tells_the_number_outside(rt: HostRuntime) -> Result<(), Fail> {
    let alloc = rt.alloc();
    let x = Form::field(alloc, 0)?;
    assert!(rt; x.scaled(alloc, 2147483647).is_ok());
    assert!(rt;
        matches!(
            x.scaled(alloc, -2147483648),
            Err(FormStop::Range(-2147483648))
        )
    );
    let most = Form::number(alloc, 9223372036854775807)?;
    let sum = both(alloc, &most, &most, false);
    assert!(rt; matches!(sum, Err(FormStop::Range(18446744073709551614))));
    Ok(())
}

#[test]
fn puts_forms_for_fields(rt: HostRuntime) -> Result<(), Fail> {
    let alloc = rt.alloc();
    let Ok(wide) = Form::field(alloc, 0)?.scaled(alloc, 2000000000) else {
        panic!(rt; "no form");
    };
    let mut forms = Vec::new(alloc);
    forms.push(wide.copy(alloc)?)?;
    assert!(rt;
        matches!(
            wide.subst(alloc, &forms),
            Err(FormStop::Range(4000000000000000000))
        )
    );

    let x = Form::field(alloc, 0)?;
    let number = Form::number(alloc, 21)?;
    let Ok(moved) = both(alloc, &x, &number, false) else {
        panic!(rt; "no form");
    };
    let mut forms = Vec::new(alloc);
    forms.push(moved)?;
    let Ok(form) = nested(alloc) else {
        panic!(rt; "no form");
    };
    let Ok(put) = form.subst(alloc, &forms) else {
        panic!(rt; "no form");
    };
    assert!(rt; first_divisor(&put) == 2 && put.fields().is_empty());
    assert!(rt; put.eval(&[-52]) == 0 && put.eval(&[1]) == 1);
    Ok(())
}

#[test]
fn opens_remainders_by_multiples(rt: HostRuntime) -> Result<(), Fail> {
    let alloc = rt.alloc();
    let (Ok(form), x, one) = (
        nested(alloc),
        Form::field(alloc, 0)?,
        Form::number(alloc, 1)?,
    ) else {
        panic!(rt; "no form");
    };
    let Ok(simpler) = form.simpler(alloc) else {
        panic!(rt; "no simpler form");
    };
    let Ok(next) = both(alloc, &x, &one, false) else {
        panic!(rt; "no form");
    };
    let Ok(want) = next.remainder(alloc, 2) else {
        panic!(rt; "no form");
    };
    assert!(rt; simpler == want);

    let Ok(wide) = wide_once_simpler(alloc) else {
        panic!(rt; "no form");
    };
    assert!(rt; matches!(wide.simpler(alloc), Err(FormStop::Range(2147483648))));
    Ok(())
}

#[test]
fn nests_no_deeper_than_the_deepest(rt: HostRuntime) -> Result<(), Fail> {
    let alloc = rt.alloc();
    let Ok(deepest) = tower(alloc, DEEPEST) else {
        panic!(rt; "no form");
    };
    assert!(rt; deepest.eval(&[7]) == 3);
    assert!(rt; matches!(deepest.into_remainder(alloc, 2), Err(FormStop::Memory)));
    Ok(())
}

#[test]
fn takes_any_number_of_remainders_of_remainders(rt: HostRuntime) -> Result<(), Fail> {
    let alloc = rt.alloc();
    let (Ok(form), Ok(shorter)) = (chain(alloc, 200_000), chain(alloc, 199_999)) else {
        panic!(rt; "no form");
    };
    assert!(rt; form.eval(&[7]) == 1);
    let same = form.copy(alloc)?;
    assert!(rt; same == form);
    assert!(rt; shorter != form);
    let (Ok(simpler), Ok(once)) = (form.simpler(alloc), chain(alloc, 1)) else {
        panic!(rt; "no simpler form");
    };
    assert!(rt; simpler == once);
    let Ok(put) = form.subst(alloc, &[once]) else {
        panic!(rt; "no form");
    };
    assert!(rt; put.eval(&[8]) == 0);
    Ok(())
}
