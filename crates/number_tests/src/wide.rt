//! Whole numbers of 128 bits: where sums and products end, and the signs of remainders, quotients, divisors and multiples.

use wide_num::{add, div_floor, gcd, lcm, mul, rem, sub};

#[test]
fn sums_and_products_end_at_128_bits(rt: HostRuntime) {
    assert!(rt; add(i128::MAX, 1).is_none());
    assert!(rt; sub(i128::MIN, 1).is_none());
    assert!(rt; mul(i128::MIN, -1).is_none());
    assert!(rt; add(i128::MAX, i128::MIN) == Some(-1));
    assert!(rt; sub(-1, i128::MIN) == Some(i128::MAX));
    assert!(rt; mul(-4_000_000_000, 5_000_000_000) == Some(-20_000_000_000_000_000_000));
}

#[test]
fn remainders_are_never_negative(rt: HostRuntime) {
    for (a, k, want) in [
        (-7i128, 3i128, 2i128),
        (7, 3, 1),
        (-6, 3, 0),
        (-1, 4096, 4095),
    ] {
        let found = if k > 0 { rem(a, k) } else { -1 };
        assert!(rt; found == want, "{a} by {k}");
    }
}

#[test]
fn quotients_are_rounded_down(rt: HostRuntime) {
    for (a, b, want) in [
        (7i128, 2i128, 3i128),
        (-7, 2, -4),
        (7, -2, -4),
        (-7, -2, 3),
        (-6, 3, -2),
    ] {
        let found = if b != 0 { div_floor(a, b) } else { None };
        assert!(rt; found == Some(want), "{a} by {b}");
    }
    assert!(rt; div_floor(i128::MIN, -1).is_none());
    assert!(rt; div_floor(i128::MIN, 1) == Some(i128::MIN));
}

#[test]
fn divisors_are_never_negative(rt: HostRuntime) {
    for (a, b, want) in [
        (0i128, 0i128, 0i128),
        (-12, 18, 6),
        (0, -5, 5),
        (i128::MIN, 6, 2),
    ] {
        assert!(rt; gcd(a, b) == Some(want), "{a} and {b}");
    }
    assert!(rt; gcd(i128::MIN, 0).is_none());
}

#[test]
fn multiples_are_never_negative(rt: HostRuntime) {
    for (a, b, want) in [(0i128, 5i128, 0i128), (5, 0, 0), (-4, 6, 12), (4, -6, 12)] {
        assert!(rt; lcm(a, b) == Some(want), "{a} and {b}");
    }
    assert!(rt; lcm(i128::MIN, 1).is_none());
    assert!(rt; lcm(i128::MAX, 2).is_none());
}
