use fast_fault::Memory;
use fast_syntax::print;
use std::alloc::Global;
use std::test::Fail;
use text_reader::{ReadStop, read};

/// Programs, and how they are printed.
const ROWS: [(&str, &str); 59] = [
    (
        "lang p : T { c() where (= (% x 2) 0) }",
        "lang p : T { c() where x % 2 = 0 }\n",
    ),
    (
        "lang p : T { c() where (!= x (-7)) }",
        "lang p : T { c() where x != -7 }\n",
    ),
    (
        "lang p : T { c() where (<= x y) }",
        "lang p : T { c() where x <= y }\n",
    ),
    (
        "lang p : T { c() where (>= x y) }",
        "lang p : T { c() where x >= y }\n",
    ),
    (
        "lang p : T { c() where (> x y) }",
        "lang p : T { c() where x > y }\n",
    ),
    (
        "lang p : T { c() where (= (< x y) true) }",
        "lang p : T { c() where (x < y) = true }\n",
    ),
    (
        "lang p : T { c() where (= true (< x y)) }",
        "lang p : T { c() where true = (x < y) }\n",
    ),
    (
        "lang p : T { c() where (not (= x y)) }",
        "lang p : T { c() where not x = y }\n",
    ),
    (
        "lang p : T { c() where (= (not x) y) }",
        "lang p : T { c() where (not x) = y }\n",
    ),
    (
        "lang p : T { c() where (= x (not y)) }",
        "lang p : T { c() where x = (not y) }\n",
    ),
    (
        "lang p : T { c() where (not (not x)) }",
        "lang p : T { c() where not (not x) }\n",
    ),
    (
        "lang p : T { c() where (not (not (not x))) }",
        "lang p : T { c() where not (not (not x)) }\n",
    ),
    (
        "lang p : T { c() where (not false) }",
        "lang p : T { c() where not false }\n",
    ),
    (
        "lang p : T { c() where (or (and a b) c) }",
        "lang p : T { c() where a and b or c }\n",
    ),
    (
        "lang p : T { c() where (or a (and b c)) }",
        "lang p : T { c() where a or b and c }\n",
    ),
    (
        "lang p : T { c() where (and (or a b) c) }",
        "lang p : T { c() where (a or b) and c }\n",
    ),
    (
        "lang p : T { c() where (or (or a b) c) }",
        "lang p : T { c() where (a or b) or c }\n",
    ),
    (
        "lang p : T { c() where (or a b c) }",
        "lang p : T { c() where a or b or c }\n",
    ),
    (
        "lang p : T { c() where (and a (and b c)) }",
        "lang p : T { c() where a and (b and c) }\n",
    ),
    (
        "lang p : T { c() where (and a b c) }",
        "lang p : T { c() where a and b and c }\n",
    ),
    (
        "lang p : T { c() where (and (not a) b) }",
        "lang p : T { c() where not a and b }\n",
    ),
    (
        "lang p : T { c() where (not (and a b)) }",
        "lang p : T { c() where not (a and b) }\n",
    ),
    (
        "lang p : T { c() where (not (or a b)) }",
        "lang p : T { c() where not (a or b) }\n",
    ),
    (
        "lang p : T { c() where (- (+ a b) c) }",
        "lang p : T { c() where (a + b) - c }\n",
    ),
    (
        "lang p : T { c() where ((a + b - c)) }",
        "lang p : T { c() where a + b - c }\n",
    ),
    (
        "lang p : T { c() where (- a (+ b c)) }",
        "lang p : T { c() where a - (b + c) }\n",
    ),
    (
        "lang p : T { c() where (- a (-5)) }",
        "lang p : T { c() where a - -5 }\n",
    ),
    (
        "lang p : T { c() where (+ a (* 2 b)) }",
        "lang p : T { c() where a + 2 * b }\n",
    ),
    (
        "lang p : T { c() where a % (3) * (c) }",
        "lang p : T { c() where a % 3 * c }\n",
    ),
    (
        "lang p : T { c() where (* a (* b c)) }",
        "lang p : T { c() where a * (b * c) }\n",
    ),
    (
        "lang p : T { c() where (% (* a b) c) }",
        "lang p : T { c() where (a * b) % c }\n",
    ),
    (
        "lang p : T { c() where (% (+ i 5) 26) }",
        "lang p : T { c() where (i + 5) % 26 }\n",
    ),
    (
        "lang p : T { c() where (* (-2) (-b)) }",
        "lang p : T { c() where -2 * -b }\n",
    ),
    (
        "lang p : T { c() where (-x) }",
        "lang p : T { c() where -x }\n",
    ),
    (
        "lang p : T { c() where (-(5)) }",
        "lang p : T { c() where -(5) }\n",
    ),
    (
        "lang p : T { c() where (-(-5)) }",
        "lang p : T { c() where -(-5) }\n",
    ),
    (
        "lang p : T { c() where (-(-x)) }",
        "lang p : T { c() where -(-x) }\n",
    ),
    (
        "lang p : T { c() where (-(+ x y)) }",
        "lang p : T { c() where -(x + y) }\n",
    ),
    (
        "lang p : T { c() where (-(* x y)) }",
        "lang p : T { c() where -(x * y) }\n",
    ),
    (
        "lang p : T { c() where (+ (-x) y) }",
        "lang p : T { c() where -x + y }\n",
    ),
    (
        "lang p : T { c() where (= 0 99999999999999999999999999999999999999) }",
        "lang p : T { c() where 0 = 99999999999999999999999999999999999999 }\n",
    ),
    (
        "lang p : T { c() where s = \"\" }",
        "lang p : T { c() where s = \"\" }\n",
    ),
    (
        "lang p : T { c() where s = \"\\u{22} \\u{5C} \\u{0a} \\u{09}\" }",
        "lang p : T { c() where s = \"\\\" \\\\ \\n \\t\" }\n",
    ),
    (
        "lang p : T { c() where s = \"\\u{0}\\u{1F}\\u{7f}\\u{D}\" }",
        "lang p : T { c() where s = \"\\u{0}\\u{1f}\\u{7f}\\u{d}\" }\n",
    ),
    (
        "lang p : T { c() where s = \"'// \\u{e9}\\u{80}\\u{2208}\\u{1F600}\" }",
        "lang p : T { c() where s = \"'// é\u{80}∈😀\" }\n",
    ),
    (
        "lang p : T { c() where s = \"\\u{73}cript\" }",
        "lang p : T { c() where s = \"script\" }\n",
    ),
    ("type B{a(0)}", "type B [] { a(0) }\n"),
    (
        "type L[i:int b:bool, s:string]{nil(0)cons(2)}",
        "type L [i : Int, b : Bool, s : String] { nil(0), cons(2) }\n",
    ),
    (
        "lang p:L{nil()|cons(x y)where b given(p x)(q y)}",
        "lang p : L { nil() | cons(x, y) where b given (p x) (q y) }\n",
    ),
    (
        "trans t:L->M{nil()to(nil[(-7)b])|cons(x y)where b given(p x)(q y)to(cons[](t x)y)}",
        "trans t : L -> M { nil() to (nil [-7, b]) | cons(x, y) where b given (p x) (q y) to (cons [] (t x) y) }\n",
    ),
    (
        "def d : L := ( union p (complement q ))",
        "def d : L := (union p (complement q))\n",
    ),
    (
        "def d : L->M := (restrict-out t p)",
        "def d : L -> M := (restrict-out t p)\n",
    ),
    (
        "tree w : L := (cons[- 7 b](nil[])(get-witness p))",
        "tree w : L := (cons [-7, b] (nil []) (get-witness p))\n",
    ),
    ("assert-true (p==q)", "assert-true p == q\n"),
    ("assert-false (w ∈ p)", "assert-false w in p\n"),
    (
        "assert-true ((is-empty (pre-image t p)))",
        "assert-true (is-empty (pre-image t p))\n",
    ),
    (
        "assert-true(type-check p t q)",
        "assert-true (type-check p t q)\n",
    ),
    (
        "type B[]{a(0)} // a comment\n\n assert-false w in p",
        "type B [] { a(0) }\nassert-false w in p\n",
    ),
    ("", ""),
];

/// What the program that the text is is printed as.
fn printed(alloc: Global, text: &[u8]) -> Result<Vec<u8>, Memory> {
    match read(alloc, text) {
        Ok(program) => print(alloc, &program),
        Err(ReadStop::Refused(_)) => Ok(Vec::from_slice(alloc, b"refused")?),
        Err(ReadStop::Memory) => Err(Memory),
    }
}

#[test]
fn prints_the_canonical_text(rt: HostRuntime) -> Result<(), Fail> {
    let alloc = rt.alloc();
    for (text, expected) in ROWS {
        let once = printed(alloc, text.as_bytes())?;
        assert!(rt; once.as_slice() == expected.as_bytes(), "{text}");
        let twice = printed(alloc, &once)?;
        assert!(rt; twice.as_slice() == expected.as_bytes(), "{text} again");
    }
    Ok(())
}
