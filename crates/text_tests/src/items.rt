use fast_lex::{Lexed, tokens};
use label_reader::ReadTokensStop;
use program_reader::read_items;
use std::alloc::Global;
use std::test::Fail;

/// What reading the tokens of a text answers: a program, or the number of tokens before the first wrong one.
#[derive(Drop)]
enum Answer {
    Read,
    Wrong(usize),
    Other,
}

fn read_text(alloc: Global, text: &str) -> Answer {
    if text.len() > 1_048_576 {
        return Answer::Other;
    }
    let Lexed::Tokens(found) = tokens(alloc, text) else {
        return Answer::Other;
    };
    match read_items(alloc, &found) {
        Ok(_program) => Answer::Read,
        Err(ReadTokensStop::Wrong(before)) => Answer::Wrong(before),
        Err(ReadTokensStop::Memory) => Answer::Other,
    }
}

fn is_wrong_behind(alloc: Global, text: &str, wanted: usize) -> bool {
    match read_text(alloc, text) {
        Answer::Wrong(before) => before == wanted,
        _ => false,
    }
}

#[test]
fn refuses_at_the_first_wrong_token(rt: HostRuntime) -> Result<(), Fail> {
    let alloc = rt.alloc();
    let broken = [
        ("type B[]{a(0)", 9),
        ("type {a(0)}", 1),
        ("type B[]{}", 5),
        ("type B[x : Int,]{a(0)}", 7),
        ("type B[]{a(0),}", 10),
        ("type B[]{a(x)}", 7),
        ("type B[]{a}", 6),
        ("type B[x Int]{a(0)}", 4),
        ("type B[]{a(0)} x", 10),
        ("type tree[]{a(0)}", 1),
        ("type B[x : Int : Int]{a(0)}", 6),
        ("lang p { a() }", 2),
        ("lang p : B a() }", 4),
        ("lang p : B { }", 5),
        ("lang p : B { a() a() }", 8),
        ("lang p : B { a() | }", 9),
        ("lang p : B { a(x,) }", 9),
        ("lang p : B { a() where }", 9),
        ("lang p : B { a() where not not b }", 10),
        ("lang p : B { a() given }", 9),
        ("lang p : B { a(x) given (p x) where b }", 14),
        ("lang p : B { a(x) given (p x), (p x) }", 14),
        ("lang p : B { a() to (a []) }", 8),
        ("trans t : B { a() to a }", 4),
        ("trans t : B -> B { a() }", 10),
        ("trans t : B -> B { a() to (a ) }", 13),
        ("trans t : B -> B { a(x) to (t x x) }", 15),
        ("trans t : B -> B { a() to (a [x, , y]) }", 16),
        ("def d : B p", 4),
        ("def d : B := (union p )", 8),
        ("def d : B := (complement p q)", 8),
        ("def d : B := (where p)", 6),
        ("tree s : B := (a )", 7),
        ("tree s : B := (a [] [])", 9),
        ("tree s : B := (a [1 - ])", 10),
        ("tree s : B := (a [1, 2,])", 12),
        ("assert-true ", 1),
        ("assert-true p q", 2),
        ("assert-true p == ", 3),
        ("assert-true p ∈ ", 3),
        ("assert-true (is-empty p q)", 4),
        ("assert-true (p == q", 5),
        ("assert-true ((p == q))", 4),
        ("assert-true (is-empty p) == q", 5),
        ("assert-true (a [] in q)", 5),
        ("assert-false (type-check p q )", 5),
        ("lang p : B { a() where x = = 1 }", 11),
        ("lang p : B { a() where x = 1 = 2 }", 12),
        ("lang p : B { a() where (+ x ) }", 12),
        ("lang p : B { a() where (= x 1 2) }", 13),
        ("lang p : B { a() where (- x y + z) }", 13),
        ("lang p : B { a() where (- x ", 12),
        ("lang p : B { a() where (x y) }", 11),
        ("lang p : B { a() where - - x }", 10),
        ("lang p : B { a() where x + not y }", 11),
        ("lang p : B { a() where * x }", 9),
        ("lang p : B { a() where x and or y }", 11),
    ];
    for (text, before) in broken {
        assert!(rt; is_wrong_behind(alloc, text, before), "{text}");
    }
    Ok(())
}

#[test]
fn reads_programs(rt: HostRuntime) -> Result<(), Fail> {
    let alloc = rt.alloc();
    let programs = [
        "",
        "type B[x : Int y : Int]{a(0) b(1), c(2)}",
        "type B{a(0)}",
        "lang p : B { a() where (- x y z) = (- 5) and - 5 = (- 5 3) | b(x y) given (p x) (p y) }",
        "trans t : B -> B { a(x) where not (x = 1 or y) to (b [x y, -1, x - 1 \"s\"] x (t x)) }",
        "tree s : B := (a [1 -2] (b [not true])) assert-true (a [] (b [])) in p assert-false ((is-empty p))",
        "assert-true ((a []) ∈ p) assert-true (p == q) assert-true (type-check p (domain t) q)",
        "def d : B -> B := (restrict-out (compose t u) p) def e : B := (get-witness p)",
    ];
    for text in programs {
        assert!(rt; matches!(read_text(alloc, text), Answer::Read), "{text}");
    }
    Ok(())
}
