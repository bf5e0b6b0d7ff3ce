use fast_fault::{Code, Pos, Refusal};
use fast_lex::{Lexed, Token, tokens};
use std::alloc::Global;
use std::test::Fail;
use text_reader::{ReadStop, read, read_trees};

/// What reading a text answers, without what was read.
#[derive(Clone, Copy)]
enum Answer {
    Read,
    Refused(Refusal),
    Memory,
}

fn program_answer(alloc: Global, bytes: &[u8]) -> Answer {
    match read(alloc, bytes) {
        Ok(_program) => Answer::Read,
        Err(ReadStop::Refused(refusal)) => Answer::Refused(refusal),
        Err(ReadStop::Memory) => Answer::Memory,
    }
}

fn trees_answer(alloc: Global, bytes: &[u8]) -> Answer {
    match read_trees(alloc, bytes) {
        Ok(_trees) => Answer::Read,
        Err(ReadStop::Refused(refusal)) => Answer::Refused(refusal),
        Err(ReadStop::Memory) => Answer::Memory,
    }
}

fn is_refused(answer: Answer, code: Code, line: u32, column: u32) -> bool {
    match answer {
        Answer::Refused(refusal) => refusal
            == Refusal {
                code,
                place: Pos { line, column },
            },
        _ => false,
    }
}

fn is_read(answer: Answer) -> bool {
    matches!(answer, Answer::Read)
}

/// Texts that are no programs, each with the place of its first wrong token, or of its end.
const BROKEN_PROGRAMS: [(&str, u32, u32); 59] = [
    ("type B[]{a(0)", 1, 14),
    ("B[]{a(0)}", 1, 1),
    ("type B[]{a(0)} }", 1, 16),
    ("type where[]{a(0)}", 1, 6),
    ("type B[]]{a(0)}", 1, 9),
    ("type B[x : \"Int\"]{a(0)}", 1, 12),
    ("type B[, x : Int]{a(0)}", 1, 8),
    ("type B[x : Int, , y : Int]{a(0)}", 1, 17),
    ("type B{a(-1)}", 1, 10),
    ("type B{a(0 1)}", 1, 12),
    ("type B{a(0) | b(0)}", 1, 13),
    ("type C[] a(0)}", 1, 10),
    ("lang lang : B { a() }", 1, 6),
    ("lang p B { a() }", 1, 8),
    ("lang p : { a() }", 1, 10),
    ("lang p : B { | a() }", 1, 14),
    ("lang p : B { a }", 1, 16),
    ("lang p : B { a(x | y) }", 1, 18),
    ("lang p : B { a() where b b }", 1, 26),
    ("lang p : B { a() where b given p }", 1, 32),
    ("lang p : B { a(x) given (p ) }", 1, 28),
    ("lang p : B { a(x) given (p x x) }", 1, 30),
    ("lang p : B { a() given | b() }", 1, 24),
    ("trans t : B := u", 1, 13),
    ("trans t : B -> B := u", 1, 18),
    ("trans t : B -> B { a() to }", 1, 27),
    ("trans t : B -> B { a() to a b }", 1, 29),
    ("trans t : B -> B { a() to ([] a) }", 1, 28),
    ("trans t : B -> B { a() to (a [x] [y]) }", 1, 34),
    ("trans t : B -> B { a(x) to (a [] x to x) }", 1, 36),
    ("def d : B -> := p", 1, 14),
    ("def d : B := ", 1, 14),
    ("def d : B := ()", 1, 15),
    ("def d : B := (union )", 1, 21),
    ("def d : B := (union p q r)", 1, 25),
    ("def d : B := (p q)", 1, 17),
    ("def d : B := (a [] p , q)", 1, 22),
    ("def d : B := p q", 1, 16),
    ("tree s : B (a [])", 1, 12),
    ("tree s : B := (a [x = ])", 1, 23),
    ("tree s : B := (a [, 1])", 1, 19),
    ("tree s : B := (a [1 2 : 3])", 1, 23),
    ("assert-true in p", 1, 13),
    ("assert-true p = q", 1, 15),
    ("assert-true p in ", 1, 18),
    ("assert-true (p is-empty)", 1, 16),
    ("assert-true (type-check p t )", 1, 29),
    ("assert-false (is-empty )", 1, 24),
    ("assert-true p == q == r", 1, 20),
    ("lang p : B { a() where ) }", 1, 24),
    ("lang p : B { a() where (b }", 1, 27),
    ("lang p : B { a() where 1 + = 2 }", 1, 28),
    ("lang p : B { a() where not }", 1, 28),
    ("lang p : B { a() where - - 1 = x }", 1, 26),
    ("lang p : B { a() where x %", 1, 27),
    ("lang p : B { a() where (or x ) }", 1, 30),
    ("lang p : B { a() where (% 5 3 2) = x }", 1, 31),
    ("lang p : B { a() where x < y < z }", 1, 30),
    ("lang p : B {\n  a()\n  where x\n  to y }", 4, 3),
];

#[test]
fn refuses_programs_at_the_first_wrong_token(rt: HostRuntime) -> Result<(), Fail> {
    let alloc = rt.alloc();
    for (text, line, column) in BROKEN_PROGRAMS {
        let answer = program_answer(alloc, text.as_bytes());
        assert!(rt; is_refused(answer, Code::Syntax, line, column), "{text}");
    }
    Ok(())
}

/// Texts that are no tree files, each with the place of its first wrong token, or of its end.
const BROKEN_TREES: [(&str, u32, u32); 18] = [
    ("a []", 1, 1),
    ("()", 1, 2),
    ("(a )", 1, 4),
    ("(a [x])", 1, 5),
    ("(a [1 + 2])", 1, 7),
    ("(a [1, ])", 1, 8),
    ("(a [- - 1])", 1, 7),
    ("(a [- \"s\"])", 1, 7),
    ("(a [1 -2])", 1, 7),
    ("(a [true false not])", 1, 16),
    ("(a [] b)", 1, 7),
    ("(a [] (b [])", 1, 13),
    ("(a []) )", 1, 8),
    ("(a [(1)])", 1, 5),
    ("tree s : B := (a [])", 1, 1),
    ("(where [])", 1, 2),
    ("(a []) (b [,])", 1, 12),
    ("(a [1]\n  (b [] ]))", 2, 9),
];

#[test]
fn refuses_trees_at_the_first_wrong_token(rt: HostRuntime) -> Result<(), Fail> {
    let alloc = rt.alloc();
    for (text, line, column) in BROKEN_TREES {
        let answer = trees_answer(alloc, text.as_bytes());
        assert!(rt; is_refused(answer, Code::Syntax, line, column), "{text}");
    }
    for text in [
        "",
        "(a [])",
        "\u{feff}// none",
        "(a [1, -2 \"s\" true,-3] (b []) (c [false]))(d [])",
    ] {
        assert!(rt; is_read(trees_answer(alloc, text.as_bytes())), "{text}");
    }
    Ok(())
}

/// A text with as many parts on each side of its middle.
fn nest(
    alloc: Global,
    head: &str,
    open: &str,
    middle: &str,
    close: &str,
    count: u32,
) -> Result<String, Fail> {
    let mut text = String::new(alloc);
    text.push_str(head)?;
    for _ in 0..count {
        text.push_str(open)?;
    }
    text.push_str(middle)?;
    for _ in 0..count {
        text.push_str(close)?;
    }
    Ok(text)
}

#[test]
fn reads_labels_up_to_the_limit_of_nesting(rt: HostRuntime) -> Result<(), Fail> {
    let alloc = rt.alloc();
    let guard = "lang p : B { a() where ";
    let deep = nest(alloc, guard, "(", "x", ")", 64)?;
    let text = nest(alloc, deep.as_str(), " ", "}", " ", 1)?;
    assert!(rt; is_read(program_answer(alloc, text.as_bytes())));
    let text = nest(alloc, guard, "(", "x", ")", 65)?;
    assert!(rt; is_refused(program_answer(alloc, text.as_bytes()), Code::Nested, 1, 88));
    let text = nest(alloc, "tree s : B := (a [", "(", "1", ")", 65)?;
    assert!(rt; is_refused(program_answer(alloc, text.as_bytes()), Code::Nested, 1, 83));
    Ok(())
}

#[test]
fn reads_programs_up_to_the_limit_of_nesting(rt: HostRuntime) -> Result<(), Fail> {
    let alloc = rt.alloc();
    let text = nest(alloc, "def d : B := ", "(complement ", "p", ")", 2000)?;
    assert!(rt; is_read(program_answer(alloc, text.as_bytes())));
    let label = nest(alloc, "(a [", "(", "1", ")", 64)?;
    let leaf = nest(alloc, label.as_str(), "])", "", "", 1)?;
    let text = nest(alloc, "tree s : B := ", "(a [] ", leaf.as_str(), ")", 1999)?;
    assert!(rt; is_read(program_answer(alloc, text.as_bytes())));
    let text = nest(alloc, "def d : B := ", "\n(complement ", "p", ")", 2001)?;
    assert!(rt;
        is_refused(
            program_answer(alloc, text.as_bytes()),
            Code::Nested,
            2002,
            1
        )
    );
    Ok(())
}

#[test]
fn reads_trees_up_to_the_limit_of_nesting(rt: HostRuntime) -> Result<(), Fail> {
    let alloc = rt.alloc();
    let text = nest(alloc, "", "(a [] ", "", ")", 2000)?;
    assert!(rt; is_read(trees_answer(alloc, text.as_bytes())));
    let text = nest(alloc, "", "(", "", "", 2001)?;
    assert!(rt; is_refused(trees_answer(alloc, text.as_bytes()), Code::Nested, 1, 2001));
    Ok(())
}

#[test]
fn tells_the_first_refusal_that_holds(rt: HostRuntime) -> Result<(), Fail> {
    let alloc = rt.alloc();
    let mut long = Vec::new(alloc);
    for _ in 0..1_048_576u32 {
        long.push(b' ')?;
    }
    assert!(rt; is_read(program_answer(alloc, &long)));
    long.push(0xff)?;
    assert!(rt; is_refused(program_answer(alloc, &long), Code::TooLong, 1, 1));
    assert!(rt; is_refused(trees_answer(alloc, &long), Code::TooLong, 1, 1));
    let texts: [(&[u8], Code, u32, u32); 5] = [
        (b"} #\n\xff", Code::NotUtf8, 2, 1),
        (b"\xe2\x82", Code::NotUtf8, 1, 1),
        (b"} #", Code::Token, 1, 3),
        (b"type \"B", Code::Token, 1, 6),
        (b"\xef\xbb\xbf}", Code::Syntax, 1, 2),
    ];
    for (bytes, code, line, column) in texts {
        assert!(rt; is_refused(program_answer(alloc, bytes), code, line, column));
        assert!(rt; is_refused(trees_answer(alloc, bytes), code, line, column));
    }
    let text = nest(alloc, "} ", "(", "", "", 2001)?;
    assert!(rt;
        is_refused(
            program_answer(alloc, text.as_bytes()),
            Code::Nested,
            1,
            2003
        )
    );
    let text = nest(alloc, "", "(", "#", "", 2001)?;
    assert!(rt; is_refused(program_answer(alloc, text.as_bytes()), Code::Token, 1, 2002));
    Ok(())
}

/// Whether the text before each of its tokens is a program, or goes wrong at its end.
fn fronts_go_on(alloc: Global, text: &str, found: &[Token]) -> bool {
    for token in found {
        let Some(front) = text.as_bytes().get(..token.start as usize) else {
            return false;
        };
        match program_answer(alloc, front) {
            Answer::Read => {}
            Answer::Refused(refusal) => {
                if refusal
                    != (Refusal {
                        code: Code::Syntax,
                        place: token.place,
                    })
                {
                    return false;
                }
            }
            Answer::Memory => return false,
        }
    }
    true
}

const PAGES: &str =
    "type HtmlE[tag : String]{nil(0), val(1), attr(2), node(3)}\nlang nodeTree : HtmlE { node(x1, x2, x3) given (attrTree x1) (nodeTree x2) (nodeTree x3) | nil() where (tag = \"\") }\nlang attrTree : HtmlE { attr(x1, x2) given (valTree x1) (attrTree x2) | nil() where (tag = \"\") }\nlang valTree : HtmlE { val(x1) where (tag != \"\") given (valTree x1) | nil() where (tag = \"\") }\ntrans remScript : HtmlE -> HtmlE { node(x1, x2, x3) where (tag != \"script\") to (node [tag] x1 (remScript x2) (remScript x3)) | node(x1, x2, x3) where (tag = \"script\") to x3 | nil() to (nil [tag]) }\ntrans esc : HtmlE -> HtmlE { node(x1, x2, x3) to (node [tag] (esc x1) (esc x2) (esc x3)) | attr(x1, x2) to (attr [tag] (esc x1) (esc x2)) | val(x1) where (tag = \"'\" or tag = \"\\\"\") to (val [\"\\\\\"] (val [tag] (esc x1))) | val(x1) where (tag != \"'\" and tag != \"\\\"\") to (val [tag] (esc x1)) | nil() to (nil [tag]) }\nlang badOutput : HtmlE { node(x1, x2, x3) where (tag = \"script\") | node(x1, x2, x3) given (badOutput x2) | node(x1, x2, x3) given (badOutput x3) }\ndef rem_esc : HtmlE -> HtmlE := (compose remScript esc)\ndef sani : HtmlE -> HtmlE := (restrict rem_esc nodeTree)\ndef bad_inputs : HtmlE := (pre-image sani badOutput)\nassert-true (is-empty bad_inputs)";

const LISTS: &str =
    "type IList[i : Int]{nil(0), cons(1)}\ntrans map_caesar : IList -> IList { nil() to (nil [0]) | cons(y) to (cons [(i + 5) % 26] (map_caesar y)) }\ntrans filter_ev : IList -> IList { nil() to (nil [0]) | cons(y) where (i % 2 = 0) to (cons [i] (filter_ev y)) | cons(y) where not (i % 2 = 0) to (filter_ev y) }\nlang not_emp_list : IList { cons(x) }\ndef comp : IList -> IList := (compose map_caesar filter_ev)\ndef comp2 : IList -> IList := (compose comp comp)\ndef restr : IList -> IList := (restrict-out comp2 not_emp_list)\nassert-true (is-empty restr)";

#[test]
fn fronts_of_programs_go_on(rt: HostRuntime) -> Result<(), Fail> {
    let alloc = rt.alloc();
    for text in [PAGES, LISTS] {
        assert!(rt; is_read(program_answer(alloc, text.as_bytes())));
        match tokens(alloc, text) {
            Lexed::Tokens(found) => assert!(rt; fronts_go_on(alloc, text, &found)),
            _ => assert!(rt; false),
        }
    }
    Ok(())
}
