//! Tokens: their kinds, texts and places, where a text stops, and what numbers and quoted texts stand for.

use fast_lex::{Kind, Lexed, Word, number_value, quoted_value, tokens};
use label_reader::{Reader, Stop, read_string};
use std::alloc::Global;
use std::test::Fail;

// The tokens, each with its kind, text, start and place; or the place at which the text stops.
fn shown(alloc: Global, text: &str) -> Result<String, Fail> {
    if text.len() > 1_048_576 {
        return Ok(String::from_str(alloc, "too long")?);
    }
    let mut line = String::new(alloc);
    match tokens(alloc, text) {
        Lexed::Tokens(found) => {
            for t in &found {
                let (kind, text, start) = (t.kind(), t.text, t.start);
                let (row, column) = (t.place.line, t.place.column);
                let one = format!(in alloc; "{kind:?} {text} {start} {row}:{column}; ")?;
                line.push_str(one.as_str())?;
            }
        }
        Lexed::NoToken(place) => {
            let (row, column) = (place.line, place.column);
            let one = format!(in alloc; "stops {row}:{column}")?;
            line.push_str(one.as_str())?;
        }
        Lexed::Memory => line.push_str("memory")?,
    }
    Ok(line)
}

const TABLE: [(&str, &str); 24] = [
    ("type B[]{a(0)} #", "stops 1:16"),
    ("", ""),
    ("\u{feff}type", "Keyword type 3 1:2; "),
    (" \u{feff}type", "stops 1:2"),
    ("a\r\nb", "Id a 0 1:1; Id b 3 2:1; "),
    ("a //b\n//c", "Id a 0 1:1; "),
    ("/", "stops 1:1"),
    ("é", "stops 1:1"),
    ("\"é\" x", "Quoted \"é\" 0 1:1; Id x 5 1:5; "),
    ("\"\\u{10FFFF}\"", "Quoted \"\\u{10FFFF}\" 0 1:1; "),
    ("a \"\\u{D800}\"", "stops 1:3"),
    ("\"\\u{0000041}\"", "stops 1:1"),
    ("\"\\n\\t\\\"\\\\\"", "Quoted \"\\n\\t\\\"\\\\\" 0 1:1; "),
    ("\"\\x\"", "stops 1:1"),
    ("\"a\n\"", "stops 1:1"),
    ("\"a", "stops 1:1"),
    (
        "12345678901234567890123456789012345678",
        "Number 12345678901234567890123456789012345678 0 1:1; ",
    ),
    ("123456789012345678901234567890123456789", "stops 1:1"),
    ("is-emptyx", "Id is 0 1:1; Sign - 2 1:3; Id emptyx 3 1:4; "),
    (
        "pre-images pre-image",
        "Id pre 0 1:1; Sign - 3 1:4; Id images 4 1:5; Keyword pre-image 11 1:12; ",
    ),
    (
        "<== :=:",
        "Sign <= 0 1:1; Sign = 2 1:3; Sign := 4 1:5; Sign : 6 1:7; ",
    ),
    (
        "->-> ∈x",
        "Sign -> 0 1:1; Sign -> 2 1:3; Sign ∈ 5 1:6; Id x 8 1:7; ",
    ),
    (
        "types _a.b 1a",
        "Id types 0 1:1; Id _a.b 6 1:7; Number 1 11 1:12; Id a 12 1:13; ",
    ),
    ("! =", "stops 1:1"),
];

#[test]
fn cuts_texts(rt: HostRuntime) -> Result<(), Fail> {
    for (text, wanted) in TABLE {
        let line = shown(rt.alloc(), text)?;
        assert!(rt; line.as_str() == wanted, "{text}: {line}");
    }
    Ok(())
}

#[test]
fn tells_words_apart(rt: HostRuntime) -> Result<(), Fail> {
    let Lexed::Tokens(found) = tokens(rt.alloc(), "in ∈ inn is-empty") else {
        panic!(rt; "no tokens");
    };
    let wanted = [Word::In, Word::Element, Word::Id, Word::IsEmpty];
    assert!(rt; found.len() == wanted.len());
    for (t, word) in found.iter().zip(&wanted) {
        assert!(rt; t.word == *word);
    }
    assert!(rt; matches!(found.first(), Some(t) if t.kind() == Kind::Keyword));
    Ok(())
}

#[test]
fn reads_values(rt: HostRuntime) -> Result<(), Fail> {
    assert!(rt; number_value("0") == 0);
    assert!(rt; number_value("00907") == 907);
    let value = quoted_value(rt.alloc(), "\"a\\n\\u{2208}\"");
    match value {
        Ok(value) => assert!(rt; value.as_str() == "a\n∈"),
        Err(_memory) => panic!(rt; "no memory"),
    }
    Ok(())
}

#[test]
fn reads_quoted_texts(rt: HostRuntime) -> Result<(), Fail> {
    let Lexed::Tokens(found) = tokens(rt.alloc(), "\"\\n\" b") else {
        panic!(rt; "no tokens");
    };
    let mut reader = Reader::new(rt.alloc(), &found);
    let text = match read_string(&mut reader) {
        Ok(text) => text,
        Err(_) => panic!(rt; "no text"),
    };
    assert!(rt; text.as_str() == "\n");
    assert!(rt; reader.count_left() == 1);
    let refused = read_string(&mut reader);
    assert!(rt; matches!(refused, Err(Stop::Wrong)));
    assert!(rt; reader.count_left() == 1);
    Ok(())
}
