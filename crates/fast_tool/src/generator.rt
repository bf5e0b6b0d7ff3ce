//! The program that is made from a number.

ghost use Rattle.std.specs.Prelude.{◌≡◌, ◌≤◌, ◌++◌, IfOk, OnOk};
ghost use Rattle.model_run.specs.Generator.{lines_for, self_text};
ghost use Rattle.fast_tool.specs.Filled.{filled};

use fast_fault::Memory;
use std::alloc::Global;

/// The lines that stand once.
const FIRST: &str =
    "type L[i : Int]{nil(0), cons(1)}\nlang all : L { nil() | cons(y) given (all y) }\n";

/// The lines for a number, with K where it stands and M where the next one does.
const LINES: &str = "lang mK : L { nil() | cons(y) where i % M = 0 given (mK y) }
trans tK : L -> L { nil() to (nil [0]) | cons(y) to (cons [(i + K) % M] (tK y)) }
trans fK : L -> L { nil() to (nil [0]) | cons(y) where i % M = 0 to (cons [i] (fK y)) | cons(y) where i % M != 0 to (fK y) }
def dK : L -> L := (compose tK fK)
assert-true (type-check all fK mK)
assert-true (type-check all dK mK)
assert-false (is-empty dK)
assert-false mK == all
";

/// Appends the template with `own` where a K stands, and `next` where an M does.
fn append_filled(out: &mut Vec<u8>, template: &[u8], own: &[u8], next: &[u8]) -> Result<(), Memory>
    ensures { OnOk result (out.new.items ≡ out.old.items ++ filled own.now next.now template.now) }
{
    'bytes: for byte in template {
        match *byte {
            b'K' => out.extend_from_slice(own)?,
            b'M' => out.extend_from_slice(next)?,
            other => out.push(other)?,
        }
    }
    Ok(())
}

/// Appends the lines for a number.
fn append_lines(alloc: Global, out: &mut Vec<u8>, number: u32) -> Result<(), Memory>
    requires { number ≤ 200 }
    ensures { OnOk result (out.new.items ≡ out.old.items ++ lines_for number) }
{
    let next = number + 1;
    let own = format!(in alloc; "{number}")?;
    let next = format!(in alloc; "{next}")?;
    append_filled(out, LINES.as_bytes(), own.as_bytes(), next.as_bytes())?;
    Ok(())
}

/// The text of the program that is made from the number.
pub fn self_text(alloc: Global, number: u32) -> Result<Vec<u8>, Memory>
    requires { number ≤ 200 }
    ensures { IfOk result (λ text. text.items ≡ self_text number) }
{
    let mut text = Vec::from_slice(alloc, FIRST.as_bytes())?;
    'numbers: for before in 0..number {
        append_lines(alloc, &mut text, before + 1)?;
    }
    Ok(text)
}
