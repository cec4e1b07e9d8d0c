//! The text of an array, piece by piece.
ghost use Rattle.std.specs.Prelude.{◌≡◌, ◌++◌, ◌^◌, ◌<◌, OnOk, OnErr};
ghost use Rattle.std.specs.Fmt.{signed_decimal};
ghost use Rattle.lo_base.specs.Appended.{AddsFront};
ghost use Rattle.expanded_array.specs.Text.{bounds_text, explicit_bounds, element_text, next_text};

use itoa::Buffer;
use lo_base::{Bytes, NoMemory};

fn push_number(out: &mut Bytes, number: i64) -> Result<(), NoMemory>
    ensures ok { OnOk result (out.new ≡ out.old ++ signed_decimal number) }
    ensures err { OnErr result (out.new ≡ out.old) }
{
    let mut buffer = Buffer::new();
    out.extend(buffer.format(number).as_bytes())
}

fn push_element(out: &mut Bytes, element: Option<i32>) -> Result<(), NoMemory>
    ensures ok { OnOk result (out.new ≡ out.old ++ element_text element) }
    ensures err { OnErr result (out.new ≡ out.old) }
{
    match element {
        None => out.extend(b"NULL"),
        Some(number) => push_number(out, i64::from(number)),
    }
}

/// Appends an element behind so many others, with a comma before it if there are any.
pub fn push_next(out: &mut Bytes, index: usize, element: Option<i32>) -> Result<(), NoMemory>
    ensures ok { OnOk result (out.new ≡ out.old ++ next_text index element) }
    ensures err { OnErr result (AddsFront out.old out.new (next_text index element)) }
{
    if index > 0 {
        let Ok(()) = out.extend(b",") else {
            return Err(NoMemory);
        };
    }
    push_element(out, element)
}

/// Appends the bounds, unless the lower one is 1.
pub fn push_bounds(out: &mut Bytes, lower: i32, count: usize) -> Result<(), NoMemory>
    requires { count < 2 ^ 32 }
    ensures ok { OnOk result (out.new ≡ out.old ++ bounds_text lower count) }
    ensures err { OnErr result (AddsFront out.old out.new (bounds_text lower count)) }
{
    if lower == 1 {
        return Ok(());
    }
    push_explicit_bounds(out, lower, count)
}

/// Appends the bounds.
pub fn push_explicit_bounds(out: &mut Bytes, lower: i32, count: usize) -> Result<(), NoMemory>
    requires { count < 2 ^ 32 }
    ensures ok { OnOk result (out.new ≡ out.old ++ explicit_bounds lower count) }
    ensures err { OnErr result (AddsFront out.old out.new (explicit_bounds lower count)) }
{
    let lower = i64::from(lower);
    let Ok(()) = out.extend(b"[") else {
        return Err(NoMemory);
    };
    let Ok(()) = push_number(out, lower) else {
        return Err(NoMemory);
    };
    let Ok(()) = out.extend(b":") else {
        return Err(NoMemory);
    };
    let Ok(()) = push_number(out, lower + count as i64 - 1) else {
        return Err(NoMemory);
    };
    out.extend(b"]=")
}
