//! What is said on standard error.
ghost use Rattle.std.specs.Prelude.{◌≡◌, IfOk, flat_map};
ghost use Rattle.lo_tool.specs.Texts.{line_about, bad_image_text, bad_line_text, data_line, defect_name, refusal_line, unlinked_line};

use itoa::Buffer;
use lo_base::{Bytes, NoMemory, Oid, Refusal};
use lo_image::{BadImage, Defect};
use lo_opening::ObjectData;
use lo_script::BadLine;
use std::alloc::Global;

/// What is said where the words are no command.
pub const USAGE: &str =
    "usage: lo_tool init|script|threads|vacuumlo|import|export|list|unlink|gen\n";

/// What is said where a file, standard output or standard error failed.
pub const FAULT: &str = "lo_tool: input or output failed\n";

/// The line that says what is wrong with a file.
pub fn line_about(alloc: Global, name: &str, what: &[u8]) -> Result<Bytes, NoMemory>
    ensures { IfOk result (λ line. line ≡ line_about name.now what.now) }
{
    let mut line = Bytes::from_slice(alloc, b"lo_tool: ")?;
    line.extend(name.as_bytes())?;
    line.extend(b": ")?;
    line.extend(what)?;
    line.extend(b"\n")?;
    Ok(line)
}

/// The line that says where a script or a program is outside the grammar.
pub fn bad_grammar_line(alloc: Global, name: &str, bad: BadLine) -> Result<Bytes, NoMemory>
    ensures { IfOk result (λ line.
        line ≡ line_about name.now (bad_line_text bad.line bad.column)) }
{
    let what = bad_line_text(alloc, bad)?;
    line_about(alloc, name, what.items())
}

/// Which line and column of a script are wrong, each from 1.
fn bad_line_text(alloc: Global, bad: BadLine) -> Result<Bytes, NoMemory>
    ensures { IfOk result (λ text. text ≡ bad_line_text bad.line bad.column) }
{
    let mut number = Buffer::new();
    let mut text = Bytes::from_slice(alloc, b"line ")?;
    text.extend(number.format(bad.line).as_bytes())?;
    text.extend(b" column ")?;
    text.extend(number.format(bad.column).as_bytes())?;
    Ok(text)
}

/// Where an image is wrong, counted in bytes from 0, and how.
pub fn bad_image_text(alloc: Global, bad: BadImage) -> Result<Bytes, NoMemory>
    ensures { IfOk result (λ text. text ≡ bad_image_text bad) }
{
    let mut number = Buffer::new();
    let mut text = Bytes::from_slice(alloc, b"bad image at ")?;
    text.extend(number.format(bad.offset).as_bytes())?;
    text.extend(b": ")?;
    text.extend(defect_name(bad.kind))?;
    Ok(text)
}

/// The name of what does not hold of an image's field.
fn defect_name(kind: Defect) -> &'static [u8]
    ensures { result.now ≡ defect_name kind }
{
    match kind {
        Defect::Magic => b"Magic",
        Defect::Short => b"Short",
        Defect::Range => b"Range",
        Defect::Order => b"Order",
        Defect::Mismatch => b"Mismatch",
        Defect::Plan => b"Plan",
        Defect::Array => b"Array",
        Defect::Extra => b"Extra",
    }
}

/// The line that says that a request was refused.
pub fn refusal_line(alloc: Global, refusal: &Refusal) -> Result<Bytes, NoMemory>
    ensures { IfOk result (λ line. line ≡ refusal_line refusal.now) }
{
    let mut line = Bytes::from_slice(alloc, b"lo_tool: ERROR ")?;
    line.extend(refusal.code().as_str().as_bytes())?;
    line.extend(b": ")?;
    refusal.text(&mut line)?;
    line.extend(b"\n")?;
    Ok(line)
}

/// A line for each object: its number and its size.
pub fn objects_text(alloc: Global, objects: &[ObjectData]) -> Result<Bytes, NoMemory>
    ensures { IfOk result (λ text. text ≡ flat_map data_line objects.now) }
{
    let mut text = Bytes::new(alloc);
    let mut number = Buffer::new();
    for object in objects {
        text.extend(number.format(object.oid).as_bytes())?;
        text.extend(b" ")?;
        text.extend(number.format(object.size).as_bytes())?;
        text.extend(b"\n")?;
    }
    Ok(text)
}

/// The line that says that an object was removed.
pub fn unlinked_text(alloc: Global, oid: Oid) -> Result<Bytes, NoMemory>
    ensures { IfOk result (λ text. text ≡ unlinked_line oid) }
{
    let mut number = Buffer::new();
    let mut text = Bytes::from_slice(alloc, b"lo_unlink ")?;
    text.extend(number.format(oid).as_bytes())?;
    text.extend(b"\n")?;
    Ok(text)
}
