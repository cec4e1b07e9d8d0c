//! An array's text, read.
ghost use Rattle.std.specs.Prelude.{◌≡◌, ◌↔◌, ◌≤ℤ◌, IsTrue, ◌^◌, ◌<◌, ◌≤◌, ◌∷◌, ℕ, Some, ◌++◌, ℤ, Option, List, length, codes, if◌then◌else◌, IfOk, IfErr, IfSome, IfNone, MatchOption, FitsSigned};
ghost use Rattle.std.specs.Int.{w32};
ghost use Rattle.std.specs.List.{list_all, slice_split};
ghost use Rattle.std.specs.Option.{option_copied};
ghost use Rattle.expanded_array.specs.Answer.{too_big};
ghost use Rattle.expanded_array.specs.Array.{IsHeld, last_limit, last_of, limit};
ghost use Rattle.expanded_array.specs.Kept.{expanded_array};
ghost use Rattle.expanded_array.specs.Read.{is_element};
ghost use Rattle.expanded_array.specs.Spelling.{HasBody, HasNoBrace, HasNoColon, IsBoundedDenial, IsTextDenial, Spells, SpellsBounded, SpellsBounds, SpellsElement, SpellsElements, SpellsNone, SplitsAtBrace, is_comma, malformed, parts_behind};
ghost use Rattle.expanded_array.specs.Text.{explicit_bounds};

use crate::elements::Elements;
use crate::expanded::Expanded;
use crate::layout::{LAST_LIMIT, LIMIT};
use crate::text::push_explicit_bounds;
use lo_base::{Bytes, Cause, Denied, NoMemory, Refusal};
use std::alloc::{AllocError, Global};
use std::str;

/// The element that a text spells.
fn read_element(bytes: &[u8]) -> Option<Option<i32>>
    ensures found { IfSome result (λ e. SpellsElement bytes.now e) }
    ensures none { IfNone result ((e : Option ℤ) → SpellsElement bytes.now e → ⊥) }
{
    if bytes.eq_ignore_ascii_case(b"null") {
        return Some(None);
    }
    match str::from_utf8(bytes) {
        Ok(text) => match text.parse::<i32>() {
            Ok(number) => Some(Some(number)),
            Err(_) => None,
        },
        Err(_) => None,
    }
}

/// The bytes before the first comma, and those behind it if there is one.
fn split_comma(bytes: &[u8]) -> (&[u8], Option<&[u8]>)
    ensures parts { slice_split is_comma bytes.now ≡ result.0.now ∷ parts_behind (option_copied result.1) }
    ensures shorter { IfSome result.1 (λ behind. length behind.now < length bytes.now) }
{
    for (index, byte) in bytes.iter().enumerate() {
        if *byte == b',' {
            return (&bytes[..index], Some(&bytes[index + 1..]));
        }
    }
    (bytes, None)
}

/// The elements that a text spells, joined by commas, in a list with room for so many.
fn read_elements(
    alloc: Global,
    body: &[u8],
    count: usize,
) -> Result<Option<Vec<Option<i32>>>, AllocError>
    ensures { IfOk result (λ o. MatchOption o
        ((es : List (Option ℤ)) → SpellsElements body.now es → ⊥) (λ v. SpellsElements body.now v.items)) }
{
    let mut elements = Vec::with_capacity(alloc, count)?;
    let mut rest = body;
    loop {
        let (piece, behind) = split_comma(rest);
        let Some(element) = read_element(piece) else {
            return Ok(None);
        };
        elements.push(element)?;
        let Some(more) = behind else {
            return Ok(Some(elements));
        };
        rest = more;
    }
}

/// The bytes before the first `{`, and those behind it.
fn split_brace(text: &[u8]) -> Option<(&[u8], &[u8])>
    ensures found { IfSome result (λ p. SplitsAtBrace text.now p.0.now p.1.now) }
    ensures none { IfNone result (HasNoBrace text.now) }
{
    for (index, byte) in text.iter().enumerate() {
        if *byte == b'{' {
            return Some((&text[..index], &text[index + 1..]));
        }
    }
    None
}

/// The bytes before a `}` at the end.
fn strip_brace(text: &[u8]) -> Option<&[u8]>
    ensures found { IfSome result (λ body. text.now ≡ body.now ++ codes "}") }
    ensures none { IfNone result ((body : List ℕ) → text.now ≡ body ++ codes "}" → ⊥) }
{
    match text {
        [body @ .., b'}'] => Some(body),
        _ => None,
    }
}

/// The lower bound that stands before the first colon, if it is a number.
fn read_lower(bounds: &[u8]) -> Option<i32>
    ensures { (lower : ℤ) (count : ℕ) → FitsSigned w32 lower →
        bounds.now ≡ explicit_bounds lower count → result ≡ Some lower }
{
    let [_, rest @ ..] = bounds else {
        return None;
    };
    match str::from_utf8(before_colon(rest)) {
        Ok(text) => match text.parse::<i32>() {
            Ok(number) => Some(number),
            Err(_) => None,
        },
        Err(_) => None,
    }
}

/// The lower bound of so many elements.
fn lower_of(alloc: Global, bounds: &[u8], count: usize) -> Result<Option<i32>, NoMemory>
    requires { count < 2 ^ 32 }
    ensures { IfOk result (λ o. MatchOption o
        ((lower : ℤ) → FitsSigned w32 lower → SpellsBounds bounds.now lower count → ⊥)
        (λ lower. SpellsBounds bounds.now lower count)) }
{
    if bounds.is_empty() {
        return Ok(Some(1));
    }
    let Some(lower) = read_lower(bounds) else {
        return Ok(None);
    };
    let mut expected = Bytes::new(alloc);
    push_explicit_bounds(&mut expected, lower, count)?;
    if expected.items() == bounds {
        Ok(Some(lower))
    } else {
        Ok(None)
    }
}

/// The bytes before the first colon.
fn before_colon(bytes: &[u8]) -> &[u8]
    ensures { (front behind : List ℕ) → HasNoColon front →
        bytes.now ≡ front ++ (codes ":" ++ behind) → result.now ≡ front }
{
    for (index, byte) in bytes.iter().enumerate() {
        if *byte == b':' {
            return &bytes[..index];
        }
    }
    bytes
}

/// Whether the last of so many elements may stand at its subscript.
fn has_allowed_last(lower: i32, count: usize) -> bool
    requires { count < 2 ^ 32 }
    ensures { IsTrue result ↔ (last_of lower count ≤ℤ last_limit) }
{
    i64::from(lower) + count as i64 - 1 <= LAST_LIMIT
}

/// How many elements there are with commas between them.
fn count_elements(body: &[u8]) -> usize
    ensures { result ≡ length (slice_split is_comma body.now) }
{
    body.split(|byte| *byte == b',').count()
}

fn is_element(piece: &[u8]) -> bool
    ensures { result ≡ is_element piece.now }
{
    read_element(piece).is_some()
}

/// Whether a text spells elements, joined by commas.
fn are_elements(body: &[u8]) -> bool
    ensures { result ≡ list_all is_element (slice_split is_comma body.now) }
{
    body.split(|byte| *byte == b',')
        .all(|piece| is_element(piece))
}

/// The lower bound, the number of elements and the bytes between the braces, where the bounds are those of so many elements.
fn read_bounds(alloc: Global, text: &[u8]) -> Result<Option<(i32, usize, &[u8])>, NoMemory>
    ensures { IfOk result (λ o. MatchOption o (SpellsNone text.now) (λ p. HasBody text.now p.0 p.1 p.2.now)) }
{
    let Some((bounds, behind)) = split_brace(text) else {
        return Ok(None);
    };
    let Some(body) = strip_brace(behind) else {
        return Ok(None);
    };
    let count = count_elements(body);
    if count >= 0x1_0000_0000 {
        return Ok(None);
    }
    let Some(lower) = lower_of(alloc, bounds, count)? else {
        return Ok(None);
    };
    if !has_allowed_last(lower, count) {
        return Ok(None);
    }
    Ok(Some((lower, count, body)))
}

/// The refusal of a text that spells no array.
fn malformed() -> Denied
    ensures { result ≡ Denied.By malformed }
{
    Denied::By(Refusal {
        cause: Cause::BadArray,
        subject: 0,
    })
}

/// The refusal of an array of so many elements.
fn too_big(count: usize) -> Denied
    requires { count < 2 ^ 32 }
    ensures { result ≡ Denied.By (too_big count) }
{
    Denied::By(Refusal {
        cause: Cause::ArrayTooBig,
        subject: count as i64,
    })
}

/// The array with elements that a text spells. Too many elements are counted and looked at, and not kept.
fn read_bounded(alloc: Global, text: &[u8]) -> Result<Expanded, Denied>
    ensures read { IfOk result (λ e. SpellsBounded text.now e.lower e.elements) }
    ensures few { IfOk result (λ e. length e.elements ≤ limit) }
    ensures denied { IfErr result (IsBoundedDenial text.now) }
{
    let Ok(found) = read_bounds(alloc, text) else {
        return Err(Denied::NoMemory);
    };
    let Some((lower, count, body)) = found else {
        return Err(malformed());
    };
    if count > LIMIT {
        return Err(refusal_of(body, count));
    }
    let Ok(read) = read_elements(alloc, body, count) else {
        return Err(Denied::NoMemory);
    };
    let Some(elements) = read else {
        return Err(malformed());
    };
    let elements = Elements::from_vec(elements);
    Ok(Expanded { lower, elements })
}

/// The refusal of a text with so many elements between its braces.
fn refusal_of(body: &[u8], count: usize) -> Denied
    requires { count < 2 ^ 32 }
    ensures { result ≡ Denied.By
        (if list_all is_element (slice_split is_comma body.now) then too_big count else malformed) }
{
    if are_elements(body) {
        too_big(count)
    } else {
        malformed()
    }
}

/// The array that a text spells.
pub fn read_text(alloc: Global, text: &[u8]) -> Result<Expanded, Denied>
    ensures spelled { IfOk result (λ e. Spells text.now (expanded_array e)) }
    ensures held { IfOk result (λ e. IsHeld (expanded_array e)) }
    ensures denied { IfErr result (IsTextDenial text.now) }
{
    if text == b"{}".as_slice() {
        let elements = Elements::from_vec(Vec::new(alloc));
        return Ok(Expanded { lower: 1, elements });
    }
    read_bounded(alloc, text)
}
