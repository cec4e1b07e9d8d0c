// The ranges that the types of a request's arguments keep: contracts see numbers without an end, and a database keeps some of
// these as they are.
ghost use Rattle.std.specs.Prelude.{◌<◌, ◌^◌, All, IfSome, FitsSigned};
ghost use Rattle.std.specs.Int.{w32, w64};
ghost use Rattle.lo_machine.specs.Fitting.{HasAssignRange, HasKeptRanges, HasLiteralRange};
ghost use Rattle.lo_machine.specs.Served.{IsRanged};

use lo_base::{Assign, Literal, Oid, Request};

/// The numbers and the bytes of a request have the ranges of their types. It looks at each value of its line once.
pub(crate) fn has_ranges(request: &Request)
    ensures array { IsRanged request.now }
    ensures kept { HasKeptRanges request.now }
{
    match request {
        Request::Set(_, sub, value) => are_int4(*sub, *value),
        Request::LoCreate(oid) | Request::LoFromBytea(oid, _) => is_oid(*oid),
        Request::Insert(_, literals) => have_ranges(literals.items()),
        Request::Update(_, _, changes) => have_changes(changes.items()),
        _ => {}
    }
}

fn have_ranges(literals: &[Literal])
    ensures { All HasLiteralRange literals.now }
{
    for literal in literals {
        has_range(literal);
    }
}

fn have_changes(changes: &[Assign])
    ensures { All HasAssignRange changes.now }
{
    for change in changes {
        has_range(&change.value);
    }
}

fn has_range(literal: &Literal)
    ensures { HasLiteralRange literal.now }
{
    match literal {
        Literal::Number(n) => is_int8(*n),
        Literal::Bytes(bytes) => are_bytes(bytes.items()),
        _ => {}
    }
}

/// Numbers of this type are from -2147483648 to 2147483647.
fn are_int4(_sub: i32, _value: Option<i32>)
    ensures sub { FitsSigned w32 _sub }
    ensures value { IfSome _value (FitsSigned w32) }
{}

/// Numbers of this type are from -9223372036854775808 to 9223372036854775807.
fn is_int8(_n: i64)
    ensures { FitsSigned w64 _n }
{}

fn is_oid(_oid: Oid)
    ensures { _oid < 2 ^ 32 }
{}

fn are_bytes(_bytes: &[u8])
    ensures { All (λ b. b < 256) _bytes.now }
{}
