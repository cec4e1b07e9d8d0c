//! The pointer that a value leaves in its row where it moves out, as 18 bytes and back.
ghost use Rattle.std.specs.Prelude.{◌≡◌, ◌≢◌, ◌+◌, ◌≤◌, length, take, drop, Some, IfSome, IfNone};
ghost use Rattle.std.specs.Int.{w32, from_le_bytes};
ghost use Rattle.toast_plan.specs.Pointer.{pointer_form, IsPointer};

use crate::layout::POINTER_BYTES;

/// The most bytes of a value.
pub const VALUE_LIMIT: u32 = 16_777_216;

/// What a row holds of a value that is outside.
#[derive(Clone, Copy, Debug, PartialEq, Eq)]
pub struct Pointer {
    /// The value's length in bytes.
    pub length: u32,
    /// The number under which the value's chunks are kept.
    pub value: u32,
    /// The number of the table that the row belongs to.
    pub table: u32,
}

/// The bytes of a pointer: the tag of an external value, and four numbers in the little-endian order.
pub fn pointer_bytes(p: Pointer) -> [u8; POINTER_BYTES]
    requires { p.length ≤ VALUE_LIMIT }
    ensures { result ≡ pointer_form p }
{
    let raw = (p.length + 4).to_le_bytes();
    let length = p.length.to_le_bytes();
    let value = p.value.to_le_bytes();
    let table = p.table.to_le_bytes();
    [
        1, 18, raw[0], raw[1], raw[2], raw[3], length[0], length[1], length[2], length[3],
        value[0], value[1], value[2], value[3], table[0], table[1], table[2], table[3],
    ]
}

fn number_at(bytes: &[u8], at: usize) -> u32
    requires { at + 4 ≤ length bytes.now }
    ensures { result ≡ from_le_bytes w32 (take 4 (drop at bytes.now)) }
{
    u32::from_le_bytes([bytes[at], bytes[at + 1], bytes[at + 2], bytes[at + 3]])
}

/// The pointer that the bytes are, all of them.
pub fn read_pointer(bytes: &[u8]) -> Option<Pointer>
    ensures form { IfSome result (λ p. bytes.now ≡ pointer_form p) }
    ensures valid { IfSome result (λ p. IsPointer p) }
    ensures none { IfNone result ((p : Pointer) → IsPointer p → bytes.now ≢ pointer_form p) }
    // What was written is read back.
    ensures read_back { (p : Pointer) → IsPointer p → bytes.now ≡ pointer_form p → result ≡ Some p }
{
    if bytes.len() != POINTER_BYTES {
        return None;
    }
    let p = Pointer {
        length: number_at(bytes, 6),
        value: number_at(bytes, 10),
        table: number_at(bytes, 14),
    };
    if p.length > VALUE_LIMIT || bytes != pointer_bytes(p).as_slice() {
        return None;
    }
    Some(p)
}
