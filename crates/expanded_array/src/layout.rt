//! Flat bytes: their fields by position, and the test that tells them.
ghost use Rattle.std.specs.Prelude.{◌≡◌, ◌≢◌, false, slice_index_or, ◌↔◌, ◌⊎◌, ◌+◌, ◌*◌, ◌%◌, ◌^◌, ◌<◌, ◌≤◌, ◌==◌, length, take, count_ones, nat_lt, IsTrue};
ghost use Rattle.std.specs.List.{list_all};
ghost use Rattle.expanded_array.specs.Flat.{IsFlat, number_of_flags, bitmap_len, data_offset};
ghost use Rattle.expanded_array.specs.Layout.{word_at, int4_at, number_of_bytes, are_bounds, is_empty_layout, has_header, is_plain_layout, has_sparse_body, is_sparse_layout, is_flat_layout, sparse_start, start_in, flags_in, header_len};

/// The most elements that an array may have.
pub const LIMIT: usize = 1_048_576;

/// The greatest last subscript that an array may have.
pub const LAST_LIMIT: i64 = 2_147_483_646;

/// The length of the header of an array with elements, in bytes.
pub const HEADER_LEN: usize = 20;

/// The object number of the type int4.
pub const INT4_TYPE: u32 = 23;

/// The number in the four bytes at a place.
pub fn word_at(bytes: &[u8], place: usize) -> u32
    requires { place + 4 ≤ length bytes.now }
    ensures { result ≡ word_at bytes.now place }
{
    u32::from_le_bytes([
        bytes[place],
        bytes[place + 1],
        bytes[place + 2],
        bytes[place + 3],
    ])
}

/// The int4 in the four bytes at a place.
pub fn int4_at(bytes: &[u8], place: usize) -> i32
    requires { place + 4 ≤ length bytes.now }
    ensures { result ≡ int4_at bytes.now place }
{
    word_at(bytes, place).cast_signed()
}

/// The bytes of a bitmap of so many elements.
pub fn bitmap_len(count: usize) -> usize
    requires { count < 2 ^ 32 }
    ensures { result ≡ bitmap_len count }
{
    (count + 7) / 8
}

/// The place of the first element behind a bitmap of so many elements.
pub fn sparse_start(count: usize) -> usize
    requires { count < 2 ^ 32 }
    ensures result { result ≡ sparse_start count }
    ensures offset { result + 4 ≡ data_offset count }
    ensures behind { header_len + bitmap_len count ≤ result }
{
    (24 + bitmap_len(count) + 7) / 8 * 8 - 4
}

/// Whether an array may have this lower bound and this number of elements.
pub fn are_bounds(lower: i32, count: usize) -> bool
    requires { count < 2 ^ 32 }
    ensures { result ≡ are_bounds lower count }
{
    0 < count && count <= LIMIT && i64::from(lower) + count as i64 - 1 <= LAST_LIMIT
}

/// How many bits are set.
pub fn set_bits(bytes: &[u8]) -> usize
    requires { length bytes.now < 2 ^ 32 }
    ensures set { result ≡ count_ones (number_of_bytes bytes.now) }
    ensures few { result ≤ 8 * length bytes.now }
{
    let mut ones = 0;
    for byte in bytes {
        ones += byte.count_ones() as usize;
    }
    ones
}

/// How many of the lowest bits of a byte are set.
pub fn low_set_bits(byte: u8, bits: u32) -> usize
    requires { bits < 8 }
    ensures set { result ≡ count_ones (byte % 2 ^ bits) }
    ensures few { result ≤ 32 }
{
    (u32::from(byte) % (1u32 << bits)).count_ones() as usize
}

/// The place of the first element's bytes, by the data offset.
pub fn start_in(bytes: &[u8]) -> usize
    requires long { header_len ≤ length bytes.now }
    requires offset { word_at bytes.now 4 ≡ 0 ⊎ 4 ≤ word_at bytes.now 4 }
    ensures { result ≡ start_in bytes.now }
{
    let offset = word_at(bytes, 4) as usize;
    if offset == 0 { HEADER_LEN } else { offset - 4 }
}

/// Whether the element at an index is not null, in bytes whose elements begin at a place.
pub fn is_present(bytes: &[u8], count: usize, start: usize, index: usize) -> bool
    requires within { index < count }
    requires few { count < 2 ^ 32 }
    requires bits { start ≢ header_len → header_len + bitmap_len count ≤ length bytes.now }
    ensures { result ≡ slice_index_or (flags_in bytes.now count start) index false }
{
    if start == HEADER_LEN {
        return true;
    }
    (bytes[HEADER_LEN + index / 8] >> (index % 8) as u32) & 1 == 1
}

/// How many elements before an index are not null.
pub fn rank(bytes: &[u8], count: usize, start: usize, index: usize) -> usize
    requires within { index < count }
    requires few { count < 2 ^ 32 }
    requires bits { start ≢ header_len → header_len + bitmap_len count ≤ length bytes.now }
    ensures { result ≡ count_ones (number_of_flags (take index (flags_in bytes.now count start))) }
{
    if start == HEADER_LEN {
        return index;
    }
    let whole = HEADER_LEN + index / 8;
    set_bits(&bytes[HEADER_LEN..whole]) + low_set_bits(bytes[whole], (index % 8) as u32)
}

fn is_empty_layout(bytes: &[u8]) -> bool
    ensures { result ≡ is_empty_layout bytes.now }
{
    bytes.len() == 12
        && word_at(bytes, 0) == 0
        && word_at(bytes, 4) == 0
        && word_at(bytes, 8) == INT4_TYPE
}

fn has_header(bytes: &[u8]) -> bool
    ensures { result ≡ has_header bytes.now }
{
    bytes.len() >= HEADER_LEN
        && word_at(bytes, 0) == 1
        && word_at(bytes, 8) == INT4_TYPE
        && are_bounds(int4_at(bytes, 16), word_at(bytes, 12) as usize)
}

fn is_plain_layout(bytes: &[u8]) -> bool
    ensures { result ≡ is_plain_layout bytes.now }
{
    has_header(bytes)
        && word_at(bytes, 4) == 0
        && bytes.len() == HEADER_LEN + 4 * word_at(bytes, 12) as usize
}

/// Whether no bit is set behind those of the elements.
fn has_clear_rest(bitmap: &[u8], count: usize) -> bool
    requires len { length bitmap.now ≡ bitmap_len count }
    requires some { 0 < count }
    ensures { result ≡ nat_lt (number_of_bytes bitmap.now) (2 ^ count) }
{
    let last = bitmap.len() - 1;
    u32::from(bitmap[last]) >> (count - 8 * last) as u32 == 0
}

fn are_zeros(bytes: &[u8]) -> bool
    ensures { result ≡ list_all (λ b. b == 0) bytes.now }
{
    bytes.iter().all(|byte| *byte == 0)
}

fn has_sparse_body(bytes: &[u8], count: usize) -> bool
    requires header { header_len ≤ length bytes.now }
    requires some { 0 < count }
    requires count { count < 2 ^ 32 }
    ensures { result ≡ has_sparse_body bytes.now count }
{
    let start = sparse_start(count);
    if bytes.len() < start {
        return false;
    }
    let padding = HEADER_LEN + bitmap_len(count);
    let bitmap = &bytes[HEADER_LEN..padding];
    let ones = set_bits(bitmap);
    has_clear_rest(bitmap, count)
        && ones < count
        && are_zeros(&bytes[padding..start])
        && bytes.len() == start + 4 * ones
}

fn is_sparse_layout(bytes: &[u8]) -> bool
    ensures { result ≡ is_sparse_layout bytes.now }
{
    if !has_header(bytes) {
        return false;
    }
    let count = word_at(bytes, 12) as usize;
    word_at(bytes, 4) as usize == sparse_start(count) + 4 && has_sparse_body(bytes, count)
}

fn is_flat_layout(bytes: &[u8]) -> bool
    ensures { result ≡ is_flat_layout bytes.now }
{
    is_empty_layout(bytes) || is_plain_layout(bytes) || is_sparse_layout(bytes)
}

/// Whether these are the flat bytes of an array that a variable can hold.
pub fn is_flat(bytes: &[u8]) -> bool
    ensures { IsTrue result ↔ IsFlat bytes.now }
{
    is_flat_layout(bytes)
}
