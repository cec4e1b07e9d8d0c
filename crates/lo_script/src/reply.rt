// Replies as lines, each by what is appended for one of its parts. How a reply is printed stands in specs/ReplyText.antt; a
// new word or shape of a reply is one arm here and one clause there.
ghost use Rattle.std.specs.Prelude.{◌≡◌, ◌≤◌, ◌++◌, length, OnOk, OnErr};
ghost use Rattle.std.specs.Fmt.{signed_decimal};
ghost use Rattle.hex.specs.Hex.{encode_lower};
ghost use Rattle.lo_base.specs.Appended.{AddsFront};
ghost use Rattle.lo_script.specs.ReplyText.{line_of, text_of, word_text, bytes_text, error_text};
ghost use Rattle.lo_script.specs.ReplyText.{after_space, spaced, cell_text, row_text, ids_text, counted_text, stopped_text};

use hex::encode_to_slice;
use itoa::Buffer;
use lo_base::{Bytes, Cell, NoMemory, Refusal, Reply, SessionNo, Word};

/// How many bytes are printed at a time.
const PIECE: usize = 64;

/// Appends the reply's line, with its line feed: the session's letter, a colon, a space and the text. Bytes
/// are printed in the hex format of `bytea` (PostgreSQL manual, Binary Data Types). Where there is no memory,
/// a front of the line may have been appended.
pub fn reply_text(s: SessionNo, reply: &Reply, out: &mut Bytes) -> Result<(), NoMemory>
    ensures ok { OnOk result (out.new ≡ out.old ++ line_of s reply.now) }
    ensures err { OnErr result (AddsFront out.old out.new (line_of s reply.now)) }
{
    out.extend(&[s.number() + 64, b':', b' '])?;
    append_reply(reply, out)?;
    out.push(b'\n')
}

fn append_reply(reply: &Reply, out: &mut Bytes) -> Result<(), NoMemory>
    ensures ok { OnOk result (out.new ≡ out.old ++ text_of reply.now) }
    ensures err { OnErr result (AddsFront out.old out.new (text_of reply.now)) }
{
    match reply {
        Reply::Word(word) => out.extend(text_of_word(*word).as_bytes()),
        Reply::Number(n) => out.extend(Buffer::new().format(*n).as_bytes()),
        Reply::Content(bytes) => append_bytes(bytes.items(), out),
        Reply::Nothing => out.extend(b"null"),
        Reply::Row(cells) => append_row(cells.items(), out),
        Reply::Ids(ids) => append_ids(ids.items(), out),
        Reply::Text(text) => out.extend(text.items()),
        Reply::Counted { what, count } => append_counted(*what, *count, out),
        Reply::Stopped { oid, removed } => append_stopped(*oid, *removed, out),
        Reply::Refused(refusal) => append_refusal(refusal, out),
    }
}

fn text_of_word(word: Word) -> &'static str
    ensures { result.now ≡ word_text word }
{
    match word {
        Word::Begin => "BEGIN",
        Word::Commit => "COMMIT",
        Word::Rollback => "ROLLBACK",
        Word::Savepoint => "SAVEPOINT",
        Word::Release => "RELEASE",
        Word::CreateTable => "CREATE TABLE",
        Word::Insert => "INSERT 1",
        Word::Update => "UPDATE 1",
        Word::Delete => "DELETE 1",
        Word::Declare => "DECLARE",
        Word::Close => "CLOSE",
        Word::Vacuum => "VACUUM",
        Word::Idle => "IDLE",
        Word::Ok => "OK",
        Word::Listed => "LISTED",
        Word::Scanned => "SCANNED",
        Word::Removed => "REMOVED",
        Word::WouldRemove => "WOULD REMOVE",
        Word::Rewrite => "REWRITE",
    }
}

fn append_row(cells: &[Cell], out: &mut Bytes) -> Result<(), NoMemory>
    ensures ok { OnOk result (out.new ≡ out.old ++ row_text cells.now) }
    ensures err { OnErr result (AddsFront out.old out.new (row_text cells.now)) }
{
    out.extend(b"ROW")?;
    append_cells(cells, out)
}

fn append_cells(cells: &[Cell], out: &mut Bytes) -> Result<(), NoMemory>
    ensures ok { OnOk result (out.new ≡ out.old ++ spaced cell_text cells.now) }
    ensures err { OnErr result (AddsFront out.old out.new (spaced cell_text cells.now)) }
{
    for cell in cells {
        append_spaced_cell(cell, out)?;
    }
    Ok(())
}

fn append_spaced_cell(cell: &Cell, out: &mut Bytes) -> Result<(), NoMemory>
    ensures ok { OnOk result (out.new ≡ out.old ++ after_space (cell_text cell.now)) }
    ensures err { OnErr result (AddsFront out.old out.new (after_space (cell_text cell.now))) }
{
    out.push(b' ')?;
    append_cell(cell, out)
}

fn append_cell(cell: &Cell, out: &mut Bytes) -> Result<(), NoMemory>
    ensures ok { OnOk result (out.new ≡ out.old ++ cell_text cell.now) }
    ensures err { OnErr result (AddsFront out.old out.new (cell_text cell.now)) }
{
    match cell {
        Cell::Null => out.extend(b"null"),
        Cell::Int(n) => out.extend(Buffer::new().format(*n).as_bytes()),
        Cell::Oid(oid) => out.extend(Buffer::new().format(*oid).as_bytes()),
        Cell::Inline(bytes) => append_bytes(bytes.items(), out),
        Cell::Text(text) => out.extend(text.items()),
        Cell::Outside { .. } => Ok(()),
    }
}

fn append_ids(ids: &[i64], out: &mut Bytes) -> Result<(), NoMemory>
    ensures ok { OnOk result (out.new ≡ out.old ++ ids_text ids.now) }
    ensures err { OnErr result (AddsFront out.old out.new (ids_text ids.now)) }
{
    out.extend(b"IDS")?;
    append_numbers(ids, out)
}

fn append_numbers(numbers: &[i64], out: &mut Bytes) -> Result<(), NoMemory>
    ensures ok { OnOk result (out.new ≡ out.old ++ spaced signed_decimal numbers.now) }
    ensures err { OnErr result (AddsFront out.old out.new (spaced signed_decimal numbers.now)) }
{
    for n in numbers {
        append_spaced(Buffer::new().format(*n).as_bytes(), out)?;
    }
    Ok(())
}

fn append_counted(what: Word, count: u64, out: &mut Bytes) -> Result<(), NoMemory>
    ensures ok { OnOk result (out.new ≡ out.old ++ counted_text what count) }
    ensures err { OnErr result (AddsFront out.old out.new (counted_text what count)) }
{
    out.extend(text_of_word(what).as_bytes())?;
    append_spaced(Buffer::new().format(count).as_bytes(), out)
}

fn append_stopped(oid: u32, removed: u64, out: &mut Bytes) -> Result<(), NoMemory>
    ensures ok { OnOk result (out.new ≡ out.old ++ stopped_text oid removed) }
    ensures err { OnErr result (AddsFront out.old out.new (stopped_text oid removed)) }
{
    out.extend(b"STOPPED")?;
    append_spaced(Buffer::new().format(oid).as_bytes(), out)?;
    append_spaced(Buffer::new().format(removed).as_bytes(), out)
}

/// A space and the text.
fn append_spaced(text: &[u8], out: &mut Bytes) -> Result<(), NoMemory>
    ensures ok { OnOk result (out.new ≡ out.old ++ after_space text.now) }
    ensures err { OnErr result (AddsFront out.old out.new (after_space text.now)) }
{
    out.push(b' ')?;
    out.extend(text)
}

fn append_refusal(refusal: &Refusal, out: &mut Bytes) -> Result<(), NoMemory>
    ensures ok { OnOk result (out.new ≡ out.old ++ error_text refusal.now) }
    ensures err { OnErr result (AddsFront out.old out.new (error_text refusal.now)) }
{
    out.extend(b"ERROR ")?;
    out.extend(refusal.code().as_str().as_bytes())?;
    out.extend(b": ")?;
    refusal.text(out)
}

fn append_bytes(bytes: &[u8], out: &mut Bytes) -> Result<(), NoMemory>
    ensures ok { OnOk result (out.new ≡ out.old ++ bytes_text bytes.now) }
    ensures err { OnErr result (AddsFront out.old out.new (bytes_text bytes.now)) }
{
    out.extend(b"\\x")?;
    append_hex(bytes, out)
}

fn append_hex(bytes: &[u8], out: &mut Bytes) -> Result<(), NoMemory>
    ensures ok { OnOk result (out.new ≡ out.old ++ encode_lower bytes.now) }
    ensures err { OnErr result (AddsFront out.old out.new (encode_lower bytes.now)) }
{
    let mut rest = bytes;
    while !rest.is_empty() {
        let (piece, after) = rest.split_at(rest.len().min(PIECE));
        append_piece(piece, out)?;
        rest = after;
    }
    Ok(())
}

/// All digits of a piece, or none where there is no memory.
fn append_piece(piece: &[u8], out: &mut Bytes) -> Result<(), NoMemory>
    requires { length piece.now ≤ PIECE }
    ensures ok { OnOk result (out.new ≡ out.old ++ encode_lower piece.now) }
    ensures err { OnErr result (out.new ≡ out.old) }
{
    let mut digits = [0; 2 * PIECE];
    let digits = &mut digits[..2 * piece.len()];
    if encode_to_slice(piece, digits).is_err() {
        unreachable!()
    }
    out.extend(digits)
}
