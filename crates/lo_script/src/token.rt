// The tokens of one line, and the numbers, names and bytes that they spell: a token stands between single spaces. Forms are in
// form.rt, tokens of values and of columns in value_token.rt. A new kind of token gets a method of `Token`, with the definition of
// what it spells in specs/Token.antt or specs/ValueToken.antt.
ghost use Rattle.std.specs.Prelude.{◌≡◌, ◌≢◌, ◌↔◌, IsTrue, ◌+◌, ◌<◌, ◌==◌, [], ◌∷◌};
ghost use Rattle.std.specs.Prelude.{length, bytes_eq, IfOk, IfErr, OnOk};
ghost use Rattle.std.specs.List.{position};
ghost use Rattle.lo_script.specs.Answer.{Reads};
ghost use Rattle.lo_script.specs.Reading.{read_at};
ghost use Rattle.lo_script.specs.declared.error.LineError.TheVariants.{Bad};
ghost use Rattle.lo_script.specs.Token.{tokens_of, rest_of, column_after, pieces_of, pieces_left};
ghost use Rattle.lo_script.specs.Token.{length_left, cut_at, cut_in, keyword_of, session_of, oid_of, int4_of};
ghost use Rattle.lo_script.specs.Token.{int8_of, limit_of, name_of, bytes_of, begins};

use crate::error::LineError;
use hex::FromHexError;
use itoa::Buffer;
use lo_base::{Bytes, Name, Oid, SessionNo, is_name};
use std::alloc::Global;
use std::marker::Model;
use std::str;

/// The tokens of a line that are left to read.
#[derive(Drop)]
pub struct Tokens<'a> {
    line: &'a [u8],
    /// From the next token on, or nothing after the last.
    rest: Option<&'a [u8]>,
}

impl<'a> Model for Tokens<'a> {
    ghost use Rattle.std.specs.Prelude.{◌≤◌, length};
    ghost use Rattle.std.specs.Option.{option_map_or};
    ghost use Rattle.lo_script.specs.Token.{Rest, rest_of};

    ghost Value = { Rest };

    ghost view = { λ t. rest_of t.line.now t.rest };

    ghost invariant = { λ t. option_map_or (λ rest. length rest.now) t.rest 0 ≤ length t.line.now };
}

/// A token and the column where it begins.
#[derive(Clone, Copy)]
pub struct Token<'a> {
    pub text: &'a [u8],
    pub column: u64,
}

impl<'a> Tokens<'a> {
    /// All tokens of a line.
    pub fn of(line: &'a [u8]) -> Tokens<'a>
        ensures tokens { result.tokens ≡ tokens_of line.now }
        ensures column { result.column ≡ 1 }
    {
        Tokens {
            line,
            rest: Some(line),
        }
    }

    /// Takes the next token.
    pub fn next(&mut self) -> Result<Token<'a>, LineError>
        ensures ok { IfOk result (λ token. self.old.tokens ≡ token.text.now ∷ self.new.tokens) }
        ensures start { IfOk result (λ token. token.column ≡ self.old.column) }
        ensures column { IfOk result (λ token.
            self.new.column ≡ column_after token.column token.text.now self.new.tokens) }
        ensures bad { IfErr result (λ e. self.old.tokens ≡ []) }
        ensures missing { IfErr result (λ e. e ≡ Bad self.old.column) }
    {
        let column = self.column();
        let Some(rest) = self.rest else {
            return Err(LineError::Bad(column));
        };
        let (text, after) = cut(rest, b' ');
        self.rest = after;
        Ok(Token { text, column })
    }

    /// Checks that no token is left.
    pub fn end(&self) -> Result<(), LineError>
        ensures ok { OnOk result (self.now.tokens ≡ []) }
        ensures bad { IfErr result (λ e. self.now.tokens ≢ []) }
        ensures left { IfErr result (λ e. e ≡ Bad self.now.column) }
    {
        if self.is_at_end() {
            Ok(())
        } else {
            Err(LineError::Bad(self.column()))
        }
    }

    /// Whether no token is left.
    pub fn is_at_end(&self) -> bool
        ensures { IsTrue result ↔ (self.now.tokens ≡ []) }
    {
        self.rest.is_none()
    }

    /// The column of the next token, or of the line's end where none is left.
    fn column(&self) -> u64
        ensures { result ≡ self.now.column }
    {
        let left = self.rest.map_or(0, |rest| rest.len());
        (self.line.len() - left) as u64 + 1
    }
}

impl Token<'_> {
    /// The error that this token is not allowed.
    pub fn refused(&self) -> LineError
        ensures { result ≡ Bad self.now.column }
    {
        LineError::Bad(self.column)
    }

    /// Whether the token is that word.
    pub fn is(&self, word: &[u8]) -> bool
        ensures { result ≡ bytes_eq self.now.text.now word.now }
    {
        self.text == word
    }

    /// Whether the token begins with these bytes.
    pub fn begins(&self, front: &[u8]) -> bool
        ensures { result ≡ begins front.now self.now.text.now }
    {
        self.text.starts_with(front)
    }

    /// Checks that the token is that word.
    pub fn keyword(&self, word: &[u8]) -> Result<(), LineError>
        ensures { Reads (read_at self.now.column (keyword_of word.now self.now.text.now)) result }
    {
        if self.is(word) {
            Ok(())
        } else {
            Err(self.refused())
        }
    }

    /// The session of a mark.
    pub fn session(&self) -> Result<SessionNo, LineError>
        ensures { Reads (read_at self.now.column (session_of self.now.text.now)) result }
    {
        match marked(self.text) {
            Some(s) => Ok(s),
            None => Err(self.refused()),
        }
    }

    /// The number of a large object.
    pub fn oid(&self) -> Result<Oid, LineError>
        ensures { Reads (read_at self.now.column (oid_of self.now.text.now)) result }
    {
        match decimal(self.text) {
            Some(n) if 0 <= n && n <= i64::from(Oid::MAX) => Ok(n as Oid),
            _ => Err(self.refused()),
        }
    }

    /// The limit of a clean-up: a decimal from 0 to the greatest `i32`.
    pub fn limit(&self) -> Result<u32, LineError>
        ensures { Reads (read_at self.now.column (limit_of self.now.text.now)) result }
    {
        match decimal(self.text) {
            Some(n) if 0 <= n && n <= i64::from(i32::MAX) => Ok(n as u32),
            _ => Err(self.refused()),
        }
    }

    /// A decimal in the range of `i32`, as descriptors, modes, lengths and whences are.
    pub fn int4(&self) -> Result<i32, LineError>
        ensures { Reads (read_at self.now.column (int4_of self.now.text.now)) result }
    {
        match decimal(self.text) {
            Some(n) if i64::from(i32::MIN) <= n && n <= i64::from(i32::MAX) => Ok(n as i32),
            _ => Err(self.refused()),
        }
    }

    /// A decimal in the range of `i64`.
    pub fn int8(&self) -> Result<i64, LineError>
        ensures { Reads (read_at self.now.column (int8_of self.now.text.now)) result }
    {
        match decimal(self.text) {
            Some(n) => Ok(n),
            None => Err(self.refused()),
        }
    }

    /// The name of a savepoint, table, column, cursor or variable.
    #[tactic(auto, using(crate::proofs::MarksAndNames::spelled_name, crate::proofs::MarksAndNames::no_name))]
    pub fn name(&self, alloc: Global) -> Result<Name, LineError>
        ensures { Reads (read_at self.now.column (name_of self.now.text.now)) result }
    {
        if is_name(self.text) {
            Ok(Name::from_slice(alloc, self.text)?)
        } else {
            Err(self.refused())
        }
    }

    /// At most `most` bytes, in hexadecimal digits of either case after `\x`.
    pub fn bytes(&self, alloc: Global, most: usize) -> Result<Bytes, LineError>
        ensures { Reads (read_at self.now.column (bytes_of most self.now.text.now)) result }
    {
        let Some(digits) = self.text.strip_prefix(b"\\x") else {
            return Err(self.refused());
        };
        if digits.len() / 2 > most {
            return Err(self.refused());
        }
        match hex::decode(alloc, digits) {
            Ok(bytes) => Ok(Bytes::from_vec(bytes)),
            Err(FromHexError::OutOfMemory) => Err(LineError::NoMemory),
            Err(_) => Err(self.refused()),
        }
    }
}

/// The session whose mark the token is: a letter and a colon.
fn marked(token: &[u8]) -> Option<SessionNo>
    ensures { result ≡ session_of token.now }
{
    match token {
        [letter, b':'] => SessionNo::new(letter.wrapping_sub(b'@')),
        _ => None,
    }
}

/// The number that prints as the token.
pub fn decimal(token: &[u8]) -> Option<i64>
    ensures { result ≡ int8_of token.now }
{
    let n = str::from_utf8(token).ok()?.parse::<i64>().ok()?;
    if Buffer::new().format(n).as_bytes() == token {
        Some(n)
    } else {
        None
    }
}

/// What stands before the first `at`, and what stands after it, if there is one.
pub fn cut(text: &[u8], at: u8) -> (&[u8], Option<&[u8]>)
    ensures parts { pieces_of at text.now ≡ result.0.now ∷ pieces_left at result.1 }
    ensures first { cut_at at text.now ≡ cut_in result.0.now result.1 }
    ensures whole { length result.0.now + length_left result.1 ≡ length text.now }
{
    match first_index(text, at) {
        Some(end) => (&text[..end], Some(&text[end + 1..])),
        None => (text, None),
    }
}

/// The index of the first `at`, if there is one.
fn first_index(text: &[u8], at: u8) -> Option<usize>
    ensures { result ≡ position (λ b. b == at) text.now }
{
    text.iter().position(|b| *b == at)
}
