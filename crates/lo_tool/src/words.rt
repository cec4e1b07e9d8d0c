//! The words of a command. A new command has one variant and one arm of `command_of`.
ghost use Rattle.std.specs.Prelude.{◌≡◌, ◌≤◌, IfSome, Some, map, option_map, string_bytes};
ghost use Rattle.lo_script.specs.Token.{oid_of};
ghost use Rattle.lo_tool.specs.Command.{IsInRange, are_file_names, blocks_of, clean_up_command, command_of, command_meant, init_command, is_file_name, limit_of, list_command, plain_clean_up, prefixed_limit, script_command, takes_next, threads_command, unlink_command, with_option};

use lo_base::Oid;
use lo_opening::MOST_BLOCKS;
use lo_script::decimal;

/// The blocks of a new database whose words name no number.
pub const USUAL_BLOCKS: u32 = 65536;

/// The most objects that a clean-up removes in one transaction, where its words name no number. (Manual, vacuumlo.)
pub const USUAL_LIMIT: u32 = 1000;

/// The greatest such number. 0 is no limit.
pub const MOST_LIMIT: u32 = 2_147_483_647;

/// The most programs that are run at a time: one for each session.
pub const MOST_PROGRAMS: usize = 16;

/// What stands before a limit that is one word with its option.
const LIMIT_PREFIX: &[u8] = b"--limit=";

/// How a clean-up of orphans is done. (Manual, vacuumlo.)
#[derive(Clone, Copy, Debug)]
pub struct CleanUp {
    /// Nothing is removed, and it is told what would be.
    pub dry: bool,
    /// It is told what is listed, scanned and removed.
    pub verbose: bool,
    /// The most objects that are removed in one transaction; 0 is no limit.
    pub limit: u32,
}

/// A command and its arguments.
#[derive(Clone, Copy, Debug)]
pub enum Command<'a> {
    /// `init IMAGE [BLOCKS]`: an empty database is saved.
    Init { image: &'a str, blocks: u32 },
    /// `script - FILE`: a script is run on an empty database that is not saved.
    RunScript { file: &'a str },
    /// `script IMAGE FILE`: a script is run on a database, which is saved then.
    RunScriptOn { image: &'a str, file: &'a str },
    /// `threads IMAGE FILE..`: programs are run by threads on a database, which is saved then.
    Threads { image: &'a str, names: &'a [String] },
    /// `vacuumlo [-n] [-v] [-l N] IMAGE`: the objects that no column names are removed.
    CleanUp { image: &'a str, options: CleanUp },
    /// `list IMAGE`: the objects of a database are told.
    List { image: &'a str },
    /// `unlink IMAGE OID`: an object of a database is removed.
    Unlink { image: &'a str, oid: Oid },
}

/// The command that the words are, or none. Every command is parsed here, once.
pub fn command_of(words: &[String]) -> Option<Command<'_>>
    ensures is { option_map command_meant result ≡ command_of (map string_bytes words.now) }
    ensures pool { IfSome result IsInRange }
{
    let [name, arguments @ ..] = words else {
        return None;
    };
    if name.as_str() == "init" {
        init_command(arguments)
    } else if name.as_str() == "script" {
        script_command(arguments)
    } else if name.as_str() == "threads" {
        threads_command(arguments)
    } else if name.as_str() == "vacuumlo" {
        clean_up_command(arguments)
    } else if name.as_str() == "list" {
        list_command(arguments)
    } else if name.as_str() == "unlink" {
        unlink_command(arguments)
    } else {
        None
    }
}

/// What the words after `init` ask for.
fn init_command(arguments: &[String]) -> Option<Command<'_>>
    ensures is { option_map command_meant result ≡ init_command (map string_bytes arguments.now) }
    ensures pool { IfSome result IsInRange }
{
    match arguments {
        [image] if is_file_name(image.as_str()) => Some(Command::Init {
            image: image.as_str(),
            blocks: USUAL_BLOCKS,
        }),
        [image, blocks] if is_file_name(image.as_str()) => Some(Command::Init {
            image: image.as_str(),
            blocks: blocks_of(blocks.as_str())?,
        }),
        _ => None,
    }
}

/// What the words after `script` ask for.
fn script_command(arguments: &[String]) -> Option<Command<'_>>
    ensures is { option_map command_meant result ≡ script_command (map string_bytes arguments.now) }
    ensures pool { IfSome result IsInRange }
{
    let [image, file] = arguments else {
        return None;
    };
    if !is_file_name(file.as_str()) {
        None
    } else if image.as_str() == "-" {
        Some(Command::RunScript {
            file: file.as_str(),
        })
    } else if is_file_name(image.as_str()) {
        Some(Command::RunScriptOn {
            image: image.as_str(),
            file: file.as_str(),
        })
    } else {
        None
    }
}

/// What the words after `threads` ask for: an image, and at least one program.
fn threads_command(arguments: &[String]) -> Option<Command<'_>>
    ensures is { option_map command_meant result
        ≡ threads_command (map string_bytes arguments.now) }
    ensures pool { IfSome result IsInRange }
{
    let [image, names @ ..] = arguments else {
        return None;
    };
    let image = image.as_str();
    let named = is_file_name(image) && are_file_names(names);
    if named && !names.is_empty() && names.len() <= MOST_PROGRAMS {
        Some(Command::Threads { image, names })
    } else {
        None
    }
}

/// Whether all words can name files.
fn are_file_names(words: &[String]) -> bool
    ensures { result ≡ are_file_names (map string_bytes words.now) }
{
    for word in words {
        if !is_file_name(word.as_str()) {
            return false;
        }
    }
    true
}

/// What the words after `vacuumlo` ask for: options in any order, of which the last limit counts, and at last the image.
fn clean_up_command(arguments: &[String]) -> Option<Command<'_>>
    ensures is { option_map command_meant result
        ≡ clean_up_command (Some plain_clean_up) (map string_bytes arguments.now) }
    ensures pool { IfSome result IsInRange }
{
    let mut options = CleanUp {
        dry: false,
        verbose: false,
        limit: USUAL_LIMIT,
    };
    let mut at = 0;
    while arguments.len() - at >= 2 {
        let word = arguments[at].as_str();
        options = with_option(options, word, arguments[at + 1].as_str())?;
        at += if takes_next(word) { 2 } else { 1 };
    }
    let image = arguments.get(at)?.as_str();
    if is_file_name(image) {
        Some(Command::CleanUp { image, options })
    } else {
        None
    }
}

/// What an option makes of those before it, where it is one. `next` is the word after it.
fn with_option(options: CleanUp, word: &str, next: &str) -> Option<CleanUp>
    requires { options.limit ≤ MOST_LIMIT }
    ensures is { result ≡ with_option options word.now next.now }
    ensures range { IfSome result (λ given. given.limit ≤ MOST_LIMIT) }
{
    if word == "-n" || word == "--dry-run" {
        Some(CleanUp {
            dry: true,
            ..options
        })
    } else if word == "-v" || word == "--verbose" {
        Some(CleanUp {
            verbose: true,
            ..options
        })
    } else if takes_next(word) {
        let limit = limit_of(next.as_bytes())?;
        Some(CleanUp { limit, ..options })
    } else {
        let limit = prefixed_limit(word.as_bytes())?;
        Some(CleanUp { limit, ..options })
    }
}

/// Whether a word is the option whose limit is the next word.
fn takes_next(word: &str) -> bool
    ensures { result ≡ takes_next word.now }
{
    word == "-l"
}

/// The limit of a word that is its option too.
fn prefixed_limit(word: &[u8]) -> Option<u32>
    ensures is { result ≡ prefixed_limit word.now }
    ensures range { IfSome result (λ limit. limit ≤ MOST_LIMIT) }
{
    let (front, rest) = word.split_at(LIMIT_PREFIX.len().min(word.len()));
    if front == LIMIT_PREFIX {
        limit_of(rest)
    } else {
        None
    }
}

/// The limit that a word is, without a sign or a leading zero.
fn limit_of(word: &[u8]) -> Option<u32>
    ensures is { result ≡ limit_of word.now }
    ensures range { IfSome result (λ limit. limit ≤ MOST_LIMIT) }
{
    match decimal(word) {
        Some(n) if 0 <= n && n <= i64::from(MOST_LIMIT) => Some(n as u32),
        _ => None,
    }
}

/// What the words after `list` ask for.
fn list_command(arguments: &[String]) -> Option<Command<'_>>
    ensures is { option_map command_meant result ≡ list_command (map string_bytes arguments.now) }
    ensures pool { IfSome result IsInRange }
{
    match arguments {
        [image] if is_file_name(image.as_str()) => Some(Command::List {
            image: image.as_str(),
        }),
        _ => None,
    }
}

/// What the words after `unlink` ask for.
fn unlink_command(arguments: &[String]) -> Option<Command<'_>>
    ensures is { option_map command_meant result ≡ unlink_command (map string_bytes arguments.now) }
    ensures pool { IfSome result IsInRange }
{
    match arguments {
        [image, oid] if is_file_name(image.as_str()) => Some(Command::Unlink {
            image: image.as_str(),
            oid: oid_of(oid.as_str())?,
        }),
        _ => None,
    }
}

/// Whether a word can name a file. Words that begin with `-` are options.
fn is_file_name(word: &str) -> bool
    ensures { result ≡ is_file_name word.now }
{
    match word.as_bytes() {
        [] => false,
        [first, ..] => *first != b'-',
    }
}

/// The number of blocks that a word is, without a sign or a leading zero.
fn blocks_of(word: &str) -> Option<u32>
    ensures is { result ≡ blocks_of word.now }
    ensures pool { IfSome result (λ blocks. (1 ≤ blocks) × (blocks ≤ MOST_BLOCKS)) }
{
    match decimal(word.as_bytes()) {
        Some(n) if 1 <= n && n <= i64::from(MOST_BLOCKS) => Some(n as u32),
        _ => None,
    }
}

/// The number of a large object that a word is, without a sign or a leading zero.
fn oid_of(word: &str) -> Option<Oid>
    ensures { result ≡ oid_of word.now }
{
    match decimal(word.as_bytes()) {
        Some(n) if 0 <= n && n <= i64::from(Oid::MAX) => Some(n as Oid),
        _ => None,
    }
}
