//! What a clean-up tells of itself.
ghost use Rattle.std.specs.Prelude.{◌≡◌, [], ◌∷◌, ◌++◌, OnOk, flat_map};
ghost use Rattle.orphan_sweep.specs.Rest.{groups};
ghost use Rattle.lo_tool.specs.CleanUpTexts.{act_line, counted_line, group_lines, listed_line, removal_text, rest_lines, total_line};

use crate::words::CleanUp;
use itoa::Buffer;
use lo_base::{Bytes, NoMemory, Oid};
use orphan_sweep::SweepAct;

/// How many objects are listed.
pub fn say_listed(count: u64, text: &mut Bytes) -> Result<(), NoMemory>
    ensures { OnOk result (text.new ≡ text.old ++ listed_line count) }
{
    say_count(b"listed ", count, b"\n", text)
}

/// Which column an act scans, where it is a scan.
pub fn say_scanned(act: &SweepAct, text: &mut Bytes) -> Result<(), NoMemory>
    ensures { OnOk result (text.new ≡ text.old ++ act_line act.now) }
{
    if let SweepAct::Scan { table, column } = act {
        text.extend(b"checked ")?;
        text.extend(table.items())?;
        text.extend(b".")?;
        text.extend(column.items())?;
        text.extend(b"\n")?;
    }
    Ok(())
}

/// What is removed, or would be, and how much that is.
pub fn say_removal(options: CleanUp, rest: &[Oid], text: &mut Bytes) -> Result<(), NoMemory>
    ensures { OnOk result (text.new ≡ text.old ++ removal_text options rest.now) }
{
    if options.verbose {
        say_rest(options, rest, text)?;
    }
    say_total(options, rest.len() as u64, text)
}

/// Each object of the rest, by groups where they are removed.
fn say_rest(options: CleanUp, rest: &[Oid], text: &mut Bytes) -> Result<(), NoMemory>
    ensures { OnOk result (text.new ≡ text.old ++ rest_lines options rest.now) }
{
    if options.dry {
        say_each(b"would remove ", rest, text)
    } else {
        say_groups(options.limit, rest, text)
    }
}

/// How much was removed, or would be. A dry run tells it in every case.
fn say_total(options: CleanUp, count: u64, text: &mut Bytes) -> Result<(), NoMemory>
    ensures { OnOk result (text.new ≡ text.old ++ total_line options count) }
{
    if options.dry {
        say_count(b"would remove ", count, b" large objects\n", text)
    } else if options.verbose {
        say_count(b"removed ", count, b" large objects\n", text)
    } else {
        Ok(())
    }
}

/// The groups in which the rest is removed, each with its size.
fn say_groups(limit: u32, rest: &[Oid], text: &mut Bytes) -> Result<(), NoMemory>
    ensures { OnOk result (text.new ≡ text.old ++ flat_map group_lines (groups limit rest.now)) }
{
    let most = if limit == 0 {
        rest.len()
    } else {
        limit as usize
    };
    let mut left = rest;
    while left.len() > 0 {
        let (group, after) = left.split_at(most.min(left.len()));
        say_each(b"removing ", group, text)?;
        say_count(b"committed ", group.len() as u64, b"\n", text)?;
        left = after;
    }
    Ok(())
}

/// A line for each object.
fn say_each(what: &[u8], oids: &[Oid], text: &mut Bytes) -> Result<(), NoMemory>
    ensures { OnOk result (text.new ≡ text.old ++ flat_map (λ o. counted_line what.now o (10 ∷ [])) oids.now) }
{
    for oid in oids {
        say_count(what, u64::from(*oid), b"\n", text)?;
    }
    Ok(())
}

/// A line with a number in it.
fn say_count(before: &[u8], count: u64, after: &[u8], text: &mut Bytes) -> Result<(), NoMemory>
    ensures { OnOk result (text.new ≡ text.old ++ counted_line before.now count after.now) }
{
    let mut number = Buffer::new();
    text.extend(before)?;
    text.extend(number.format(count).as_bytes())?;
    text.extend(after)
}
