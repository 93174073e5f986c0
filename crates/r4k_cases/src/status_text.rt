//! A status, as a line of a script says it.

use crate::fault::Fault;
use crate::text::number_of;
use r4k_top::{AsmWhy, Breach, ImageRule, ScriptWhy, Status};

// A number below 2 ^ 32.
fn short_number(text: &str) -> Result<u32, Fault> {
    let number = number_of(text)?;
    if number < 0x100000000 {
        Ok(number as u32)
    } else {
        Err(Fault::Unread)
    }
}

fn rule_of(text: &str) -> Result<ImageRule, Fault> {
    match text {
        "Short" => Ok(ImageRule::Short),
        "Magic" => Ok(ImageRule::Magic),
        "Class" => Ok(ImageRule::Class),
        "Machine" => Ok(ImageRule::Machine),
        "Kind" => Ok(ImageRule::Kind),
        "Table" => Ok(ImageRule::Table),
        "Range" => Ok(ImageRule::Range),
        "Entry" => Ok(ImageRule::Entry),
        _ => Err(Fault::Unread),
    }
}

fn why_of(text: &str) -> Result<AsmWhy, Fault> {
    match text {
        "Unknown" => Ok(AsmWhy::Unknown),
        "Operand" => Ok(AsmWhy::Operand),
        "Range" => Ok(AsmWhy::Range),
        "Twice" => Ok(AsmWhy::Twice),
        "NoLabel" => Ok(AsmWhy::NoLabel),
        "Align" => Ok(AsmWhy::Align),
        _ => Err(Fault::Unread),
    }
}

fn script_why_of(text: &str) -> Result<ScriptWhy, Fault> {
    match text {
        "Line" => Ok(ScriptWhy::Line),
        "Number" => Ok(ScriptWhy::Number),
        "Order" => Ok(ScriptWhy::Order),
        _ => Err(Fault::Unread),
    }
}

fn breach_of(text: &str) -> Result<Breach, Fault> {
    match text {
        "Forge" => Ok(Breach::Forge),
        "Peek" => Ok(Breach::Peek),
        "Unquiet" => Ok(Breach::Unquiet),
        "Old" => Ok(Breach::Old),
        "Owed" => Ok(Breach::Owed),
        "Lost" => Ok(Breach::Lost),
        _ => Err(Fault::Unread),
    }
}

// A status with one field.
fn with_field(name: &str, field: &str) -> Result<Status, Fault> {
    match name {
        "BadTrace" => Ok(Status::BadTrace {
            line: short_number(field)?,
        }),
        _ => Err(Fault::Unread),
    }
}

// A status with two fields.
fn with_fields(name: &str, first: &str, second: &str) -> Result<Status, Fault> {
    match name {
        "Breach" => {
            let event = number_of(first)? as u64;
            let breach = breach_of(second)?;
            Ok(Status::Breach { event, breach })
        }
        "BadImage" => {
            let rule = rule_of(first)?;
            let offset = short_number(second)?;
            Ok(Status::BadImage { rule, offset })
        }
        "BadScript" => {
            let line = short_number(first)?;
            let why = script_why_of(second)?;
            Ok(Status::BadScript { line, why })
        }
        "BadSource" => {
            let line = short_number(first)?;
            let why = why_of(second)?;
            Ok(Status::BadSource { line, why })
        }
        _ => Err(Fault::Unread),
    }
}

// A status without a field.
fn without_fields(name: &str) -> Result<Status, Fault> {
    match name {
        "Done" => Ok(Status::Done),
        "Usage" => Ok(Status::Usage),
        "ReadFault" => Ok(Status::ReadFault),
        "WriteFault" => Ok(Status::WriteFault),
        "Memory" => Ok(Status::Memory),
        "TooLong" => Ok(Status::TooLong),
        _ => Err(Fault::Unread),
    }
}

/// The status of a text: its name, then each field after a blank.
pub fn status_of(text: &str) -> Result<Status, Fault> {
    let Some((name, fields)) = text.split_once(' ') else {
        return without_fields(text);
    };
    match fields.split_once(' ') {
        Some((first, second)) => with_fields(name, first, second),
        None => with_field(name, fields),
    }
}
