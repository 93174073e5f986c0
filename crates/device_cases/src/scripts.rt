//! Texts read as scripts: the verbs of input_script.
//!
//! - `script "TEXT"`: in the text a bar stands for a newline, a circumflex for a carriage return and a tilde for a tab.
//! - `key_line COUNT`: a text of one line, of so many characters, with bytes 41 as keys.
//! - `empty_lines COUNT TEXT`: a text of so many empty lines and one more.
//!
//! The answer is `keys COUNT` and the inputs, of more than eight the first four and the last; or `bad LINE REASON`.

use input_script::{Input, Script, ScriptFault, ScriptWhy, What, read_script};
use std::alloc::{AllocError, Global};

/// Appends the answer of a verb. Says whether the verb is one of these.
pub fn put_answer(
    alloc: Global,
    verb: &str,
    arguments: &str,
    out: &mut String,
) -> Result<bool, AllocError> {
    let text = match verb {
        "script" => text_of(alloc, quoted(arguments))?,
        "key_line" => key_line(alloc, count_of(arguments))?,
        "empty_lines" => {
            let (count, line) = arguments.split_once(' ').unwrap_or((arguments, ""));
            empty_lines(alloc, count_of(count), line)?
        }
        _ => return Ok(false),
    };
    put_read(alloc, &text, out)?;
    Ok(true)
}

// The text between the quotes.
fn quoted(arguments: &str) -> &str {
    let text = arguments.strip_prefix('"').unwrap_or(arguments);
    text.strip_suffix('"').unwrap_or(text)
}

// A count up to that of the bytes of a script.
fn count_of(word: &str) -> u32 {
    word.parse::<u32>().unwrap_or(0).min(16777216)
}

/// The bytes of a text.
pub fn text_of(alloc: Global, text: &str) -> Result<Vec<u8>, AllocError> {
    let mut bytes = Vec::new(alloc);
    for byte in text.as_bytes() {
        bytes.push(match byte {
            b'|' => b'\n',
            b'^' => b'\r',
            b'~' => b'\t',
            other => *other,
        })?;
    }
    Ok(bytes)
}

// A line of so many characters.
fn key_line(alloc: Global, count: u32) -> Result<Vec<u8>, AllocError> {
    let mut bytes = b"0 key ".to_vec(alloc)?;
    for place in 6..count {
        bytes.push(if place % 2 == 0 { b'4' } else { b'1' })?;
    }
    Ok(bytes)
}

// So many empty lines, and one more.
fn empty_lines(alloc: Global, count: u32, line: &str) -> Result<Vec<u8>, AllocError> {
    let mut bytes = Vec::new(alloc);
    for _ in 0..count {
        bytes.push(b'\n')?;
    }
    bytes.extend_from_slice(line.as_bytes())?;
    Ok(bytes)
}

// Appends what a text is read to.
fn put_read(alloc: Global, text: &[u8], out: &mut String) -> Result<(), AllocError> {
    if text.len() > 4294967294 {
        return out.push_str("?");
    }
    match read_script(alloc, text) {
        Ok(script) => put_script(&script, out),
        Err(ScriptFault::Bad { line, why }) => {
            let name = name_of(why);
            write!(out, "bad {line} {name}")
        }
        Err(ScriptFault::Memory) => out.push_str("memory"),
    }
}

fn name_of(why: ScriptWhy) -> &'static str {
    match why {
        ScriptWhy::Line => "Line",
        ScriptWhy::Number => "Number",
        ScriptWhy::Order => "Order",
    }
}

fn put_script(script: &Script, out: &mut String) -> Result<(), AllocError> {
    let keys = script.keys();
    write!(out, "keys {keys}")?;
    put_inputs(script.inputs(), out)
}

fn put_inputs(inputs: &[Input], out: &mut String) -> Result<(), AllocError> {
    let is_long = inputs.len() > 8;
    let shown = if is_long { 4 } else { 8 };
    for input in inputs.iter().take(shown) {
        out.push_str(", ")?;
        put_input(input, out)?;
    }
    match inputs.last() {
        Some(input) if is_long => {
            out.push_str(" .. ")?;
            put_input(input, out)
        }
        _ => Ok(()),
    }
}

fn put_input(input: &Input, out: &mut String) -> Result<(), AllocError> {
    let tick = input.tick;
    match input.what {
        What::Key(byte) => write!(out, "{tick} key {byte:02x}"),
        What::Irq { line, level } => {
            let level = u8::from(level);
            write!(out, "{tick} irq {line} {level}")
        }
        What::Hold => write!(out, "{tick} hold"),
        What::Go => write!(out, "{tick} go"),
    }
}
