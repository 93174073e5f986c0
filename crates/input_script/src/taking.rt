//! A line taken into a script.

ghost use Rattle.std.specs.Prelude.{◌≡◌, ◌+◌, ◌*◌, ◌≤◌, ◌++◌, true, length, map, IfOk, OnOk};
ghost use Rattle.std.specs.List.{list_all};
ghost use Rattle.std.specs.Char.{is_ascii_hexdigit};
ghost use Rattle.r4_words.specs.Texts as words;
ghost use Rattle.input_script.specs.declared.inputs.What.TheVariants.{Key};
ghost use Rattle.input_script.specs.Inputs.{AreUpTo, keys_of};
ghost use Rattle.input_script.specs.Grammar.{bytes_of_pairs, inputs_at, read_line as read_law};
ghost use Rattle.input_script.specs.Shown.{IsSound, IsTaken, digits_in, whats_shown};

use crate::faults::ScriptWhy;
use crate::inputs::{Input, What};
use crate::lines::{Said, read_line};
use crate::rows::Deed;
use crate::script::Script;
use r4_words::value_of_digit;
use std::alloc::AllocError;

/// The byte of two hexadecimal digits.
#[tactic(auto, using(crate::proofs::PairList::hexdigit_lt))]
fn byte_of(high: u8, low: u8) -> u8
    requires high { is_ascii_hexdigit high ≡ true }
    requires low { is_ascii_hexdigit low ≡ true }
    ensures { result ≡ words.value_of_digit high * 16 + words.value_of_digit low }
{
    value_of_digit(high) * 16 + value_of_digit(low)
}

/// Puts the bytes of pairs of digits.
fn put_keys(script: &mut Script, tick: u32, digits: &[u8]) -> Result<(), AllocError>
    requires digits { list_all is_ascii_hexdigit digits.now ≡ true }
    requires order { AreUpTo tick script.old }
    requires room { keys_of script.old + length digits.now ≤ 4294967294 }
    ensures inputs { OnOk result (script.new ≡ script.old ++ inputs_at tick (map Key (bytes_of_pairs digits.now))) }
    ensures order { OnOk result (AreUpTo tick script.new) }
    ensures room { OnOk result (keys_of script.new ≤ keys_of script.old + length digits.now) }
{
    let mut rest = digits;
    while let [high, low, more @ ..] = rest {
        let what = What::Key(byte_of(*high, *low));
        script.push(Input { tick, what })?;
        rest = more;
    }
    Ok(())
}

/// Puts what a line lets come.
#[tactic(auto, using(crate::proofs::InputList::keys_push, crate::proofs::InputList::up_to_push))]
fn put_said(script: &mut Script, said: &Said) -> Result<(), AllocError>
    requires sound { IsSound said.now.deed }
    requires order { AreUpTo said.now.tick script.old }
    requires room { keys_of script.old + digits_in said.now.deed ≤ 4294967294 }
    ensures inputs { OnOk result (script.new ≡ script.old ++ inputs_at said.now.tick (whats_shown said.now.deed)) }
    ensures order { OnOk result (AreUpTo said.now.tick script.new) }
    ensures room { OnOk result (keys_of script.new ≤ keys_of script.old + digits_in said.now.deed) }
{
    let tick = said.tick;
    match said.deed {
        Deed::Keys(digits) => put_keys(script, tick, digits),
        Deed::One(what) => script.push(Input { tick, what }),
    }
}

/// Takes a line into a script of which this is the latest tick: the latest tick after it, or the first reason for which
/// the line is bad.
pub fn take_line(
    script: &mut Script,
    latest: u32,
    line: &[u8],
) -> Result<Result<u32, ScriptWhy>, AllocError>
    requires order { AreUpTo latest script.old }
    requires room { keys_of script.old + length line.now ≤ 4294967294 }
    ensures taken { IfOk result (IsTaken latest (read_law line.now) script.old script.new) }
    ensures order { IfOk result (λ taken. IfOk taken (λ next. AreUpTo next script.new)) }
    ensures room { IfOk result (λ taken. OnOk taken (keys_of script.new ≤ keys_of script.old + length line.now)) }
{
    match read_line(line) {
        Ok(None) => Ok(Ok(latest)),
        Ok(Some(said)) => {
            if said.tick < latest {
                return Ok(Err(ScriptWhy::Order));
            }
            put_said(script, &said)?;
            Ok(Ok(said.tick))
        }
        Err(why) => Ok(Err(why)),
    }
}
