//! The script of a text.

ghost use Rattle.std.specs.Prelude.{◌≡◌, ◌≤◌, length, IfOk, IfErr, OnOk};
ghost use Rattle.input_script.specs.Grammar.{HasNoBadLine, IsFirstBadBy, inputs_of, readings_of};

use crate::faults::ScriptFault;
use crate::parts::first_part;
use crate::script::Script;
use crate::taking::take_line;
use std::alloc::Global;

/// The script of a text, or its first bad line. A text has at most 4294967294 bytes.
pub fn read_script(alloc: Global, bytes: &[u8]) -> Result<Script, ScriptFault>
    requires { length bytes.now ≤ 4294967294 }

    // The inputs of a text of which no line is bad.
    ensures inputs { IfOk result (λ script. script ≡ inputs_of (readings_of bytes.now)) }
    ensures faultless { OnOk result (HasNoBadLine bytes.now) }

    // The first bad line.
    ensures first_bad { IfErr result (IsFirstBadBy bytes.now) }
{
    let mut script = Script::empty(alloc);
    let mut latest = 0;
    let mut passed = 0;
    let mut rest = Some(bytes);
    while let Some(text) = rest {
        let first = first_part(text, b'\n');
        let taken = take_line(&mut script, latest, first.part)?;
        match taken {
            Ok(next) => latest = next,
            Err(why) => {
                return Err(ScriptFault::Bad {
                    line: passed + 1,
                    why,
                });
            }
        }
        passed += 1;
        rest = first.rest;
    }
    Ok(script)
}
