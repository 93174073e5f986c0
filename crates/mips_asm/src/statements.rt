//! The statements of a source, by their names.

ghost use Rattle.std.specs.Prelude.{◌≡◌, IfSome};
ghost use Rattle.mips_text.specs.Forms as forms;
ghost use Rattle.mips_asm.specs.StatementsOf.{IsStatement};

use mips_text::Statement;
use mips3_table::{reads, row_named};

/// The directive of a name, or the instruction.
fn directive_named(text: &[u8]) -> Option<Statement>
    ensures value { result ≡ forms.directive_of text.now }
    ensures row { IfSome result IsStatement }
{
    if reads(text, ".org") {
        return Some(Statement::Org);
    }
    if reads(text, ".word") {
        return Some(Statement::Word);
    }
    if reads(text, ".byte") {
        return Some(Statement::Byte);
    }
    if reads(text, ".space") {
        return Some(Statement::Space);
    }
    if reads(text, ".align") {
        return Some(Statement::Align);
    }
    if reads(text, ".ascii") {
        return Some(Statement::Ascii);
    }
    Some(Statement::Instruction(row_named(text)?))
}

/// The statement of a name.
#[tactic(auto, unfolding(mips_text::specs::Forms::statement_named))]
pub fn statement_named(text: &[u8]) -> Option<Statement>
    ensures value { result ≡ forms.statement_named text.now }
    ensures row { IfSome result IsStatement }
{
    if reads(text, "li") {
        return Some(Statement::Li);
    }
    if reads(text, "la") {
        return Some(Statement::La);
    }
    if reads(text, "move") {
        return Some(Statement::Move);
    }
    if reads(text, "nop") {
        return Some(Statement::Nop);
    }
    if reads(text, "b") {
        return Some(Statement::Branch);
    }
    directive_named(text)
}
