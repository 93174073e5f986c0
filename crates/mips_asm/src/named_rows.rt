//! The rows that the further statements stand for, found by their names in the table.

ghost use Rattle.std.specs.Prelude.{◌≡◌, IsSome};
ghost use Rattle.mips3_table.specs.Matching.{row_named as row_of_name};
ghost use Rattle.mips_text.specs.Line as law;

use mips3_table::row_named;

/// The row of a name that the table has.
fn row_called(name: &str) -> u8
    requires { IsSome (row_of_name name.now) }
    ensures { result ≡ law.row_called name.now }
{
    match row_named(name.as_bytes()) {
        Some(row) => row,
        None => unreachable!(),
    }
}

/// The row of `beq`.
#[tactic(auto, using(crate::proofs::NamedRows::has_beq), unfolding(mips_text::specs::Line::beq_row))]
pub fn beq_row() -> u8
    ensures { result ≡ law.beq_row }
{
    row_called("beq")
}

/// The row of `ori`.
#[tactic(auto, using(crate::proofs::NamedRows::has_ori), unfolding(mips_text::specs::Line::ori_row))]
pub fn ori_row() -> u8
    ensures { result ≡ law.ori_row }
{
    row_called("ori")
}

/// The row of `lui`.
#[tactic(auto, using(crate::proofs::NamedRows::has_lui), unfolding(mips_text::specs::Line::lui_row))]
pub fn lui_row() -> u8
    ensures { result ≡ law.lui_row }
{
    row_called("lui")
}

/// The row of `or`.
#[tactic(auto, using(crate::proofs::NamedRows::has_or), unfolding(mips_text::specs::Line::or_row))]
pub fn or_row() -> u8
    ensures { result ≡ law.or_row }
{
    row_called("or")
}
