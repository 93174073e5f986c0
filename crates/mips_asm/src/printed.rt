//! Printed text is a source of what it was printed from.

ghost use Rattle.mips_asm.specs.PrintedSource.{InstructionsAssemble, WordsAssemble};

/// What is printed of an instruction, and of any word, assembles to it again, after an `.org` of its address.
#[tactic(auto, using(crate::proofs::PrintedSource::printed_assembles, crate::proofs::PrintedSource::word_assembles))]
pub fn printed_text_assembles()
    ensures instructions { InstructionsAssemble }
    ensures words { WordsAssemble }
{}
