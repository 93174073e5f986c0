// The image that the assembler writes.
ghost use Rattle.std.specs.Prelude.{◌≡◌, ◌+◌, ◌≤◌, ◌++◌, length, List, ℕ, IfOk, true, None};
ghost use Rattle.arrayvec.specs.ArrayVec.{array_vec_len};
ghost use Rattle.flat_ram.specs.Bytes.{bytes_of, bytes_of_half, put_bytes};
ghost use Rattle.elf_image.specs.Rules.{image_fault, has_place, can_enter};
ghost use Rattle.flat_ram.specs.Map.{ram_size};
ghost use Rattle.flat_ram.specs.Unmapped.{physical};
ghost use Rattle.elf_image.specs.Loading.{loaded};
ghost use Rattle.elf_image.specs.Written as law;

use arrayvec::ArrayVec;
use std::alloc::{AllocError, Global};

// The bytes of the two headers.
type Headers = ArrayVec<u8, 84>;

const IDENT: [u8; 16] = [0x7f, 0x45, 0x4c, 0x46, 1, 2, 1, 0, 0, 0, 0, 0, 0, 0, 0, 0];

fn put_bytes(bytes: &[u8], headers: &mut Headers)
    requires { array_vec_len headers.old + length bytes.now ≤ 84 }
    ensures items { headers.new.items ≡ headers.old.items ++ bytes.now }
    ensures len { array_vec_len headers.new ≡ array_vec_len headers.old + length bytes.now }
{
    match headers.try_extend_from_slice(bytes) {
        Ok(()) => {}
        Err(_) => unreachable!(),
    }
}

fn put_half(half: u16, headers: &mut Headers)
    requires { array_vec_len headers.old + 2 ≤ 84 }
    ensures items { headers.new.items ≡ headers.old.items ++ bytes_of_half half }
    ensures len { array_vec_len headers.new ≡ array_vec_len headers.old + 2 }
{
    put_bytes(&half.to_be_bytes(), headers);
}

fn put_word(word: u32, headers: &mut Headers)
    requires { array_vec_len headers.old + 4 ≤ 84 }
    ensures items { headers.new.items ≡ headers.old.items ++ bytes_of word }
    ensures len { array_vec_len headers.new ≡ array_vec_len headers.old + 4 }
{
    put_bytes(&word.to_be_bytes(), headers);
}

#[tactic(auto, unfolding(crate::specs::Written::elf_header))]
fn put_elf_header(entry: u32, headers: &mut Headers)
    requires { array_vec_len headers.old + 52 ≤ 84 }
    ensures items { headers.new.items ≡ headers.old.items ++ law.elf_header entry }
    ensures len { array_vec_len headers.new ≡ array_vec_len headers.old + 52 }
{
    put_bytes(&IDENT, headers);
    put_half(2, headers);
    put_half(8, headers);
    put_word(1, headers);
    put_word(entry, headers);
    put_word(52, headers);
    put_word(0, headers);
    put_word(0, headers);
    put_half(52, headers);
    put_half(32, headers);
    put_half(1, headers);
    put_half(0, headers);
    put_half(0, headers);
    put_half(0, headers);
}

#[tactic(auto, unfolding(crate::specs::Written::program_header))]
fn put_program_header(base: u32, count: u32, headers: &mut Headers)
    requires { array_vec_len headers.old + 32 ≤ 84 }
    ensures items { headers.new.items ≡ headers.old.items ++ law.program_header base count }
    ensures len { array_vec_len headers.new ≡ array_vec_len headers.old + 32 }
{
    put_word(1, headers);
    put_word(84, headers);
    put_word(base, headers);
    put_word(base, headers);
    put_word(count, headers);
    put_word(count, headers);
    put_word(7, headers);
    put_word(4, headers);
}

#[tactic(auto, unfolding(crate::specs::Written::image_of))]
fn image_bytes(alloc: Global, base: u32, entry: u32, body: &[u8]) -> Result<Vec<u8>, AllocError>
    requires { length body.now ≤ ram_size }
    ensures { IfOk result (λ image. image.items ≡ law.image_of base entry body.now) }
{
    let mut headers = Headers::new();
    put_elf_header(entry, &mut headers);
    put_program_header(base, body.len() as u32, &mut headers);
    let mut image = Vec::with_capacity(alloc, 84 + body.len())?;
    image.extend_from_slice(headers.as_slice())?;
    image.extend_from_slice(body)?;
    Ok(image)
}

/// The image of some bytes at a base, with an entry.
pub fn write_image(
    alloc: Global,
    built_base: u32,
    entry: u32,
    bytes: &[u8],
) -> Result<Vec<u8>, AllocError>
    requires { length bytes.now ≤ ram_size }
    ensures image { IfOk result (λ image. image.items ≡ law.image_of built_base entry bytes.now) }

    // It is read where its bytes have a place in RAM and it can be entered, and it gives the RAM these bytes.
    ensures accepted { has_place built_base (length bytes.now) ≡ true → can_enter entry ≡ true →
        IfOk result (λ image. image_fault image.items ≡ None) }
    ensures loads { IfOk result (λ image. (ram : List ℕ) →
        loaded image.items ram ≡ put_bytes ram (physical built_base) bytes.now) }
{
    let image = image_bytes(alloc, built_base, entry, bytes)?;
    Ok(image)
}
