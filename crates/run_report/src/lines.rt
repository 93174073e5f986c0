//! The lines of the report, each a text of bounded room.

ghost use Rattle.std.specs.Prelude.{◌≡◌, ◌<◌, ◌≤◌, ◌+◌, ◌*◌, ◌++◌, length};
ghost use Rattle.arrayvec.specs.ArrayVec.{array_vec_len};
ghost use Rattle.run_report.specs.Report as law;

use cp0_regs::Cp0;
use cp0_regs::registers::shown_numbers;
use mips3_alu::Regs;
use r4_words::{Line, put_dec, put_hex, put_text};
use tlb_model::Pair;

// Appends a label and so many hexadecimal digits of a number.
fn put_labelled(label: &[u8], digits: u32, number: u64, line: &mut Line)
    requires { array_vec_len line.old + (length label.now + digits) ≤ 128 }
    ensures items { line.new.items ≡ line.old.items ++ law.labelled label.now digits number }
    ensures len { array_vec_len line.new ≡ array_vec_len line.old + (length label.now + digits) }
{
    put_text(label, line);
    put_hex(number, digits, line);
}

// Appends a bit as a digit.
fn put_bit(bit: bool, line: &mut Line)
    requires { array_vec_len line.old < 128 }
    ensures items { line.new.items ≡ line.old.items ++ law.bit_digit bit }
    ensures len { array_vec_len line.new ≡ array_vec_len line.old + 1 }
{
    line.push(if bit { b'1' } else { b'0' });
}

// Appends two decimal digits of a number.
fn put_two_digits(number: u8, line: &mut Line)
    requires room { array_vec_len line.old + 2 ≤ 128 }
    requires small { number < 100 }
    ensures items { line.new.items ≡ line.old.items ++ law.two_digits number }
    ensures len { array_vec_len line.new ≡ array_vec_len line.old + 2 }
{
    put_text(&[b'0' + number / 10, b'0' + number % 10], line);
}

/// The tick count, and how the run ended.
#[tactic(auto, unfolding(crate::specs::Report::ticks_line))]
pub fn ticks_line(ticks: u32, halt: Option<u32>) -> Line
    ensures text { result.items ≡ law.ticks_line ticks halt }
{
    let mut line = Line::new();
    put_text(b"ticks ", &mut line);
    put_dec(u64::from(ticks), &mut line);
    match halt {
        Some(code) => {
            put_labelled(b" halt ", 8, u64::from(code), &mut line);
            put_text(b"\n", &mut line);
        }
        None => put_text(b" bound\n", &mut line),
    }
    line
}

/// Where the processor stands.
#[tactic(auto, unfolding(crate::specs::Report::pc_line))]
pub fn pc_line(pc: u32, npc: u32, slot: bool, link: bool) -> Line
    ensures text { result.items ≡ law.pc_line pc npc slot link }
{
    let mut line = Line::new();
    put_labelled(b"pc ", 8, u64::from(pc), &mut line);
    put_labelled(b" npc ", 8, u64::from(npc), &mut line);
    put_text(b" slot ", &mut line);
    put_bit(slot, &mut line);
    put_text(b" link ", &mut line);
    put_bit(link, &mut line);
    put_text(b"\n", &mut line);
    line
}

/// HI and LO.
#[tactic(auto, unfolding(crate::specs::Report::halves_line))]
pub fn halves_line(regs: &Regs) -> Line
    ensures text { result.items ≡ law.halves_line regs.now }
{
    let mut line = Line::new();
    put_labelled(b"hi ", 16, regs.hi, &mut line);
    put_labelled(b" lo ", 16, regs.lo, &mut line);
    put_text(b"\n", &mut line);
    line
}

/// Four general registers, from one on.
#[tactic(auto, unfolding(crate::specs::Report::register_line))]
pub fn register_line(regs: &Regs, at: usize) -> Line
    requires { at + 4 ≤ 32 }
    ensures text { result.items ≡ law.register_line regs.now at }
{
    let mut line = Line::new();
    put_text(b"r", &mut line);
    put_two_digits(at as u8, &mut line);
    put_labelled(b" ", 16, regs.r[at], &mut line);
    put_labelled(b" ", 16, regs.r[at + 1], &mut line);
    put_labelled(b" ", 16, regs.r[at + 2], &mut line);
    put_labelled(b" ", 16, regs.r[at + 3], &mut line);
    put_text(b"\n", &mut line);
    line
}

// Appends four numbers of 32 bits, each after a blank, and the line's end.
#[tactic(auto, unfolding(crate::specs::Report::four_numbers))]
fn put_four(numbers: [u32; 4], line: &mut Line)
    requires { array_vec_len line.old + 37 ≤ 128 }
    ensures items { line.new.items ≡ line.old.items ++ law.four_of numbers }
    ensures len { array_vec_len line.new ≡ array_vec_len line.old + 37 }
{
    put_labelled(b" ", 8, u64::from(numbers[0]), line);
    put_labelled(b" ", 8, u64::from(numbers[1]), line);
    put_labelled(b" ", 8, u64::from(numbers[2]), line);
    put_labelled(b" ", 8, u64::from(numbers[3]), line);
    put_text(b"\n", line);
}

// What the register of CP0 at a place of the table's order holds.
fn held_at(cp0: &Cp0, place: usize) -> u32
    requires { place < 20 }
    ensures { result ≡ law.held_at cp0.now place }
{
    cp0.read(shown_numbers()[place])
}

/// Four registers of CP0, from a place of the table's order on.
#[tactic(auto, unfolding(crate::specs::Report::system_line))]
pub fn system_line(cp0: &Cp0, at: usize) -> Line
    requires { at + 4 ≤ 20 }
    ensures text { result.items ≡ law.system_line cp0.now at }
{
    let mut line = Line::new();
    put_text(b"c", &mut line);
    put_dec(u64::from(shown_numbers()[at]), &mut line);
    put_four(
        [
            held_at(cp0, at),
            held_at(cp0, at + 1),
            held_at(cp0, at + 2),
            held_at(cp0, at + 3),
        ],
        &mut line,
    );
    line
}

/// A pair of the TLB under its number; nothing where the pair is all zero.
#[tactic(auto, unfolding(crate::specs::Report::pair_line))]
pub fn pair_line(at: u8, pair: Pair) -> Line
    requires { at < 100 }
    ensures text { result.items ≡ law.pair_line at pair }
{
    let mut line = Line::new();
    if pair.mask == 0 && pair.hi == 0 && pair.lo0 == 0 && pair.lo1 == 0 {
        return line;
    }
    put_text(b"tlb ", &mut line);
    put_two_digits(at, &mut line);
    put_four([pair.mask, pair.hi, pair.lo0, pair.lo1], &mut line);
    line
}

/// The disk's registers.
#[tactic(auto, unfolding(crate::specs::Report::disk_line))]
pub fn disk_line(sector: u32, address: u32, status: u32) -> Line
    ensures text { result.items ≡ law.disk_line sector address status }
{
    let mut line = Line::new();
    put_labelled(b"disk ", 8, u64::from(sector), &mut line);
    put_labelled(b" ", 8, u64::from(address), &mut line);
    put_labelled(b" ", 1, u64::from(status), &mut line);
    put_text(b"\n", &mut line);
    line
}

/// How many bytes the console has printed.
#[tactic(auto, unfolding(crate::specs::Report::out_line))]
pub fn out_line(count: usize) -> Line
    ensures text { result.items ≡ law.out_line count }
{
    let mut line = Line::new();
    put_text(b"out ", &mut line);
    put_dec(count as u64, &mut line);
    put_text(b"\n", &mut line);
    line
}

// Appends two hexadecimal digits for each of at most 32 bytes.
#[tactic(auto, using(std::proofs::lemmas::Grind::common_steps))]
fn put_bytes(bytes: &[u8], line: &mut Line)
    requires room { array_vec_len line.old + 2 * length bytes.now ≤ 128 }
    ensures items { line.new.items ≡ line.old.items ++ law.digits_of_bytes bytes.now }
    ensures len { array_vec_len line.new ≡ array_vec_len line.old + 2 * length bytes.now }
{
    for byte in bytes {
        put_hex(u64::from(*byte), 2, line);
    }
}

/// Up to 32 bytes of the console.
#[tactic(auto, unfolding(crate::specs::Report::bytes_line))]
pub fn bytes_line(bytes: &[u8]) -> Line
    requires { length bytes.now ≤ 32 }
    ensures text { result.items ≡ law.bytes_line bytes.now }
{
    let mut line = Line::new();
    put_text(b": ", &mut line);
    put_bytes(bytes, &mut line);
    put_text(b"\n", &mut line);
    line
}
