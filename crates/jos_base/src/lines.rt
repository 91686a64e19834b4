//! Lines of text in a fixed room, so that printing takes no memory.

ghost use Rattle.std.specs.Prelude.{◌≡◌, ◌+◌, ◌<◌, ◌≤◌, ◌==◌, ◌++◌, not, length, position, IfSome, decimal};
ghost use Rattle.arrayvec.specs.ArrayVec.{array_vec_len};
ghost use Rattle.jos_base.specs.Lines.{hex_digit, hex_word, hex, user_fault_line, user_mem_check_line, trap_line, trace_line, line_text};

use crate::environment::EnvId;
use crate::line::Line;
use arrayvec::ArrayVec;
use itoa::Buffer;

/// The room for a line; the longest has fewer bytes.
pub const LINE_MAX: usize = 128;

/// A line as it is built.
pub type LineText = ArrayVec<u8, LINE_MAX>;

/// Adds a text.
pub fn push_text(line: &mut LineText, text: &[u8])
    requires { array_vec_len line.old + length text.now ≤ LINE_MAX }
    ensures { line.new.items ≡ line.old.items ++ text.now }
{
    line.try_extend_from_slice(text).unwrap();
}

/// A digit in lower case.
fn hex_digit(n: u32) -> u8
    requires { n < 16 }
    ensures { result ≡ hex_digit n }
{
    if n < 10 {
        n as u8 + b'0'
    } else {
        n as u8 + (b'a' - 10)
    }
}

/// The eight digits of a word, the highest first.
#[tactic(auto, unfolding(crate::specs::Lines::hex_word))]
fn hex_word(n: u32) -> [u8; 8]
    ensures { result ≡ hex_word n }
{
    [
        hex_digit(n / (1 << 28)),
        hex_digit(n / (1 << 24) % 16),
        hex_digit(n / (1 << 20) % 16),
        hex_digit(n / (1 << 16) % 16),
        hex_digit(n / (1 << 12) % 16),
        hex_digit(n / (1 << 8) % 16),
        hex_digit(n / (1 << 4) % 16),
        hex_digit(n % 16),
    ]
}

/// Adds a word as eight hexadecimal digits.
pub fn push_hex_word(line: &mut LineText, n: u32)
    requires { array_vec_len line.old + 8 ≤ LINE_MAX }
    ensures text { line.new.items ≡ line.old.items ++ hex_word n }
    ensures len { array_vec_len line.new ≡ array_vec_len line.old + 8 }
{
    let digits = hex_word(n);
    push_text(line, &digits);
}

/// The place of the first digit that is not `0`.
fn first_digit(digits: &[u8]) -> Option<usize>
    ensures exact { result ≡ position (λ digit. not (digit == 48)) digits.now }
    ensures within { IfSome result (λ place. place < length digits.now) }
{
    digits.iter().position(|digit| *digit != b'0')
}

/// Adds a word in hexadecimal digits without leading zeros.
#[tactic(auto, unfolding(crate::specs::Lines::hex, crate::specs::Lines::hex_word))]
fn push_hex(line: &mut LineText, n: u32)
    requires { array_vec_len line.old + 8 ≤ LINE_MAX }
    ensures text { line.new.items ≡ line.old.items ++ hex n }
    ensures len { array_vec_len line.new ≤ array_vec_len line.old + 8 }
{
    let digits = hex_word(n);
    let first = first_digit(&digits[..7]).unwrap_or(7);
    push_text(line, &digits[first..]);
}

/// Adds a number in decimal digits.
pub fn push_decimal(line: &mut LineText, n: u64)
    requires { array_vec_len line.old + 20 ≤ LINE_MAX }
    ensures text { line.new.items ≡ line.old.items ++ decimal n }
    ensures len { array_vec_len line.new ≤ array_vec_len line.old + 20 }
{
    let mut buffer = Buffer::new();
    push_text(line, buffer.format(n).as_bytes());
}

/// The line of a page fault.
#[tactic(auto, unfolding(crate::specs::Lines::user_fault_line))]
fn user_fault_line(id: u32, va: u32, ip: u32) -> LineText
    ensures { result.items ≡ user_fault_line id va ip }
{
    let mut line = LineText::new();
    push_text(&mut line, b"[");
    push_hex_word(&mut line, id);
    push_text(&mut line, b"] user fault va ");
    push_hex_word(&mut line, va);
    push_text(&mut line, b" ip ");
    push_hex_word(&mut line, ip);
    push_text(&mut line, b"\n");
    line
}

/// The line of a buffer that can't be read.
#[tactic(auto, unfolding(crate::specs::Lines::user_mem_check_line))]
fn user_mem_check_line(id: u32, va: u32) -> LineText
    ensures { result.items ≡ user_mem_check_line id va }
{
    let mut line = LineText::new();
    push_text(&mut line, b"[");
    push_hex_word(&mut line, id);
    push_text(&mut line, b"] user_mem_check assertion failure for va ");
    push_hex_word(&mut line, va);
    push_text(&mut line, b"\n");
    line
}

/// The line of any other trap.
#[tactic(auto, unfolding(crate::specs::Lines::trap_line))]
fn trap_line(id: u32, trap: u8, error: u32, ip: u32) -> LineText
    ensures { result.items ≡ trap_line id trap error ip }
{
    let mut line = LineText::new();
    push_text(&mut line, b"[");
    push_hex_word(&mut line, id);
    push_text(&mut line, b"] trap ");
    push_decimal(&mut line, trap as u64);
    push_text(&mut line, b" err ");
    push_hex(&mut line, error);
    push_text(&mut line, b" ip ");
    push_hex_word(&mut line, ip);
    push_text(&mut line, b"\n");
    line
}

/// The line by which a list of traps tells of one: whose it was, its number and error code, the address of a page fault or
/// else 0, and the address that it is told for.
#[tactic(auto, unfolding(crate::specs::Lines::trace_line))]
pub fn trace_line(id: EnvId, trap: u8, error: u32, va: u32, ip: u32) -> LineText
    ensures { result.items ≡ trace_line id.0 trap error va ip }
{
    let mut line = LineText::new();
    push_text(&mut line, b"[");
    push_hex_word(&mut line, id.0);
    push_text(&mut line, b"] trap ");
    push_decimal(&mut line, trap as u64);
    push_text(&mut line, b" err ");
    push_hex(&mut line, error);
    push_text(&mut line, b" va ");
    push_hex_word(&mut line, va);
    push_text(&mut line, b" ip ");
    push_hex_word(&mut line, ip);
    push_text(&mut line, b"\n");
    line
}

/// The line of an environment's end. (MIT 6.828, kern/trap.c and kern/pmap.c)
pub fn line_text(id: EnvId, line: Line) -> LineText
    ensures { result.items ≡ line_text id.0 line }
{
    match line {
        Line::UserFault { va, ip } => user_fault_line(id.0, va, ip),
        Line::UserMemCheck { va } => user_mem_check_line(id.0, va),
        Line::Trap { trap, error, ip } => trap_line(id.0, trap, error, ip),
    }
}
