//! The first page of a program's stack, with the words that it is given.

ghost use Rattle.std.specs.Prelude.{◌≡◌, ◌+◌, ◌-◌, ◌*◌, ◌^◌, ◌<◌, ◌≤◌, ◌++◌, length, true, replicate, min, map};
ghost use Rattle.std.specs.Int.{w32, to_le_bytes};
ghost use Rattle.jos_base.specs.TrapFrames.{bytes_of_words};
ghost use Rattle.jos_elf.specs.StackPage.{strings_of, addresses_from, strings_size, in_words, stack_size};
ghost use Rattle.jos_elf.specs.StackPage.{stack_pointer, stack_contents, fits_stack};

use arrayvec::ArrayVec;
use jos_base::{PGSIZE, USTACKTOP};
use jos_elf::ARGS_MAX;

/// The room for them: a page.
pub const STACK_ROOM: usize = 4096;

/// What stands on the stack as it is built.
pub type StackBytes = ArrayVec<u8, STACK_ROOM>;

// ---- how much room the words take

/// How many bytes the strings have; one more than a page where there are more.
fn strings_size(words: &[&str]) -> usize
    ensures { result ≡ min (strings_size (map (λ w. w.now) words.now)) (PGSIZE + 1) }
{
    let mut size = 0;
    for word in words {
        size = (size + word.len().min(PGSIZE as usize) + 1).min(PGSIZE as usize + 1);
    }
    size
}

/// Whether a program may be given these words.
pub fn fits_stack(words: &[&str]) -> bool
    ensures { result ≡ fits_stack (map (λ w. w.now) words.now) }
{
    let count = words.len();
    let size = strings_size(words);
    if count == 0 || count > ARGS_MAX || size > PGSIZE as usize {
        return false;
    }
    (size + 3) / 4 * 4 + 4 * (count + 1) + 8 <= PGSIZE as usize
}

/// How many bytes stand on the stack of a program that is given these words.
pub fn stack_size(words: &[&str]) -> u32
    requires { fits_stack (map (λ w. w.now) words.now) ≡ true }
    ensures size { result ≡ stack_size (map (λ w. w.now) words.now) }
    ensures most { result ≤ PGSIZE }
{
    let size = strings_size(words) as u32;
    (size + 3) / 4 * 4 + 4 * (words.len() as u32 + 1) + 8
}

/// Where its stack pointer stands.
pub fn stack_pointer(words: &[&str]) -> u32
    requires { fits_stack (map (λ w. w.now) words.now) ≡ true }
    ensures { result ≡ stack_pointer (map (λ w. w.now) words.now) }
{
    USTACKTOP - stack_size(words)
}

// ---- what stands there

/// Adds bytes.
fn push_bytes(page: &mut StackBytes, bytes: &[u8])
    requires { length page.old.items + length bytes.now ≤ STACK_ROOM }
    ensures { page.new.items ≡ page.old.items ++ bytes.now }
{
    page.try_extend_from_slice(bytes).unwrap();
}

/// Adds a word.
fn push_word(page: &mut StackBytes, word: u32)
    requires { length page.old.items + 4 ≤ STACK_ROOM }
    ensures { page.new.items ≡ page.old.items ++ to_le_bytes w32 word }
{
    push_bytes(page, &word.to_le_bytes());
}

/// Adds the addresses of the strings, the first of which stands at this one, and a 0.
fn push_addresses(page: &mut StackBytes, words: &[&str], first: u32)
    requires room { length page.old.items + 4 * (length words.now + 1) ≤ STACK_ROOM }
    requires below { first + strings_size (map (λ w. w.now) words.now) < 2 ^ 32 }
    ensures { page.new.items ≡ page.old.items ++ bytes_of_words (addresses_from first (map (λ w. w.now) words.now)) }
{
    let mut at = first;
    for word in words {
        push_word(page, at);
        at += word.len() as u32 + 1;
    }
    push_word(page, 0);
}

/// Adds the strings.
fn push_strings(page: &mut StackBytes, words: &[&str])
    requires { length page.old.items + strings_size (map (λ w. w.now) words.now) ≤ STACK_ROOM }
    ensures { page.new.items ≡ page.old.items ++ strings_of (map (λ w. w.now) words.now) }
{
    for word in words {
        push_bytes(page, word.as_bytes());
        page.push(0);
    }
}

/// What stands from the stack pointer up to the top of the stack of a program that is given these words.
pub fn stack_contents(words: &[&str]) -> StackBytes
    requires { fits_stack (map (λ w. w.now) words.now) ≡ true }
    ensures bytes { result.items ≡ stack_contents (map (λ w. w.now) words.now) }
    ensures size { length result.items ≡ stack_size (map (λ w. w.now) words.now) }
{
    let size = strings_size(words) as u32;
    let padding = (size + 3) / 4 * 4 - size;
    let mut page = StackBytes::new();
    push_word(&mut page, words.len() as u32);
    push_word(&mut page, stack_pointer(words) + 8);
    push_addresses(&mut page, words, USTACKTOP - size);
    push_bytes(&mut page, &[0; 3][..padding as usize]);
    push_strings(&mut page, words);
    page
}
