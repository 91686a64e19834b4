//! The symbols and words of a line.

ghost use Rattle.std.specs.Prelude.{◌≡◌, ◌+◌, ◌<◌, ◌≤◌, false, [], ◌∷◌, length, drop, unwrap_or};
ghost use Rattle.std.specs.Prelude.{MatchOption, IfSome, OnSome, IfOk, OnErr};
ghost use Rattle.std.specs.List.{list_any, position};
ghost use Rattle.jos_shell.specs.Tokens.{is_blank, is_reserved, is_hash, spoken, tokens_from};
ghost use Rattle.jos_shell.specs.declared.tokens.Token.TheVariants.{Word};
ghost use Rattle.jos_shell.specs.Reading.{has_word_first, symbol_of, is_no_blank, ends_word};

use crate::line::SyntaxFault;
use crate::numbers::LINE_MAX;
use fs_layout::Span;

/// A symbol of the shell's language.
#[derive(Clone, Copy)]
pub(crate) enum Symbol {
    /// `<`: the next word is the file that the input comes from.
    Input,
    /// `>`: the next word is the file that the output goes to.
    Output,
    /// `|`: the output is the next command's input.
    Pipe,
    /// `;`: the job is over.
    Next,
}

/// A symbol, or a word by where it stands in the line.
#[derive(Clone, Copy)]
pub(crate) enum Token {
    Sign(Symbol),
    Word(Span),
}

/// The symbols and words of a line that are not read yet.
#[derive(Drop)]
pub(crate) struct Tokens<'a> {
    /// The bytes that are not read yet.
    rest: &'a [u8],
    /// The place in the line where they begin.
    at: usize,
}

fn is_blank(byte: u8) -> bool
    ensures { result ≡ is_blank byte }
{
    matches!(byte, b' ' | b'\t' | b'\r')
}

fn is_reserved(byte: u8) -> bool
    ensures { result ≡ is_reserved byte }
{
    matches!(byte, b'&' | b'(' | b')')
}

/// The symbol that a byte is.
fn symbol_of(byte: u8) -> Option<Symbol>
    ensures { result ≡ symbol_of byte }
{
    match byte {
        b'<' => Some(Symbol::Input),
        b'>' => Some(Symbol::Output),
        b'|' => Some(Symbol::Pipe),
        b';' => Some(Symbol::Next),
        _ => None,
    }
}

fn ends_word(byte: u8) -> bool
    ensures { result ≡ ends_word byte }
{
    symbol_of(byte).is_some() || is_blank(byte)
}

/// Where the first byte stands that is no blank.
fn end_of_blanks(bytes: &[u8]) -> Option<usize>
    ensures { result ≡ position is_no_blank bytes.now }
{
    bytes.iter().position(|byte| !is_blank(*byte))
}

/// Where the first symbol or blank stands.
fn end_of_word(bytes: &[u8]) -> Option<usize>
    ensures { result ≡ position ends_word bytes.now }
{
    bytes.iter().position(|byte| ends_word(*byte))
}

/// Where the comment begins.
fn hash(line: &[u8]) -> Option<usize>
    ensures { result ≡ position is_hash line.now }
{
    line.iter().position(|byte| *byte == b'#')
}

/// What stands in front of the comment.
pub(crate) fn spoken(line: &[u8]) -> &[u8]
    ensures exact { result.now ≡ spoken line.now }
    ensures within { length result.now ≤ length line.now }
{
    &line[..hash(line).unwrap_or(line.len())]
}

/// Whether one of `&`, `(` and `)` is among the bytes.
pub(crate) fn has_reserved(bytes: &[u8]) -> bool
    ensures { result ≡ list_any is_reserved bytes.now }
{
    bytes.iter().any(|byte| is_reserved(*byte))
}

impl<'a> Tokens<'a> {
    /// Those of what stands in front of the comment.
    pub(crate) fn of(spoken: &'a [u8]) -> Tokens<'a>
        ensures rest { result.rest.now ≡ spoken.now }
        ensures at { result.at ≡ 0 }
    {
        Tokens {
            rest: spoken,
            at: 0,
        }
    }

    /// Goes to a place in the rest, or behind the rest.
    fn pass(&mut self, place: Option<usize>)
        requires small { self.old.at + length self.old.rest.now ≤ LINE_MAX }
        requires within { IfSome place (λ at. at ≤ length self.old.rest.now) }
        ensures rest { self.new.rest.now ≡ drop (unwrap_or place (length self.old.rest.now)) self.old.rest.now }
        ensures at { self.new.at ≡ self.old.at + unwrap_or place (length self.old.rest.now) }
        ensures small { self.new.at + length self.new.rest.now ≤ LINE_MAX }
    {
        let count = place.unwrap_or(self.rest.len());
        self.rest = &self.rest[count..];
        self.at += count;
    }

    /// The next symbol or word; none at the end.
    pub(crate) fn next_token(&mut self) -> Option<Token>
        requires small { self.old.at + length self.old.rest.now ≤ LINE_MAX }
        ensures told { MatchOption result (tokens_from self.old.at self.old.rest.now ≡ []) (λ token.
            tokens_from self.old.at self.old.rest.now ≡ token ∷ tokens_from self.new.at self.new.rest.now) }
        ensures small { self.new.at + length self.new.rest.now ≤ LINE_MAX }
        ensures shorter { OnSome result (length self.new.rest.now < length self.old.rest.now) }
        ensures end { length self.new.rest.now ≤ length self.old.rest.now }
    {
        self.pass(end_of_blanks(self.rest));
        let [first, ..] = self.rest else {
            return None;
        };
        if let Some(symbol) = symbol_of(*first) {
            self.pass(Some(1));
            return Some(Token::Sign(symbol));
        }
        let from = self.at as u32;
        self.pass(end_of_word(self.rest));
        let to = self.at as u32;
        Some(Token::Word(Span { from, to }))
    }

    /// The next word, where a word stands next.
    pub(crate) fn next_word(&mut self) -> Result<Span, SyntaxFault>
        requires small { self.old.at + length self.old.rest.now ≤ LINE_MAX }
        ensures ok { IfOk result (λ word. tokens_from self.old.at self.old.rest.now ≡ Word word ∷ tokens_from self.new.at self.new.rest.now) }
        ensures err { OnErr result (has_word_first (tokens_from self.old.at self.old.rest.now) ≡ false) }
        ensures small { self.new.at + length self.new.rest.now ≤ LINE_MAX }
        ensures shorter { length self.new.rest.now ≤ length self.old.rest.now }
    {
        match self.next_token() {
            Some(Token::Word(word)) => Ok(word),
            _ => Err(SyntaxFault),
        }
    }
}
