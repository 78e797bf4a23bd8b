//! Words of a text, each as long as it can be.

ghost use Rattle.std.specs.Prelude.{◌≡◌, ℕ, ◌+◌, ◌-◌, ◌<◌, ◌≤◌, true, map, length, slice_index, IfOk};
ghost use Rattle.std.specs.Char.{to_ascii_lowercase};
ghost use Rattle.std.specs.List.{prefix_len};
ghost use Rattle.std.specs.Option.{IfSome};
ghost use Rattle.lexer.specs.Lexer.{class_of, in_run, run_end, skip, scan, sign, meaning, reserved, longest, filled, Digits, literal, name_word, number_word, word_of, Ends};

use crate::token::{Atom, Infix, Mark, Name, Token};

/// What a byte can be part of.
#[derive(Clone, Copy, PartialEq, Eq)]
pub enum Class {
    Letter,
    Digit,
    Blank,
    Sign,
    Other,
}

/// A word of a text, and the place after it.
#[derive(Clone, Copy)]
pub struct Word {
    pub token: Token,
    pub end: usize,
}

/// What stands at a place begins no word.
#[derive(Clone, Copy)]
pub struct NotAWord;

// The class of a byte.
fn class_of(b: u8) -> Class
    ensures { result ≡ class_of b }
{
    match b {
        b'A'..=b'Z' | b'a'..=b'z' => Class::Letter,
        b'0'..=b'9' => Class::Digit,
        b' ' | b'\t' | b'\r' | b'\n' => Class::Blank,
        b'+' | b'-' | b'*' | b'/' | b'=' | b';' | b'(' | b')' => Class::Sign,
        _ => Class::Other,
    }
}

/// What a word or the space between words goes on with.
// An enum and no closure: there are these three, and what is proved of each is said by its name.
#[derive(Clone, Copy)]
pub enum Run {
    Blanks,
    Number,
    Name,
}

// Whether a run goes on with a byte of the class.
fn in_run(run: Run, class: Class) -> bool
    ensures { result ≡ in_run run class }
{
    match run {
        Run::Blanks => class == Class::Blank,
        Run::Number => class == Class::Digit,
        Run::Name => class == Class::Letter || class == Class::Digit,
    }
}

// How many bytes at the front belong to a run.
fn run_len(bytes: &[u8], run: Run) -> usize
    ensures value { result ≡ prefix_len (λ b. in_run run (class_of b)) bytes.now }
    ensures within { result ≤ length bytes.now }
{
    bytes
        .iter()
        .take_while(|b| in_run(run, class_of(**b)))
        .count()
}

// The place after the longest run from `at` on; past the text's end, `at` itself.
#[tactic(auto, using(crate::proofs::Runs::run_past), unfolding(crate::specs::Lexer::run_end))]
fn run_end(text: &[u8], at: usize, run: Run) -> usize
    ensures value { result ≡ run_end run text.now at }
    ensures low { at ≤ result }
    ensures past { at < length text.now → in_run run (class_of (slice_index text.now at)) ≡ true → at < result }
    ensures high { result ≤ at + (length text.now - at) }
{
    at + text.get(at..).map_or(0, |bytes| run_len(bytes, run))
}

/// The first place from `at` on with no blank; past the text's end, `at` itself.
pub fn skip(text: &[u8], at: usize) -> usize
    ensures value { result ≡ skip text.now at }
    ensures low { at ≤ result }
    ensures high { result ≤ at + (length text.now - at) }
{
    run_end(text, at, Run::Blanks)
}

// The most bytes of a name.
const LONGEST: usize = 16;

// The greatest literal.
const GREATEST: u64 = 2147483647;

// The word of a sign.
fn sign(b: u8) -> Token
    ensures { result ≡ sign b }
{
    match b {
        b'(' => Token::Mark(Mark::Open),
        b')' => Token::Mark(Mark::Close),
        b'*' => Token::Infix(Infix::Mul),
        b'+' => Token::Infix(Infix::Add),
        b'-' => Token::Infix(Infix::Sub),
        b'/' => Token::Infix(Infix::Div),
        b';' => Token::Mark(Mark::Semicolon),
        _ => Token::Mark(Mark::Equals),
    }
}

// The words of the language, in small letters.
const WORDS: [(&[u8], Token); 30] = [
    (b"compute", Token::Mark(Mark::Compute)),
    (b"output", Token::Mark(Mark::Output)),
    (b"where", Token::Mark(Mark::Where)),
    (b"end", Token::Mark(Mark::End)),
    (b"if", Token::Mark(Mark::If)),
    (b"then", Token::Mark(Mark::Then)),
    (b"else", Token::Mark(Mark::Else)),
    (b"fby", Token::Infix(Infix::Fby)),
    (b"asa", Token::Infix(Infix::Asa)),
    (b"or", Token::Infix(Infix::Or)),
    (b"and", Token::Infix(Infix::And)),
    (b"eq", Token::Infix(Infix::Eq)),
    (b"ne", Token::Infix(Infix::Ne)),
    (b"lt", Token::Infix(Infix::Lt)),
    (b"le", Token::Infix(Infix::Le)),
    (b"gt", Token::Infix(Infix::Gt)),
    (b"ge", Token::Infix(Infix::Ge)),
    (b"not", Token::Not),
    (b"first", Token::First),
    (b"next", Token::Next),
    (b"true", Token::Atom(Atom::Truth(true))),
    (b"false", Token::Atom(Atom::Truth(false))),
    (b"input", Token::Atom(Atom::Channel(0))),
    (b"input1", Token::Atom(Atom::Channel(1))),
    (b"input2", Token::Atom(Atom::Channel(2))),
    (b"input3", Token::Atom(Atom::Channel(3))),
    (b"input4", Token::Atom(Atom::Channel(4))),
    (b"input5", Token::Atom(Atom::Channel(5))),
    (b"input6", Token::Atom(Atom::Channel(6))),
    (b"input7", Token::Atom(Atom::Channel(7))),
];

// What the word means, if it is one of the words.
#[tactic(auto, unfolding(crate::specs::Lexer::meaning))]
fn meaning(words: &[(&[u8], Token)], word: &[u8]) -> Option<Token>
    ensures { result ≡ meaning words.now word.now }
{
    words
        .iter()
        .find(|entry| entry.0 == word)
        .map(|entry| entry.1)
}

// The word of the language that small letters and digits spell, if they spell one.
fn reserved_word(word: &[u8]) -> Option<Token>
    ensures { result ≡ reserved word.now }
{
    meaning(&WORDS, word)
}

// The word in small letters, filled up with zeros.
fn filled(word: &[u8]) -> [u8; LONGEST]
    requires { length word.now ≤ longest }
    ensures { result ≡ filled (map to_ascii_lowercase word.now) }
{
    let mut bytes = [0; LONGEST];
    bytes[..word.len()].copy_from_slice(word);
    bytes.make_ascii_lowercase();
    bytes
}

// A name or a word of the language, which starts at `at`.
fn name_at(text: &[u8], at: usize) -> Result<Word, NotAWord>
    requires within { at < length text.now }
    requires letter { class_of (slice_index text.now at) ≡ Class.Letter }
    ensures value { result ≡ name_word text.now at (run_end Run.Name text.now at) }
    ensures ends { IfOk result (Ends at (length text.now)) }
{
    let end = run_end(text, at, Run::Name);
    if end - at > LONGEST {
        return Err(NotAWord);
    }
    let bytes = filled(&text[at..end]);
    let name = Token::Atom(Atom::Name(Name { bytes }));
    let token = reserved_word(&bytes[..end - at]).unwrap_or(name);
    Ok(Word { token, end })
}

// What the digits are worth, if it is not too great.
fn literal(digits: &[u8]) -> Option<u32>
    requires { Digits digits.now }
    ensures { result ≡ literal digits.now }
{
    let mut value: u64 = 0;
    for b in digits {
        value = value * 10 + (*b - b'0') as u64;
        if value > GREATEST {
            return None;
        }
    }
    Some(value as u32)
}

// A literal, which starts at `at`.
fn number_at(text: &[u8], at: usize) -> Result<Word, NotAWord>
    requires within { at < length text.now }
    requires digit { class_of (slice_index text.now at) ≡ Class.Digit }
    ensures value { result ≡ number_word text.now at (run_end Run.Number text.now at) }
    ensures ends { IfOk result (Ends at (length text.now)) }
{
    let end = run_end(text, at, Run::Number);
    let value = literal(&text[at..end]).ok_or(NotAWord)?;
    let token = Token::Atom(Atom::Literal(value));
    Ok(Word { token, end })
}

// The word at a place in the text.
// Text and place stay two parameters, here and above: `scan` and `skip` are given them apart.
fn word_at(text: &[u8], at: usize) -> Result<Word, NotAWord>
    requires { at < length text.now }
    ensures value { result ≡ word_of (class_of (slice_index text.now at)) text.now at }
    ensures ends { IfOk result (Ends at (length text.now)) }
{
    match class_of(text[at]) {
        Class::Letter => name_at(text, at),
        Class::Digit => number_at(text, at),
        Class::Sign => Ok(Word {
            token: sign(text[at]),
            end: at + 1,
        }),
        Class::Blank | Class::Other => Err(NotAWord),
    }
}

/// The word at a place with no blank; none at the text's end.
#[tactic(auto, unfolding(crate::specs::Lexer::scan))]
pub fn scan(text: &[u8], at: usize) -> Result<Option<Word>, NotAWord>
    ensures value { result ≡ scan text.now at }
    ensures ends { IfOk result (λ found. IfSome found (Ends at (length text.now))) }
{
    if at < text.len() {
        Ok(Some(word_at(text, at)?))
    } else {
        Ok(None)
    }
}
