//! Reads a text, and fills the table while it reads.

ghost use Rattle.std.specs.Prelude.{◌≡◌, ℕ, ◌+◌, ◌<◌, ◌≤◌, length, IfOk};
ghost use Rattle.std.specs.Option.{IfSome};
ghost use Rattle.grammar.specs.Grammar.{atom_level};
ghost use Rattle.lexer.specs.Lexer.{skip, Ends};
ghost use Rattle.syntax.specs.Judgement.{Due, Ended, HeaderRead, EquationRead, EquationsRead, FinishRead, Judged};
ghost use Rattle.syntax.specs.Reading.{limit, Passed, Peeked, Took, Marked, Moved, HeadRead, AnotherRead, OperandRead, ExpressionRead, InfixRead, Begins};

use crate::draft::{Draft, Node, empty, node_of};
use crate::refusal::Refusal;
use grammar::{ATOM, CHOICE, levels_of, names, prefix_level, prefix_of, takes};
use lexer::{Atom, Infix, Mark, Token, Word, scan, skip};

// The most bytes of a text.
const MOST: usize = 4096;

// The most brackets that may be open at once.
const LIMIT: usize = 16;

// An expression: its level, and what it is at its outermost operator.
#[derive(Clone, Copy)]
pub struct Part {
    level: u8,
    node: Node,
}

// Where an expression stands: the lowest level that it may have, and how many brackets are open around it.
#[derive(Clone, Copy)]
pub struct Context {
    level: u8,
    depth: usize,
    ghost low: { level ≤ atom_level },
    ghost within_limit: { depth ≤ limit },
}

// A text, the place of the next word, and the table of what was read.
// Each method says that the text stays: held apart from the reader, it would be one more parameter of each.
// Three methods ask that a given word was just passed: true of a reader at that call only, it is no fact of its type.
#[derive(Drop)]
pub struct Reader<'a> {
    text: &'a [u8],
    place: usize,
    draft: Draft,
}

impl<'a> Reader<'a> {
    // The next word, which is not passed; none at the text's end.
    fn peek(&self) -> Result<Option<Word>, Refusal>
        ensures peeked { Peeked self.now.text.now self.now.place result }
        ensures ends { IfOk result (λ found. IfSome found (Ends self.now.place (length self.now.text.now))) }
    {
        let at = self.place;
        scan(self.text, at).map_err(|_| Refusal::NoWord(at))
    }

    // The next word, which is passed.
    fn word(&mut self) -> Result<Token, Refusal>
        ensures text { self.new.text ≡ self.old.text }
        ensures moved { Moved (length self.old.text.now) self.old.place self.new.place result }
        ensures took { Took self.old.text.now self.old.place self.new.place result }
    {
        let word = self.peek()?.ok_or(Refusal::Unexpected(self.place))?;
        self.place = skip(self.text, word.end);
        Ok(word.token)
    }

    // The next word, which has to be the mark.
    fn expect(&mut self, mark: Mark) -> Result<(), Refusal>
        ensures text { self.new.text ≡ self.old.text }
        ensures moved { Moved (length self.old.text.now) self.old.place self.new.place result }
        ensures marked { Marked self.old.text.now self.old.place self.new.place mark result }
    {
        let at = self.place;
        let Token::Mark(found) = self.word()? else {
            return Err(Refusal::Unexpected(at));
        };
        if found == mark {
            Ok(())
        } else {
            Err(Refusal::Unexpected(at))
        }
    }

    // The operator, if one goes on with an expression; it is passed.
    fn infix(&mut self, min: u8, level: u8) -> Result<Option<Infix>, Refusal>
        ensures text { self.new.text ≡ self.old.text }
        ensures high { self.old.place ≤ length self.old.text.now → self.new.place ≤ length self.old.text.now }
        ensures read { InfixRead self.old.text.now min level self.old.place self.new.place result }
    {
        let Some(word) = self.peek()? else {
            return Ok(None);
        };
        let Some(op) = takes(min, level, word.token) else {
            return Ok(None);
        };
        self.place = skip(self.text, word.end);
        Ok(Some(op))
    }

    // A bracketed expression, whose bracket, at `at`, is passed.
    #[cycle(expression)]
    fn bracket(&mut self, context: Context, at: usize) -> Result<Part, Refusal>
        requires passed { Passed self.old.text.now at self.old.place (Token.Mark Mark.Open) }
        ensures text { self.new.text ≡ self.old.text }
        ensures moved { Moved (length self.old.text.now) self.old.place self.new.place result }
        ensures read { OperandRead self.old.text.now context.level at context.depth self.new.place result }
    {
        if context.depth >= LIMIT {
            return Err(Refusal::TooDeep(at));
        }
        let inner = self.expression(Context {
            level: 1,
            depth: context.depth + 1,
        })?;
        self.expect(Mark::Close)?;
        Ok(Part {
            level: ATOM,
            node: inner.node,
        })
    }

    // An `if`, whose first word, at `at`, is passed.
    #[cycle(expression)]
    fn choice(&mut self, context: Context, at: usize) -> Result<Part, Refusal>
        requires passed { Passed self.old.text.now at self.old.place (Token.Mark Mark.If) }
        ensures text { self.new.text ≡ self.old.text }
        ensures moved { Moved (length self.old.text.now) self.old.place self.new.place result }
        ensures read { OperandRead self.old.text.now context.level at context.depth self.new.place result }
    {
        if context.level > CHOICE {
            return Err(Refusal::Unexpected(at));
        }
        let context = Context {
            level: CHOICE,
            depth: context.depth,
        };
        let test = self.expression(context)?;
        let test = self.draft.place(test.node);
        self.expect(Mark::Then)?;
        let branch = self.expression(context)?;
        let branch = self.draft.place(branch.node);
        self.expect(Mark::Else)?;
        let other = self.expression(context)?;
        let other = self.draft.place(other.node);
        Ok(Part {
            level: CHOICE,
            node: Node::Choice(test, branch, other),
        })
    }

    // An operator and its operand, whose first word, `token` at `at`, is passed.
    #[cycle(expression)]
    fn prefix(&mut self, context: Context, at: usize, token: Token) -> Result<Part, Refusal>
        requires passed { Passed self.old.text.now at self.old.place token }
        requires begins { Begins token }
        ensures text { self.new.text ≡ self.old.text }
        ensures moved { Moved (length self.old.text.now) self.old.place self.new.place result }
        ensures read { OperandRead self.old.text.now context.level at context.depth self.new.place result }
    {
        let op = prefix_of(token).ok_or(Refusal::Unexpected(at))?;
        let level = prefix_level(op);
        if context.level > level {
            return Err(Refusal::Unexpected(at));
        }
        let inner = self.expression(Context {
            level,
            depth: context.depth,
        })?;
        let inner = self.draft.place(inner.node);
        Ok(Part {
            level,
            node: Node::Prefix(op, inner),
        })
    }

    // The first part of an expression, up to where an operator may follow.
    #[cycle(expression)]
    fn operand(&mut self, context: Context) -> Result<Part, Refusal>
        ensures text { self.new.text ≡ self.old.text }
        ensures moved { Moved (length self.old.text.now) self.old.place self.new.place result }
        ensures read { OperandRead self.old.text.now context.level self.old.place context.depth self.new.place result }
    {
        let at = self.place;
        match self.word()? {
            Token::Atom(atom) => Ok(Part {
                level: ATOM,
                node: node_of(atom, at),
            }),
            Token::Mark(mark) => match mark {
                Mark::Open => self.bracket(context, at),
                Mark::If => self.choice(context, at),
                _ => Err(Refusal::Unexpected(at)),
            },
            token => self.prefix(context, at, token),
        }
    }

    // An expression, as far as it goes.
    #[cycle(expression)]
    fn expression(&mut self, context: Context) -> Result<Part, Refusal>
        ensures text { self.new.text ≡ self.old.text }
        ensures moved { Moved (length self.old.text.now) self.old.place self.new.place result }
        ensures read { ExpressionRead self.old.text.now context.level self.old.place context.depth self.new.place result }
    {
        let mut part = self.operand(context)?;
        while let Some(op) = self.infix(context.level, part.level)? {
            let levels = levels_of(op);
            let left = self.draft.place(part.node);
            let right = self.expression(Context {
                level: levels.right,
                depth: context.depth,
            })?;
            let right = self.draft.place(right.node);
            part = Part {
                level: levels.own,
                node: Node::Infix(op, left, right),
            };
        }
        Ok(part)
    }

    // The left side of an equation: a name or a channel.
    fn head(&mut self) -> Result<Atom, Refusal>
        ensures text { self.new.text ≡ self.old.text }
        ensures moved { Moved (length self.old.text.now) self.old.place self.new.place result }
        ensures read { HeadRead self.old.text.now self.old.place self.new.place result }
    {
        let at = self.place;
        let Token::Atom(atom) = self.word()? else {
            return Err(Refusal::Unexpected(at));
        };
        if names(atom) {
            Ok(atom)
        } else {
            Err(Refusal::Unexpected(at))
        }
    }

    // Whether another equation follows, after one; the semicolon or `end` is passed.
    fn another(&mut self) -> Result<bool, Refusal>
        ensures text { self.new.text ≡ self.old.text }
        ensures moved { Moved (length self.old.text.now) self.old.place self.new.place result }
        ensures read { AnotherRead self.old.text.now self.old.place self.new.place result }
    {
        let at = self.place;
        let Token::Mark(mark) = self.word()? else {
            return Err(Refusal::Unexpected(at));
        };
        match mark {
            Mark::Semicolon => Ok(true),
            Mark::End => {
                self.draft.end = at;
                Ok(false)
            }
            _ => Err(Refusal::Unexpected(at)),
        }
    }

    // The words before the first equation.
    fn header(&mut self) -> Result<(), Refusal>
        requires first { self.old.place ≡ skip self.old.text.now 0 }
        ensures text { self.new.text ≡ self.old.text }
        ensures moved { Moved (length self.old.text.now) self.old.place self.new.place result }
        ensures read { HeaderRead self.old.text.now self.new.place result }
    {
        self.expect(Mark::Compute)?;
        self.expect(Mark::Output)?;
        self.expect(Mark::Where)
    }

    // An equation, with the semicolon or `end` after it; whether another follows.
    fn equation(&mut self) -> Result<bool, Refusal>
        requires due { Due self.old.text.now self.old.place }
        ensures text { self.new.text ≡ self.old.text }
        ensures moved { Moved (length self.old.text.now) self.old.place self.new.place result }
        ensures read { EquationRead self.old.text.now self.new.place result }
    {
        let at = self.place;
        let head = self.head()?;
        self.expect(Mark::Equals)?;
        let part = self.expression(Context { level: 1, depth: 0 })?;
        self.draft.define(head, at, part.node);
        self.another()
    }

    // All equations, with `end` after the last.
    fn equations(&mut self) -> Result<(), Refusal>
        requires due { Due self.old.text.now self.old.place }
        ensures text { self.new.text ≡ self.old.text }
        ensures moved { Moved (length self.old.text.now) self.old.place self.new.place result }
        ensures read { EquationsRead self.old.text.now self.new.place result }
    {
        while self.equation()? {}
        Ok(())
    }

    // Whether nothing follows the text.
    fn finish(&self) -> Result<(), Refusal>
        requires ended { Ended self.now.text.now self.now.place }
        ensures { FinishRead self.now.text.now result }
    {
        match self.peek()? {
            Some(_) => Err(Refusal::Unexpected(self.place)),
            None => Ok(()),
        }
    }
}

/// The table of a text, its names not yet looked up.
pub fn parse(text: &[u8]) -> Result<Draft, Refusal>
    ensures { Judged text.now result }
{
    if text.len() > MOST {
        return Err(Refusal::TooLong);
    }
    let mut reader = Reader {
        text,
        place: skip(text, 0),
        draft: empty(),
    };
    reader.header()?;
    reader.equations()?;
    reader.finish()?;
    Ok(reader.draft)
}
