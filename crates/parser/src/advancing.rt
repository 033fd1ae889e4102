// The parser's small steps.
ghost use Rattle.std.specs.Prelude.{◌≡◌, ◌+◌, ◌<◌, ◌≤◌, true, false, length};
ghost use Rattle.grammar.specs.Tokens.{same};
ghost use Rattle.grammar.specs.declared.symbols.Mark.TheVariants.{Stop};
ghost use Rattle.lexer.specs.Lexemes.{meant};
ghost use Rattle.lexer.specs.Scan.{is_stop};
ghost use Rattle.parser.specs.Feeds.{next, Ready};
ghost use Rattle.parser.specs.Advancing.{is_mark, plain, refuses, Advanced, Expected, Named, Listed, Deepened, Opened};
ghost use Rattle.parser.specs.Fetching.{Fetches, Begun, onto, counting};

use crate::depth::{Depth, MAX_DEPTH};
use crate::names::Names;
use crate::parser::Parser;
use grammar::symbols::{Mark, Prefix};
use lexer::cursor::Cursor;
use lexer::token::{Lexeme, Question, Refusal, Token};
use tosca::table::{Entry, Node};

impl<'a> Parser<'a> {
    // The parser at the first token of a text.
    pub fn new(text: &'a [u8]) -> Result<Parser<'a>, Refusal>
        requires { length text.now ≤ 16384 }
        ensures { Begun text.now result }
    {
        let first = Cursor::new(text).next_limited()?;
        Ok(Parser::at(first, Names::new()))
    }

    // The parser with the lexeme as its next, and no nodes.
    fn at(lookahead: Lexeme<'a>, names: Names<'a>) -> Parser<'a>
        ensures { result ≡ onto lookahead.entry names.entry 0 }
    {
        Parser {
            lookahead,
            names,
            count: 0,
        }
    }

    // The refusal of the next token.
    pub fn refuse(&self, question: Question) -> Refusal
        ensures { result ≡ refuses question self.now.lookahead.place }
    {
        Refusal {
            question,
            place: self.lookahead.place,
        }
    }

    // Replaces the next token by the one after it; names and nodes stay as they are.
    fn fetch(&mut self) -> Result<(), Refusal>
        requires { (self.old.lookahead.end.place + length self.old.lookahead.end.rest.now ≤ 16384) × (is_stop (meant self.old.lookahead.token) ≡ false) }
        ensures { Fetches self.old self.new result }
    {
        let lexeme = self.lookahead.end.next_limited()?;
        self.put(lexeme);
        Ok(())
    }

    // Makes the lexeme the next.
    fn put(&mut self, lexeme: Lexeme<'a>)
        ensures { self.new ≡ onto lexeme.entry self.old.names self.old.count }
    {
        self.lookahead = lexeme;
    }

    // Goes on to the next token, from any but a name and the end.
    pub fn advance(&mut self) -> Result<(), Refusal>
        requires { (Ready self.old) × (plain (meant self.old.lookahead.token) ≡ true) }
        ensures { Advanced self.old (next self.old) self.new result }
    {
        self.fetch()
    }

    // Reads a name, and gives its number; the program's own has none, and gets 0.
    pub fn name(&mut self) -> Result<u16, Refusal>
        requires { Ready self.old }
        ensures { Named self.old self.new result }
    {
        let Token::Name(word) = self.lookahead.token else {
            return Err(self.refuse(Question::Grammar));
        };
        let Some(number) = self.names.number(word) else {
            return Err(self.refuse(Question::NameCount));
        };
        self.fetch()?;
        Ok(number)
    }

    // Whether the next token is this mark.
    pub fn is_at(&self, mark: Mark) -> bool
        ensures { result ≡ is_mark mark (next self.now) }
    {
        matches!(self.lookahead.token, Token::Mark(found) if found == mark)
    }

    // Reads the mark, which alone may stand here.
    pub fn expect(&mut self, mark: Mark) -> Result<(), Refusal>
        requires { (Ready self.old) × (same mark Stop ≡ false) }
        ensures { Expected mark self.old self.new result }
    {
        if self.is_at(mark) {
            return self.advance();
        }
        Err(self.refuse(Question::Grammar))
    }

    // Reads an opening bracket, which alone may stand here.
    pub fn open(&mut self) -> Result<(), Refusal>
        requires { Ready self.old }
        ensures { Opened self.old self.new result }
    {
        match self.lookahead.token {
            Token::Prefix(Prefix::Open) => self.advance(),
            _ => Err(self.refuse(Question::Grammar)),
        }
    }

    // One deeper than this level, for an opener that is the next token.
    pub fn deeper(&self, level: usize) -> Result<Depth, Refusal>
        ensures { Deepened level self.now result }
    {
        if level >= MAX_DEPTH {
            return Err(self.refuse(Question::Depth));
        }
        Ok(Depth { level: level + 1 })
    }

    // Lists a node, or only counts it where the table is full, and gives its number.
    pub fn emit(&mut self, table: &mut [Entry], node: Node, place: usize) -> u16
        requires { (self.old.count < 65535) × (place ≤ 16384) }
        ensures { Listed self.old table.old node place result self.new table.new }
    {
        let number = self.next_number();
        let at = usize::from(number);
        // by index: after a slice's get_mut a proof knows nothing of the element
        if at < table.len() {
            table[at] = Entry::new(node, place as u16);
        }
        number
    }

    // Counts a node, and gives its number. That one more can be counted is asked of each call, as no Parser has it for good.
    fn next_number(&mut self) -> u16
        requires { self.old.count < 65535 }
        ensures { (result ≡ self.old.count) × (self.new ≡ counting self.old (self.old.count + 1)) }
    {
        let number = self.count;
        self.count = number + 1;
        number
    }
}
