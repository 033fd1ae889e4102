// The names of a text after the program's, in the order of their numbers.
ghost use Rattle.std.specs.Prelude.{◌≡◌, ◌≤◌, take};
ghost use Rattle.std.specs.List.{slice_get, position};
ghost use Rattle.lexer.specs.Names.{nothing};
ghost use Rattle.parser.specs.Feeds.{known_of};
ghost use Rattle.parser.specs.Numbering.{Numbered, is_word, spelled};

use lexer::words::same_word;

// At most so many names have numbers.
pub const MAX_NAMES: usize = 64;

// The words are an array with a count beside it: no call below the program allocates.
#[derive(Clone, Copy)]
pub struct Names<'a> {
    pub words: [&'a [u8]; 64],
    pub count: usize,
    // Whether the program's own name is read, which gets 0: the list knows it itself, as names are also read where the grammar is not followed.
    pub titled: bool,
}

impl<'a> Names<'a> {
    // No name is read, the program's neither.
    pub fn new() -> Names<'a>
        ensures { (known_of result ≡ nothing) × (result.count ≡ 0) }
    {
        Names {
            words: [b""; 64],
            count: 0,
            titled: false,
        }
    }

    // The names that have numbers, each in one of its spellings.
    fn known(&self) -> &[&'a [u8]]
        ensures { result.now ≡ take self.now.count self.now.words }
    {
        &self.words[..self.count.min(MAX_NAMES)]
    }

    // Where the word stands first.
    fn position(&self, word: &[u8]) -> Option<usize>
        ensures { result ≡ position (is_word word.now) (take self.now.count self.now.words) }
    {
        self.known().iter().position(|name| same_word(word, name))
    }

    // The number of a name that is read. The program's is not counted, and gets 0; a new name gets the next number, if there is one.
    pub fn number(&mut self, word: &'a [u8]) -> Option<u16>
        requires { self.old.count ≤ 64 }
        ensures { Numbered self.old word.now self.new result }
    {
        if !self.titled {
            self.titled = true;
            return Some(0);
        }
        if let Some(n) = self.position(word) {
            return Some(n as u16);
        }
        let n = self.count;
        if n == MAX_NAMES {
            return None;
        }
        self.words[n] = word;
        self.count = n + 1;
        Some(n as u16)
    }

    // The name that has this number, in one of its spellings.
    pub fn spelling(&self, n: u16) -> Option<&'a [u8]>
        ensures { spelled result ≡ slice_get (known_of self.now).names n }
    {
        self.known().get(usize::from(n)).copied()
    }
}
