// Where a text is read. In a file of its own, as the ghost field imports the names of its file, and lexemes hold a cursor.
ghost use Rattle.std.specs.Prelude.{◌≡◌, ◌+◌, ◌^◌, ◌<◌, ◌≤◌, length, drop};

// What is left of a text, and its place.
#[derive(Clone, Copy)]
pub struct Cursor<'a> {
    pub rest: &'a [u8],
    pub place: usize,
    ghost fits: { place + length rest.now < 2 ^ 32 },
}

impl<'a> Cursor<'a> {
    // The cursor at the front of a text.
    pub fn new(text: &'a [u8]) -> Cursor<'a>
        requires { length text.now < 2 ^ 32 }
        ensures place { result.place ≡ 0 }
        ensures rest { result.rest.now ≡ text.now }
    {
        Cursor {
            rest: text,
            place: 0,
        }
    }

    // The cursor n bytes further on.
    pub(crate) fn advanced(self, n: usize) -> Cursor<'a>
        requires { n ≤ length self.rest.now }
        ensures place { result.place ≡ self.entry.place + n }
        ensures rest { result.rest.now ≡ drop n self.entry.rest.now }
    {
        Cursor {
            rest: &self.rest[n..],
            place: self.place + n,
        }
    }
}
