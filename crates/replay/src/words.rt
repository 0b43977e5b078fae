// A text read word by word: numbers, floats by their patterns, and what is made of them. Reading never fails: a word counts as far as its
// digits go, one without digits is 0, and past the last word there are empty ones.
ghost use Rattle.std.specs.Prelude.{◌<◌, ◌≤◌, ◌≡◌, IfOk, IfSome, length, vec_len};

use geometry::bounds::{Bounds, Cells, Span};
use geometry::field::Field;
use geometry::point::Point;
use geometry::word::from_words;
use mesh::intake::Sizes;
use mesh::words::{high_half, low_half};
use std::alloc::{AllocError, Global};

// A text up to the first byte that passes a test, and from there on.
fn cut<P: Fn(u8) -> bool>(text: &[u8], test: P) -> (&[u8], &[u8])
    requires { P.IsAlwaysCallable test }
    ensures { length result.1.now ≤ length text.now }
{
    let end = text.iter().position(|b| test(*b)).unwrap_or(text.len());
    text.split_at(end)
}

// The text behind its first line.
fn next_line(text: &[u8]) -> &[u8]
    requires { 0 < length text.now }
    ensures { length result.now < length text.now }
{
    let (_, end) = cut(text, |b| b == b'\n');
    match end.split_first() {
        Some((_, next)) => next,
        None => &[],
    }
}

// A text from each of its lines on.
#[derive(Drop)]
pub(crate) struct Lines<'a> {
    rest: &'a [u8],
}

impl<'a> Lines<'a> {
    pub fn of(text: &'a [u8]) -> Lines<'a> {
        Lines { rest: text }
    }
}

impl<'a> Iterator for Lines<'a> {
    ghost use Rattle.std.specs.Iterator.{at_most};

    type Item = &'a [u8];

    ghost remaining = { λ s. at_most (length s.rest.now) };

    fn next(&mut self) -> Option<&'a [u8]> {
        let text = self.rest;
        if text.is_empty() {
            return None;
        }
        self.rest = next_line(text);
        Some(text)
    }
}

// In which base a number is written.
#[derive(Clone, Copy, Debug, PartialEq, Eq)]
enum Base {
    Ten,
    Sixteen,
}

impl Base {
    // What a digit says; those above 9 are capital letters.
    fn digit(self, b: u8) -> Option<u64>
        ensures { IfSome result (λ d. d < 16) }
    {
        match b {
            b'0'..=b'9' => Some(u64::from(b - b'0')),
            b'A'..=b'F' if self == Base::Sixteen => Some(u64::from(b - b'A') + 10),
            _ => None,
        }
    }

    // A number with one more digit, for which the first bits of a long one make room.
    fn append(self, n: u64, digit: u64) -> u64
        requires { digit < 16 }
    {
        match self {
            Base::Ten => n % 0x100_0000_0000_0000 * 10 + digit,
            Base::Sixteen => n % 0x1000_0000_0000_0000 * 16 + digit,
        }
    }

    // The number at a word's front.
    fn number(self, word: &[u8]) -> u64 {
        let mut n = 0u64;
        for b in word {
            let Some(digit) = self.digit(*b) else {
                break;
            };
            n = self.append(n, digit);
        }
        n
    }
}

fn is_gap(b: u8) -> bool {
    b == b' ' || b == b'\n'
}

// What parts the words of a text: in a line single spaces, so that an empty word stands between two of them, or else spaces and line ends, as
// many as there are.
#[derive(Clone, Copy, Debug, PartialEq, Eq)]
enum Gaps {
    Single,
    Any,
}

// The words of a text that are still to be read.
#[derive(Clone, Copy)]
pub(crate) struct Words<'a> {
    rest: &'a [u8],
    gaps: Gaps,
}

// What the next words of a text give.
pub(crate) trait FromWords: Sized {
    fn from_words(words: &mut Words) -> Self;
}

impl<'a> Words<'a> {
    // The words of a text that begins with one.
    pub fn of(text: &'a [u8]) -> Words<'a> {
        Words {
            rest: text,
            gaps: Gaps::Any,
        }
    }

    // The words of a text's first line.
    pub fn of_line(text: &'a [u8]) -> Words<'a> {
        let (line, _) = cut(text, |b| b == b'\n');
        Words {
            rest: line,
            gaps: Gaps::Single,
        }
    }

    // The next word.
    fn word(&mut self) -> &'a [u8] {
        let (word, end) = cut(self.rest, is_gap);
        self.rest = match self.gaps {
            Gaps::Single => end.get(1..).unwrap_or(end),
            Gaps::Any => cut(end, |b| !is_gap(b)).1,
        };
        word
    }

    // Passes over a word, whatever it is.
    pub fn skip(&mut self) {
        self.word();
    }

    pub fn read<T: FromWords>(&mut self) -> T {
        T::from_words(self)
    }

    // What stands behind the next word, `=`.
    pub fn answer<T: FromWords>(&mut self) -> T {
        self.skip();
        self.read()
    }

    // How many things follow in a list of calls: the lower 16 bits of the number.
    pub fn count(&mut self) -> usize
        ensures { result < 65536 }
    {
        self.read::<usize>() % 0x1_0000
    }

    // A number of things that follow or that are numbered, and nothing where it is more than the most there may be.
    pub fn count_to(&mut self, most: usize) -> Option<usize>
        ensures { IfSome result (λ n. n ≤ most) }
    {
        let n: usize = self.read();
        if n <= most { Some(n) } else { None }
    }

    // The n things that follow.
    pub fn list<T: FromWords + Drop>(
        &mut self,
        alloc: Global,
        n: usize,
    ) -> Result<Vec<T>, AllocError>
        ensures { IfOk result (λ all. vec_len all ≡ n) }
    {
        let mut all = Vec::new(alloc);
        for _ in 0..n {
            all.push(self.read::<T>())?;
        }
        Ok(all)
    }

    // The list behind its name and length, of things of one word each, of which at most so many are kept.
    pub fn named<T: FromWords + Drop>(
        &mut self,
        alloc: Global,
        most: usize,
    ) -> Result<Vec<T>, AllocError>
        ensures { IfOk result (λ all. vec_len all ≤ most) }
    {
        self.skip();
        self.front(alloc, most)
    }

    // The same for the list behind its length.
    pub fn front<T: FromWords + Drop>(
        &mut self,
        alloc: Global,
        most: usize,
    ) -> Result<Vec<T>, AllocError>
        ensures { IfOk result (λ all. vec_len all ≤ most) }
    {
        let n = self.count();
        let all = self.list(alloc, n.min(most))?;
        for _ in most..n {
            self.skip();
        }
        Ok(all)
    }
}

// Kept by hand: no plainer; one impl for all numbers would take f64 too, which is a pattern here.
impl FromWords for u64 {
    fn from_words(words: &mut Words) -> u64 {
        Base::Ten.number(words.word())
    }
}

impl FromWords for usize {
    fn from_words(words: &mut Words) -> usize {
        words.read::<u64>() as usize
    }
}

// The lower 32 bits.
impl FromWords for u32 {
    fn from_words(words: &mut Words) -> u32 {
        low_half(words.read())
    }
}

// 1 for what is so.
impl FromWords for bool {
    fn from_words(words: &mut Words) -> bool {
        words.read::<u64>() == 1
    }
}

// A pattern of 64 bits, in hexadecimal digits.
#[derive(Clone, Copy, Debug, PartialEq, Eq)]
pub(crate) struct Pattern(pub u64);

impl FromWords for Pattern {
    fn from_words(words: &mut Words) -> Pattern {
        Pattern(Base::Sixteen.number(words.word()))
    }
}

// A mask of 32 bits, in hexadecimal digits.
#[derive(Clone, Copy, Debug, PartialEq, Eq)]
pub(crate) struct Mask(pub u32);

impl FromWords for Mask {
    fn from_words(words: &mut Words) -> Mask {
        let Pattern(n) = words.read();
        Mask(low_half(n))
    }
}

// Masks as numbers.
pub(crate) fn masks(alloc: Global, masks: &[Mask]) -> Result<Vec<u32>, AllocError> {
    masks.iter().map(|mask| mask.0).collect(alloc)
}

impl FromWords for f64 {
    fn from_words(words: &mut Words) -> f64 {
        let Pattern(n) = words.read();
        from_words(low_half(n), high_half(n))
    }
}

impl FromWords for Point {
    fn from_words(words: &mut Words) -> Point {
        Point {
            x: words.read(),
            y: words.read(),
            z: words.read(),
        }
    }
}

impl FromWords for Span {
    fn from_words(words: &mut Words) -> Span {
        Span {
            lo: words.read(),
            hi: words.read(),
        }
    }
}

// Both ends in x, in y and in z.
impl FromWords for Bounds {
    fn from_words(words: &mut Words) -> Bounds {
        let [x, y, z]: [Span; 3] = [words.read(), words.read(), words.read()];
        Bounds {
            lo: Point {
                x: x.lo,
                y: y.lo,
                z: z.lo,
            },
            hi: Point {
                x: x.hi,
                y: y.hi,
                z: z.hi,
            },
        }
    }
}

impl FromWords for Cells {
    fn from_words(words: &mut Words) -> Cells {
        Cells {
            x: words.read(),
            y: words.read(),
            z: words.read(),
        }
    }
}

impl FromWords for Sizes {
    fn from_words(words: &mut Words) -> Sizes {
        Sizes {
            vertices: words.read(),
            elements: words.read(),
            triples: words.read(),
        }
    }
}

// The kind and four floats, of which a level uses the first. A kind above 1 is a ball's.
impl FromWords for Field {
    fn from_words(words: &mut Words) -> Field {
        let kind: u64 = words.read();
        let p: Point = words.read();
        let d: f64 = words.read();
        match kind {
            0 => Field::Level(p.x),
            1 => Field::Plane(p, d),
            _ => Field::Ball(p, d),
        }
    }
}

// Whether two answers are the same: the two zeros are, and so are any two NaNs.
// Kept by hand: no plainer; `==` says that a NaN differs from itself, so no derive gives this.
pub(crate) trait Same {
    fn same(&self, other: &Self) -> bool;
}

impl Same for f64 {
    fn same(&self, other: &f64) -> bool {
        self == other || self.is_nan() && other.is_nan()
    }
}

impl Same for Point {
    fn same(&self, other: &Point) -> bool {
        self.x.same(&other.x) && self.y.same(&other.y) && self.z.same(&other.z)
    }
}

impl<T: Same> Same for Vec<T> {
    fn same(&self, other: &Vec<T>) -> bool {
        self.len() == other.len() && self.iter().zip(other.iter()).all(|(x, y)| x.same(y))
    }
}
