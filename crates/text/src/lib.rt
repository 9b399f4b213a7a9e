// Text in a lent store of bytes: words and numbers, each with the byte that ends it, and 0 bytes behind.
#![tactic(auto)]

ghost use Rattle.std.specs.Prelude.{◌≡◌, [], ◌∷◌, ◌++◌, ◌+◌, ◌-◌, ◌<◌, ◌≤◌, length, take, replicate};
ghost use Rattle.text.specs.Text.{decimal, integer, end_byte, ended, named};

// What ends a word: a space before the next one, or the line's newline.
#[derive(Clone, Copy)]
pub enum End {
    Space,
    Newline,
}

impl From<End> for u8 {
    ghost from_gives = { λ end byte. byte ≡ end_byte end };

    fn from(end: End) -> u8 {
        match end {
            End::Space => b' ',
            End::Newline => b'\n',
        }
    }
}

// The most digits of a 64-bit number.
const MOST_DIGITS: usize = 20;

// How many digits a number of at most four has.
#[tactic(auto, using(crate::specs::CountLaws::one_digit, crate::specs::CountLaws::two_digits, crate::specs::CountLaws::three_digits, crate::specs::CountLaws::four_digits))]
fn few_digits(n: u64) -> usize
    requires { n < 10000 }
    ensures { result ≡ length (decimal n) }
{
    if n < 10 {
        1
    } else if n < 100 {
        2
    } else if n < 1000 {
        3
    } else {
        4
    }
}

// How many digits a number has in decimal.
pub fn decimal_length(n: u64) -> usize
    ensures length { result ≡ length (decimal n) }
    ensures few { result ≤ 20 }
{
    let mut length = 0;
    let mut rest = n;
    // A while: how often is up to the number.
    while 10_000 <= rest {
        rest /= 10_000;
        length += 4;
    }
    length + few_digits(rest)
}

// How long a signed number is in decimal.
pub fn integer_length(n: i64) -> usize
    ensures length { result ≡ length (integer n) }
    ensures few { result ≤ 21 }
{
    let digits = decimal_length(n.unsigned_abs());
    if n < 0 { 1 + digits } else { digits }
}

// A text that is written into a lent store, piece behind piece.
#[derive(Drop)]
pub struct Text<'a> {
    store: &'a mut [u8],
    len: usize,
    ghost within: { len ≤ length store.now },
}

impl<'a> Text<'a> {
    ghost use Rattle.text.specs.Promises.{HasRoom, Wrote};

    // An empty text at the front of a store.
    pub fn new(store: &'a mut [u8]) -> Text<'a>
        ensures same_reference { result.store.ghost_name ≡ store.entry.ghost_name }
        ensures held { result.store.now ≡ store.old }
        ensures empty { result.len ≡ 0 }
    {
        Text { store, len: 0 }
    }

    // How many bytes are written.
    pub fn len(&self) -> usize
        ensures { result ≡ self.now.len }
    {
        let Text { len, .. } = self;
        *len
    }

    // Writes a byte.
    fn byte(&mut self, byte: u8)
        requires { HasRoom self.old (byte ∷ []) }
        ensures { Wrote self.old (byte ∷ []) self.new }
    {
        self.store[self.len] = byte;
        self.len += 1;
    }

    // Writes bytes.
    pub fn bytes(&mut self, bytes: &[u8])
        requires { HasRoom self.old bytes.now }
        ensures { Wrote self.old bytes.now self.new }
    {
        let end = self.len + bytes.len();
        let store = &mut *self.store;
        store[self.len..end].copy_from_slice(bytes);
        self.len = end;
    }

    // Writes a number in decimal: its digits from the last one on, two at a time.
    pub fn decimal(&mut self, n: u64)
        requires { HasRoom self.old (decimal n) }
        ensures { Wrote self.old (decimal n) self.new }
    {
        let mut digits = [b'0'; MOST_DIGITS];
        let mut at = MOST_DIGITS;
        let mut rest = n;
        // A while: how often is up to the number.
        while 100 <= rest {
            digits[at - 1] = b'0' + (rest % 10) as u8;
            digits[at - 2] = b'0' + (rest / 10 % 10) as u8;
            at -= 2;
            rest /= 100;
        }
        if 10 <= rest {
            at -= 1;
            digits[at] = b'0' + (rest % 10) as u8;
            rest /= 10;
        }
        at -= 1;
        digits[at] = b'0' + rest as u8;
        self.bytes(&digits[at..]);
    }

    // Writes a signed number in decimal.
    pub fn integer(&mut self, n: i64)
        requires { HasRoom self.old (integer n) }
        ensures { Wrote self.old (integer n) self.new }
    {
        if n < 0 {
            self.byte(b'-');
        }
        self.decimal(n.unsigned_abs());
    }

    // Writes a word and the byte that ends it.
    #[tactic(auto, using(crate::specs::WritingLaws::length_ended))]
    pub fn word(&mut self, word: &[u8], end: End)
        requires { HasRoom self.old (ended word.now (end_byte end)) }
        ensures { Wrote self.old (ended word.now (end_byte end)) self.new }
    {
        self.bytes(word);
        self.byte(u8::from(end));
    }

    // Writes a number in decimal and the byte that ends it.
    #[tactic(auto, using(crate::specs::WritingLaws::length_ended))]
    pub fn number(&mut self, n: u64, end: End)
        requires { HasRoom self.old (ended (decimal n) (end_byte end)) }
        ensures { Wrote self.old (ended (decimal n) (end_byte end)) self.new }
    {
        self.decimal(n);
        self.byte(u8::from(end));
    }

    // Writes a word, a space, a number and the byte that ends it.
    #[tactic(auto, using(crate::specs::DecimalLaws::length_named))]
    pub fn named(&mut self, name: &[u8], n: u64, end: End)
        requires { HasRoom self.old (named name.now n (end_byte end)) }
        ensures { Wrote self.old (named name.now n (end_byte end)) self.new }
    {
        self.word(name, End::Space);
        self.number(n, end);
    }

    // Fills the rest of the store with 0 bytes, and answers the text's length.
    pub fn finish(self) -> usize
        ensures length { result ≡ self.entry.len }
        ensures blank { self.exit.0.now ≡ take self.entry.len self.entry.store.now ++ replicate (length self.entry.store.now - self.entry.len) 0 }
    {
        let Text { store, len } = self;
        store[len..].fill(0);
        len
    }
}
