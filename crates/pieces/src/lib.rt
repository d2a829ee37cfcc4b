// Bytes written piece by piece, and the text that the programs share. Weighed: std's `Write` and `write!`, whose contracts let any write fail, and say
// nothing of what a lent slice holds then.
#![tactic(auto)]

ghost use Rattle.std.specs.Prelude.{◌≤◌, length};

// Bytes that are lent, and how many of them are written, piece by piece from the front.
#[derive(Drop)]
pub struct Pieces<'a> {
    out: &'a mut [u8],
    at: usize,
    ghost inside: { at ≤ length out.now },
}

impl<'a> Pieces<'a> {
    ghost use Rattle.std.specs.Prelude.{◌≡◌};

    // No piece is written yet.
    pub fn new(out: &'a mut [u8]) -> Pieces<'a>
        ensures same { result.out.ghost_name ≡ out.entry.ghost_name }
        ensures bytes { result.out.now ≡ out.old }
        ensures start { result.at ≡ 0 }
    {
        Pieces { out, at: 0 }
    }

    // How many bytes are written.
    pub fn length(&self) -> usize
        ensures { result ≡ self.now.at }
    {
        self.at
    }
}

// Each method puts a piece behind those before it. It must fit.
impl Pieces<'_> {
    ghost use Rattle.std.specs.Prelude.{[], ◌∷◌};
    ghost use Rattle.pieces.specs.Pieces.{HasRoom, Puts};
    ghost use Rattle.pieces.specs.Text.{decimal, named, marked, bad_input, refusal_text, line_room};

    // One byte.
    pub fn put_byte(&mut self, b: u8)
        requires { HasRoom self.old 1 }
        ensures { Puts self.old self.new (b ∷ []) }
    {
        self.out[self.at] = b;
        self.at += 1;
    }

    // These bytes.
    pub fn put_bytes(&mut self, bytes: &[u8])
        requires { HasRoom self.old (length bytes.now) }
        ensures { Puts self.old self.new bytes.now }
    {
        let end = self.at + bytes.len();
        self.out[self.at..end].copy_from_slice(bytes);
        self.at = end;
    }

    // A number without leading zeros: what stands before its last two digits, and those. Two at a time, since each call waits for the place that the one
    // before it has stored.
    pub fn put_number(&mut self, n: u64)
        requires { HasRoom self.old (length (decimal n)) }
        ensures { Puts self.old self.new (decimal n) }
    {
        if n < 10 {
            self.put_byte(b'0' + n as u8);
            return;
        }
        if n < 100 {
            self.put_byte(b'0' + (n / 10) as u8);
            self.put_byte(b'0' + (n % 10) as u8);
            return;
        }
        self.put_number(n / 100);
        self.put_byte(b'0' + (n / 10 % 10) as u8);
        self.put_byte(b'0' + (n % 10) as u8);
    }

    // A number and the byte after it.
    #[tactic(auto, using(crate::proofs::PieceLaws::puts_more), unfolding(crate::specs::Text::marked))]
    pub fn put_marked(&mut self, n: u64, mark: u8)
        requires { HasRoom self.old (length (marked n mark)) }
        ensures { Puts self.old self.new (marked n mark) }
    {
        self.put_number(n);
        self.put_byte(mark);
    }

    // A word and a number.
    #[tactic(auto, unfolding(crate::specs::Text::named))]
    pub fn put_named(&mut self, word: &[u8], n: u64)
        requires { HasRoom self.old (length (named word.now n)) }
        ensures { Puts self.old self.new (named word.now n) }
    {
        self.put_bytes(word);
        self.put_number(n);
    }

    // `bad input`, and a line feed.
    pub fn put_bad_input(&mut self)
        requires { HasRoom self.old line_room }
        ensures { Puts self.old self.new bad_input }
    {
        self.put_bytes(b"bad input\n");
    }

    // A refusal: one line with its number and its place.
    pub fn put_refusal(&mut self, number: u64, place: u64)
        requires { HasRoom self.old line_room }
        ensures { Puts self.old self.new (refusal_text number place) }
    {
        self.put_named(b"refused ", number);
        self.put_named(b" ", place);
        self.put_byte(b'\n');
    }
}
