// "The reader goes digit by digit and hands its position on": a cursor by value. Each method takes it and returns what it read, one byte,
// one digit, or a number of 4 digits, with the next cursor.
#![tactic(auto)]

ghost use Rattle.std.specs.Prelude.{◌≡◌, ◌+◌, ◌<◌, ◌≤◌, length, get_or, MatchOption};
ghost use Rattle.grid.specs.Frames.{hex_value, number4, from_twos};

// a place in a text
#[derive(Clone, Copy)]
pub struct Cursor {
    pub at: usize,
}

// "a digit 0–9, A–F, a–f"
#[tactic(auto, unfolding(grid::specs::Frames::hex_value))]
pub fn hex_value(byte: u8) -> Option<u32>
    ensures { MatchOption result (hex_value byte ≡ 16) (λ v. (v ≡ hex_value byte) × (v < 16)) }
{
    // by the library's `to_digit` a text of capital letters, as one that is written here, takes a sixth more instructions to read
    match byte {
        b'0'..=b'9' => Some(u32::from(byte) - 48),
        b'A'..=b'F' => Some(u32::from(byte) - 55),
        b'a'..=b'f' => Some(u32::from(byte) - 87),
        _ => None,
    }
}

impl Cursor {
    pub fn byte(self, text: &[u8]) -> (u8, Cursor)
        requires { self.at < length text.now }
        ensures value { result.0 ≡ get_or text.now self.at 0 }
        ensures next { result.1.at ≡ self.at + 1 }
    {
        (text[self.at], Cursor { at: self.at + 1 })
    }

    // what is no digit reads as 16: the definition makes a number of any 4 bytes, so no `None` goes on from here
    pub fn digit(self, text: &[u8]) -> (u32, Cursor)
        requires { self.at < length text.now }
        ensures value { result.0 ≡ hex_value (get_or text.now self.at 0) }
        ensures small { result.0 ≤ 16 }
        ensures next { result.1.at ≡ self.at + 1 }
    {
        let (byte, next) = self.byte(text);
        (hex_value(byte).unwrap_or(16), next)
    }

    #[tactic(auto, unfolding(grid::specs::Frames::number4))]
    pub fn number(self, text: &[u8]) -> (u32, Cursor)
        requires { self.at + 4 ≤ length text.now }
        ensures value { result.0 ≡ number4 text.now self.at }
        ensures small { result.0 ≤ 69904 }
        ensures next { result.1.at ≡ self.at + 4 }
    {
        let (a, next) = self.digit(text);
        let (b, next) = next.digit(text);
        let (c, next) = next.digit(text);
        let (d, next) = next.digit(text);
        (4096 * a + 256 * b + 16 * c + d, next)
    }

    // past one byte: the line feed that ends a line
    pub fn past_line_feed(self, text: &[u8]) -> Cursor
        requires { self.at < length text.now }
        ensures { result.at ≡ self.at + 1 }
    {
        self.byte(text).1
    }
}

// "elevations as two's complement": 65,535 is -1, and so, by the definition, is what no 4 digits make
#[tactic(auto, using(crate::proofs::Elevations::elevation_read))]
pub fn elevation_of(n: u32) -> i16
    ensures { result ≡ from_twos n }
{
    (n.min(65535) as u16).cast_signed()
}
