// A line of text under construction: what callers see of it is its bytes.
ghost use Rattle.std.specs.Prelude.{◌≡◌, ◌+◌, ◌≤◌, [], ◌++◌, length, decimal};
ghost use Rattle.report.specs.Room.{line_size, number_size};

use arrayvec::ArrayVec;
use itoa::Buffer;
use std::marker::Model;

// How many bytes a line can hold.
pub const LINE_SIZE: usize = 160;

#[derive(Drop)]
pub struct Line {
    bytes: ArrayVec<u8, LINE_SIZE>,
    ghost short: { length bytes.items ≤ line_size },
}

impl Model for Line {
    ghost use Rattle.report.specs.Room.{Held};

    ghost Value = { Held };

    ghost view = { λ l. record { bytes = l.bytes.items; short = l.short } };
}

impl Line {
    pub fn new() -> Line
        ensures text { result.bytes ≡ [] }
        ensures size { length result.bytes ≡ 0 }
    {
        Line {
            bytes: ArrayVec::new(),
        }
    }

    pub fn as_slice(&self) -> &[u8]
        ensures bytes { result.now ≡ self.now.bytes }
        ensures short { length result.now ≤ line_size }
    {
        self.bytes.as_slice()
    }

    // After what the line has. There must be room for it.
    pub fn text(&mut self, s: &[u8])
        requires { length self.old.bytes + length s.now ≤ line_size }
        ensures text { self.new.bytes ≡ self.old.bytes ++ s.now }
        ensures size { length self.new.bytes ≡ length self.old.bytes + length s.now }
    {
        self.bytes.try_extend_from_slice(s).unwrap();
    }

    // In decimal, with no leading zeros, after what the line has. There must be room for the longest number.
    #[tactic(auto, using(std::proofs::lemmas::Fmt::decimal_digit, std::proofs::lemmas::Fmt::decimal_step))]
    pub fn number(&mut self, n: u64)
        requires { length self.old.bytes + number_size ≤ line_size }
        ensures text { self.new.bytes ≡ self.old.bytes ++ decimal n }
        ensures size { length self.new.bytes ≡ length self.old.bytes + length (decimal n) }
        ensures most { length self.new.bytes ≤ length self.old.bytes + number_size }
    {
        // A short number, as that of a rule is, takes longer by way of a buffer than its digits do.
        if n < 10 {
            self.text(&[b'0' + n as u8]);
        } else if n < 100 {
            self.text(&[b'0' + (n / 10) as u8, b'0' + (n % 10) as u8]);
        } else {
            self.text(Buffer::new().format(n).as_bytes());
        }
    }
}
