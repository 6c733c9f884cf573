// What the programs share: reading standard input and hexadecimal text.
#![tactic(auto)]

ghost use Rattle.std.specs.Prelude.{◌≡◌, ◌/◌, ◌<◌, ◌≤◌, length, take, IfOk, MatchOption};
ghost use Rattle.std.specs.Io.KnownBytes.{Consumes, IsAtEnd};
ghost use Rattle.std.specs.Option.{option_copied};
ghost use Rattle.host.specs.Hex.{Pairs, NoPairs, Unhexed, Decoded};

use hex::decode_to_slice;
use records::MOST_BYTES;
use std::io;
use std::io::Read;

// Room for a script file, and for one byte more than the largest has: what is longer is refused for its length without
// being read.
pub const ROOM: usize = MOST_BYTES + 1;

// Fills the buffer from the input until it is full or the input ends; says how many bytes came. They are the input's
// next ones, and fewer than there is room for only where the input has no more. (The answer is a length, since a clause
// on a part of the buffer could not say what the buffer holds once the part is let go.)
pub fn fill<R: Read>(input: &mut R, buf: &mut [u8]) -> io::Result<usize>
    ensures bound { IfOk result (λ n. n ≤ length buf.old) }
    ensures bytes { IfOk result (λ n. Consumes (R.remaining input.old) (R.remaining input.new) (take n buf.new)) }
    ensures end { IfOk result (λ n. n < length buf.old → IsAtEnd (R.remaining input.new)) }
{
    // `read_exact` does not say how many bytes came, and `read_to_end` allocates.
    let mut len = 0;
    while len < buf.len() {
        let got = input.read(&mut buf[len..])?;
        if got == 0 {
            break;
        }
        len += got;
    }
    Ok(len)
}

// The same, and gives the part of the buffer that was filled.
pub fn filled<'b, R: Read>(input: &mut R, buf: &'b mut [u8]) -> io::Result<&'b [u8]>
    ensures bound { IfOk result (λ part. length part.now ≤ length buf.old) }
    ensures bytes { IfOk result (λ part. Consumes (R.remaining input.old) (R.remaining input.new) part.now) }
    ensures end { IfOk result (λ part. length part.now < length buf.old → IsAtEnd (R.remaining input.new)) }
{
    let len = fill(input, buf)?;
    Ok(&buf[..len])
}

// Writes the bytes that the text stands for, two digits each; none where the text is not such. There must be room for
// just as many.
#[tactic(auto, using(crate::proofs::Digits::decoded))]
fn decode(text: &[u8], bytes: &mut [u8]) -> Option<()>
    requires { length bytes.old ≡ length text.now / 2 }
    ensures { MatchOption result (NoPairs text.now) (λ _. Pairs text.now bytes.new) }
{
    decode_to_slice(text, bytes).ok()
}

// Writes the bytes that the text stands for, two digits each, and says how many; none where the text is not such, or
// stands for more bytes than there is room for. (A length, as in `fill`.)
pub fn unhex(text: &[u8], out: &mut [u8]) -> Option<usize>
    ensures { Unhexed text.now out.new result }
{
    let count = text.len() / 2;
    if count > out.len() {
        return None;
    }
    decode(text, &mut out[..count])?;
    Some(count)
}

// The same, and gives the part of the room that the bytes take.
pub fn unhexed<'b>(text: &[u8], out: &'b mut [u8]) -> Option<&'b [u8]>
    ensures { Decoded text.now (length out.old) (option_copied result) }
{
    let count = unhex(text, out)?;
    Some(&out[..count])
}
