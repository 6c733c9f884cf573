// The numbers of a file, its header and the fields of a record.
ghost use Rattle.std.specs.Prelude.{◌≡◌, ◌+◌, ◌*◌, ◌≤◌, length, slice_range};
ghost use Rattle.records.specs.Bytes.{count, text_size, rec_at};
ghost use Rattle.records.specs.Records.{HeaderVerdict};

use faults::FileFault;

pub const MOST_RECORDS: u16 = 2047;

pub const MOST_TEXT: u32 = 16384;

// Records count from 1, so an array with a slot for each has one more.
pub const RECORD_SLOTS: usize = 2048;

pub const HEADER_SIZE: usize = 6;

pub const RECORD_SIZE: usize = 20;
// The length of the largest file that can be read.
pub const MOST_BYTES: usize = HEADER_SIZE
    + RECORD_SIZE * MOST_RECORDS as usize
    + MOST_TEXT as usize;

// What the first bytes of a file say: how many records follow, and how many bytes of text after these.
#[derive(Clone, Copy, Debug, PartialEq, Eq)]
pub struct Header {
    pub records: u16,
    pub text: u32,
}

// The fields of a record, whether its kind needs them or not. `kind` and `op` are the file's bytes and may be any
// number; a link is 0 for none (see `Node`).
#[derive(Clone, Copy, Debug, PartialEq, Eq)]
pub struct Rec {
    pub kind: u8,
    pub op: u8,
    pub first: u16,
    pub next: u16,
    pub len: u16,
    pub at: u32,
    pub value: i64,
}

// The `N` bytes from place `at` on.
fn bytes_at<const N: usize>(file: &[u8], at: usize) -> [u8; N]
    requires { at + N ≤ length file.now }
    ensures { result ≡ slice_range file.now at (at + N) }
{
    let mut bytes = [0; N];
    bytes.copy_from_slice(&file[at..at + N]);
    bytes
}

#[tactic(auto, unfolding(crate::specs::Bytes::count))]
fn count_of(file: &[u8]) -> u16
    requires { 6 ≤ length file.now }
    ensures { result ≡ count file.now }
{
    u16::from_be_bytes(bytes_at(file, 0))
}

#[tactic(auto, unfolding(crate::specs::Bytes::text_size))]
fn text_size_of(file: &[u8]) -> u32
    requires { 6 ≤ length file.now }
    ensures { result ≡ text_size file.now }
{
    u32::from_be_bytes(bytes_at(file, 2))
}

// The header, where the file is as long as it says and no larger than a script may be.
pub fn open(file: &[u8]) -> Result<Header, FileFault>
    ensures { HeaderVerdict file.now result }
{
    if file.len() < HEADER_SIZE {
        return Err(FileFault::Short);
    }
    let records = count_of(file);
    let text = text_size_of(file);
    if records == 0 || records > MOST_RECORDS || text > MOST_TEXT {
        return Err(FileFault::Size);
    }
    if file.len() != HEADER_SIZE + RECORD_SIZE * records as usize + text as usize {
        return Err(FileFault::Length);
    }
    Ok(Header { records, text })
}

// The fields of the record `r`, which counts from 1.
#[tactic(auto, using(crate::proofs::Fields::be16_is, crate::proofs::Fields::be32_is, crate::proofs::Fields::be64_is), unfolding(crate::specs::Bytes::rec_at))]
pub fn fetch(file: &[u8], r: u16) -> Rec
    requires from { 1 ≤ r }
    requires within { 6 + 20 * r ≤ length file.now }
    ensures { result ≡ rec_at file.now r }
{
    let at = HEADER_SIZE + RECORD_SIZE * (r as usize - 1);
    Rec {
        kind: file[at],
        op: file[at + 1],
        first: u16::from_be_bytes(bytes_at(file, at + 2)),
        next: u16::from_be_bytes(bytes_at(file, at + 4)),
        len: u16::from_be_bytes(bytes_at(file, at + 6)),
        at: u32::from_be_bytes(bytes_at(file, at + 8)),
        value: i64::from_be_bytes(bytes_at(file, at + 12)),
    }
}
