// A file whose header is sound.
ghost use Rattle.std.specs.Prelude.{◌≡◌, ◌+◌, ◌*◌, ◌≤◌, length};
ghost use Rattle.records.specs.Bytes.{count, text_size};

// The file is as long as its header says. Nothing is known of the records: each is tested where it stands.
#[derive(Clone, Copy)]
pub struct Opened<'a> {
    pub file: &'a [u8],
    pub n: u16,
    pub t: u32,
    ghost records: { n ≡ count file.now },
    ghost text: { t ≡ text_size file.now },
    ghost some: { 1 ≤ n },
    ghost few: { n ≤ 2047 },
    ghost brief: { t ≤ 16384 },
    ghost fills: { length file.now ≡ 6 + 20 * n + t },
}
