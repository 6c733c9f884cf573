// Tests of the reader on files made here: each refusal, the order of refusals, and the view of one record.
#![tactic(auto)]

use faults::CheckFault;
use records::Rec;
use script::{ENOUGH, Lengths};
use std::alloc::{AllocError, Global};
use unit::readable;

// A record of a kind with its links, and nothing else.
pub fn plain(kind: u8, first: u16, next: u16) -> Rec {
    Rec {
        kind,
        op: 0,
        first,
        next,
        len: 0,
        at: 0,
        value: 0,
    }
}

// The same with a text part.
pub fn texted(kind: u8, next: u16, len: u16, at: u32) -> Rec {
    Rec {
        len,
        at,
        ..plain(kind, 0, next)
    }
}

// `var x int`, whose text is `xint`.
pub fn sample() -> [Rec; 5] {
    [
        plain(1, 2, 0),
        plain(2, 3, 0),
        texted(7, 4, 1, 0),
        texted(10, 5, 3, 1),
        plain(8, 0, 0),
    ]
}

pub const TEXT: &[u8; 4] = b"xint";

// The bytes of a file with these records and this text.
pub fn file_of(heap: Global, records: &[Rec], text: &[u8]) -> Result<Vec<u8>, AllocError> {
    let mut file = Vec::new(heap);
    file.extend_from_slice(&(records.len().min(65535) as u16).to_be_bytes())?;
    file.extend_from_slice(&(text.len().min(65535) as u32).to_be_bytes())?;
    for rec in records {
        file.extend_from_slice(&[rec.kind, rec.op])?;
        file.extend_from_slice(&rec.first.to_be_bytes())?;
        file.extend_from_slice(&rec.next.to_be_bytes())?;
        file.extend_from_slice(&rec.len.to_be_bytes())?;
        file.extend_from_slice(&rec.at.to_be_bytes())?;
        file.extend_from_slice(&rec.value.to_be_bytes())?;
    }
    file.extend_from_slice(text)?;
    Ok(file)
}

// The number and the record of an answer, both 0 where there is no fault: one pair, as a test names it.
pub fn named(answer: Result<(), CheckFault>) -> (u8, u16) {
    match answer {
        Ok(()) => (0, 0),
        Err(fault) => {
            let named = fault.named();
            (named.number, named.at)
        }
    }
}

pub fn verdict(file: &[u8]) -> (u8, u16) {
    named(readable(file, ENOUGH))
}

// The verdict on a file with these records and the sample's text.
pub fn verdict_of(heap: Global, records: &[Rec]) -> Result<(u8, u16), AllocError> {
    Ok(verdict(file_of(heap, records, TEXT)?.as_slice()))
}

// The verdict on the sample with other lengths lent.
pub fn verdict_lent(heap: Global, lent: Lengths) -> Result<(u8, u16), AllocError> {
    Ok(named(readable(file_of(heap, &sample(), TEXT)?.as_slice(), lent)))
}

// A file of `n` records, each the first child of the one before. (The numbers of the range are the links.)
pub fn chain(heap: Global, n: u16) -> Result<Vec<Rec>, AllocError> {
    let mut records = Vec::new(heap);
    for r in 1..n {
        records.push(plain(1, r + 1, 0))?;
    }
    records.push(plain(1, 0, 0))?;
    Ok(records)
}

#[cfg(test)]
mod tests {
    use super::*;
    use records::{Kind, Opened, Record, open};
    use std::test::Fail;

    #[test]
    fn the_sample_can_be_read(rt: HostRuntime) -> Result<(), Fail> {
        assert_eq!(rt; verdict_of(rt.alloc(), &sample())?, (0, 0));
        Ok(())
    }

    #[test]
    fn one_under_six_bytes(rt: HostRuntime) {
        assert_eq!(rt; verdict(b""), (1, 0));
        assert_eq!(rt; verdict(b"\0\0\0\0\0"), (1, 0));
    }

    #[test]
    fn two_no_or_too_many_records_or_too_much_text(rt: HostRuntime) {
        assert_eq!(rt; verdict(b"\0\0\0\0\0\0"), (2, 0));
        assert_eq!(rt; verdict(b"\x08\0\0\0\0\0"), (2, 0));
        assert_eq!(rt; verdict(b"\0\x01\0\0\x40\x01"), (2, 0));
    }

    #[test]
    fn three_a_byte_more_or_less(rt: HostRuntime) -> Result<(), Fail> {
        let mut file = file_of(rt.alloc(), &sample(), TEXT)?;
        file.push(0)?;
        assert_eq!(rt; verdict(file.as_slice()), (3, 0));
        file.truncate(109);
        assert_eq!(rt; verdict(file.as_slice()), (3, 0));
        Ok(())
    }

    #[test]
    fn four_too_little_lent(rt: HostRuntime) -> Result<(), Fail> {
        assert_eq!(rt;
            verdict_lent(rt.alloc(), Lengths { notes: 4, ..ENOUGH })?,
            (4, 0)
        );
        assert_eq!(rt;
            verdict_lent(rt.alloc(), Lengths { notes: 5, ..ENOUGH })?,
            (0, 0)
        );
        assert_eq!(rt;
            verdict_lent(
                rt.alloc(),
                Lengths {
                    entries: 2303,
                    ..ENOUGH
                },
            )?,
            (4, 0)
        );
        assert_eq!(rt;
            verdict_lent(
                rt.alloc(),
                Lengths {
                    names: 255,
                    ..ENOUGH
                },
            )?,
            (4, 0)
        );
        assert_eq!(rt;
            verdict_lent(
                rt.alloc(),
                Lengths {
                    notes: 5,
                    entries: 2304,
                    names: 256,
                },
            )?,
            (0, 0)
        );
        Ok(())
    }

    #[test]
    fn five_a_link_that_does_not_lead_up(rt: HostRuntime) -> Result<(), Fail> {
        let mut records = sample();
        records[2].next = 3;
        assert_eq!(rt; verdict_of(rt.alloc(), &records)?, (5, 3), "to itself");
        records[2].next = 2;
        assert_eq!(rt; verdict_of(rt.alloc(), &records)?, (5, 3), "down");
        records[2].next = 4;
        records[4].first = 6;
        assert_eq!(rt;
            verdict_of(rt.alloc(), &records)?,
            (5, 5),
            "past the last, at a leaf"
        );
        Ok(())
    }

    #[test]
    fn six_not_linked_exactly_once(rt: HostRuntime) -> Result<(), Fail> {
        let mut records = sample();
        records[3].next = 0;
        assert_eq!(rt; verdict_of(rt.alloc(), &records)?, (6, 5), "not at all");
        records[3].next = 5;
        records[1].next = 4;
        assert_eq!(rt; verdict_of(rt.alloc(), &records)?, (6, 4), "twice");
        Ok(())
    }

    #[test]
    fn seven_too_deep(rt: HostRuntime) -> Result<(), Fail> {
        assert_eq!(rt;
            verdict_of(rt.alloc(), chain(rt.alloc(), 66)?.as_slice())?,
            (7, 65)
        );
        assert_eq!(rt;
            verdict_of(rt.alloc(), chain(rt.alloc(), 65)?.as_slice())?,
            (7, 65)
        );
        assert_eq!(rt;
            verdict_of(rt.alloc(), chain(rt.alloc(), 64)?.as_slice())?,
            (9, 1),
            "deep enough, wrong children"
        );
        Ok(())
    }

    #[test]
    fn eight_not_listed(rt: HostRuntime) -> Result<(), Fail> {
        let mut records = sample();
        records[2].kind = 9;
        assert_eq!(rt; verdict_of(rt.alloc(), &records)?, (8, 3), "a kind");
        records[2].kind = 54;
        assert_eq!(rt;
            verdict_of(rt.alloc(), &records)?,
            (8, 3),
            "operator 0 of a unary"
        );
        records[2].kind = 51;
        records[2].value = 2147483648;
        assert_eq!(rt;
            verdict_of(rt.alloc(), &records)?,
            (8, 3),
            "a rune of 33 bits"
        );
        records[2].value = 2147483647;
        assert_eq!(rt;
            verdict_of(rt.alloc(), &records)?,
            (9, 2),
            "the largest rune, no name"
        );
        Ok(())
    }

    #[test]
    fn nine_children_not_as_listed(rt: HostRuntime) -> Result<(), Fail> {
        let mut records = sample();
        records[3].kind = 8;
        assert_eq!(rt;
            verdict_of(rt.alloc(), &records)?,
            (9, 2),
            "a var with neither type nor value"
        );
        records[3].kind = 10;
        records[0].kind = 21;
        assert_eq!(rt;
            verdict_of(rt.alloc(), &records)?,
            (9, 1),
            "no program at the top"
        );
        let leaf = [
            plain(1, 2, 0),
            plain(2, 3, 0),
            plain(7, 4, 0),
            plain(7, 0, 0),
        ];
        assert_eq!(rt;
            verdict_of(rt.alloc(), &leaf)?,
            (9, 2),
            "the parent comes first"
        );
        Ok(())
    }

    #[test]
    fn nine_an_empty_list_at_the_list(rt: HostRuntime) -> Result<(), Fail> {
        let records = [
            plain(1, 2, 0),
            plain(4, 3, 0),
            texted(7, 4, 1, 0),
            plain(5, 0, 5),
            plain(8, 0, 6),
            plain(21, 7, 0),
            plain(24, 8, 0),
            plain(40, 9, 10),
            texted(7, 0, 1, 0),
            plain(40, 0, 0),
        ];
        assert_eq!(rt; verdict_of(rt.alloc(), &records)?, (9, 10));
        Ok(())
    }

    #[test]
    fn ten_text_beyond_or_an_empty_name(rt: HostRuntime) -> Result<(), Fail> {
        let mut records = sample();
        records[3].len = 4;
        assert_eq!(rt;
            verdict_of(rt.alloc(), &records)?,
            (10, 4),
            "a byte too long"
        );
        records[3].len = 3;
        records[2].at = 4294967295;
        assert_eq!(rt;
            verdict_of(rt.alloc(), &records)?,
            (10, 3),
            "a place that would wrap"
        );
        records[2].at = 0;
        records[2].len = 0;
        assert_eq!(rt; verdict_of(rt.alloc(), &records)?, (10, 3), "an empty name");
        Ok(())
    }

    #[test]
    fn the_lower_number_first_then_the_lowest_record(rt: HostRuntime) -> Result<(), Fail> {
        let mut records = sample();
        records[1].kind = 9;
        records[4].next = 5;
        assert_eq!(rt;
            verdict_of(rt.alloc(), &records)?,
            (5, 5),
            "5 at a later record comes before 8"
        );
        records[4].next = 0;
        records[3].kind = 0;
        assert_eq!(rt;
            verdict_of(rt.alloc(), &records)?,
            (8, 2),
            "of two 8s the lower record"
        );
        Ok(())
    }

    #[test]
    fn a_record_by_itself(rt: HostRuntime) -> Result<(), Fail> {
        let mut records = sample();
        records[3].len = 9;
        let file = file_of(rt.alloc(), &records, TEXT)?;
        let Ok(header) = open(file.as_slice()) else {
            return Err(Fail::new("the header is sound"));
        };
        let opened = Opened::new(file.as_slice(), header);
        match opened.node(3) {
            Some(node) => match node.record {
                Record::Word(kind, word) => {
                    assert!(rt; kind.is(Kind::Name));
                    assert!(rt; word.len() == 1 && word[0] == b'x');
                    assert_eq!(rt; node.next, 4);
                }
                Record::Number(_, _) | Record::Bare(_) => return Err(Fail::new("a name is a word")),
            },
            None => return Err(Fail::new("record 3 stands")),
        }
        assert!(rt; opened.node(4).is_none(), "its text is beyond the text");
        assert!(rt; opened.shape(4).is_some(), "its kind is listed");
        assert!(rt; opened.node(0).is_none());
        assert!(rt; opened.node(6).is_none());
        Ok(())
    }
}
