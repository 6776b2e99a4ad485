//! The header's tests, the reader and the lengths, on tables of cases.
#![tactic(auto)]

ghost use Rattle.std.specs.Prelude.{◌+◌, ◌≤◌};

#[cfg(test)]
mod tests {
    use protocol::fault::Fault;
    use protocol::field::Field;
    use protocol::header::Header;
    use record::encode::encode_header;
    use record::header::{check_header, read_header, read_record};
    use record::view::Record;
    use std::process::Abort;
    use std::test::Fail;

    // set 1, n = c = h = tau = 1, M = 4, a = 0: its record has 203 bytes
    const SMALL: [u8; 15] = [75, 80, 80, 1, 0, 1, 1, 0, 1, 4, 0, 1, 1, 0, 0];

    // set 1, n = 1344, c = 1, M = 2689: as many rows as there may be
    const TALL: [u8; 15] = [75, 80, 80, 1, 0, 1, 64, 5, 1, 129, 10, 1, 1, 0, 0];

    // set 1, n = 1, c = 8, M = 17: as many columns as there may be
    const BROAD: [u8; 15] = [75, 80, 80, 1, 0, 1, 1, 0, 8, 17, 0, 1, 1, 0, 0];

    // a whole record under the first header, made by an independent implementation
    const RECORD: [u8; 203] = [
        75, 80, 80, 1, 0, 1, 1, 0, 1, 4, 0, 1, 1, 0, 0, 221, 103, 150, 137, 4, 16, 76, 234, 250,
        184, 102, 133, 248, 238, 254, 222, 60, 163, 52, 114, 215, 251, 225, 122, 1, 41, 56, 147,
        50, 230, 5, 251, 160, 107, 203, 128, 178, 182, 192, 39, 174, 45, 149, 147, 234, 72, 158,
        12, 252, 234, 101, 12, 243, 105, 251, 66, 243, 197, 75, 49, 221, 126, 73, 102, 78, 225, 99,
        36, 56, 70, 112, 22, 166, 75, 175, 139, 166, 168, 129, 57, 44, 139, 248, 83, 29, 187, 175,
        195, 18, 122, 81, 114, 196, 69, 155, 33, 14, 45, 189, 98, 12, 212, 25, 158, 149, 59, 49,
        187, 128, 85, 13, 68, 253, 127, 3, 248, 204, 120, 242, 15, 49, 33, 5, 239, 167, 4, 148,
        181, 148, 10, 168, 100, 186, 254, 0, 23, 115, 108, 124, 190, 146, 170, 70, 72, 121, 27,
        163, 211, 6, 237, 0, 10, 119, 168, 4, 173, 108, 130, 4, 12, 158, 214, 79, 158, 11, 253,
        139, 123, 23, 238, 39, 86, 131, 193, 137, 46, 164, 70, 34, 199, 114, 11, 171, 34, 215, 7,
        209, 82,
    ];

    // two bytes in the place of those at an offset of a header, and the number and place of the refusal that is due, if one is
    #[derive(Clone, Copy)]
    struct Case {
        at: usize,
        bytes: [u8; 2],
        due: Option<(u8, usize)>,
        ghost inside: { at + 2 ≤ 15 },
    }

    const fn edit(at: usize, low: u8, high: u8, due: Option<(u8, usize)>) -> Case
        requires { at + 2 ≤ 15 }
    {
        Case {
            at,
            bytes: [low, high],
            due,
        }
    }

    // the number and place of a refusal, if the answer is one: numbers, as the table of refusals in docs/REFUSALS.md has them
    fn said(answer: Result<Header, Fault>) -> Option<(u8, usize)> {
        answer.err().map(|fault| (fault.number(), fault.place()))
    }

    fn changed(header: &[u8; 15], case: Case) -> [u8; 15] {
        let mut bytes = *header;
        bytes[case.at..case.at + 2].copy_from_slice(&case.bytes);
        bytes
    }

    // a bare header, one at the front of more bytes, and the encoding of what was read
    fn judge(rt: &impl Abort, header: &[u8; 15], case: Case) {
        let bytes = changed(header, case);
        assert_eq!(rt; said(check_header(&bytes)), case.due);
        assert_eq!(rt; said(read_header(&bytes)), case.due);
        if let Ok(header) = check_header(&bytes) {
            assert!(rt; encode_header(header) == bytes);
        }
    }

    fn judge_all(rt: &impl Abort, header: &[u8; 15], cases: &[Case]) {
        for case in cases {
            judge(rt, header, *case);
        }
    }

    #[test]
    fn marks_and_versions(rt: HostRuntime) {
        judge_all(
            &rt,
            &SMALL,
            &[
                edit(0, 75, 80, None),
                edit(0, 74, 80, Some((2, 0))),
                edit(0, 75, 81, Some((2, 0))),
                edit(1, 80, 79, Some((2, 0))),
                edit(3, 0, 0, Some((3, 3))),
                edit(3, 2, 0, Some((3, 3))),
                edit(3, 1, 1, Some((3, 3))),
                // the mark is tested before the version, and the version before the limits
                edit(2, 0, 2, Some((2, 0))),
                edit(4, 1, 9, Some((3, 3))),
            ],
        );
    }

    #[test]
    fn limits(rt: HostRuntime) {
        judge_all(
            &rt,
            &SMALL,
            &[
                // set, with the low byte of n beside it
                edit(5, 0, 1, Some((4, 5))),
                edit(5, 1, 1, None),
                edit(5, 3, 1, None),
                edit(5, 4, 1, Some((4, 5))),
                // n
                edit(6, 0, 0, Some((4, 6))),
                edit(6, 65, 5, Some((4, 6))),
                edit(6, 255, 255, Some((4, 6))),
                // c, with the low byte of M beside it
                edit(8, 0, 4, Some((4, 8))),
                edit(8, 9, 255, Some((4, 8))),
                // M: sigma is 2
                edit(9, 2, 0, Some((4, 9))),
                edit(9, 3, 0, None),
                edit(9, 0, 128, None),
                edit(9, 1, 128, Some((4, 9))),
                // h, with tau beside it
                edit(11, 0, 1, Some((4, 11))),
                edit(11, 8, 1, None),
                edit(11, 9, 1, Some((4, 11))),
                // tau, with the low byte of a beside it
                edit(12, 0, 0, Some((4, 12))),
                edit(12, 64, 0, None),
                edit(12, 65, 0, Some((4, 12))),
                // a
                edit(13, 0, 4, None),
                edit(13, 1, 4, Some((4, 13))),
            ],
        );
    }

    #[test]
    fn lowest_first(rt: HostRuntime) {
        judge_all(
            &rt,
            &TALL,
            &[
                // 1344 rows pass, 1345 do not, whatever M is
                edit(6, 64, 5, None),
                edit(6, 65, 5, Some((4, 6))),
                // M at sigma, and one above it
                edit(9, 128, 10, Some((4, 9))),
                edit(9, 129, 10, None),
                // set and n, n and c, h and tau both past their limits
                edit(5, 4, 0, Some((4, 5))),
                edit(7, 6, 9, Some((4, 6))),
                edit(11, 9, 65, Some((4, 11))),
            ],
        );
        judge_all(
            &rt,
            &BROAD,
            &[
                edit(8, 8, 17, None),
                edit(8, 8, 16, Some((4, 9))),
                edit(8, 9, 17, Some((4, 8))),
            ],
        );
    }

    #[test]
    fn every_truncation(rt: HostRuntime) {
        for n in 0..RECORD.len() {
            let due = if n < 15 { (1, 0) } else { (5, 203) };
            assert_eq!(rt; said(read_record(&RECORD[..n])), Some(due));
        }
        assert_eq!(rt; said(read_record(&RECORD)), None);
    }

    #[test]
    fn one_byte_more(rt: HostRuntime) -> Result<(), Fail> {
        let mut longer = RECORD.to_vec(rt.alloc())?;
        longer.push(0)?;
        assert_eq!(rt; said(read_record(longer.as_slice())), Some((5, 203)));
        Ok(())
    }

    #[test]
    fn lengths(rt: HostRuntime) -> Result<(), Fail> {
        let Ok(x) = check_header(&SMALL) else {
            return Err(Fail::new("refused"));
        };
        assert_eq!(rt; (x.kept(), x.parties()), (2, 2));
        assert_eq!(rt; (x.record_length(), x.work_words()), (203, 156));
        assert_eq!(rt; (x.entry_length(), x.flag_length()), (209, 1));
        assert_eq!(rt; x.field_count(), 19);
        Ok(())
    }

    #[test]
    fn printed(rt: HostRuntime) -> Result<(), Fail> {
        let fault = Fault::Length { due: 203 };
        assert_eq!(rt;
            format!(in rt.alloc(); "{fault}")?.as_str(),
            "refused 5 203 header"
        );
        let field = Field::Seeds(7);
        assert_eq!(rt; format!(in rt.alloc(); "{field}")?.as_str(), "seeds[7]");
        assert_eq!(rt; Fault::Turn.layer().name(), "maker");
        Ok(())
    }

    // a field begins and ends with the bytes that stand in the record there
    fn holds(
        rt: &impl Abort,
        record: &Record,
        field: Field,
        offset: usize,
        first: u8,
        last: u8,
        n: usize,
    ) {
        let part = record.part(field);
        assert_eq!(rt; (part.offset, part.bytes.len()), (offset, n));
        assert_eq!(rt; part.bytes.first().copied(), Some(first));
        assert_eq!(rt; part.bytes.last().copied(), Some(last));
    }

    #[test]
    fn parts(rt: HostRuntime) -> Result<(), Fail> {
        let Ok(x) = read_record(&RECORD) else {
            return Err(Fail::new("refused"));
        };
        let record = Record::over(&RECORD, x);
        holds(&rt, &record, Field::SeedA, 15, 0xdd, 0xde, 16);
        holds(&rt, &record, Field::Salt, 31, 0x3c, 0x0c, 32);
        holds(&rt, &record, Field::FirstDigest, 63, 0xfc, 0x39, 32);
        holds(&rt, &record, Field::SecondDigest, 95, 0x2c, 0x44, 32);
        holds(&rt, &record, Field::Key, 127, 0xfd, 0x7f, 2);
        holds(&rt, &record, Field::Audited, 129, 0x03, 0xf8, 2);
        holds(&rt, &record, Field::Commitment(0), 131, 0xcc, 0xd3, 32);
        holds(&rt, &record, Field::Seeds(0), 163, 0x06, 0xc7, 32);
        holds(&rt, &record, Field::Offsets(0), 195, 0x72, 0x52, 8);
        assert_eq!(rt; record.part(Field::Attributes).bytes.len(), 0);
        // there is no second repetition
        assert_eq!(rt; record.part(Field::Commitment(1)).bytes.len(), 0);
        Ok(())
    }
}
