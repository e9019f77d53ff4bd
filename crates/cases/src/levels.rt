// Levels that are refused, each with the number and the byte, and levels that are accepted.

#[cfg(test)]
mod tests {
    use crate::calling::LAMP_AND_BELL;
    use level::Level;
    use level::entry::{KindEntry, PieceEntry, TransitionEntry};
    use level::fault::{LevelFault, OperandFault, Reason};
    use std::alloc::{AllocError, Global};
    use std::process::Abort;
    use std::test::Fail;

    fn load_alone(bytes: &[u8]) -> Result<usize, LevelFault> {
        Level::new().load(bytes)
    }

    // What loading answers: how many pieces, or the number and the byte of the refusal.
    fn loading(bytes: &[u8]) -> Result<usize, (u8, usize)> {
        load_alone(bytes).map_err(|fault| (fault.number(), fault.byte))
    }

    fn refused(rt: &impl Abort, bytes: &[u8], number: u8, byte: usize, note: &str) {
        assert_eq!(rt; loading(bytes), Err((number, byte)), "{note}");
    }

    fn accepted(rt: &impl Abort, bytes: &[u8], pieces: usize) {
        assert_eq!(rt; loading(bytes), Ok(pieces));
    }

    // Outside a command's operands.
    #[test]
    fn bytes_that_are_no_commands(rt: HostRuntime) {
        refused(&rt, b"", 11, 0, "nothing at all");
        refused(&rt, b"\x07", 12, 0, "no such command");
        refused(&rt, b"\x06\x06", 12, 1, "a byte after the end");
        refused(&rt, b"\x06\x00", 12, 1, "whatever it is");
        refused(&rt, b"\x01", 11, 1, "a signal without its operand");
        refused(&rt, b"\x01\x00\x01", 11, 3, "the second one");
        refused(&rt, b"\x01\x00", 11, 2, "no end");
        refused(
            &rt,
            b"\x03\x00\x00\x00\xFF\xFF\x11\x00\x06",
            12,
            0,
            "a transition without a kind",
        );
        refused(
            &rt,
            b"\x05\x00\x00\x00\x00\x00\x06",
            12,
            0,
            "a starting number without a piece",
        );
        refused(
            &rt,
            b"\x02\x00\x01\x01\x00\x06",
            12,
            3,
            "a signal after a kind",
        );
        refused(
            &rt,
            b"\x02\x00\x01\x04\x00\x01\x00\x06",
            12,
            5,
            "a signal after a piece",
        );
        refused(
            &rt,
            b"\x02\x00\x01\x04\x00\x02\x00\x01\x06",
            12,
            5,
            "a kind after a piece",
        );
    }

    #[test]
    fn operands_of_signals_kinds_and_pieces(rt: HostRuntime) {
        refused(&rt, b"\x01\x03\x06", 13, 0, "three parameters");
        refused(&rt, b"\x02", 11, 1, "no operands");
        refused(&rt, b"\x02\x00", 11, 2, "one of two");
        refused(&rt, b"\x02\x09", 11, 2, "missing before wrong");
        refused(&rt, b"\x02\x09\x01\x06", 13, 0, "nine numbers");
        refused(&rt, b"\x02\x00\x00\x06", 13, 0, "no state");
        refused(&rt, b"\x02\x00\x11\x06", 13, 0, "seventeen states");
        refused(&rt, b"\x04", 11, 1, "a piece without its kind");
        refused(&rt, b"\x04\x00\x06", 13, 0, "no kind at all");
        refused(&rt, b"\x02\x01\x01\x04\x01\x06", 13, 3, "no such kind");
        refused(
            &rt,
            b"\x02\x01\x01\x04\x00\x05\x01\x00\x00\x00\x00\x06",
            13,
            5,
            "no such number",
        );
        refused(
            &rt,
            b"\x02\x01\x01\x04\x00\x05\x01\x00\x00\x00",
            11,
            10,
            "missing before wrong",
        );
    }

    #[test]
    fn operands_of_transitions(rt: HostRuntime) {
        refused(
            &rt,
            b"\x02\x01\x02\x03\x00\x01\x00\xFF",
            11,
            8,
            "four of five operands",
        );
        refused(
            &rt,
            b"\x02\x01\x02\x03\x09\x01\x00\xFF",
            11,
            8,
            "missing before wrong",
        );
        refused(
            &rt,
            b"\x02\x01\x02\x03\x02\x01\x00\xFF\xFF\x11\x00\x06",
            13,
            3,
            "no such source",
        );
        refused(
            &rt,
            b"\x02\x01\x02\x03\x00\x02\x00\xFF\xFF\x11\x00\x06",
            13,
            3,
            "no such target",
        );
        refused(
            &rt,
            b"\x02\x01\x02\x03\x00\x01\x01\xFF\xFF\x11\x00\x06",
            13,
            3,
            "no such signal",
        );
        refused(
            &rt,
            b"\x02\x01\x02\x03\x00\x01\x00\x00\xFF\x11\x00\x06",
            13,
            3,
            "received where no parameter stands",
        );
        refused(
            &rt,
            b"\x02\x01\x02\x03\x00\x01\x00\xFF\x00\x11\x00\x06",
            13,
            3,
            "or there",
        );
        refused(
            &rt,
            b"\x01\x01\x02\x01\x02\x03\x00\x01\x01\xFF\xFF\x11\x00\x06",
            13,
            5,
            "no number for the parameter",
        );
        refused(
            &rt,
            b"\x01\x01\x02\x01\x02\x03\x00\x01\x01\x01\xFF\x11\x00\x06",
            13,
            5,
            "no such number",
        );
        refused(
            &rt,
            b"\x01\x01\x02\x01\x02\x03\x00\x01\x01\x00\x00\x11\x00\x06",
            13,
            5,
            "a second number",
        );
        refused(
            &rt,
            b"\x01\x02\x02\x01\x02\x03\x00\x01\x01\x00\xFF\x11\x00\x06",
            13,
            5,
            "no second number",
        );
    }

    // The guard stands at byte 9.
    #[test]
    fn expressions(rt: HostRuntime) {
        refused(
            &rt,
            b"\x02\x01\x01\x03\x00\x00\x00\xFF\xFF",
            11,
            9,
            "no guard",
        );
        refused(
            &rt,
            b"\x02\x01\x01\x03\x00\x00\x00\xFF\xFF\x09\x00\x06",
            12,
            9,
            "not an expression",
        );
        refused(
            &rt,
            b"\x02\x01\x01\x03\x00\x00\x00\xFF\xFF\x1E\x00\x06",
            12,
            9,
            "past the last command",
        );
        refused(
            &rt,
            b"\x02\x01\x01\x03\x00\x00\x00\xFF\xFF\x20\x00\x11\x00\x06",
            12,
            9,
            "a statement",
        );
        refused(
            &rt,
            b"\x02\x01\x01\x03\x00\x00\x00\xFF\xFF\x10\x00\x00\x00",
            11,
            13,
            "three bytes of four",
        );
        refused(
            &rt,
            b"\x02\x01\x01\x03\x00\x00\x00\xFF\xFF\x12",
            11,
            10,
            "an own number without its index",
        );
        refused(
            &rt,
            b"\x02\x01\x01\x03\x00\x00\x00\xFF\xFF\x12\x01\x00\x06",
            13,
            9,
            "no such own number",
        );
        refused(
            &rt,
            b"\x02\x01\x01\x03\x00\x00\x00\xFF\xFF\x13\x08\x11\x00\x06",
            13,
            9,
            "index 8 of another piece",
        );
        refused(
            &rt,
            b"\x02\x01\x01\x03\x00\x00\x00\xFF\xFF\x13\x08",
            13,
            9,
            "its operand is wrong before its expression is missing",
        );
        refused(
            &rt,
            b"\x02\x01\x01\x03\x00\x00\x00\xFF\xFF\x14\x11",
            11,
            11,
            "no right side",
        );
        refused(
            &rt,
            b"\x02\x01\x01\x03\x00\x00\x00\xFF\xFF\x14\x11\x00",
            12,
            11,
            "an end for the right side",
        );
    }

    // Eight deep is read, and the ninth stands at byte 17.
    #[test]
    fn the_ninth_depth(rt: HostRuntime) {
        refused(
            &rt,
            b"\x02\x01\x01\x03\x00\x00\x00\xFF\xFF\x1D\x1D\x1D\x1D\x1D\x1D\x1D\x1D\x11\x00\x06",
            14,
            17,
            "any expression there",
        );
        refused(
            &rt,
            b"\x02\x01\x01\x03\x00\x00\x00\xFF\xFF\x1D\x1D\x1D\x1D\x1D\x1D\x1D\x1D\x09\x00\x06",
            12,
            17,
            "not a command comes first",
        );
        refused(
            &rt,
            b"\x02\x01\x01\x03\x00\x00\x00\xFF\xFF\x1D\x1D\x1D\x1D\x1D\x1D\x1D\x1D\x10\x00",
            14,
            17,
            "missing operands come after",
        );
        refused(
            &rt,
            b"\x02\x01\x01\x03\x00\x00\x00\xFF\xFF\x1D\x1D\x1D\x1D\x1D\x1D\x1D\x1D\x12\x09\x00\x06",
            14,
            17,
            "wrong ones too",
        );
        refused(
            &rt,
            b"\x02\x01\x01\x03\x00\x00\x00\xFF\xFF\x1D\x1D\x1D\x1D\x1D\x1D\x1D\x1D",
            11,
            17,
            "nothing there",
        );
    }

    // The effect stands at byte 10.
    #[test]
    fn statements(rt: HostRuntime) {
        refused(
            &rt,
            b"\x02\x01\x01\x03\x00\x00\x00\xFF\xFF\x11",
            11,
            10,
            "no effect",
        );
        refused(
            &rt,
            b"\x02\x01\x01\x03\x00\x00\x00\xFF\xFF\x11\x07\x06",
            12,
            10,
            "not a statement",
        );
        refused(
            &rt,
            b"\x02\x01\x01\x03\x00\x00\x00\xFF\xFF\x11\x23\x00\x06",
            12,
            10,
            "past the last command",
        );
        refused(
            &rt,
            b"\x02\x01\x01\x03\x00\x00\x00\xFF\xFF\x11\x20",
            11,
            11,
            "without its operand",
        );
        refused(
            &rt,
            b"\x02\x01\x01\x03\x00\x00\x00\xFF\xFF\x11\x20\x01\x11\x00\x06",
            13,
            10,
            "no such own number",
        );
        refused(
            &rt,
            b"\x02\x01\x01\x03\x00\x00\x00\xFF\xFF\x11\x21\x08\x11\x11\x00\x06",
            13,
            10,
            "index 8 of another piece",
        );
        refused(
            &rt,
            b"\x02\x01\x01\x03\x00\x00\x00\xFF\xFF\x11\x22\x00\x11\x00\x06",
            13,
            10,
            "signal 0",
        );
        refused(
            &rt,
            b"\x02\x01\x01\x03\x00\x00\x00\xFF\xFF\x11\x22\x01\x11\x00\x06",
            13,
            10,
            "no such signal",
        );
        refused(
            &rt,
            b"\x02\x01\x01\x03\x00\x00\x00\xFF\xFF\x11\x20\x00\x11\x06",
            12,
            13,
            "no end of the effect",
        );
        refused(
            &rt,
            b"\x01\x01\x02\x01\x01\x03\x00\x00\x00\xFF\xFF\x11\x22\x01\x11\x00\x06",
            12,
            15,
            "an end for the parameter's value",
        );
    }

    // Eight statements of three bytes are read, and the ninth stands at byte 34.
    #[test]
    fn the_ninth_statement(rt: HostRuntime) {
        refused(
            &rt,
            b"\x02\x01\x01\x03\x00\x00\x00\xFF\xFF\x11\x20\x00\x11\x20\x00\x11\x20\x00\x11\x20\x00\x11\x20\x00\x11\x20\x00\x11\x20\x00\x11\x20\x00\x11\x20\x00\x11\x00\x06",
            14,
            34,
            "any statement there",
        );
        refused(
            &rt,
            b"\x02\x01\x01\x03\x00\x00\x00\xFF\xFF\x11\x20\x00\x11\x20\x00\x11\x20\x00\x11\x20\x00\x11\x20\x00\x11\x20\x00\x11\x20\x00\x11\x20\x00\x11\x07",
            12,
            34,
            "not a command comes first",
        );
        refused(
            &rt,
            b"\x02\x01\x01\x03\x00\x00\x00\xFF\xFF\x11\x20\x00\x11\x20\x00\x11\x20\x00\x11\x20\x00\x11\x20\x00\x11\x20\x00\x11\x20\x00\x11\x20\x00\x11\x22",
            14,
            34,
            "missing operands come after",
        );
        refused(
            &rt,
            b"\x02\x01\x01\x03\x00\x00\x00\xFF\xFF\x11\x20\x00\x11\x20\x00\x11\x20\x00\x11\x20\x00\x11\x20\x00\x11\x20\x00\x11\x20\x00\x11\x20\x00\x11\x20\x09\x11\x00\x06",
            14,
            34,
            "wrong ones too",
        );
        refused(
            &rt,
            b"\x02\x01\x01\x03\x00\x00\x00\xFF\xFF\x11\x20\x00\x11\x20\x00\x11\x20\x00\x11\x20\x00\x11\x20\x00\x11\x20\x00\x11\x20\x00\x11\x20\x00\x11",
            11,
            34,
            "nothing there",
        );
    }

    #[test]
    fn levels_that_are_accepted(rt: HostRuntime) {
        accepted(&rt, b"\x06", 0);
        accepted(&rt, b"\x01\x02\x06", 0);
        accepted(&rt, b"\x02\x00\x10\x06", 0);
        accepted(&rt, b"\x02\x08\x01\x06", 0);
        accepted(&rt, b"\x02\x01\x01\x04\x00\x06", 1);
        accepted(
            &rt,
            b"\x02\x01\x01\x03\x00\x00\x00\xFF\xFF\x1D\x1D\x1D\x1D\x1D\x1D\x1D\x11\x00\x06",
            0,
        );
        accepted(
            &rt,
            b"\x02\x01\x01\x03\x00\x00\x00\xFF\xFF\x11\x20\x00\x11\x20\x00\x11\x20\x00\x11\x20\x00\x11\x20\x00\x11\x20\x00\x11\x20\x00\x11\x20\x00\x11\x00\x06",
            0,
        );
        accepted(
            &rt,
            b"\x02\x01\x01\x03\x00\x00\x00\xFF\xFF\x13\x07\x11\x00\x06",
            0,
        );
        accepted(
            &rt,
            b"\x01\x01\x02\x01\x02\x03\x00\x01\x01\x00\xFF\x11\x00\x06",
            0,
        );
        accepted(
            &rt,
            b"\x01\x02\x02\x01\x02\x03\x00\x01\x01\x00\x00\x11\x00\x06",
            0,
        );
        accepted(
            &rt,
            b"\x01\x01\x02\x01\x01\x03\x00\x00\x00\xFF\xFF\x11\x22\x01\x11\x11\x00\x06",
            0,
        );
    }

    // So many items, and then a last one.
    fn items(
        heap: Global,
        first: &[u8],
        count: usize,
        item: &[u8],
        last: &[u8],
    ) -> Result<Vec<u8>, AllocError> {
        let mut bytes = Vec::new(heap);
        bytes.extend_from_slice(first)?;
        for _ in 0..count {
            bytes.extend_from_slice(item)?;
        }
        bytes.extend_from_slice(last)?;
        Ok(bytes)
    }

    // One item too many is named at its own command; it comes after missing operands and before wrong ones.
    fn one_too_many(
        rt: &impl Abort,
        heap: Global,
        first: &[u8],
        count: usize,
        item: &[u8],
        missing: &[u8],
        wrong: &[u8],
    ) -> Result<(), Fail> {
        let byte = first.len().saturating_add(count.saturating_mul(item.len()));
        let whole = items(heap, first, count, item, b"\x06")?;
        assert!(rt; load_alone(whole.as_slice()).is_ok());
        let too_many = Err(LevelFault {
            reason: Reason::Operand(OperandFault::TooMany),
            byte,
        });
        let more = items(heap, first, count, item, item)?;
        assert_eq!(rt; load_alone(more.as_slice()), too_many);
        let worse = items(heap, first, count, item, wrong)?;
        assert_eq!(rt; load_alone(worse.as_slice()), too_many);
        let cut = items(heap, first, count, item, missing)?;
        assert_eq!(rt;
            load_alone(cut.as_slice()),
            Err(LevelFault {
                reason: Reason::Truncated,
                byte: cut.len(),
            })
        );
        Ok(())
    }

    #[test]
    fn one_item_too_many(rt: HostRuntime) -> Result<(), Fail> {
        let heap = rt.alloc();
        one_too_many(&rt, heap, b"", 32, b"\x01\x00", b"\x01", b"\x01\x09")?;
        one_too_many(
            &rt,
            heap,
            b"",
            16,
            b"\x02\x00\x01",
            b"\x02\x00",
            b"\x02\x09\x01",
        )?;
        one_too_many(
            &rt,
            heap,
            b"\x02\x00\x01",
            128,
            b"\x03\x00\x00\x00\xFF\xFF\x11\x00",
            b"\x03\x00\x00\x00\xFF",
            b"\x03\x01\x00\x00\xFF\xFF",
        )?;
        one_too_many(
            &rt,
            heap,
            b"\x02\x00\x01",
            32,
            b"\x04\x00",
            b"\x04",
            b"\x04\x01",
        )
    }

    // A level of 1,364 starting numbers has 8,192 bytes with the rest.
    #[test]
    fn the_longest_level(rt: HostRuntime) -> Result<(), Fail> {
        let first = b"\x01\x00\x02\x01\x01\x04\x00";
        let start = b"\x05\x00\x00\x00\x00\x02";
        let longest = items(rt.alloc(), first, 1364, start, b"\x06")?;
        assert_eq!(rt; longest.len(), 8192);
        accepted(&rt, longest.as_slice(), 1);
        let longer = items(rt.alloc(), first, 1364, start, b"\x06\x06")?;
        refused(&rt, longer.as_slice(), 10, 0, "one byte more");
        Ok(())
    }

    #[test]
    fn what_stands_where(rt: HostRuntime) {
        let bytes = LAMP_AND_BELL;
        let mut level = Level::new();
        assert_eq!(rt; level.load(&bytes), Ok(2));
        assert_eq!(rt; level.code().len(), 69);
        assert_eq!(rt;
            (
                level.parameters(0),
                level.parameters(1),
                level.parameters(2),
            ),
            (None, Some(1), None)
        );
        assert_eq!(rt;
            level.kind(0),
            Some(KindEntry {
                numbers: 1,
                states: 2,
            })
        );
        assert_eq!(rt; level.kind(2), None);
        let lamp = TransitionEntry {
            kind: 0,
            source: 0,
            target: 1,
            signal: 1,
            first: Some(0),
            second: None,
            guard: 11,
            effect: 16,
        };
        assert_eq!(rt; level.transition(0), Some(lamp));
        let bell = TransitionEntry {
            kind: 1,
            source: 0,
            target: 0,
            signal: 0,
            first: None,
            second: None,
            guard: 26,
            effect: 39,
        };
        assert_eq!(rt; level.transition(1), Some(bell));
        assert_eq!(rt; level.transition(2), None);
        assert_eq!(rt;
            level.piece(1),
            Some(PieceEntry {
                kind: 1,
                numbers: 1,
                starts: [7, 0, 0, 0, 0, 0, 0, 0],
            })
        );
        assert_eq!(rt; level.piece(2), None);
    }

    #[test]
    fn a_refused_load_keeps_the_level(rt: HostRuntime) {
        let bytes = LAMP_AND_BELL;
        let mut level = Level::new();
        assert_eq!(rt; level.pieces(), 0);
        assert_eq!(rt; level.load(&bytes), Ok(2));
        assert!(rt; level.load(b"\x07").is_err());
        assert_eq!(rt; level.pieces(), 2);
        assert_eq!(rt; level.load(b"\x06"), Ok(0));
        assert_eq!(rt; level.pieces(), 0);
    }

    #[test]
    fn the_last_of_two_starting_numbers_stands(rt: HostRuntime) {
        let mut level = Level::new();
        let bytes = b"\x02\x02\x01\x04\x00\x05\x01\x00\x00\x00\x02\x05\x01\xFF\xFF\xFF\xFE\x06";
        assert_eq!(rt; level.load(bytes), Ok(1));
        assert_eq!(rt;
            level.piece(0),
            Some(PieceEntry {
                kind: 0,
                numbers: 2,
                starts: [0, -2, 0, 0, 0, 0, 0, 0],
            })
        );
    }
}
