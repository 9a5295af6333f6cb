//! What is told of wrong lines, as the stored outputs of tests/observe have it.

use chi_issue_b::Beat;
use chi_log::{Listing, MalformedText, Opcodes, Options, read_line};
use std::alloc::{AllocError, Allocator};
use std::test::Fail;

/// A line, its number, whether its trace lists data and may have opcodes of a design's own, and what is told of it.
type Told<'a> = (&'a [u8], usize, Options, &'static str);

const USUAL: Options = Options::USUAL;

const OWN: Options = Options {
    opcodes: Opcodes::Any,
    listing: Listing::Listed,
};

const DATALESS: Options = Options {
    opcodes: Opcodes::IssueB,
    listing: Listing::None,
};

#[rattlefmt::skip]
static TOLD: [Told<'static>; 20] = [
    (b"DAT 40 8 1 CompDat - UC 11 - - 0,0,0,0,0,0,0,0", 3, USUAL, "chihome: line 3: OPCODE CompDat, expected CompData"),
    (b"REQ 8 40 1 READUNIQUE 1040 - - 1 - -", 1, USUAL, "chihome: line 1: OPCODE READUNIQUE, expected ReadUnique"),
    (b"REQ 8 40 1 Foo 1040 - - 1 - -", 1, USUAL, "chihome: line 1: OPCODE Foo, expected an opcode of Issue B (--opcodes any takes others)"),
    (b"REQ 8 40 1 foo 1040 - - 1 - -", 1, OWN, "chihome: line 1: OPCODE foo, expected an opcode: letters and digits, a capital first"),
    (b"DAT 40 8 1 CompData - UC 11 - - 0,0,0,0,0,0,0,0", 2, DATALESS, "chihome: line 2: DATA 0,0,0,0,0,0,0,0, expected -, as the log has no data"),
    (b"\x1f\x8b\x08", 1, USUAL, "chihome: is gzip: zcat FILE | chihome observe -"),
    (b"REQ 8 40", 3, USUAL, "chihome: line 3: fewer than eleven words, expected CH SRC TGT TXN OPCODE ADDR RESP DBID AR PCRD DATA"),
    (b"\xef\xbb\xbfREQ 8 40", 1, USUAL, "chihome: line 1: fewer than eleven words, expected CH SRC TGT TXN OPCODE ADDR RESP DBID AR PCRD DATA; the trace begins with a byte-order mark"),
    (b"REQ 8 40 zz ReadShared 1040 - - 1 - -", 3, USUAL, "chihome: line 3: TXN zz, expected a hexadecimal number, ffff at most"),
    (b"REQ 8 40 1 Read-Shared 1040 - - 1 - -", 2, USUAL, "chihome: line 2: OPCODE Read-Shared, expected ReadShared"),
    (b"CPU 8 - - Lod 1040 - - - - 0", 1, USUAL, "chihome: line 1: OPCODE Lod, expected Load or Store"),
    (b"CPU 8 - - Load 1040 - - - - x", 1, USUAL, "chihome: line 1: DATA x, expected a hexadecimal number of 64 bits"),
    (b"\xef\xbb\xbfREQ 8 40 1 ReadShared 1040 - - 1 - -", 1, USUAL, "chihome: line 1: CH ???REQ, expected REQ, SNP, RSP, DAT or CPU; the trace begins with a byte-order mark"),
    (b"REQ 8 40 1 ReadShared - - - 1 - -", 7, USUAL, "chihome: line 7: ADDR -, expected a hexadecimal number of 64 bits"),
    (b"RSP 40 8 1 Comp - ZZ - - - -", 7, USUAL, "chihome: line 7: RESP ZZ, expected I, SC, UC, UD, SD, I_PD, SC_PD, UC_PD, UD_PD or SD_PD"),
    (b"RSP 40 8 1 CompDBIDResp - - - - - -", 7, USUAL, "chihome: line 7: DBID -, expected a hexadecimal number, ffff at most"),
    (b"REQ 8 40 1 ReadShared 1040 - - 2 - -", 7, USUAL, "chihome: line 7: AR 2, expected 0 or 1"),
    (b"REQ 8 40 1 ReadShared 1040 - - 0 10 -", 7, USUAL, "chihome: line 7: PCRD 10, expected a hexadecimal number, f at most"),
    (b"REQ g 40 1 ReadShared 1040 - - 0 1 -", 7, USUAL, "chihome: line 7: SRC g, expected a hexadecimal number, ffff at most"),
    (b"DAT 40 8 1 CompData - UC 11 - - 0123456789,0123456789,0123456789,0123456789,0", 2, USUAL,
        "chihome: line 2: DATA 0123456789,0123456789,0123456789,0123456.., expected eight hexadecimal words or x with commas between them, or 128 digits"),
];

/// Whether this is told of the line.
fn is_told<A: Allocator + Copy>(alloc: A, told: &Told) -> Result<bool, AllocError> {
    let (line, number, options, wanted) = (told.0, told.1, told.2, told.3);
    let mut beat = Beat::NONE;
    match read_line(line, options, &mut beat) {
        Ok(_) => Ok(false),
        Err(malformed) => {
            let text = MalformedText {
                malformed,
                number,
                line,
                options,
            };
            let text = format!(in alloc; "{text}")?;
            Ok(text.as_str() == wanted)
        }
    }
}

/// The place of the first row that isn't so.
fn first_other<A: Allocator + Copy>(alloc: A, rows: &[Told]) -> Result<Option<usize>, AllocError> {
    for (place, told) in rows.iter().enumerate() {
        if !is_told(alloc, told)? {
            return Ok(Some(place));
        }
    }
    Ok(None)
}

#[test]
fn wrong_lines_are_told(rt: HostRuntime) -> Result<(), Fail> {
    assert_eq!(rt; first_other(rt.alloc(), &TOLD)?, None);
    let long = [b'#'; 4_097];
    let told = (
        long.as_slice(),
        2,
        USUAL,
        "chihome: line 2: longer than 4096 bytes",
    );
    assert!(rt; is_told(rt.alloc(), &told)?);
    Ok(())
}
