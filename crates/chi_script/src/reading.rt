//! Reading an input to its end, or to where it is too large.

ghost use Rattle.std.specs.Prelude.{◌≡◌, ◌+◌, ◌^◌, ◌<◌, ◌≤◌, length, take, IfOk, OnOk, IfErr, IfSome};
ghost use Rattle.chi_script.specs.Devices.{CountsFault};

use crate::devices::{Failed, Input};
use crate::faults::Fault;
use crate::files::MOST_BYTES;
use std::alloc::Allocator;

/// How many bytes one read takes at most.
const PIECE: usize = 4_096;

/// The bytes of the input from its beginning on: all of them, or one more than a file may have, which is
/// enough to tell that it is too large.
///
/// `Read` where the input failed, and its count of failures is one more then; `NoMemory` where memory ran
/// out, and the count stays then, as it does where the bytes are answered. Condition: the input's count of
/// failures is below 2 ^ 64 - 1.
/// Source: `docs/FORMATS.md`, "The program" and "Bytes, lines and numbers".
pub fn read_all<A: Allocator, I: Input>(alloc: A, input: &mut I) -> Result<Vec<u8, A>, Fault>
    requires { I.failures input.old + 1 < 2 ^ 64 }
    ensures front { IfOk result
        (λ bytes. IfSome (I.left input.old) (λ file. bytes.items ≡ take 1048577 file)) }
    ensures bound { IfOk result (λ bytes. length bytes.items ≤ 1048577) }
    ensures ok { OnOk result (I.failures input.new ≡ I.failures input.old) }
    ensures err { IfErr result (CountsFault (I.failures input.old) (I.failures input.new)) }
{
    read_most(alloc, input, MOST_BYTES + 1)
}

/// The bytes of the input from its beginning on: all of them, or `most`, if there are more.
///
/// Faults and the condition are those of `read_all`.
/// Source: `docs/FORMATS.md`, "The program".
pub fn read_most<A: Allocator, I: Input>(
    alloc: A,
    input: &mut I,
    most: usize,
) -> Result<Vec<u8, A>, Fault>
    requires { I.failures input.old + 1 < 2 ^ 64 }
    ensures front { IfOk result (λ bytes. IfSome (I.left input.old) (λ file. bytes.items
        ≡ take most file)) }
    ensures bound { IfOk result (λ bytes. length bytes.items ≤ most) }
    ensures ok { OnOk result (I.failures input.new ≡ I.failures input.old) }
    ensures err { IfErr result (CountsFault (I.failures input.old) (I.failures input.new)) }
{
    let mut bytes = Vec::new(alloc);
    let mut buffer = [0; PIECE];
    'pieces: while bytes.len() < most {
        let room = PIECE.min(most - bytes.len());
        let piece = &mut buffer[..room];
        match input.read(piece) {
            Ok(0) => break,
            Ok(count) => bytes.extend_from_slice(&piece[..count])?,
            Err(Failed) => return Err(Fault::Read),
        }
    }
    Ok(bytes)
}
