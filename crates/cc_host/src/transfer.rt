//! Bytes from a reader to a list, and from a slice to a writer, with no failed call tried again.
ghost use Rattle.std.specs.Prelude.{◌≡◌, ◌+◌, ◌≤◌, ◌<◌, ℕ, List, ◌++◌, length, take, vec_len, IfSome, IfOk, OnOk, OnErr, IsOkUnless};
ghost use Rattle.std.specs.Io.{StartsWith};
ghost use Rattle.std.specs.Io.KnownBytes.{Consumes, Appends, IsAtEnd};

use crate::HostFault;
use std::io::{Read, Write};

/// The most bytes that one read asks for.
const CHUNK: usize = 65536;

/// Appends what the reader has left, up to `limit` bytes of it. After a fault some of it may stand in
/// `into`.
pub(crate) fn read_up_to<R: Read>(
    reader: &mut R,
    limit: usize,
    into: &mut Vec<u8>,
) -> Result<(), HostFault>
    ensures ok { OnOk result (IfSome (R.remaining reader.old) (λ rest.
        into.new.items ≡ into.old.items ++ take limit rest)) }
    ensures begins { StartsWith into.new.items into.old.items }
    ensures limit { vec_len into.new ≤ vec_len into.old + limit }
{
    let mut room = limit;
    while room > 0 {
        let got = append_chunk(reader, room, into)?;
        if got == 0 {
            break;
        }
        room -= got;
    }
    Ok(())
}

/// Appends what one read gives, which asks for at most `most` bytes. At the reader's end it gives none.
fn append_chunk<R: Read>(
    reader: &mut R,
    most: usize,
    into: &mut Vec<u8>,
) -> Result<usize, HostFault>
    requires { 0 < most }
    ensures ok { IfOk result (λ n. (bytes : List ℕ) × (length bytes ≡ n) ×
        (into.new.items ≡ into.old.items ++ bytes) ×
        Consumes (R.remaining reader.old) (R.remaining reader.new) bytes) }
    ensures most { IfOk result (λ n. n ≤ most) }
    ensures end { IfOk result (λ n. n ≡ 0 → IsAtEnd (R.remaining reader.new)) }
    ensures err { OnErr result (into.new.items ≡ into.old.items) }
{
    let mut chunk = [0u8; CHUNK];
    let want = most.min(CHUNK);
    let got = reader
        .read(&mut chunk[..want])
        .map_err(|_| HostFault::Failed)?;
    into.extend_from_slice(&chunk[..got])
        .map_err(|_| HostFault::Memory)?;
    Ok(got)
}

/// Writes all of the bytes. A write that takes none of a rest that isn't empty is a failure.
pub(crate) fn write_whole<W: Write>(writer: &mut W, bytes: &[u8]) -> Result<(), HostFault>
    ensures ok { OnOk result (Appends (W.contents writer.old) (W.contents writer.new) bytes.now) }
    ensures only_failed { IsOkUnless result HostFault.Failed }
{
    let mut rest = bytes;
    while !rest.is_empty() {
        match writer.write(rest) {
            Ok(n) if n > 0 => rest = &rest[n..],
            _ => return Err(HostFault::Failed),
        }
    }
    Ok(())
}
