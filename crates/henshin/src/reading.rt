//! Reading a source to its end.

ghost use Rattle.std.specs.Prelude.{◌≡◌, ◌<◌, ◌≤◌, ◌≢◌, List, [], Err, Some, true, length, IfOk, IfSome, OnOk, IsErrOf};
ghost use Rattle.hs_base.specs.Faults.{one_more};

use hs_base::Source;
use hs_expr::Failure;
use std::alloc::{AllocError, Global};

/// Why a source was not read to its end.
#[derive(Clone, Copy, PartialEq, Eq, Debug)]
pub enum ReadFault {
    Failed,
    TooLong,
}

/// How many bytes one read asks for.
const PIECE: usize = 1 << 16;

/// Reads the source to its end, or until it has given more than `most` bytes.
pub fn read_all<S: Source>(
    alloc: Global,
    source: &mut S,
    most: usize,
) -> Result<Vec<u8>, Failure<ReadFault>>
    ensures whole { IfOk result (λ v.
        IfSome (S.left source.old) (λ bytes. (v.items ≡ bytes) × (S.left source.new ≡ Some []))) }
    ensures fits { IfOk result (λ v. length v.items ≤ most) }
    ensures too_long { result ≡ Err (Failure.Fault ReadFault.TooLong)
        → IfSome (S.left source.old) (λ bytes. most < length bytes) }
    ensures failed { result ≡ Err (Failure.Fault ReadFault.Failed)
        → (S.failed source.new ≡ true) × (S.faults source.new ≡ one_more (S.faults source.old)) }
    ensures well { result ≢ Err (Failure.Fault ReadFault.Failed)
        → S.faults source.new ≡ S.faults source.old }
{
    let mut piece = empty_piece(alloc)?;
    read_by_pieces(alloc, source, piece.as_mut_slice(), most)
}

fn empty_piece(alloc: Global) -> Result<Vec<u8>, AllocError>
    ensures { IfOk result (λ v. 0 < length v.items) }
{
    vec![in alloc; 0u8; PIECE]
}

/// Reads the source to its end, each read into this piece.
fn read_by_pieces<S: Source>(
    alloc: Global,
    source: &mut S,
    piece: &mut [u8],
    most: usize,
) -> Result<Vec<u8>, Failure<ReadFault>>
    requires { 0 < length piece.old }
    ensures whole { IfOk result (λ v.
        IfSome (S.left source.old) (λ bytes. (v.items ≡ bytes) × (S.left source.new ≡ Some []))) }
    ensures fits { IfOk result (λ v. length v.items ≤ most) }
    ensures too_long { result ≡ Err (Failure.Fault ReadFault.TooLong)
        → IfSome (S.left source.old) (λ bytes. most < length bytes) }
    ensures failed { result ≡ Err (Failure.Fault ReadFault.Failed)
        → (S.failed source.new ≡ true) × (S.faults source.new ≡ one_more (S.faults source.old)) }
    ensures well { result ≢ Err (Failure.Fault ReadFault.Failed)
        → S.faults source.new ≡ S.faults source.old }
{
    let mut bytes = Vec::new(alloc);
    loop {
        let Ok(count) = source.read(piece) else {
            return Err(Failure::Fault(ReadFault::Failed));
        };
        if count == 0 {
            return Ok(bytes);
        }
        if count > most - bytes.len() {
            return Err(Failure::Fault(ReadFault::TooLong));
        }
        bytes.extend_from_slice(&piece[..count])?;
    }
}
