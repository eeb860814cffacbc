//! Counts of the objects that copies make. It is out of memory where 32 bits don't count them.

ghost use Rattle.std.specs.Prelude.{◌≡◌, ◌+◌, IfOk, length};
ghost use Rattle.hs_types.specs.Pattern.{made_nodes};

use hs_types::PatternNode;
use std::alloc::AllocError;

/// The count and the nodes that are made.
pub fn more(count: u32, nodes: &[PatternNode]) -> Result<u32, AllocError>
    ensures { IfOk result (λ more. more ≡ count + length (made_nodes nodes.now)) }
{
    match u32::try_from(count_made(nodes)) {
        Ok(made) => added(count, made),
        Err(_) => Err(AllocError),
    }
}

fn count_made(nodes: &[PatternNode]) -> usize
    ensures { result ≡ length (made_nodes nodes.now) }
{
    nodes.iter().filter(|node| node.mark.is_make()).count()
}

/// The sum of two counts.
pub fn added(count: u32, made: u32) -> Result<u32, AllocError>
    ensures { IfOk result (λ sum. sum ≡ count + made) }
{
    match count.checked_add(made) {
        Some(sum) => Ok(sum),
        None => Err(AllocError),
    }
}
