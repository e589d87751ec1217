// The search for a key's block. It goes by halves.
ghost use Rattle.std.specs.Prelude.{◌≡◌, [], IfNone, IfSome};
ghost use Rattle.dkv_table.specs.Blocks.{AreBlocks, IsSeat, begins_upto};

use crate::block::Block;

// The block in which the key's entry stands, or would go. There is one wherever there are blocks.
pub(crate) fn seat(blocks: &[Block], key: &[u8]) -> Option<usize>
    requires { AreBlocks blocks.now }
    ensures none { IfNone result (blocks.now ≡ []) }
    ensures some { IfSome result (IsSeat key.now blocks.now) }
{
    if blocks.is_empty() {
        return None;
    }
    let above = blocks.partition_point(
        |block: &Block| -> bool
            ensures { result ≡ begins_upto key.entry.now block.now }
        { block.begins_upto(key) },
    );
    Some(above.saturating_sub(1))
}
