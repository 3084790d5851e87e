// What a block of the embedded packing is: its definitions and their laws. Of functions there is one, which tells how long a block is.
#![tactic(auto)]

ghost use Rattle.std.specs.Prelude.{◌≡◌};
ghost use Rattle.ivtv_rules.specs.Block.{block_length};

// Bytes of a block of n lines, 0 where there is none of so many: no Option, since tg_vbi_block_length gives C this number as it is.
#[tactic(auto, unfolding(crate::specs::Block::block_length))]
pub fn block_length(n: usize) -> usize
    ensures { result ≡ block_length n }
{
    if n < 36 {
        return 12 + 43 * n;
    }
    if n == 36 { 1552 } else { 0 }
}
