// A message as the code holds it.
ghost use Rattle.chain.specs.MessageBytes.{HoldsMessage};

// Its first bytes are whole, the byte after them has the rest of its bits and the padding's 1 bit, and it has `bits`
// bits.
#[derive(Clone, Copy)]
pub struct Split<'a> {
    pub front: &'a [u8],
    pub last: u8,
    pub bits: usize,
    ghost holds: { HoldsMessage front.now last bits },
}
