// A state after a row of blocks, or the digest that it gives: the table is made once for all of it, and the state stays
// in words until the end.
ghost use Rattle.std.specs.Prelude.{◌≡◌, true, [], ◌∷◌, ◌++◌, ◌^◌, ◌≤◌, length};
ghost use Rattle.standard.specs.declared.Direction.TheVariants.{Forward};
ghost use Rattle.standard.specs.declared.Wanted.TheVariants.{Digest};
ghost use Rattle.standard.specs.Families.{is_sponge, state_in};
ghost use Rattle.standard.specs.Variants.{variant, known};
ghost use Rattle.standard.specs.Layout.{packed_state};
ghost use Rattle.chain.specs.Holding.{Holds};
ghost use Rattle.chain.specs.Blocks.{bytes_in, after_blocks};
ghost use Rattle.chain.specs.TakenBack.{permuted_state};
ghost use Rattle.chain.specs.Words.{TableOf};
ghost use Rattle.chain.specs.Outcomes.{outcome, outcome_of};

use crate::sizes::{Family, STATE_BYTES};
use crate::stretch::Stretch;
use crate::{sizes, squeeze, state};
use standard::Wanted;

// A row of blocks, the first `count` of a stretch, that runs through a state, and what is wanted of the state after it.
#[derive(Clone, Copy)]
struct Row<'a> {
    v: u8,
    state: [u8; STATE_BYTES],
    stretch: Stretch<'a>,
    count: usize,
    wanted: Wanted,
}

impl<'a> Row<'a> {
    // With its variant's table at hand. Lesamnta-LW gives its state out as it is.
    fn with(self, table: &[u64]) -> [u8; STATE_BYTES]
        requires v_value { (known self.v ≡ true) × (self.count ≤ 2 ^ 32) }
        requires table_of { TableOf self.v table.now }
        ensures { result ≡ outcome_of self.entry }
    {
        let mut w = state::words_of(self.v, self.state);
        self.stretch.run_words(self.v, &mut w, self.count, table);
        match self.wanted {
            Wanted::Digest if sizes::is_sponge(self.v) => squeeze::squeezed(self.v, &mut w, table),
            Wanted::Digest | Wanted::EndState => state::bytes_of(self.v, &w),
        }
    }

    // With a table of so many words that `fill` makes: a function for each size of table.
    fn with_table<const WORDS: usize, F: FnOnce(&mut [u64])>(self, fill: F) -> [u8; STATE_BYTES]
        requires v_value { (known self.v ≡ true) × (self.count ≤ 2 ^ 32) × (WORDS ≤ 2 ^ 32) }
        requires may_fill { (t : _) → length t.now ≡ WORDS → F.pre fill t }
        requires fills { (t : _) (u : _) → F.post fill t tt u → TableOf self.v u.now }
        ensures { result ≡ outcome_of self.entry }
    {
        let mut table = [0u64; WORDS];
        fill(&mut table);
        self.with(&table)
    }

    // PHOTON-288, whose table is there as a constant.
    fn with_shares(self) -> [u8; STATE_BYTES]
        requires { (self.v ≡ 5) × (self.count ≤ 2 ^ 32) }
        ensures { result ≡ outcome_of self.entry }
    {
        let table = photon::words::entries_288();
        self.with(&table)
    }
}

// The state after the first `count` blocks, or the digest that it gives.
pub fn outcome_after(
    v: u8,
    s: [u8; STATE_BYTES],
    stretch: Stretch,
    count: usize,
    wanted: Wanted,
) -> [u8; STATE_BYTES]
    requires { (known v ≡ true) × (count ≤ 2 ^ 32) }
    ensures { result ≡ outcome (variant v) wanted
        (after_blocks (variant v) (state_in (variant v) s) stretch.entry.held (bytes_in stretch.entry) count) }
{
    let row = Row {
        v,
        state: s,
        stretch,
        count,
        wanted,
    };
    let number = usize::from(v);
    match sizes::family_of(v) {
        Family::Photon if v == 5 => row.with_shares(),
        Family::Photon => row.with_table::<{ photon::words::PAIR_WORDS }, _>(|table| {
            photon::words::fill_pairs(number, table)
        }),
        Family::Spongent => {
            row.with_table::<{ spongent::words::TABLE_WORDS }, _>(spongent::words::fill_table)
        }
        Family::Lesamnta => {
            row.with_table::<{ lesamnta::words::TABLE_WORDS }, _>(lesamnta::words::fill_table)
        }
    }
}

// The digest that a state gives, at the front of bytes that have room for a state.
pub fn digest_of(v: u8, s: [u8; STATE_BYTES]) -> [u8; STATE_BYTES]
    requires { known v ≡ true }
    ensures { result ≡ outcome (variant v) Digest (state_in (variant v) s) }
{
    outcome_after(v, s, Stretch::none(), 0, Wanted::Digest)
}

// The permutation of a sponge by look-ups: the step of a block of zeros. It promises what `state::permuted` does by the
// standard's steps.
pub fn permuted_by_words(v: u8, s: [u8; STATE_BYTES]) -> [u8; STATE_BYTES]
    requires { (known v ≡ true) × (is_sponge (variant v) ≡ true) }
    ensures { result ≡ packed_state (variant v) (permuted_state (variant v) Forward (state_in (variant v) s)) }
{
    outcome_after(v, s, Stretch::none(), 1, Wanted::EndState)
}

// The state after the first `count` blocks. A piece that fills no block needs no table.
pub fn run_blocks(v: u8, s: [u8; STATE_BYTES], stretch: Stretch, count: usize) -> [u8; STATE_BYTES]
    requires v_value { known v ≡ true }
    requires holds { Holds v s }
    requires count_bound { count ≤ 2 ^ 32 }
    ensures { result ≡ packed_state (variant v)
        (after_blocks (variant v) (state_in (variant v) s) stretch.entry.held (bytes_in stretch.entry) count) }
{
    if count == 0 {
        return s;
    }
    outcome_after(v, s, stretch, count, Wanted::EndState)
}
