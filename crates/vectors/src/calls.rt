// The calls that a line can ask for: the operation, the variant, and what is given. A lent output is given as its bytes
// before the call, and images lie as they do in memory.
ghost use Rattle.std.specs.Prelude.{◌≤◌, ◌<◌};

use crate::text::Kind;
use crate::text::Kind::{Bytes, Dash, Ending, Exactly, Number, Small};
use crate::{show, text};
use hasher::Hasher;
use standard::Direction::{Backward, Forward};
use standard::Wanted::{Digest, EndState};
use standard::{Direction, Wanted};
use std::io;

fn permute(rt: &impl Print, line: &[u8], way: Direction) -> io::Result<()> {
    let mut room = [0u8; text::ROOM];
    let image = text::bytes(line, 2, &mut room);
    let v = text::number(line, 1);
    let status = match way {
        Forward => chain::permute(v, image),
        Backward => chain::unpermute(v, image),
    };
    show::result(rt, status, image)
}

// The permutation by look-ups on words, of a sponge.
fn permute_words(rt: &impl Print, line: &[u8]) -> io::Result<()> {
    let v = text::small(line, 1);
    let mut image = [0u8; 36];
    let n = text::bytes(line, 2, &mut image).len();
    if v < 1 || 10 < v {
        return no_call(rt);
    }
    show::result(
        rt,
        Ok(()),
        &chain::outcome::permuted_by_words(v, image)[..n],
    )
}

// The state after each layer of a round of SPONGENT with its counter.
fn layers(s: [u8; 36], n: usize, counter: u8, way: Direction) -> [[u8; 36]; 3]
    requires { (0 < n) × (n ≤ 36) }
{
    let reversed = spongent::steps::in_reverse(counter);
    match way {
        Forward => {
            let added = spongent::steps::c_addition(s, n, counter, reversed);
            let replaced = spongent::steps::s_box_layer(added, n, &spongent::S_BOX);
            [added, replaced, spongent::steps::p_layer(replaced, 8 * n)]
        }
        Backward => {
            let put = spongent::steps::p_layer_back(s, 8 * n);
            let replaced = spongent::steps::s_box_layer(put, n, &spongent::S_BOX_BACK);
            let added = spongent::steps::c_addition(replaced, n, counter, reversed);
            [put, replaced, added]
        }
    }
}

// A round: the counter in reverse, and the state after each layer.
fn round(rt: &impl Print, line: &[u8], way: Direction) -> io::Result<()> {
    let [counter] = text::array::<1>(line, 2);
    let mut state = [0u8; 36];
    let n = text::bytes(line, 3, &mut state).len();
    if n == 0 {
        return no_call(rt);
    }
    print!(rt; " 0 {:02x}", spongent::steps::in_reverse(counter))?;
    for layer in layers(state, n, counter, way) {
        show::bytes(rt, &layer[..n])?;
    }
    Ok(())
}

// Lesamnta-LW's functions: Q on a word, and G on two words and the word of a round key.
fn q_and_g(rt: &impl Print, line: &[u8]) -> io::Result<()> {
    let x = u32::from_be_bytes(text::array(line, 2));
    let y = u64::from_be_bytes(text::array(line, 3));
    let key = u32::from_be_bytes(text::array(line, 4));
    let mut table = [0u64; lesamnta::words::TABLE_WORDS];
    lesamnta::words::fill_table(&mut table);
    let q = lesamnta::words::word_q(u64::from(x), &table);
    let g = lesamnta::words::word_g(y, u64::from(key), &table);
    print!(rt; " 0 {q:08x} {g:016x}")
}

fn cipher(rt: &impl Print, line: &[u8], way: Direction) -> io::Result<()> {
    let key = text::array(line, 2);
    let state = text::array(line, 3);
    let after = match way {
        Forward => lesamnta::encrypt(key, state),
        Backward => lesamnta::decrypt(key, state),
    };
    show::result(rt, Ok(()), &after)
}

fn hash(rt: &impl Print, line: &[u8], wanted: Wanted) -> io::Result<()> {
    let mut given = [0u8; text::ROOM];
    let message = text::bytes(line, 2, &mut given);
    let mut room = [0u8; text::ROOM];
    let out = text::bytes(line, 4, &mut room);
    let ending = text::ending(line, 3);
    let status = hasher::hash_with(text::number(line, 1), message, ending, wanted, out);
    show::result(rt, status, out)
}

// The running hash that a line gives: variant, stage, total, state and held bits.
fn given(line: &[u8]) -> Hasher {
    Hasher {
        total: text::number(line, 3),
        variant: text::small(line, 1),
        stage: text::small(line, 2),
        state: text::array(line, 4),
        held: text::array(line, 5),
    }
}

fn start(rt: &impl Print, line: &[u8]) -> io::Result<()> {
    show::running(rt, hasher::start(text::number(line, 1)))
}

fn update(rt: &impl Print, line: &[u8]) -> io::Result<()> {
    let mut room = [0u8; text::ROOM];
    let piece = text::bytes(line, 6, &mut room);
    show::running(
        rt,
        hasher::update_with(given(line), piece, text::ending(line, 7)),
    )
}

fn finish(rt: &impl Print, line: &[u8]) -> io::Result<()> {
    show::running(rt, hasher::finish(given(line)))
}

fn read(rt: &impl Print, line: &[u8], wanted: Wanted) -> io::Result<()> {
    let mut room = [0u8; text::ROOM];
    let out = text::bytes(line, 6, &mut room);
    let status = hasher::read(given(line), wanted, out);
    show::result(rt, status, out)
}

fn segment(rt: &impl Print, line: &[u8]) -> io::Result<()> {
    let mut listed = [0u8; text::ROOM];
    let list = text::bytes(line, 2, &mut listed);
    let mut room = [0u8; text::ROOM];
    let buffer = text::bytes(line, 3, &mut room);
    let k = text::number(line, 4) as usize;
    let status = segments::check_entry(list, buffer, k);
    show::result(rt, status, segments::segment(list, buffer, k))
}

fn hash_list(rt: &impl Print, line: &[u8], wanted: Wanted) -> io::Result<()> {
    let mut listed = [0u8; text::ROOM];
    let list = text::bytes(line, 2, &mut listed);
    let mut given = [0u8; text::ROOM];
    let buffer = text::bytes(line, 3, &mut given);
    let mut room = [0u8; text::ROOM];
    let out = text::bytes(line, 4, &mut room);
    let status = segments::hash_list(text::number(line, 1), list, buffer, wanted, out);
    show::result(rt, status, out)
}

fn lost_block(rt: &impl Print, line: &[u8]) -> io::Result<()> {
    let v = text::number(line, 1);
    let mut given = [0u8; text::ROOM];
    let message = text::bytes(line, 2, &mut given);
    let ending = text::ending(line, 3);
    let place = text::number(line, 4) as usize;
    let mut state = [0u8; text::ROOM];
    let image = text::bytes(line, 5, &mut state);
    let mut room = [0u8; text::ROOM];
    let out = text::bytes(line, 6, &mut room);
    let status = recover::recover_with(v, message, ending, place, image, out);
    show::result(rt, status, out)
}

fn check_manifest(rt: &impl Print, line: &[u8]) -> io::Result<()> {
    let mut room = [0u8; text::ROOM];
    show::status(rt, manifest::check(text::bytes(line, 2, &mut room)))
}

// A report over two pieces, each after the manifest that is passed with it: the six counts, in the order of the program
// `report`.
fn report(rt: &impl Print, line: &[u8]) -> io::Result<()> {
    let mut room = [0u8; text::ROOM];
    let begun = manifest::start(text::bytes(line, 2, &mut room));
    let half = half_report(line, 2, begun.report);
    let s = manifest::summary_of(half_report(line, 4, half));
    show::status(rt, begun.status)?;
    for count in [s.listed, s.tables, s.equal, s.unequal, s.untold, s.unlisted] {
        print!(rt; " {count}")?;
    }
    Ok(())
}

// The report after a manifest and a piece that stand in a line from word k on.
fn half_report(line: &[u8], k: usize, report: manifest::Report) -> manifest::Report
    requires { k < 5 }
{
    let mut listed = [0u8; text::ROOM];
    let list = text::bytes(line, k, &mut listed);
    let mut room = [0u8; text::ROOM];
    let piece = text::bytes(line, k + 1, &mut room);
    manifest::update(list, report, piece)
}

fn no_call(rt: &impl Print) -> io::Result<()> {
    print!(rt; " not a call")
}

// The words of a running hash that a line gives, and what follows it in a read and in an update.
const HASHER: [Kind; 5] = [Small, Small, Number, Exactly(36), Exactly(16)];

const READ: [Kind; 6] = [Small, Small, Number, Exactly(36), Exactly(16), Bytes];

const UPDATE: [Kind; 7] = [
    Small,
    Small,
    Number,
    Exactly(36),
    Exactly(16),
    Bytes,
    Ending,
];

// Makes the call that a line asks for, if it asks for one.
pub fn answer(rt: &impl Print, line: &[u8]) -> io::Result<()> {
    let has = |form: &[Kind]| text::has_form(line, form);
    match text::word(line, 0) {
        b"permute" if has(&[Number, Bytes]) => permute(rt, line, Forward),
        b"unpermute" if has(&[Number, Bytes]) => permute(rt, line, Backward),
        b"permute-words" if has(&[Number, Bytes]) => permute_words(rt, line),
        b"round" if has(&[Number, Exactly(1), Bytes]) => round(rt, line, Forward),
        b"unround" if has(&[Number, Exactly(1), Bytes]) => round(rt, line, Backward),
        b"q-and-g" if has(&[Number, Exactly(4), Exactly(8), Exactly(4)]) => q_and_g(rt, line),
        b"encrypt" if has(&[Number, Exactly(16), Exactly(32)]) => cipher(rt, line, Forward),
        b"decrypt" if has(&[Number, Exactly(16), Exactly(32)]) => cipher(rt, line, Backward),
        b"digest" if has(&[Number, Bytes, Ending, Bytes]) => hash(rt, line, Digest),
        b"end-state" if has(&[Number, Bytes, Ending, Bytes]) => hash(rt, line, EndState),
        b"recover" if has(&[Number, Bytes, Ending, Number, Bytes, Bytes]) => lost_block(rt, line),
        b"start" if has(&[Number]) => start(rt, line),
        b"update" if has(&UPDATE) => update(rt, line),
        b"finish" if has(&HASHER) => finish(rt, line),
        b"read-digest" if has(&READ) => read(rt, line, Digest),
        b"read-end-state" if has(&READ) => read(rt, line, EndState),
        b"segment" if has(&[Dash, Bytes, Bytes, Number]) => segment(rt, line),
        b"list-digest" if has(&[Number, Bytes, Bytes, Bytes]) => hash_list(rt, line, Digest),
        b"list-end-state" if has(&[Number, Bytes, Bytes, Bytes]) => hash_list(rt, line, EndState),
        b"check-manifest" if has(&[Dash, Bytes]) => check_manifest(rt, line),
        b"report" if has(&[Dash, Bytes, Bytes, Bytes, Bytes]) => report(rt, line),
        _ => no_call(rt),
    }
}
