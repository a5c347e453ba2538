// Lesamnta-LW (6.2), the variant 11: its block cipher, and the cipher's inverse under a key, by value. `words` has the
// rounds by look-ups and the block step, for hashing.
#![tactic(auto)]

ghost use Rattle.std.specs.Prelude.{◌≡◌, ◌≤◌, length, take};
ghost use Rattle.standard.specs.Bits.{high_first, bits_in, pack};
ghost use Rattle.standard.specs.declared.Direction.TheVariants.{Forward, Backward};
ghost use Rattle.standard.specs.Lesamnta.{cipher};
ghost use Rattle.lesamnta.specs.Cipher.{ciphered};

mod tables; // S-box and MixColumns in one, and the constants
pub mod words;

// A state enciphered under a key. Every key and every state will do.
pub fn encrypt(key: [u8; 16], state: [u8; 32]) -> [u8; 32]
    ensures { result ≡ ciphered Forward key state }
{
    let mut table = [0u64; words::TABLE_WORDS];
    words::fill_table(&mut table);
    let x = words::enciphered(words::state_words(&state), words::key_words(&key), &table);
    let mut out = [0u8; 32];
    words::put_state(&mut out, x);
    out
}

// What was enciphered under the key at the front of bytes to the state at the front of others.
pub fn decrypt_front(key: &[u8], state: &[u8]) -> [u8; 32]
    requires { (16 ≤ length key.now) × (32 ≤ length state.now) }
    ensures { result
        ≡ pack high_first 32 (cipher Backward (take 128 (bits_in high_first key.now))
        (take 256 (bits_in high_first state.now))) }
{
    let mut table = [0u64; words::TABLE_WORDS];
    words::fill_table(&mut table);
    let keys = words::round_keys(words::key_words(key), &table);
    let x = words::deciphered(words::state_words(state), keys, &table);
    let mut out = [0u8; 32];
    words::put_state(&mut out, x);
    out
}

// The state that is enciphered to this one under the key.
pub fn decrypt(key: [u8; 16], state: [u8; 32]) -> [u8; 32]
    ensures { result ≡ ciphered Backward key state }
{
    decrypt_front(&key, &state)
}
