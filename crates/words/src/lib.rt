// Fixed byte strings: compared at a place of a text, and put into a buffer from a place on.
#![tactic(auto)]

ghost use Rattle.std.specs.Prelude.{◌≡◌};
ghost use Rattle.words.specs.Words.{stands_at, put_in, place_after};

// Whether a word stands in a text at a place; past the text's end only the empty word does.
#[tactic(auto, using(crate::proofs::Begins::stands_starts, crate::proofs::Begins::stands_past, std::proofs::lemmas::Slice::between_to_end))]
pub fn stands(text: &[u8], at: usize, word: &[u8]) -> bool
    ensures { result ≡ stands_at text.now at word.now }
{
    match text.get(at..) {
        Some(rest) => rest.starts_with(word),
        None => word.is_empty(),
    }
}

// Puts a word into a buffer from a place on, and tells the place after it; where it does not fit, nothing is written and the answer is the place itself.
// Stays: a place and no Option: `place_after` answers for every buffer, and writers go on from place to place in buffers that have room, with no test after each word; `decimal::put` likewise.
#[tactic(auto, using(crate::proofs::Stores::put_fits, crate::proofs::Stores::put_short, crate::proofs::Stores::place_fits, crate::proofs::Stores::place_short, crate::proofs::Stores::copied))]
pub fn put(out: &mut [u8], at: usize, word: &[u8]) -> usize
    ensures value { result ≡ place_after out.old at word.now }
    ensures out_after { out.new ≡ put_in out.old at word.now }
{
    if at > out.len() || word.len() > out.len() - at {
        return at;
    }
    let after = at + word.len();
    out[at..after].copy_from_slice(word);
    after
}
