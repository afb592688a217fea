// The last line: the total of a run, or its refusal.
ghost use Rattle.std.specs.Prelude.{◌≡◌, ◌+◌, ◌≤◌, ◌<◌, ◌^◌, length, sum_by};
ghost use Rattle.std.proofs.lemmas.List.Edits.{sets};
ghost use Rattle.units.specs.declared.Cycles.{Cycles};
ghost use Rattle.player.specs.Rows.{number_in};
ghost use Rattle.printout.specs.Parts.{last_text, word_of, numbers_of, Summed, last_of};

use crate::rows::{fields_length, put_fields};
use refusals::Refusal;
use rules::{State, Tally};
use units::Cycles;

// What the last line says: the total of a run, in five numbers, or its refusal, by its number.
#[derive(Clone, Copy)]
pub(crate) enum Last {
    Total([u64; 5]),
    Refused(u64),
}

impl Last {
    // The word that the last line begins with.
    #[tactic(auto, unfolding(crate::specs::Parts::word_of, crate::specs::Print::total_word, crate::specs::Print::refused_word))]
    pub(crate) fn word(&self) -> &'static [u8]
        ensures { result.now ≡ word_of self.now }
    {
        match self {
            Last::Total(_) => b"total",
            Last::Refused(_) => b"refused",
        }
    }

    // The numbers that stand behind it.
    #[tactic(auto, unfolding(crate::specs::Parts::numbers_of))]
    pub(crate) fn numbers(&self) -> &[u64]
        ensures value { result.now ≡ numbers_of self.now }
        ensures few { length result.now ≤ 5 }
    {
        match self {
            Last::Total(numbers) => numbers,
            Last::Refused(number) => std::slice::from_ref(number),
        }
    }
}

// The last line of a run that ended so: total, cycles granted, idle, energy, late, cut; or refused and the number.
#[tactic(auto, unfolding(crate::specs::Parts::last_of, crate::specs::Parts::Summed, crate::specs::Print::totals_of), using(crate::proofs::LastLine::last_numbers))]
pub(crate) fn last_of(refusal: Option<Refusal>, state: State) -> Last
    requires { Summed (number_in refusal) state }
    ensures { result ≡ last_of (number_in refusal) state }
{
    if let Some(refusal) = refusal {
        return Last::Refused(u64::from(refusal));
    }
    let tally = state.tally;
    let cycles = granted(tally);
    let energy = governor::energy(state).unwrap_or(0);
    Last::Total([cycles.0, tally.idle.0, energy, tally.late, tally.cut])
}

// The cycles granted at all speeds.
pub(crate) fn granted(tally: Tally) -> Cycles
    requires { sum_by (λ (c : Cycles). c.0) tally.counts < 2 ^ 64 }
    ensures { result.0 ≡ sum_by (λ (c : Cycles). c.0) tally.counts }
{
    Cycles(tally.counts.iter().map(|count| count.0).sum())
}

// How many bytes the last line takes.
#[tactic(auto, using(crate::proofs::LastLine::last_bytes))]
pub(crate) fn last_length(last: &Last) -> usize
    ensures { result ≡ length (last_text last.now) }
{
    last.word().len() + fields_length(last.numbers()) + 2
}

// Puts the last line from a place on, and tells the place after it.
#[tactic(auto, unfolding(crate::specs::Print::cr_lf), using(crate::proofs::LastLine::last_bytes))]
pub(crate) fn put_last(out: &mut [u8], at: usize, last: &Last) -> usize
    requires { at + length (last_text last.now) ≤ length out.old }
    ensures value { result ≡ at + length (last_text last.now) }
    ensures out_after { out.new ≡ sets out.old at (last_text last.now) }
{
    let mut place = words::put(out, at, last.word());
    place = put_fields(out, place, last.numbers());
    words::put(out, place, b"\r\n")
}
