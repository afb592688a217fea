// Ticks, cycles, speeds and volts as types of their own. A count of ticks becomes a count of cycles only here, through a speed, and a count of cycles a speed.
#![tactic(auto)]

ghost use Rattle.std.specs.Prelude.{◌≡◌, ◌*◌, leb};
ghost use Rattle.units.specs.Units.{cycles_in, per_tick};

// A count of ticks, the clock's steps.
#[repr(C)]
#[derive(Clone, Copy, Debug, Default, PartialEq, Eq, PartialOrd, Ord)]
pub struct Ticks(pub u64);

// A count of cycles, in which work is measured.
#[repr(C)]
#[derive(Clone, Copy, Debug, Default, PartialEq, Eq, PartialOrd, Ord)]
pub struct Cycles(pub u64);

// A speed: cycles per tick.
#[repr(C)]
#[derive(Clone, Copy, Debug, Default, PartialEq, Eq, PartialOrd, Ord)]
pub struct Speed(pub u64);

// A voltage in whole tenths of a volt.
#[repr(C)]
#[derive(Clone, Copy, Debug, Default, PartialEq, Eq, PartialOrd, Ord)]
pub struct Volts(pub u64);

// The cycles that a speed makes in so many ticks; the largest count there is, where they are more than that. Two counts below 2 ^ 32, as in every sound state, need no division.
#[tactic(auto, using(crate::proofs::Products::small_fits, crate::proofs::Products::in_most), unfolding(crate::specs::Units::cycles_in))]
pub fn cycles_in(speed: Speed, ticks: Ticks) -> Cycles
    ensures { result ≡ cycles_in speed ticks }
{
    if speed.0 < 4294967296 && ticks.0 < 4294967296 {
        return Cycles(speed.0 * ticks.0);
    }
    Cycles(speed.0.saturating_mul(ticks.0))
}

// The speed at which one tick has so many cycles.
pub fn per_tick(cycles: Cycles) -> Speed
    ensures { result ≡ per_tick cycles }
{
    Speed(cycles.0)
}

// Rule 2: whether a speed carries a load over so many ticks, for every three numbers.
#[tactic(auto, using(crate::proofs::Products::load_compared))]
pub fn carries(speed: Speed, ticks: Ticks, load: Cycles) -> bool
    ensures { result ≡ leb load.0 (speed.0 * ticks.0) }
{
    load <= cycles_in(speed, ticks)
}
