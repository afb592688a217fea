// The end lines of a run file, in the value itself.
ghost use Rattle.std.specs.Prelude.{◌≡◌, ◌+◌, ◌<◌, ◌≤◌, [], ◌∷◌, ◌++◌, cond, length, ltb};
ghost use Rattle.runfile.specs.Groups.{most_end_lines};

use crate::End;
use std::marker::Model;

// At most 1,000 end lines. A contract sees the list of the lines; the places past the last hold zeros.
// Stays: an array with its count, and no ArrayVec: end lines were Copy, and a clone of them could not fail.
#[derive(Clone, Copy)]
pub struct Ends {
    lines: [End; 1000],
    count: usize,
}

impl Model for Ends {
    ghost use Rattle.arrayvec.specs.ArrayVec.{ArrayVec};
    ghost use Rattle.runfile.specs.declared.End.{End};

    ghost Value = { ArrayVec End };

    ghost use Rattle.std.specs.Prelude.{◌≡◌, ◌≤◌, ◌++◌, length, take, drop};
    ghost use Rattle.std.proofs.Common.{sym, ap, ◌∙◌, arith, take-append-drop, length-take-le};
    ghost use Rattle.runfile.specs.Groups.{most_end_lines, free_ends};

    ghost view = { λ e. record { items = take e.count e.lines } };

    ghost invariant = { λ e. (e.count ≤ most_end_lines) × (length e.lines ≡ most_end_lines) × (drop e.count e.lines ≡ free_ends e.count) };

    ghost inverse = { λ v. record { lines = v.items ++ free_ends (length v.items); count = length v.items } };

    ghost inverse_ok = { λ e h i. record {
      lines = (ap (λ n. take e.count e.lines ++ free_ends n) (length-take-le e.count e.lines (omega (arith, h.0, h.1)))
          ∙ ap (λ free. take e.count e.lines ++ free) (sym h.2) ∙ take-append-drop e.count e.lines) i;
      count = length-take-le e.count e.lines (omega (arith, h.0, h.1)) i;
    } };
}

impl Ends {
    // No line.
    pub fn new() -> Self
        ensures { result.items ≡ [] }
    {
        Ends {
            lines: [End::default(); 1000],
            count: 0,
        }
    }

    // How many lines.
    pub fn len(&self) -> usize
        ensures value { result ≡ length self.now.items }
        ensures fits { result ≤ most_end_lines }
    {
        self.as_slice().len()
    }

    // One line more, where there is room: whether there was.
    pub fn push(&mut self, line: End) -> bool
        ensures value { result ≡ ltb (length self.old.items) most_end_lines }
        ensures items { self.new.items ≡ cond result (self.old.items ++ line ∷ []) self.old.items }
    {
        let room = self.len() < 1000;
        if room {
            self.add(line);
        }
        room
    }

    // One line more. There must be room.
    pub(crate) fn add(&mut self, line: End)
        requires { length self.old.items < most_end_lines }
        ensures items { self.new.items ≡ self.old.items ++ line ∷ [] }
        ensures len { length self.new.items ≡ length self.old.items + 1 }
    {
        let count = self.count;
        self.lines[count] = line;
        self.count = count + 1;
    }

    // The lines.
    pub fn as_slice(&self) -> &[End]
        ensures value { result.now ≡ self.now.items }
        ensures fits { length result.now ≤ most_end_lines }
    {
        &self.lines[..self.count]
    }
}
