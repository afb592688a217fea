// The calls that keep end lines; and end lines used again after a copy and a clone of them.
ghost use Rattle.std.specs.Prelude.{◌≡◌, [], ◌∷◌, ◌++◌, Ok, cond, length, ltb};
ghost use Rattle.runfile.specs.Groups.{most_end_lines};

use runfile::{End, Ends};
use std::alloc::AllocError;

pub(crate) fn no_ends() -> (Ends, Ends)
    ensures { result.0 ≡ result.1 }
{
    (Ends::new(), Ends::new())
}

pub(crate) fn ends_count(ends: &Ends) -> (usize, usize)
    ensures { result.0 ≡ result.1 }
{
    (ends.len(), ends.len())
}

// Two groups of end lines that are equal before the calls are equal after them.
pub(crate) fn end_more(ends: &mut Ends, again: &mut Ends, line: End) -> (bool, bool)
    requires { ends.old ≡ again.old }
    ensures { (result.0 ≡ result.1) × (ends.new ≡ again.new) }
{
    (ends.push(line), again.push(line))
}

pub(crate) fn end_lines(ends: &Ends) -> (&[End], &[End])
    ensures { result.0.now ≡ result.1.now }
{
    (ends.as_slice(), ends.as_slice())
}

// A line added to a copy is in the copy alone.
pub(crate) fn copy_alone(ends: Ends, line: End) -> (Ends, Ends, bool)
    ensures copied { result.0.items ≡ cond result.2 (ends.items ++ line ∷ []) ends.items }
    ensures stays { result.1 ≡ ends }
    ensures room { result.2 ≡ ltb (length ends.items) most_end_lines }
{
    let mut copy = ends;
    let room = copy.push(line);
    (copy, ends, room)
}

// A clone never fails.
pub(crate) fn cloned(ends: &Ends) -> Result<Ends, AllocError>
    ensures { result ≡ Ok ends.now }
{
    ends.clone()
}
