// The printout: what the bench prints for any bytes, into a buffer that the caller lends.
#![tactic(auto)]

mod lasts;
mod rows;
mod whole;

ghost use Rattle.std.specs.Prelude.{◌≡◌, length};
ghost use Rattle.words.specs.Words.{put_in};
ghost use Rattle.printout.specs.Print.{print_of, printed_of};

// Plays a text as a run file and prints the run into a buffer, from its first place on, and tells how many bytes it has: all of it, or nothing where there is no room. 180,000 places hold the rows of the longest run: 10,000 ticks of 16 tasks.
pub fn print(text: &[u8], out: &mut [u8]) -> Option<usize>
    ensures value { result ≡ printed_of (print_of text.now) (length out.old) }
    ensures out_after { out.new ≡ put_in out.old 0 (print_of text.now) }
{
    let mut table = [0; 180000];
    let played = player::play(text, &mut table)?;
    whole::render(played.refusal, played.state, &table, out)
}
