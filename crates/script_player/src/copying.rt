// The copy of the list last received.
ghost use Rattle.std.specs.Prelude.{◌≡◌, ◌≤◌, eqb, length, take};
ghost use Rattle.lists.specs.Lists.{pick};

// Takes the entries received, if any, into the copy; answers how many entries the copy has then.
pub fn receive(answer: &[u16], got: usize, copy: &mut [u16], held: usize) -> usize
    requires got_in_bounds { got ≤ length answer.now }
    requires got_in_bounds_2 { got ≤ length copy.old }
    requires held_in_bounds { held ≤ length copy.old }
    ensures copy { take result copy.new ≡ pick (eqb got 0)
        (take held copy.old) (take got answer.now) }
    ensures fits { result ≤ length copy.old }
{
    if got == 0 {
        return held;
    }
    copy[..got].copy_from_slice(&answer[..got]);
    got
}
