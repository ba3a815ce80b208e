// A combination on trial: its output is filled before the call and looked at after it.
#![tactic(auto)]

ghost use Rattle.std.specs.Prelude.{◌≤◌, length};

// What a combination answered: how many bytes were written, or the number of the refusal. Then whether a byte was changed
// that is none of those written.
#[derive(Clone, Copy)]
pub struct Tried {
    pub answer: Result<usize, u16>,
    pub wrong: bool,
}

// What stands at a place of an output before the call.
fn filling(at: usize) -> u8 {
    (at % 199 + 57) as u8
}

// Fills an output.
pub fn fill(out: &mut [u8]) {
    for at in 0..out.len() {
        out[at] = filling(at);
    }
}

// Whether an output does not hold its filling from a place on.
pub fn changed(out: &[u8], from: usize) -> bool {
    for at in from..out.len() {
        if out[at] != filling(at) {
            return true;
        }
    }
    false
}

// A combination that is lent so many bytes of an output; the bytes after them are looked at too.
pub fn combine(rule: &[u8], letters: &[u8], property: &[u8], out: &mut [u8], space: usize) -> Tried
    requires { space ≤ length out.old }
{
    fill(out);
    let answer = combine::combine(rule, letters, property, &mut out[..space]).map_err(u16::from);
    Tried {
        answer,
        wrong: changed(out, answer.unwrap_or(0)),
    }
}
