// Runs the cases that it reads: prints what step, search, next and the distances answer, and how many tables were not
// as they should be after a call.
#![tactic(auto)]

mod calls;
mod judged;
mod lines;
mod model_put;
mod setting;
mod sweeps;

use calls::spoilt;
use case_text::lines_of;
use harness::read_text;
use judged::Judged;
use lines::run_line;
use setting::{first_setting, setting_after};

// Runs all lines of a text.
fn run(rt: &impl Print, script: &[u8]) -> Judged {
    let mut so_far = Judged::default();
    let mut shared = first_setting();
    for line in lines_of(script) {
        shared = setting_after(line, shared);
        so_far = run_line(rt, line, shared, so_far);
    }
    so_far
}

fn main(rt: HostRuntime) {
    let mut input = [0u8; 50000];
    let got = read_text(&mut rt.stdin(), &mut input);
    let Judged { looked, wrong } = run(&rt, &input[..got]);
    let noticed = spoilt();
    let _ = print!(rt;
        "spoilt tables noticed {noticed}\ntables looked at {looked}\ntables wrong {wrong}\n"
    );
}
