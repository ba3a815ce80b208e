// The desk sheet program: reads a model file from standard input, and prints its sheet.
#![tactic(auto)]

fn main(rt: HostRuntime) {
    if !desk::print_sheet(&mut rt.stdin(), &mut rt.stdout()) {
        let _ = eprintln!(rt; "desk_sheet: the sheet could not be written");
    }
}
