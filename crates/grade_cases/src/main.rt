// Runs the cases that it reads: prints what the grader says of a list with a claimed k and where the list breaks, and how
// many working tables are not as they should be.
#![tactic(auto)]

ghost use Rattle.std.specs.Prelude.{◌≤◌};

use case_text::{find, lines_of, make, make_entries, next_number};
use grade_trials::{Tried, Verdict};
use harness::{Filling, fill, first, read_text, sum, text, wrong_work};

// What a case says in numbers: how many bytes of its file are lent, the claimed k, how many entries of the working table
// are lent, and the mark table that is named.
#[derive(Clone, Copy)]
struct CaseNumbers {
    size: usize,
    k: u16,
    room: usize,
    mark_table: u16,
}

// How many working tables were looked at, and how many of them were not as they should be.
#[derive(Clone, Copy, Default)]
struct Judged {
    looked: u64,
    wrong: u64,
}

// The numbers of a case, from the part of its line that holds them; they are kept below what there is room for. The mark
// table is 0 unless a fourth number says otherwise.
fn numbers_in(words: &[u8]) -> CaseNumbers
    ensures { (result.size ≤ 25700) × (result.room ≤ 24600) }
{
    let size = next_number(words, 0);
    let k = next_number(words, size.next);
    let room = next_number(words, k.next);
    let mark_table = next_number(words, room.next);
    CaseNumbers {
        size: size.value % 25701,
        k: (k.value % 65536) as u16,
        room: room.value % 24601,
        mark_table: (mark_table.value % 65536) as u16,
    }
}

// The grade of the list that a text describes, on a file.
fn grade_list(rt: &impl Print, file: &[u8], list_text: &[u8], n: CaseNumbers) -> Tried
    requires { n.room ≤ 24600 }
{
    let mut bytes = [0u8; 140032];
    let mut list = [0u16; 70016];
    let mut work = [0u16; 24600];
    let entries = make_entries(rt, list_text, &mut bytes, &mut list);
    let lent = &mut work[..n.room];
    grade_trials::grade(file, n.mark_table, first(&list, entries), n.k, lent)
}

// The grade that a case asks for: the file is described by one text, the list by another.
fn grade(rt: &impl Print, file_text: &[u8], list_text: &[u8], n: CaseNumbers) -> Tried
    requires { (n.size ≤ 25700) × (n.room ≤ 24600) }
{
    let mut file = [0u8; 25700];
    make(rt, file_text, &mut file);
    grade_list(rt, &file[..n.size], list_text, n)
}

// The word for a verdict.
fn word(verdict: Verdict) -> &'static str {
    match verdict {
        Verdict::False => "false",
        Verdict::Accepting => "accepting",
        Verdict::Shortest => "shortest",
    }
}

// Prints an answer.
fn show(rt: &impl Print, tried: Tried) {
    let _ = match tried.answer {
        Err(number) => print!(rt; ": refused {number}\n"),
        Ok(graded) => {
            let verdict = word(graded.verdict);
            match graded.first_break {
                None => print!(rt; ": {verdict}, no place\n"),
                Some(place) => print!(rt; ": {verdict}, place {place}\n"),
            }
        }
    };
}

// Runs a case: its numbers stand after a colon, its file is described after a slash, its list after a bar.
fn run_case(rt: &impl Print, line: &[u8], before: Judged) -> Judged {
    let (name, rest) = line.split_at(find(line, 0, b':'));
    let (numbers, rest) = rest.split_at(find(rest, 0, b'/'));
    let (file, list) = rest.split_at(find(rest, 0, b'|'));
    let tried = grade(rt, file, list, numbers_in(numbers));
    text(rt, name);
    show(rt, tried);
    Judged {
        looked: sum(before.looked, 1),
        wrong: sum(before.wrong, u64::from(tried.wrong)),
    }
}

// Runs a line. One that begins with `#` is printed as it stands.
fn run_line(rt: &impl Print, line: &[u8], before: Judged) -> Judged {
    if line.starts_with(b"#") {
        text(rt, line);
        text(rt, b"\n");
        return before;
    }
    run_case(rt, line, before)
}

// Looks at a table that is right after 12 and spoilt after 22 and after a verdict, and at one that is spoilt after 12;
// answers how many count as wrong.
fn spoilt() -> u8 {
    let mut table = [0u16; 8];
    fill(&mut table, Filling::Varied);
    let looked = u8::from(wrong_work(&table, Some(12)))
        + u8::from(wrong_work(&table, Some(22)))
        + u8::from(wrong_work(&table, None));
    table[5] = 0;
    looked + u8::from(wrong_work(&table, Some(12)))
}

fn main(rt: HostRuntime) {
    let mut input = [0u8; 50000];
    let got = read_text(&mut rt.stdin(), &mut input);
    let mut all = Judged::default();
    for line in lines_of(&input[..got]) {
        all = run_line(&rt, line, all);
    }
    let Judged { looked, wrong } = all;
    let noticed = spoilt();
    let _ = print!(rt;
        "spoilt tables noticed {noticed}\nworking tables looked at {looked}\nworking tables wrong {wrong}\n"
    );
}
