// The models that are compared: all of up to three states by their number, and pseudo-random ones of four to seven.
ghost use Rattle.std.specs.Prelude.{◌<◌, ◌≤◌};

use crate::digits::{below, bit, holds};

// A model of up to seven states: an edge from s to t is the number 8 × s + t in the set of edges. If `stays` holds, a state
// without edges has an implied step to itself.
#[derive(Clone, Copy)]
pub struct Model {
    pub states: usize,
    pub start: usize,
    pub edges: u64,
    pub marks: u64,
    pub stays: bool,
}

// Whether there is an edge.
pub fn has_edge(m: Model, from: usize, to: usize) -> bool {
    from < 8 && to < 8 && holds(m.edges, 8 * from + to)
}

// The set of a state's successors.
pub fn successors(m: Model, from: usize) -> u64 {
    if from < 8 {
        (m.edges >> (8 * from)) % 256
    } else {
        0
    }
}

// The set that holds the implied step of a state, if it has one.
fn implied(m: Model, s: usize) -> u64
    requires { s ≤ 6 }
{
    if m.stays && s < m.states && successors(m, s) == 0 {
        bit(9 * s)
    } else {
        0
    }
}

// The set of all implied steps.
fn all_implied(m: Model) -> u64 {
    let mut set = 0;
    for s in 0..7 {
        set |= implied(m, s);
    }
    set
}

// Whether a state has an implied step.
pub fn has_implied(m: Model) -> bool {
    all_implied(m) != 0
}

// The model with other marks.
pub fn with_marks(m: Model, marks: u64) -> Model {
    Model { marks, ..m }
}

// The model that has the implied steps as edges.
pub fn explicit(m: Model) -> Model {
    Model {
        edges: m.edges | all_implied(m),
        stays: false,
        ..m
    }
}

// The model with a number among all models of one to three states: the initial state, the marks, then the edges.
fn small(states: usize, number: u64, stays: bool) -> Model
    requires states_nonzero { 0 < states }
    requires states_bound { states ≤ 3 }
{
    let side = states as u64;
    let row = below(states);
    let sets = number / side;
    let edges = sets >> side;
    let second = (edges >> side) & row;
    let third = (edges >> (2 * side)) & row;
    Model {
        states,
        start: (number % side) as usize,
        edges: (edges & row) ^ (second << 8) ^ (third << 16),
        marks: sets & row,
        stays,
    }
}

// The next number of the generator, a 64-bit xorshift.
pub fn drawn(x: u64) -> u64 {
    let y = x ^ (x << 13);
    let z = y ^ (y >> 7);
    z ^ (z << 17)
}

// The set of all edges among so many states.
fn all_edges(states: usize) -> u64 {
    match states {
        4 => 0x0f0f0f0f,
        5 => 0x1f1f1f1f1f,
        6 => 0x3f3f3f3f3f3f,
        _ => 0x7f7f7f7f7f7f7f,
    }
}

// The edges from each state to the next and from the last one to the first.
fn ring(states: usize) -> u64 {
    match states {
        4 => 0x1080402,
        5 => 0x110080402,
        6 => 0x12010080402,
        _ => 0x1402010080402,
    }
}

// Edges from three draws, by kind: one in eight, in four, three in eight, one in two, three in four; or a ring and one
// in eight.
fn thinned(a: u64, b: u64, c: u64, states: usize, kind: u64) -> u64 {
    match kind {
        0 => a & b & c,
        1 => a & b,
        2 => a & (b | c),
        3 => a,
        4 => a | b,
        _ => a & b & c | ring(states),
    }
}

// Marks from two draws, by kind: one state, one in four, one in two, three in four.
fn marked(a: u64, b: u64, states: usize, kind: u64) -> u64
    requires { 0 < states }
{
    match kind {
        0 => bit((a % (states as u64)) as usize),
        1 => a & b,
        2 => a,
        _ => a | b,
    }
}

// The seed of the model with a number: models that differ in the number or the states have other seeds.
fn seed(states: usize, number: u64) -> u64 {
    drawn(drawn(number ^ ((states as u64) << 32) ^ 0x9e3779b97f4a7c15))
}

// The pseudo-random model with a number, of four to seven states.
fn random(states: usize, number: u64, stays: bool) -> Model
    requires { 0 < states }
{
    let a = seed(states, number);
    let b = drawn(a);
    let c = drawn(b);
    let d = drawn(c);
    let e = drawn(d);
    let f = drawn(e);
    Model {
        states,
        start: ((f >> 8) % (states as u64)) as usize,
        edges: thinned(a, b, c, states, number % 6) & all_edges(states),
        marks: marked(d >> 16, e >> 16, states, (number / 6) % 4) & below(states),
        stays,
    }
}

// How many models of so many states are compared: all up to three states, each without implied steps and with them.
pub fn how_many(states: usize) -> u64
    ensures { result ≤ 38000 }
{
    match states {
        1 => 8,
        2 => 256,
        3 => 24576,
        _ => 38000,
    }
}

// The model with a number among those of so many states: an odd number is the model before it, with implied steps.
pub fn numbered(states: usize, number: u64) -> Model
    requires { 0 < states }
{
    let stays = number % 2 == 1;
    if states <= 3 {
        return small(states, number / 2, stays);
    }
    random(states, number / 2, stays)
}
