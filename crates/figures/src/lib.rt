// The figures of answers, for callers that have no enums: a kind, and figures at the front of a lent table. A refusal is its
// number, and has no figures; every other answer is a kind above 100.
#![tactic(auto)]

ghost use Rattle.std.specs.Prelude.{◌≡◌, ◌≤◌, length};
ghost use Rattle.std.proofs.Math.Option.{some};
ghost use Rattle.lasso.specs.Values.{record_of};
ghost use Rattle.outcomes.specs.Tables.{written};
ghost use Rattle.figures.specs.Kinds.{record_figures};
ghost use Rattle.figures.specs.Short.{too_few};

mod kind;

pub use kind::Kind;
use lasso::RoundRecord;

// The entries that the table for the figures must have.
const OUT_ENTRIES: usize = 4;

// So many entries are too few for the table for the figures.
pub fn too_few(entries: usize) -> bool
    ensures { result ≡ too_few entries }
{
    entries < OUT_ENTRIES
}

// Reports a kind, or its number, with its figures: they go to the front of the table.
pub fn report_figures<K: Into<u16>>(kind: K, figures: &[u16], out: &mut [u16]) -> u16
    requires { length figures.now ≤ length out.old }
    ensures kind { K.converts kind result }
    ensures out { out.new ≡ written (some figures.now) out.old }
{
    out[..figures.len()].copy_from_slice(figures);
    kind.into()
}

// Reports a record: the rounds done, whether there is a best length, and that length or 0.
pub fn report_record<K: Into<u16>>(kind: K, r: RoundRecord, out: &mut [u16]) -> u16
    requires { 3 ≤ length out.old }
    ensures kind { K.converts kind result }
    ensures out { out.new ≡ written (some (record_figures (record_of r))) out.old }
{
    match r.best {
        None => report_figures(kind, &[r.done, 0, 0], out),
        Some(l) => report_figures(kind, &[r.done, 1, l.0], out),
    }
}
