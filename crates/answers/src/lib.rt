// The answers of search and next as numbers, for callers that have no enums: a kind, and figures in a lent table.
#![tactic(auto)]

ghost use Rattle.std.specs.Prelude.{◌≡◌, ◌≤◌, length};
ghost use Rattle.figures.specs.Kinds.{KindTold, figures_told};
ghost use Rattle.answers.specs.Kinds.{report_of_searched, report_of_followed};

use figures::{Kind, report_figures, report_record};
use next::NextList;
use search::SearchAnswer;

// Reports the answer of a search, whose refusal is a reason or a number.
pub fn report_search<N: Into<u16>>(answer: Result<SearchAnswer, N>, out: &mut [u16]) -> u16
    requires { 3 ≤ length out.old }
    ensures kind { KindTold N.converts report_of_searched answer result }
    ensures out { out.new ≡ figures_told out.old report_of_searched answer }
{
    match answer {
        Err(refusal) => refusal.into(),
        Ok(SearchAnswer::Stopped(r)) => report_record(Kind::Stopped, r, out),
        Ok(SearchAnswer::Found(l, k, rounds)) => report_figures(
            Kind::Found,
            &[l.0, k, rounds],
            out,
        ),
        Ok(SearchAnswer::NoneWithin(rounds)) => report_figures(Kind::NoneWithin, &[rounds], out),
    }
}

// Reports the answer of next, whose refusal is a reason or a number.
pub fn report_next<N: Into<u16>>(answer: Result<Option<NextList>, N>, out: &mut [u16]) -> u16
    requires { 3 ≤ length out.old }
    ensures kind { KindTold N.converts report_of_followed answer result }
    ensures out { out.new ≡ figures_told out.old report_of_followed answer }
{
    match answer {
        Err(reason) => reason.into(),
        Ok(Some(listed)) => report_figures(Kind::Found, &[listed.length.0, listed.loop_start], out),
        Ok(None) => Kind::NoMore.into(),
    }
}
