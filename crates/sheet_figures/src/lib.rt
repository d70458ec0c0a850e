// sheet_figures: the figure sheet writer: what each detour of the list that it is given buys. The head may stand anywhere; 01's figure sheet is that of
// a run whose head 01 accepts.
// For the program and the tools, which see only this contract. What the words mean stands in specs/; the function answers every input.
#![tactic(auto)]

ghost use Rattle.std.specs.Prelude.{◌≡◌, not, [], ◌∷◌, ◌+◌, ◌*◌, ◌≤◌, length, nat_abs};
ghost use Rattle.refusals.specs.declared.Refusal.TheVariants.{BadName};
ghost use Rattle.refusals.specs.Refusals.{checked, refuse_if, first_of};
ghost use Rattle.runs.specs.AnyHead.{judge_any_of};
ghost use Rattle.runs.specs.Rows.{run_at};
ghost use Rattle.text_bytes.specs.Text.{is_name};
ghost use Rattle.text_pages.specs.Printing.{Wrote};
ghost use Rattle.sheet_figures.specs.FigureSheet.{figure_line, figure_lines, figure_page, FigureWritten};
ghost use Rattle.sheet_figures.specs.AnyHead.{FigureAnyWritten};
ghost use Rattle.sheet_figures.specs.Private.{figure_most, FigureFits};

use refusals::Verdict;
use sheet_writer::{Written, answer_to, hand_out, judge_any, judge_name};
use text_pages::{put, put_line, put_number_line, put_pair};
use walk::Answer;

// A number without its sign.
fn size_of(figure: i64) -> u64
    ensures { result ≡ nat_abs figure }
{
    if figure < 0 {
        return (-1 - figure) as u64 + 1;
    }
    figure as u64
}

// A detour's line, which is not longer than 69 bytes.
fn put_figure(page: &mut [u8], at: usize, from: u64, to: u64, figure: i64) -> usize
    requires { at + 69 ≤ length page.old }
    ensures { Wrote page.old at (figure_line from to figure) 69 page.new result }
{
    let marks = [b',', b'-'];
    let sign: usize = if figure < 0 { 2 } else { 1 };
    let value = put(page, at, b"buys=");
    let comma = put_pair(page, value, from, to);
    put_number_line(page, comma, &marks[..sign], size_of(figure))
}

fn put_figures(page: &mut [u8], at: usize, froms: &[u64], tos: &[u64], figures: &[i64]) -> usize
    requires froms_len { length froms.now ≡ length tos.now }
    requires froms_len_2 { length froms.now ≡ length figures.now }
    requires froms_in_bounds { at + length froms.now * 69 ≤ length page.old }
    ensures { Wrote page.old at (figure_lines froms.now tos.now figures.now) (length froms.now * 69) page.new result }
{
    let mut next = at;
    for i in 0..froms.len() {
        next = put_figure(page, next, froms[i], tos[i], figures[i]);
    }
    next
}

fn put_figure_sheet(
    page: &mut [u8],
    name: &[u8],
    answer: Answer,
    froms: &[u64],
    tos: &[u64],
    figures: &[i64],
) -> usize
    requires { FigureFits page.old name.now froms.now tos.now figures.now }
    ensures { Wrote page.old 0 (figure_page name.now answer froms.now tos.now figures.now) figure_most page.new result }
{
    let sum_at = put_line(page, 0, b"tape=", name);
    let detours_at = put_number_line(page, sum_at, b"sum=", answer.sum);
    let buys_at = put_number_line(page, detours_at, b"detours=", answer.detours);
    put_figures(page, buys_at, froms, tos, figures)
}

// 1 to 7 for a head anywhere, then 13.
fn judge_sheet(
    name: &[u8],
    starts: &[u64],
    lengths: &[u64],
    aggregates: &[u64],
    numbers: &[u64],
    counts: &[u64],
    head: u64,
    turn: u64,
) -> Result<(), Verdict>
    ensures { result ≡ checked (first_of (judge_any_of (run_at starts lengths aggregates numbers counts head turn) ∷ refuse_if (not (is_name name.now)) BadName ∷ [])) }
{
    let run = judge_any(starts, lengths, aggregates, numbers, counts, head, turn);
    judge_name(run, false, name)
}

// The figure sheet of a run with the head anywhere.
pub fn write_figures_any(
    name: &[u8],
    starts: &[u64],
    lengths: &[u64],
    aggregates: &[u64],
    numbers: &[u64],
    counts: &[u64],
    head: u64,
    turn: u64,
    froms: &[u64],
    tos: &[u64],
    out: &mut [u8],
) -> Written
    ensures { FigureAnyWritten name.now (run_at starts lengths aggregates numbers counts head turn) froms.now tos.now out.old result out.new }
{
    let judged = judge_sheet(
        name, starts, lengths, aggregates, numbers, counts, head, turn,
    );
    if let Err(refusal) = judged {
        return answer_to(refusal, 0);
    }
    let mut row = [0i64; 64];
    let answer = figures::figures_any(
        starts, lengths, aggregates, numbers, counts, head, turn, froms, tos, &mut row,
    );
    let list = Verdict {
        refusal: answer.refusal,
        place: answer.place,
    };
    if let Err(refusal) = list.told() {
        return answer_to(refusal, 0);
    }
    let detours = froms.len();
    let mut page = [0u8; 4492];
    let bytes = put_figure_sheet(&mut page, name, answer, froms, tos, &row[..detours]);
    hand_out(&page[..bytes], out)
}

// The figure sheet of a run of 01: the head is judged by its 7, and then priced from as any.
pub fn write_figures(
    name: &[u8],
    starts: &[u64],
    lengths: &[u64],
    aggregates: &[u64],
    numbers: &[u64],
    counts: &[u64],
    head: u64,
    turn: u64,
    froms: &[u64],
    tos: &[u64],
    out: &mut [u8],
) -> Written
    ensures { FigureWritten name.now (run_at starts lengths aggregates numbers counts head turn) froms.now tos.now out.old result out.new }
{
    if let Err(refusal) = runs::judge(starts, lengths, aggregates, numbers, counts, head, turn) {
        return answer_to(refusal, 0);
    }
    write_figures_any(
        name, starts, lengths, aggregates, numbers, counts, head, turn, froms, tos, out,
    )
}
