// The desk's answers in lent numbers: the three places of a refusal, then the answer's own values. Each
// returns the refusal, or 0.
ghost use Rattle.std.specs.Prelude.{◌≡◌, ◌≤◌, length};
ghost use Rattle.theory_loops.specs.Fill.{overwritten};
ghost use Rattle.file_refusals.specs.Says.{numbers_of, number_says};
ghost use Rattle.network.specs.Answer.{opening_says};
ghost use Rattle.plan_check.specs.Answer.{report_says};
ghost use Rattle.search_path.specs.Says.{trip_count};
ghost use Rattle.trip_call.specs.Visit.{visit_says};
ghost use Rattle.network.specs.Limits.{most_roads};

use file_refusals::Refusal;
use network::header::Header;
use plan_check::answer::Report;
use trip_call::visit::Visit;

// One more than the greatest number of 32 bits.
const WORD: u64 = 4294967296;

// The numbers become the first of the lent ones.
fn write(numbers: &[u32], answer: &mut [u32])
    requires { length numbers.now ≤ length answer.old }
    ensures { answer.new ≡ overwritten numbers.now answer.old }
{
    answer[..numbers.len()].copy_from_slice(numbers);
}

// What the check tells: its verdict, and its finds in two words.
pub fn write_checking(report: Report, answer: &mut [u32]) -> u32
    requires { 5 ≤ length answer.old }
    ensures code { result ≡ (report_says report.verdict report.finds).number }
    ensures numbers { answer.new
        ≡ overwritten (numbers_of (report_says report.verdict report.finds)) answer.old }
{
    let low = (report.finds % WORD) as u32;
    let high = (report.finds / WORD) as u32;
    let verdict = report.verdict;
    match verdict {
        Ok(()) => {
            let numbers = [0, 0, 0, low, high];
            write(&numbers, answer);
            0
        }
        Err(r) => {
            let numbers = [r.first, r.second, r.third, low, high];
            write(&numbers, answer);
            r.number
        }
    }
}

// What Open answers.
pub fn write_opening(opening: Result<Header, Refusal>, answer: &mut [u32]) -> u32
    requires { 10 ≤ length answer.old }
    ensures code { result ≡ (opening_says opening).number }
    ensures numbers { answer.new
        ≡ overwritten (numbers_of (opening_says opening)) answer.old }
{
    match opening {
        Ok(h) => {
            let numbers = [
                0,
                0,
                0,
                h.number,
                h.period as u32,
                h.nodes as u32,
                h.arcs as u32,
                h.cells as u32,
                h.points,
                h.hours as u32,
            ];
            write(&numbers, answer);
            0
        }
        Err(r) => {
            let numbers = [r.first, r.second, r.third, 0, 0, 0, 0, 0, 0, 0];
            write(&numbers, answer);
            r.number
        }
    }
}

// What an operation answers that writes a file or fills a list: one number.
pub fn write_number(told: Result<u32, Refusal>, answer: &mut [u32]) -> u32
    requires { 4 ≤ length answer.old }
    ensures code { result ≡ (number_says told).number }
    ensures numbers { answer.new
        ≡ overwritten (numbers_of (number_says told)) answer.old }
{
    match told {
        Ok(number) => {
            let numbers = [0, 0, 0, number];
            write(&numbers, answer);
            0
        }
        Err(r) => {
            let numbers = [r.first, r.second, r.third, 0];
            write(&numbers, answer);
            r.number
        }
    }
}

// What a trip answers, and when its target is open.
pub fn write_lists(visit: Visit, answer: &mut [u32]) -> u32
    requires { (trip_count visit.trip ≤ most_roads) × (6 ≤ length answer.old) }
    ensures code { result ≡ (visit_says visit.trip visit.opens).number }
    ensures numbers { answer.new
        ≡ overwritten (numbers_of (visit_says visit.trip visit.opens)) answer.old }
{
    let opens = visit.opens;
    let trip = visit.trip;
    match trip {
        Ok(a) => {
            let numbers = [0, 0, 0, a.tick, a.count as u32, opens];
            write(&numbers, answer);
            0
        }
        Err(r) => {
            let numbers = [r.first, r.second, r.third, 0, 0, 0];
            write(&numbers, answer);
            r.number
        }
    }
}
