// The report program: a form on standard input, document 01's lines on standard output, a refusal alone. The text is
// put together first (report, whose contract is Report.Reported) and then written. It reads 4,096 bytes at most: no
// form is longer than 3,665 bytes, and any input is judged by its first 3,682 (roundtrip.Front.front), so what is not
// read changes no answer (Promise.any_length). A read that fails counts as the end of the input.
#![tactic(auto)]

ghost use Rattle.std.specs.Prelude.{◌≤◌, length, take};
ghost use Rattle.report.specs.Report.{Reported};

use lent::Filled;

// The text for any bytes, at the start of the lent ones; how long it is.
fn report(form: &[u8], out: &mut [u8]) -> usize
    requires { 3200 ≤ length out.old }
    ensures { Reported form.now (take result out.new) × (result ≤ 3200) }
{
    let mut text = Filled::new(out);
    let mut routes = [0u8; 128];
    match sweep::sweep_own(form, &mut routes) {
        Ok(swept) => {
            let n = lines::blocks(form);
            lines::first_five(&mut text, form, n, swept.totals);
            let (heaviest, lightest) = routes[..2 * n].split_at(n);
            let least = swept.totals.least;
            lines::last_five(&mut text, form, heaviest, least, lightest, swept.kept);
        }
        Err(refusal) => text::refused(&mut text, u64::from(refusal.fault), refusal.place as u64),
    }
    text.end
}

fn main() {
    let mut buffer = io::buffer();
    let n = io::read_full(0, &mut buffer);
    let mut out = io::buffer();
    let r = report(&buffer[..n], &mut out);
    io::write_all(1, &out[..r]);
}
