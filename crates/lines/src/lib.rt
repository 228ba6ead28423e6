// The report's lines of an accepted form, put into lent bytes: the first five, over the form, its conflict list and
// numbers that are told; the last five, over routes and numbers that are told and the walk. Their words are those of
// Lines, and what the functions leave in the bytes is in Parts.
#![tactic(auto)]

ghost use Rattle.std.specs.Prelude.{◌≡◌, ◌+◌, ◌≤◌, length};
ghost use Rattle.form.specs.Said.{Accepted};
ghost use Rattle.form.specs.Form.{judge, body_of};
ghost use Rattle.form.specs.Conflict.{conflicts};
ghost use Rattle.lent.specs.Filled.{Grows};
ghost use Rattle.lines.specs.Parts.{WalkedAdds, LastAdds, first_five};

use lent::Filled;
use plan::Totals;

// How many entries the conflict list has: asked with no room, it tells the bytes that it needs, five an entry.
fn entries(form: &[u8]) -> u64
    ensures { judge form.now ≡ Accepted → result ≡ length (conflicts (body_of form.now)) }
{
    let bytes = listing::conflicts(form, &mut []).unwrap_or_else(|short| short.place);
    (bytes / 5) as u64
}

// How many blocks the form's body has. (a) 0 for what is no form: the clause bounds the number for any bytes.
pub fn blocks(form: &[u8]) -> usize
    ensures { (judge form.now ≡ Accepted → result ≡ (body_of form.now).count) × (result ≤ 64) }
{
    reader::read(form).map_or(0, |body| body.count)
}

// The first five lines.
pub fn first_five(out: &mut Filled, form: &[u8], blocks: usize, totals: Totals)
    requires { out.old.end + 200 ≤ length out.old.bytes.now }
    ensures grows { judge form.now ≡ Accepted
        → Grows out.old out.new (first_five (body_of form.now) blocks totals) }
    ensures room { length out.new.bytes.now ≡ length out.old.bytes.now }
    ensures few { out.new.end ≤ out.old.end + 200 }
{
    text::line(out, b"blocks ", blocks as u64);
    text::line(out, b"iterations ", totals.iterations);
    text::line(out, b"conflicts ", entries(form));
    text::line(out, b"weight ", totals.weight);
    text::line(out, b"bound ", totals.bound);
}

// The walk's line: walked, or over.
fn walked_line(out: &mut Filled, form: &[u8])
    requires { out.old.end + 28 ≤ length out.old.bytes.now }
    ensures { WalkedAdds form.now out.old out.new }
{
    let mut routes = [0u8; 128];
    match walk::walk(form, 100000, &mut routes) {
        Ok(found) => text::line(out, b"walked ", found.walked),
        Err(_) => out.add(b"walked over\n"),
    }
}

// The last five lines, over the heaviest route's bytes and the lightest's. (d) An argument for each line, as LastAdds
// has them.
pub fn last_five(
    out: &mut Filled,
    form: &[u8],
    route: &[u8],
    least: u64,
    lightest: &[u8],
    kept: u64,
)
    requires room { out.old.end + 3000 ≤ length out.old.bytes.now }
    requires routes { (length route.now ≤ 64) × (length lightest.now ≤ 64) }
    ensures { LastAdds form.now out.old out.new route.now least lightest.now kept }
{
    text::route(out, b"route", route);
    text::line(out, b"least ", least);
    text::route(out, b"least route", lightest);
    text::line(out, b"kept ", kept);
    walked_line(out, form);
}
