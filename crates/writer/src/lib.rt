// The writer of the order form: a body laid out (crate layout), judged as the reader would, and copied into lent bytes.
// What is answered is in form's Answer.
#![tactic(auto)]

ghost use Rattle.form.specs.Said.{written_of};
ghost use Rattle.form.specs.Answer.{Wrote};

use form::{Body, Fault, Refusal};

// The writer, for any body: its form in the lent bytes and how many bytes it has, or a refusal that changes none of
// them.
pub fn write(body: Body, out: &mut [u8]) -> Result<usize, Refusal>
    ensures { Wrote body out.old (written_of result) out.new }
{
    if !layout::counts_fit(&body) {
        return Err(Refusal {
            fault: Fault::OverLimit,
            place: 0,
        });
    }
    let mut buf = [0u8; 3665];
    let n = layout::lay(&mut buf, &body);
    let form = &buf[..n];
    verdict::judge(form)?;
    if out.len() < n {
        return Err(Refusal {
            fault: Fault::ShortRoom,
            place: n,
        });
    }
    out[..n].copy_from_slice(form);
    Ok(n)
}
