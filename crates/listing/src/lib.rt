// The conflict list of document 01, for any form: read off what the crate path_sets finds of a body, its bytes laid out
// by the crate list_bytes. The meaning is in specs/Answer.antt and in form's Conflict.
#![tactic(auto)]

ghost use Rattle.std.specs.Prelude.{◌≡◌, length};
ghost use Rattle.form.specs.Conflict.{Sound, conflict_bytes};
ghost use Rattle.listing.specs.Answer.{listed_of, listed_in, held_after, Answered};

use form::{Body, Fault, Refusal};

// The conflict list of a body into `out`.
fn list_of(body: Body, out: &mut [u8]) -> Result<usize, Refusal>
    requires { Sound body }
    ensures { (listed_of result ≡ listed_in body (length out.old)) ×
        (out.new ≡ held_after (listed_of result) (conflict_bytes body) out.old) }
{
    let local = local_sets::local_of(body);
    let found = path_sets::find(&local);
    let bytes = 5 * list_bytes::found_number(&found);
    if out.len() < bytes {
        return Err(Refusal {
            fault: Fault::ShortRoom,
            place: bytes,
        });
    }
    Ok(list_bytes::found_entries(out, &found))
}

// The conflict list, for any bytes: how many bytes of it were written into `out`; else the reader's refusal, or that
// `out` is short, with the bytes needed.
pub fn conflicts(form: &[u8], out: &mut [u8]) -> Result<usize, Refusal>
    ensures { Answered form.now out.old (listed_of result) out.new }
{
    let body = reader::read(form)?;
    list_of(body, out)
}
