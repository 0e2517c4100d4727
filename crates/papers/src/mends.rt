// The command on padded plans: mend.
use super::plans::fresh;
use super::writing::forget;
use super::{Clerk, first};
use drawing::Out;
use mend::{Mended, Refusal};
use text::HexError;

// How many groups were cut, and the mended plan.
fn put_mended(plan: &[u8], cut: usize, out: &mut Out) {
    out.put(b"mend 0 ");
    out.put_number(cut as u64);
    out.put_byte(b' ');
    out.put_hex(plan);
    out.put_byte(b'\n');
}

// The mended plan, so many bytes of the last plan, becomes it, with a fresh state.
fn mended(clerk: &mut Clerk, length: usize, cut: usize) {
    forget(
        clerk.desk.state,
        &clerk.desk.bytes,
        length,
        &mut clerk.desk.names,
    );
    put_mended(first(&clerk.desk.bytes, length), cut, &mut clerk.out);
    fresh(clerk, length);
}

// The mended plan is the last plan from then on; where it is refused nothing changes, since a refused mend changes no byte.
fn mend_into(clerk: &mut Clerk, padded: &[u8]) {
    match mend::mend(padded, &mut clerk.desk.bytes) {
        Err(Refusal { number, place }) => {
            clerk.out.put_pair(b"mend", u64::from(number), place as u64);
            clerk.desk.answer(number);
        }
        Ok(Mended { length, cut }) => mended(clerk, length, cut),
    }
}

// A padded plan in hexadecimal; what is no hexadecimal changes nothing.
pub fn mend(clerk: &mut Clerk, word: &[u8], number: u64) {
    let mut given = [0u8; 8000];
    match text::decode(word, &mut given) {
        Ok(count) => mend_into(clerk, first(&given, count)),
        Err(HexError::Long) => clerk.error(number, b"more than 8000 bytes"),
        Err(HexError::Bad) => clerk.error(number, b"not hexadecimal"),
    }
}
