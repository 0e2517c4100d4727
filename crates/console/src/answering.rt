// What is wrong with a line.
use commands::Trouble;
use drawing::Out;
use papers::Clerk;

fn put_trouble(out: &mut Out, number: u64, why: Trouble) {
    match why {
        Trouble::Unknown => out.put_error(number, b"no such command"),
        Trouble::Missing => out.put_error(number, b"a word is missing"),
        Trouble::Extra => out.put_error(number, b"too many words"),
        Trouble::Unnumbered => out.put_error(number, b"not a number"),
        Trouble::Large => out.put_error(number, b"the number is too large"),
    }
}

// The line with this number is wrong.
pub fn wrong(clerk: &mut Clerk, number: u64, why: Trouble) {
    put_trouble(&mut clerk.out, number, why);
    clerk.desk.fail();
}
